//! What is told of an entry of a journal: what came of it, the order that it names, and the turns of the order with
//! which it trades; and an entry in words: what it says, and on what its refusal rests.
#![tactic(auto)]

mod entry;
mod orders_before;
mod refusal;
mod telling;
mod told;
mod words;

pub use entry::put_entry;
pub use refusal::{put_new_refusal, put_nothing_resting, put_replace_refusal};
pub use telling::explain_entry;
pub use told::{EntryExplanation, Traded};
pub use words::Words;
