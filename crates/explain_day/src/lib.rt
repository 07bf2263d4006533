//! An entry of a journal, explained in words: how its order was traded, and what came of it.
#![tactic(auto)]

mod entry;
mod explaining;
mod fault;
mod outcome_words;
mod turn_words;

pub use explaining::explain;
pub use fault::ExplainFault;
