//! What each session is sent next: the number and the CompIDs that its messages bear, and messages written with them.
#![tactic(auto)]

mod fault;
mod gap_fill;
mod outbox;
mod parties;
mod sending;
mod session;
mod taking_back;

pub use fault::DeskFault;
pub use outbox::Outbox;
pub use sending::{MAX_FIELDS, OutboundSessions};
pub use session::{CompIds, OutboundSession};
pub use taking_back::Mark;
