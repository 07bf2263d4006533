//! What each message of a session of FIX 4.2 says, by its number and its kind, and how the session goes on.
#![tactic(auto)]

mod ahead;
pub mod laws;
mod session;

pub use ahead::{Ahead, count_messages, judge_ahead};
pub use session::{Change, Session, Verdict};
