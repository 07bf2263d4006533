//! The ring of each session: a gateway at its sending end, which judges the session's bytes and sends its events, and an
//! inbox at its receiving end.
#![tactic(auto)]

mod gateway;
mod inbox;
pub mod laws;
mod look;
mod open;

pub use gateway::{Burst, Gateway, MAX_SLICE, NO_ENTRY, Step};
pub use inbox::Inbox;
pub use look::look_all;
pub use open::rings;
