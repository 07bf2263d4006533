//! The day of sessions in threads: what it is made of before any thread is started, the start of all threads, and what comes
//! of them when they are joined: the day, or of the faults that arose the one with the least number.
#![tactic(auto)]

mod conclusion;
mod fault;
mod sessions;
mod stages;
mod starting;

pub use conclusion::SessionsDay;
pub use fault::{ThreadsFault, of_apply};
pub use sessions::run_sessions;
pub use stages::{Caps, DaySettings, Stages, stages_of};
