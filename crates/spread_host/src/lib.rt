//! A day, from day lines or from sessions in threads, to its journal, fills, outgoing messages and text.
//!
//! `replay` reads day lines (`intake_lines`), applies their journal (`apply_desk`) and writes the day's text (`text_day`).
//! `run_day` takes its journal from a thread for each session (`live_day`). `check` applies a journal text again,
//! and `audit` holds a claim against what comes of it.
#![tactic(auto)]

mod day;
mod from_claim;
mod from_journal;
mod from_lines;
mod from_sessions;

pub use day::{day_of, write_day, write_fills};
pub use from_claim::{AuditFault, audit};
pub use from_journal::check;
pub use from_lines::replay;
pub use from_sessions::run_day;
// Of the room live: what a day in threads is started with.
pub use live_day::{Caps, DaySettings};
pub use live_shared::Gate;
// Of spread_host_faults.
pub use spread_host_faults::HostFault;
// Of text_day.
pub use text_day::{Day, Difference};
