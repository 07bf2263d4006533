//! A journal's entries applied in order: what they fill, and what each session is sent.
#![tactic(auto)]

mod journal;
pub mod laws;
mod report;

pub use journal::apply_journal;
pub use report::{FillsAndMessages, ReportedEntries};
