//! Instruments, and the rulebook: its months, its switches, its text.
#![tactic(auto)]

mod instrument;
pub mod laws;
mod name_guesses;
mod pair_line;
mod rule_fault;
mod rulebook;
mod rulebook_text;
mod switches;

pub use instrument::Instrument;
pub use rule_fault::RuleFault;
pub use rulebook::{Month, Rulebook};
