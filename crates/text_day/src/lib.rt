//! The text of a day: its journal, its fills, what each session is sent, and what each month sums to.
#![tactic(auto)]

mod day_text;
mod difference;
mod fault;
mod journal;
mod months;

pub use day_text::{Day, text_of_fills, write_behind_journal, write_day, write_fills};
pub use difference::{Difference, first_difference};
pub use fault::TextFault;
pub use journal::write_journal_lines;
pub use months::put_months;
