//! The lines of fills in a day's text, and what the fills sum to in each month of the rulebook.
#![tactic(auto)]

mod fills;
mod totals;

pub use fills::{put_fills, write_fill_lines};
pub use totals::{AllTotals, MonthTotals, add_fill, month_totals, no_totals};
