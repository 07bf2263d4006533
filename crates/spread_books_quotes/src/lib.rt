//! What the fronts of a book cost, and the table of their cheapest pairs, kept as fronts change.
#![tactic(auto)]

mod front_costs;
mod pairs_on;
mod quote_table;
mod renewal;

pub use front_costs::FrontCosts;
pub use pairs_on::is_all_on;
pub use quote_table::{Change, QuoteTable};
