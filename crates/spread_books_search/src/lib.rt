//! The search for a new order's best candidate over any book: direct orders, and of each other month the cheapest pair.
#![tactic(auto)]

mod best;
mod cheapest;

pub use best::best_candidate;
pub use cheapest::{MonthPairs, Queue, cheapest_pair, front_cost, is_pair_on, spreads_with};
