//! The state of a market, and what each kind of entry does to it: refusals, matching, cancels, replaces.
#![tactic(auto)]

mod state;

pub use state::MarketState;
