//! The orders of a market: what a ticket may ask for, and a book with the statuses of its orders, in which an order comes
//! in, is found by its id, and is traded.
#![tactic(auto)]

mod entering;
mod newest;
mod ticket;

pub use entering::{add_order, resting_order};
pub use newest::trade_newest;
pub use ticket::{
    judge, keeps_place, moved_order, new_order, outcome_with, refusal, replace_refusal,
    resting_status,
};
