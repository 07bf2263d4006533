//! How a new order that stands in the book is traded, turn by turn: the fills of each, and what is left of the orders.
#![tactic(auto)]

mod parts;
mod trading;

pub use trading::trade;
