//! Rows of resting orders by place: their order, guesses of where a place's row stands, whose an order is, and what it is
//! under another id and with another quantity.
#![tactic(auto)]

mod amend;
mod hints;
mod own;
mod place_rows;
mod row;
mod rows;

pub use amend::with_quantity;
pub use hints::Hints;
pub use own::is_own;
pub use place_rows::PlaceRows;
pub use rows::PlacedRows;
