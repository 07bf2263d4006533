//! Resting orders by price and time: what a book of them does, and the book over one list.
#![tactic(auto)]

mod book;
mod list;
mod pair;
mod queue;

pub use book::Book;
pub use list::ListBook;
pub use pair::PairCost;
pub use queue::{front_with, is_in};
