//! The book of a market: resting orders by price and time, and what the fronts of their queues together offer.
#![tactic(auto)]

mod index;
mod kept_quotes;
mod pair_quote;
mod quoted_book;

pub use index::IndexBook;
pub use quoted_book::QuotedBook;
// Of spread_books_plain.
pub use spread_books_plain::{Book, ListBook};
