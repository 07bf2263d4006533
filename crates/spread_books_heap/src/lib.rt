//! Books of resting orders over tables by place and by queue, one of them with the best prices at hand.
#![tactic(auto)]

mod front_book;
mod heap_book;

pub use front_book::FrontBook;
pub use heap_book::HeapBook;
