//! Tables of resting orders by queue: their ranks, the least of each queue at hand, and the best prices.
#![tactic(auto)]

mod front_table;
mod queue_heaps;
mod queue_rank;

pub use front_table::{BestPrice, FrontTable};
pub use queue_heaps::QueueHeaps;
pub use queue_rank::{QueueRank, queue_number};
