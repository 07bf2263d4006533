//! What is told of the turns of a new order.
use spread_rules::Candidate;
use std::alloc::Allocator;

/// One turn of a new order.
#[derive(Clone, Copy)]
pub struct ExplainedTurn {
    /// What was left of the new order before it, in lots.
    pub left: u32,
    /// The candidate with which it traded, its members as they rested before it.
    pub taken: Candidate,
    /// How many lots traded.
    pub quantity: u32,
    /// The prices of the near and the far leg of the spread that takes part, in hundredths; where none does, the price.
    pub legs: (i64, i64),
    /// The candidates that rank next, the best first; `None` behind the last there is.
    pub next: [Option<Candidate>; 5],
}

/// The best candidate of those that lie beyond the new order's limit.
#[derive(Clone, Copy)]
pub struct Beyond {
    pub candidate: Candidate,
    /// How many ticks its price lies from the limit.
    pub ticks: u64,
}

/// The turns of a new order, and what stopped them.
#[derive(Drop)]
pub struct Explanation<A: Allocator + Copy> {
    pub turns: Vec<ExplainedTurn, A>,
    /// What is left of the new order, in lots.
    pub left: u32,
    /// Where something is left: the best candidate that the limit does not allow, if there is one.
    pub beyond: Option<Beyond>,
}
