//! What is told of an entry.
use explain_turns::Explanation;
use spread_rules::{Order, Outcome};
use std::alloc::Allocator;

/// An order that was traded, and its turns.
#[derive(Drop)]
pub struct Traded<A: Allocator + Copy> {
    pub new: Order,
    pub explanation: Explanation<A>,
}

/// What is told of an entry.
#[derive(Drop)]
pub struct EntryExplanation<A: Allocator + Copy> {
    pub outcome: Outcome,
    /// The resting order that a cancel or a replace names.
    pub named: Option<Order>,
    /// What was traded: a new order that is not refused, or an order that takes the place of another and loses its own.
    pub traded: Option<Traded<A>>,
}
