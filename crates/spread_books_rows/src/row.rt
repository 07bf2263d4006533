//! An order among orders in order of place.
use spread_rules::Order;

/// An order, and whether it still rests.
#[derive(Clone, Copy)]
pub struct Row {
    pub order: Order,
    pub rests: bool,
}
