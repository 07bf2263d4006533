//! An order under another id and with another quantity.
ghost use Rattle.std.specs.Prelude.{◌≡◌};
ghost use Rattle.spread_rules.specs.Amended.{with_quantity};

use spread_rules::{Id, Order};

/// The order under that id and with that quantity, what is filled of it included: what is left is the rest of it.
pub fn with_quantity(order: &Order, id: Id, quantity: u32) -> Order
    ensures { result ≡ with_quantity id quantity order.now }
{
    let done = order.quantity.saturating_sub(order.leaves);
    Order {
        id,
        quantity,
        leaves: quantity.saturating_sub(done),
        ..*order
    }
}
