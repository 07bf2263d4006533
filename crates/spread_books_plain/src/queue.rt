//! Where an order stands among others: in which queue, and ahead of whom.
ghost use Rattle.std.specs.Prelude.{◌≡◌, None, Some};
ghost use Rattle.spread_rules.specs.code.Candidates.{better_by};
ghost use Rattle.spread_books_plain.specs.Queues.{is_ahead, is_in};

use spread_rules::{Instrument, Order, Side};

/// Whether the first stands ahead of the second in the queue of that side.
pub(crate) fn is_ahead(side: Side, a: &Order, b: &Order) -> bool
    ensures { result ≡ is_ahead side a.now b.now }
{
    let ahead = match side {
        Side::Sell => a.price < b.price,
        Side::Buy => b.price < a.price,
    };
    ahead || (a.price == b.price && a.place < b.place)
}

/// The front of a queue with one more order behind all others.
pub fn front_with(front: Option<Order>, order: &Order) -> Order
    ensures { Some result ≡ better_by (is_ahead order.now.side) front (Some order.now) }
{
    match front {
        None => *order,
        Some(held) => {
            if is_ahead(order.side, order, &held) {
                *order
            } else {
                held
            }
        }
    }
}

/// Whether it stands in that queue.
pub fn is_in(order: &Order, instrument: Instrument, side: Side) -> bool
    ensures { result ≡ is_in instrument side order.now }
{
    order.instrument == instrument && order.side == side
}
