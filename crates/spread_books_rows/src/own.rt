//! Whose an order is.
ghost use Rattle.std.specs.Prelude.{◌≡◌};
ghost use Rattle.spread_rules.specs.Meaning.{is_own};

use spread_rules::{Id, Order};

/// Whether it is the session's with that id.
pub fn is_own(order: &Order, session: u8, id: &Id) -> bool
    ensures { result ≡ is_own session id.now order.now }
{
    order.session == session && order.id.is(id)
}
