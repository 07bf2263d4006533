//! What the fronts of two queues together offer.
ghost use Rattle.std.specs.Prelude.{◌≡◌, All};
ghost use Rattle.spread_rules.specs.code.Candidates.{all_on, HasOrderPrice};
ghost use Rattle.spread_books.specs.code.PairQuote.{IsQuoteOfFronts};

use spread_books_plain::Book;
use spread_books_search::Queue;
use spread_rules::{Choice, Counterparty, Instrument, Members, Order, Side, price_at};

/// An order of that instrument and side, in all else like this one.
fn order_like(order: &Order, instrument: Instrument, side: Side) -> Order
    ensures { result ≡ record order.now { instrument = instrument; side = side } }
{
    Order {
        instrument,
        side,
        ..*order
    }
}

/// The quote of the fronts of two queues against an order of that instrument and side, and none where a queue is empty
/// or its orders meet no such order.
pub fn pair_quote<B: Book>(
    book: &B,
    instrument: Instrument,
    side: Side,
    first: Queue,
    second: Queue,
) -> Option<Choice>
    requires { All HasOrderPrice (B.orders book.now) }
    ensures { IsQuoteOfFronts all_on (B.orders book.now) instrument side
        first.instrument first.side second.instrument second.side result }
{
    let Some(a) = book.front(first.instrument, first.side) else {
        return None;
    };
    let Some(b) = book.front(second.instrument, second.side) else {
        return None;
    };
    let quantity = a.leaves.min(b.leaves);
    let members = Members::Implied(a.place, b.place);
    let new = order_like(&a, instrument, side);
    let pair = Counterparty::Implied(a, b);
    let Some(price) = price_at(&new, &pair) else {
        return None;
    };
    Some(Choice {
        price,
        quantity,
        members,
    })
}
