//! How an order comes to stand in the book and among the statuses, and how it is found there.
ghost use Rattle.std.specs.Prelude.{◌≡◌, ◌<◌, ◌++◌, ◌∷◌, [], All, cond, is_some, OnErr, IfOk};
ghost use Rattle.std.specs.List.{find};
ghost use Rattle.spread_rules.specs.declared.codes.ord_status.TheConstants.{REJECTED, CANCELED};
ghost use Rattle.spread_rules.specs.Candidates.{PlacesDiffer};
ghost use Rattle.spread_rules.specs.Meaning.{has_id, is_own};
ghost use Rattle.spread_match_orders.specs.code.Entering.{entered_status, HaveStatuses};

use spread_books_plain::Book;
use spread_books_rows::is_own;
use spread_match_statuses::{Statuses, WHEN_IT_RESTS_NO_MORE};
use spread_rules::{Id, NoMemory, Order, OrderStatus};
use std::alloc::Allocator;

/// The new order stands in the book, and its entry among the statuses. Where its id was used it is refused, and the
/// answer is true. After NoMemory nothing has changed.
pub fn add_order<B: Book, A: Allocator + Copy>(
    book: &mut B,
    statuses: &mut Statuses<A>,
    order: &Order,
) -> Result<bool, NoMemory>
    requires { All (λ o. o.place < order.now.place) (B.orders book.old) }
    ensures used { IfOk result (λ used.
        used ≡ is_some (find (has_id order.now.session order.now.id) statuses.old)) }
    ensures orders { IfOk result (λ used. B.orders book.new
        ≡ cond used (B.orders book.old) (B.orders book.old ++ order.now ∷ [])) }
    ensures statuses { IfOk result (λ used. statuses.new
        ≡ statuses.old
        ++ record (entered_status order.now) { status = cond used REJECTED CANCELED } ∷ []) }
    ensures err_orders { OnErr result (B.orders book.new ≡ B.orders book.old) }
    ensures err_statuses { OnErr result (statuses.new ≡ statuses.old) }
    ensures rules { B.quotes_by book.new ≡ B.quotes_by book.old }
{
    book.add(*order)?;
    let place = order.place;
    let noted = statuses.add(OrderStatus {
        session: order.session,
        id: order.id,
        place,
        status: WHEN_IT_RESTS_NO_MORE,
    });
    // Where no memory was found for its status the order is taken out too, as one that was refused.
    if noted.unwrap_or(true) {
        book.remove(place);
    }
    noted
}

/// The session's resting order with that id. It stands at the place that the status of the id names, or nowhere.
pub fn resting_order<B: Book, A: Allocator + Copy>(
    book: &B,
    statuses: &Statuses<A>,
    session: u8,
    id: &Id,
) -> Option<Order>
    requires places { PlacesDiffer (B.orders book.now) }
    requires known { HaveStatuses statuses.now (B.orders book.now) }
    ensures { result ≡ find (is_own session id.now) (B.orders book.now) }
{
    let status = statuses.find(session, id)?;
    let order = book.at(status.place)?;
    if is_own(&order, session, id) {
        Some(order)
    } else {
        None
    }
}
