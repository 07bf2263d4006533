//! Whether a book's orders are as a search or a quote takes them.
ghost use Rattle.std.specs.Prelude.{◌≡◌, true, Some, All, slice_get};
ghost use Rattle.spread_rules.specs.declared.order.Order.{Order};
ghost use Rattle.spread_rules.specs.code.Candidates.{HasOrderPrice};
ghost use Rattle.spread_books_search.specs.Listed.{IsInMonths, IsNearFirst};

use spread_books::Book;
use spread_rules::{Instrument, Order};
use spread_rules_ids::limits::MAX_PRICE;

/// Whether it is an instrument of so many months.
pub fn is_in_months(months: u8, instrument: Instrument) -> bool
    ensures { result ≡ true → IsInMonths months instrument }
{
    match instrument {
        Instrument::Outright(month) => month < months,
        Instrument::Spread(_, far) => far < months,
    }
}

/// Whether it is at a price of orders.
fn is_priced(order: &Order) -> bool
    ensures { result ≡ true → HasOrderPrice order.now }
{
    -MAX_PRICE <= order.price && order.price <= MAX_PRICE
}

/// Whether it is of one month, or of a spread with its near month first.
fn is_near_first(order: &Order) -> bool
    ensures { result ≡ true → IsNearFirst order.now }
{
    match order.instrument {
        Instrument::Outright(_) => true,
        Instrument::Spread(near, far) => near < far,
    }
}

/// Whether the n-th order, if there is one, is at a price of orders, near month first, and of so many months.
fn is_listed_at<B: Book>(book: &B, n: usize, months: u8) -> bool
    ensures price { result ≡ true
        → (o : Order) → slice_get (B.orders book.now) n ≡ Some o → HasOrderPrice o }
    ensures near { result ≡ true
        → (o : Order) → slice_get (B.orders book.now) n ≡ Some o → IsNearFirst o }
    ensures months { result ≡ true
        → (o : Order) → slice_get (B.orders book.now) n ≡ Some o → IsInMonths months o.instrument }
{
    match book.walk(n) {
        None => true,
        Some(order) => {
            is_priced(&order) && is_near_first(&order) && is_in_months(months, order.instrument)
        }
    }
}

/// Whether each order is at a price of orders, near month first, and of so many months.
pub fn are_listed<B: Book>(book: &B, months: u8) -> bool
    ensures price { result ≡ true → All HasOrderPrice (B.orders book.now) }
    ensures near { result ≡ true → All IsNearFirst (B.orders book.now) }
    ensures months { result ≡ true
        → All (λ o. IsInMonths months o.instrument) (B.orders book.now) }
{
    for n in 0..book.len() {
        if !is_listed_at(book, n, months) {
            return false;
        }
    }
    true
}
