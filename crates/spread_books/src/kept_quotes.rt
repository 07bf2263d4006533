//! What is kept of the fronts of a book: what they cost, and the pairs of them that cost the least.
ghost use Rattle.std.specs.Prelude.{◌≡◌, ◌≤◌, List, All, IfOk};
ghost use Rattle.spread_rules_ids.specs.declared.limits.TheConstants.{MAX_MONTHS};
ghost use Rattle.spread_rules.specs.code.Candidates.{HasOrderPrice};
ghost use Rattle.spread_rules_rulebook.specs.Rulebook.{implied};
ghost use Rattle.spread_rules.specs.declared.order.Order.{Order};
ghost use Rattle.spread_books_search.specs.Listed.{IsInMonths};
ghost use Rattle.spread_books_quotes.specs.code.QuoteTable.{known_pair, no_quotes, AreQuotes, HasCome, HasLeft, IsOneWay, ChangesOneQueue, is_as_good};
ghost use Rattle.spread_books_quotes.specs.declared.quote_table.Change.TheVariants.{Came, Left};

use spread_books_plain::{Book, PairCost};
use spread_books_quotes::{Change, FrontCosts, QuoteTable};
use spread_books_search::MonthPairs;
use spread_rules::{Level, NoMemory, Order, Side};
use std::alloc::Allocator;
use std::marker::Model;

/// What the fronts cost, and which pairs of them cost the least.
#[derive(Drop)]
pub struct Quotes<A: Allocator + Copy> {
    costs: FrontCosts<A>,
    cells: QuoteTable<A>,
}

impl<A: Allocator + Copy> Model for Quotes<A> {
    ghost use Rattle.spread_books_quotes.specs.code.QuoteTable.{QuotesView};

    ghost Value = { QuotesView };

    ghost view = { λ q. record { costs = q.costs; cells = q.cells } };
}

/// Whether an order at that level is as good as this one for who meets it.
#[inline(always)]
fn is_as_good(level: Option<Level>, order: &Order) -> bool
    ensures { result ≡ is_as_good level order.now }
{
    match level {
        None => false,
        Some(level) => {
            let (cheaper, dearer) = match order.side {
                Side::Sell => (level.price, order.price),
                Side::Buy => (order.price, level.price),
            };
            cheaper <= dearer
        }
    }
}

impl<A: Allocator + Copy> Quotes<A> {
    /// The quotes of so many months, where no order rests.
    pub fn new(alloc: A, months: u8) -> Result<Self, NoMemory>
        ensures { IfOk result (λ q. q ≡ no_quotes months) }
    {
        Ok(Quotes {
            costs: FrontCosts::new(alloc, months)?,
            cells: QuoteTable::new(alloc, months)?,
        })
    }

    /// What costs an order of that side and month the least. None where there is no such month.
    pub fn known_pair(&self, side: Side, month: u8) -> Option<Option<PairCost>>
        ensures { result ≡ known_pair self.now.cells side month }
    {
        self.cells.known_pair(side, month)
    }

    /// Renews what has to be, after that order came or left, where the front of the others in its queue stands at that
    /// level. Most orders have another one as good before them, so that no front costs something else.
    #[inline(always)]
    pub fn renew_for<B: Book>(
        &mut self,
        book: &B,
        pairs: &MonthPairs<'_>,
        order: &Order,
        others: Option<Level>,
        change: Change,
    )
        requires order_price { All HasOrderPrice (B.orders book.now) }
        requires within { IsInMonths pairs.now.months order.now.instrument }
        requires most { pairs.now.months ≤ MAX_MONTHS }
        ensures came { change ≡ Came → (xs : List Order)
            → HasCome xs (B.orders book.now) order.now others
            → AreQuotes (implied pairs.now.rules.now) pairs.now.months xs self.old
            → AreQuotes (implied pairs.now.rules.now) pairs.now.months (B.orders book.now) self.new }
        ensures left { change ≡ Left → (xs : List Order)
            → HasLeft xs (B.orders book.now) order.now others
            → AreQuotes (implied pairs.now.rules.now) pairs.now.months xs self.old
            → AreQuotes (implied pairs.now.rules.now) pairs.now.months (B.orders book.now) self.new }
    {
        if !is_as_good(others, order) {
            self.renew_front(book, pairs, order, change);
        }
    }

    /// Renews what the front of that order's queue has a part in, after the order came or left.
    #[inline(never)]
    fn renew_front<B: Book>(
        &mut self,
        book: &B,
        pairs: &MonthPairs<'_>,
        order: &Order,
        change: Change,
    )
        requires order_price { All HasOrderPrice (B.orders book.now) }
        requires within { IsInMonths pairs.now.months order.now.instrument }
        requires most { pairs.now.months ≤ MAX_MONTHS }
        ensures { (xs : List Order)
            → IsOneWay change xs (B.orders book.now)
            → ChangesOneQueue xs (B.orders book.now) order.now.instrument order.now.side
            → AreQuotes (implied pairs.now.rules.now) pairs.now.months xs self.old
            → AreQuotes (implied pairs.now.rules.now) pairs.now.months (B.orders book.now) self.new }
    {
        self.costs.note(book, pairs, order);
        self.cells.renew(&self.costs, pairs.months, order, change);
    }
}
