//! A book that has the cheapest pairs of its fronts at hand.
ghost use Rattle.std.specs.Prelude.{◌≡◌, ◌<◌, ◌^◌, [], IfOk, IfSome, Some, true, length};
ghost use Rattle.spread_rules_ids.specs.declared.limits.TheConstants.{MAX_MONTHS};
ghost use Rattle.spread_rules_rulebook.specs.Rulebook.{implied};
ghost use Rattle.spread_books_plain.specs.Pairs.{IsCheapest};
ghost use Rattle.spread_books_quotes.specs.code.PairsOn.{AreAllOn};
ghost use Rattle.spread_books_quotes.specs.code.QuoteTable.{IsListed};

use crate::kept_quotes::Quotes;
use spread_books_heap::FrontBook;
use spread_books_plain::{Book, PairCost};
use spread_books_quotes::{Change, is_all_on};
use spread_books_search::MonthPairs;
use spread_rules::{Instrument, Level, NoMemory, Order, Rulebook, Side};
use spread_rules_ids::Id;
use spread_rules_ids::limits::MAX_PRICE;
use std::alloc::Allocator;
use std::marker::Model;

/// Resting orders, and the pairs of fronts that cost the least. Once an order came that no market takes, of a month
/// that the rulebook does not have or at a price beyond the limits, no pairs are kept.
#[derive(Drop)]
pub struct QuotedBook<'r, A: Allocator + Copy> {
    book: FrontBook<A>,
    quotes: Quotes<A>,
    /// The rulebook, and how many months it has, which is asked with every order.
    pairs: MonthPairs<'r>,
    /// Known only where each pair takes part.
    all_on: bool,
    listed: bool,
}

impl<'r, A: Allocator + Copy> Model for QuotedBook<'r, A> {
    ghost use Rattle.spread_rules_rulebook.specs.Rulebook.{implied};
    ghost use Rattle.spread_books_search.specs.BookView.{BookView};
    ghost use Rattle.spread_books_quotes.specs.code.QuoteTable.{KeepsQuotes};

    ghost Value = { BookView };

    ghost view = { λ b. record { rules = b.pairs.rules.now; orders = b.book } };

    ghost invariant = { λ b. KeepsQuotes b.all_on b.listed (implied b.pairs.rules.now) b.pairs.months b.book b.quotes };
}

/// Whether the order is of so many months, at a price of orders.
fn is_listed(order: &Order, months: u8) -> bool
    ensures { result ≡ true → IsListed months order.now }
{
    let month = match order.instrument {
        Instrument::Outright(month) => month,
        Instrument::Spread(_, far) => far,
    };
    month < months && -MAX_PRICE <= order.price && order.price <= MAX_PRICE
}

impl<'r, A: Allocator + Copy> QuotedBook<'r, A> {
    /// A book in which no order rests, for the months of the rulebook.
    pub fn new(alloc: A, rules: &'r Rulebook) -> Result<Self, NoMemory>
        ensures rules { IfOk result (λ b. b.rules ≡ rules.now) }
        ensures orders { IfOk result (λ b. b.orders ≡ []) }
    {
        let months = rules.months();
        let quotes = Quotes::new(alloc, months)?;
        Ok(QuotedBook {
            book: FrontBook::new(alloc),
            quotes,
            pairs: MonthPairs { rules, months },
            all_on: is_all_on(rules),
            listed: true,
        })
    }

    /// The rulebook.
    pub fn rules(&self) -> &'r Rulebook
        ensures { result.now ≡ self.now.rules }
    {
        self.pairs.rules
    }

    /// Whether it is known that each pair of months takes part.
    pub fn is_all_on(&self) -> bool
        ensures { result ≡ true → AreAllOn (implied self.now.rules) }
    {
        self.all_on
    }

    /// The number of resting orders, always below 2^63.
    pub fn count(&self) -> usize
        ensures count { result ≡ length self.now.orders }
        ensures below_2_to_63 { result < 2 ^ 63 }
    {
        self.book.count()
    }

    /// What costs an order of that side and month the least, where it is at hand. Takes no memory.
    pub fn known_pair(&self, side: Side, month: u8) -> Option<Option<PairCost>>
        ensures { IfSome result
            (IsCheapest (implied self.now.rules) self.now.orders side month MAX_MONTHS) }
    {
        if self.listed && month < self.pairs.months {
            self.quotes.known_pair(side, month)
        } else {
            None
        }
    }
}

impl<'r, A: Allocator + Copy> Book for QuotedBook<'r, A> {
    ghost orders = { λ b. b.orders };

    ghost quotes_by = { λ b. Some b.rules };

    #[inline(always)]
    fn front(&self, instrument: Instrument, side: Side) -> Option<Order> {
        self.book.front(instrument, side)
    }

    #[inline(always)]
    fn front_level(&self, instrument: Instrument, side: Side) -> Option<Level> {
        self.book.front_level(instrument, side)
    }

    fn find(&self, session: u8, id: &Id) -> Option<Order> {
        self.book.find(session, id)
    }

    fn at(&self, place: u64) -> Option<Order> {
        self.book.at(place)
    }

    fn add(&mut self, order: Order) -> Result<(), NoMemory> {
        let others = self.book.front_level(order.instrument, order.side);
        self.book.add(order)?;
        self.listed = self.listed && is_listed(&order, self.pairs.months);
        if self.listed {
            self.quotes
                .renew_for(&self.book, &self.pairs, &order, others, Change::Came);
        }
        Ok(())
    }

    fn reduce(&mut self, place: u64, by: u32) {
        self.book.reduce(place, by);
    }

    fn amend(&mut self, place: u64, id: Id, quantity: u32) -> Result<(), NoMemory> {
        self.book.amend(place, id, quantity)
    }

    fn remove(&mut self, place: u64) {
        if let Some(order) = self.book.remove_order(place) {
            if self.listed {
                let others = self.book.front_level(order.instrument, order.side);
                self.quotes
                    .renew_for(&self.book, &self.pairs, &order, others, Change::Left);
            }
        }
    }

    fn walk(&self, n: usize) -> Option<Order> {
        self.book.walk(n)
    }

    fn len(&self) -> usize {
        self.book.count()
    }
}
