//! A book over ordered tables that has the best prices of its queues at hand.
ghost use Rattle.std.specs.Prelude.{◌≡◌, ◌<◌, ◌^◌, ◌==◌, ◌++◌, ◌∷◌, [], List, Contains, length, None};
ghost use Rattle.std.specs.List.{find};
ghost use Rattle.spread_rules.specs.Clearing.{removed};
ghost use Rattle.spread_rules.specs.declared.order.Order.{Order};
ghost use Rattle.spread_books_rows.specs.Places.{HasPlace, Ascends};
ghost use Rattle.spread_books_heap.specs.code.FrontPrices.{may_be_front, becomes_front, is_ahead_of, HoldsPrices};

use crate::heap_book::HeapBook;
use spread_books_plain::Book;
use spread_books_queues::{BestPrice, FrontTable};
use spread_rules::{Id, Instrument, Level, NoMemory, Order, Side};
use std::alloc::Allocator;
use std::marker::Model;

/// Resting orders in ordered tables, and the best prices of the queues of early months.
#[derive(Drop)]
pub struct FrontBook<A: Allocator + Copy> {
    tables: HeapBook<A>,
    fronts: FrontTable<A>,
}

impl<A: Allocator + Copy> Model for FrontBook<A> {
    ghost use Rattle.std.specs.Prelude.{List};
    ghost use Rattle.spread_rules.specs.declared.order.Order.{Order};
    ghost use Rattle.spread_books_heap.specs.code.FrontPrices.{HoldsPrices};

    ghost Value = { List Order };

    ghost view = { λ b. b.tables };

    ghost invariant = { λ b. HoldsPrices b.tables b.fronts };
}

/// Before the first order of a book its table gets its slots.
fn make_room<A: Allocator + Copy>(
    tables: &HeapBook<A>,
    fronts: &mut FrontTable<A>,
) -> Result<(), NoMemory>
    requires { HoldsPrices tables.now fronts.old }
    ensures { HoldsPrices tables.now fronts.new }
{
    if tables.count() == 0 && fronts.is_empty() {
        return fronts.make_room();
    }
    Ok(())
}

/// Whether the first stands ahead of the second in the queue of that side.
fn is_ahead_of(side: Side, a: BestPrice, b: BestPrice) -> bool
    ensures { result ≡ is_ahead_of side a b }
{
    let ahead = match side {
        Side::Sell => a.price < b.price,
        Side::Buy => b.price < a.price,
    };
    ahead || (a.price == b.price && a.place < b.place)
}

/// Whether the order stands ahead of the front of its queue.
fn becomes_front(order: &Order, best: Option<BestPrice>) -> bool
    ensures { result ≡ becomes_front order.now best }
{
    match best {
        None => true,
        Some(held) => is_ahead_of(order.side, BestPrice::new(order), held),
    }
}

/// After an order is added behind all others.
fn update_front<A: Allocator + Copy>(fronts: &mut FrontTable<A>, order: &Order)
    ensures { (xs : List Order)
        → HoldsPrices xs fronts.old → HoldsPrices (xs ++ order.now ∷ []) fronts.new }
{
    if let Some(best) = fronts.known_price(order.instrument, order.side) {
        if becomes_front(order, best) {
            fronts.put(order.instrument, order.side, Some(BestPrice::new(order)));
        }
    }
}

/// Whether the order at this place may be the queue's front: none is remembered, or this one is.
fn may_be_front(best: Option<BestPrice>, place: u64) -> bool
    ensures { result ≡ may_be_front best place }
{
    match best {
        None => true,
        Some(held) => held.place == place,
    }
}

/// After that order left the tables.
fn renew_front<A: Allocator + Copy>(fronts: &mut FrontTable<A>, tables: &HeapBook<A>, order: &Order)
    ensures { (xs : List Order)
        → Ascends xs → Contains xs order.now → tables.now ≡ removed order.now.place xs
        → HoldsPrices xs fronts.old → HoldsPrices tables.now fronts.new }
{
    if let Some(best) = fronts.known_price(order.instrument, order.side) {
        if may_be_front(best, order.place) {
            let next = tables.best_price(order.instrument, order.side);
            fronts.put(order.instrument, order.side, next);
        }
    }
}

impl<A: Allocator + Copy> FrontBook<A> {
    /// A book in which no order rests. Takes no memory yet.
    pub fn new(alloc: A) -> Self
        ensures { result ≡ [] }
    {
        FrontBook {
            tables: HeapBook::new(alloc),
            fronts: FrontTable::new(alloc),
        }
    }

    /// The number of resting orders, always below 2^63.
    pub fn count(&self) -> usize
        ensures count { result ≡ length self.now }
        ensures below_2_to_63 { result < 2 ^ 63 }
    {
        self.tables.count()
    }

    /// Takes the order of a place out, as `remove` does, and gives it. Takes no memory.
    pub fn remove_order(&mut self, place: u64) -> Option<Order>
        requires { HasPlace self.old place }
        ensures book { self.new ≡ removed place self.old }
        ensures was { result ≡ find (λ o. o.place == place) self.old }
        ensures ordered { Ascends self.old }
    {
        let order = self.tables.remove_order(place)?;
        renew_front(&mut self.fronts, &self.tables, &order);
        Some(order)
    }
}

impl<A: Allocator + Copy> Book for FrontBook<A> {
    ghost orders = { λ b. b };

    ghost quotes_by = { λ b. None };

    #[inline(always)]
    fn front(&self, instrument: Instrument, side: Side) -> Option<Order> {
        let Some(known) = self.fronts.known_price(instrument, side) else {
            return self.tables.front(instrument, side);
        };
        let best = known?;
        let order = self.tables.order_at(best.place)?;
        Some(*order)
    }

    #[inline(always)]
    fn front_level(&self, instrument: Instrument, side: Side) -> Option<Level> {
        match self.fronts.known_price(instrument, side) {
            None => self.tables.front_level(instrument, side),
            Some(known) => match known {
                None => None,
                Some(best) => Some(best.level(instrument, side)),
            },
        }
    }

    fn find(&self, session: u8, id: &Id) -> Option<Order> {
        self.tables.find(session, id)
    }

    fn at(&self, place: u64) -> Option<Order> {
        self.tables.at(place)
    }

    fn add(&mut self, order: Order) -> Result<(), NoMemory> {
        make_room(&self.tables, &mut self.fronts)?;
        self.tables.add(order)?;
        update_front(&mut self.fronts, &order);
        Ok(())
    }

    fn reduce(&mut self, place: u64, by: u32) {
        self.tables.reduce(place, by);
    }

    fn amend(&mut self, place: u64, id: Id, quantity: u32) -> Result<(), NoMemory> {
        self.tables.amend(place, id, quantity)
    }

    fn remove(&mut self, place: u64) {
        self.remove_order(place);
    }

    fn walk(&self, n: usize) -> Option<Order> {
        self.tables.walk(n)
    }

    fn len(&self) -> usize {
        self.count()
    }
}
