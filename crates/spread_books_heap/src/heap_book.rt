//! A book over tables: its orders by place, and their ranks by queue.
ghost use Rattle.std.specs.Prelude.{◌≡◌, ◌<◌, ◌^◌, ◌==◌, [], length, None};
ghost use Rattle.std.specs.List.{find};
ghost use Rattle.std.specs.Option.{option_copied};
ghost use Rattle.spread_rules.specs.Clearing.{reduced, removed};
ghost use Rattle.spread_books_rows.specs.Places.{HasMore, HasPlace, Ascends};
ghost use Rattle.spread_books_heap.specs.code.FrontPrices.{IsBestPrice};

use spread_books_plain::Book;
use spread_books_queues::{BestPrice, QueueHeaps, QueueRank, queue_number};
use spread_books_rows::PlaceRows;
use spread_rules::{Id, Instrument, NoMemory, Order, Side};
use std::alloc::Allocator;
use std::marker::Model;

/// Resting orders by place, and their ranks in a heap for each queue.
#[derive(Drop)]
pub struct HeapBook<A: Allocator + Copy> {
    orders: PlaceRows<A>,
    queues: QueueHeaps<A>,
}

impl<A: Allocator + Copy> Model for HeapBook<A> {
    ghost use Rattle.std.specs.Prelude.{List};
    ghost use Rattle.spread_rules.specs.declared.order.Order.{Order};
    ghost use Rattle.spread_books_heap.specs.code.Index.{IsIndex};

    ghost Value = { List Order };

    ghost view = { λ b. b.orders };

    ghost invariant = { λ b. IsIndex b.orders b.queues };
}

impl<A: Allocator + Copy> HeapBook<A> {
    /// A book in which no order rests. Takes no memory yet.
    pub fn new(alloc: A) -> Self
        ensures { result ≡ [] }
    {
        HeapBook {
            orders: PlaceRows::new(alloc),
            queues: QueueHeaps::new(alloc),
        }
    }

    /// The number of resting orders, always below 2^63.
    pub(crate) fn count(&self) -> usize
        ensures count { result ≡ length self.now }
        ensures below_2_to_63 { result < 2 ^ 63 }
    {
        self.orders.count()
    }

    /// Where the front of a queue stands. Takes no memory.
    pub(crate) fn best_price(&self, instrument: Instrument, side: Side) -> Option<BestPrice>
        ensures { IsBestPrice self.now instrument side result }
    {
        let rank = self.queues.least(queue_number(instrument, side))?;
        Some(rank.best_price(side))
    }

    /// The order of that place. Takes no memory.
    pub(crate) fn order_at(&self, place: u64) -> Option<&Order>
        ensures value { option_copied result ≡ find (λ o. o.place == place) self.now }
        ensures ordered { Ascends self.now }
    {
        self.orders.get(place)
    }

    /// Leaves an order fewer lots, as `reduce` does, and tells which order it was. Takes no memory.
    pub(crate) fn reduce_order(&mut self, place: u64, by: u32) -> Option<Order>
        requires { HasMore self.old place by }
        ensures book { self.new ≡ reduced place by self.old }
        ensures was { result ≡ find (λ o. o.place == place) self.old }
        ensures ordered { Ascends self.old }
    {
        self.orders.reduce(place, by)
    }

    /// Takes the order of a place out, as `remove` does, and gives it. Takes no memory.
    pub(crate) fn remove_order(&mut self, place: u64) -> Option<Order>
        requires { HasPlace self.old place }
        ensures book { self.new ≡ removed place self.old }
        ensures was { result ≡ find (λ o. o.place == place) self.old }
        ensures ordered { Ascends self.old }
    {
        if let Some(order) = self.orders.remove(place) {
            let queue = queue_number(order.instrument, order.side);
            self.queues.settle(&self.orders, queue);
            return Some(order);
        }
        None
    }
}

impl<A: Allocator + Copy> Book for HeapBook<A> {
    ghost orders = { λ b. b };

    ghost quotes_by = { λ b. None };

    fn front(&self, instrument: Instrument, side: Side) -> Option<Order> {
        match self.best_price(instrument, side) {
            None => None,
            Some(best) => self.order_at(best.place).copied(),
        }
    }

    fn find(&self, session: u8, id: &Id) -> Option<Order> {
        self.orders.find_own(session, id)
    }

    fn at(&self, place: u64) -> Option<Order> {
        self.orders.get(place).copied()
    }

    fn add(&mut self, order: Order) -> Result<(), NoMemory> {
        let queue = queue_number(order.instrument, order.side);
        self.queues.thin(&self.orders, queue);
        self.queues.add(queue, QueueRank::new(&order))?;
        if self.orders.push(order).is_err() {
            self.queues.settle(&self.orders, queue);
            return Err(NoMemory);
        }
        Ok(())
    }

    fn reduce(&mut self, place: u64, by: u32) {
        self.reduce_order(place, by);
    }

    fn amend(&mut self, place: u64, id: Id, quantity: u32) -> Result<(), NoMemory> {
        self.orders.amend(place, id, quantity);
        Ok(())
    }

    fn remove(&mut self, place: u64) {
        self.remove_order(place);
    }

    fn walk(&self, n: usize) -> Option<Order> {
        self.orders.nth(n)
    }

    fn len(&self) -> usize {
        self.count()
    }
}
