//! A book over one list, in order of place.
ghost use Rattle.std.specs.Prelude.{◌≡◌, ◌==◌, ◌<◌, [], List, All, fold, None, Some};
ghost use Rattle.std.specs.List.{find};
ghost use Rattle.spread_rules.specs.code.Cases.{with_less_left, amended_at};
ghost use Rattle.spread_rules.specs.Clearing.{reduced, removed};
ghost use Rattle.spread_rules.specs.Meaning.{is_own};
ghost use Rattle.spread_rules.specs.code.Amended.{amended};
ghost use Rattle.spread_books_plain.specs.Queues.{is_in, front_step};

use crate::book::Book;
use crate::queue::{front_with, is_in};
use spread_books_rows::{is_own, with_quantity};
use spread_rules::{Instrument, NoMemory, Order, Side};
use spread_rules_ids::Id;
use std::alloc::Allocator;
use std::marker::Model;

/// Resting orders in one list, the earliest place first.
#[derive(Drop)]
pub struct ListBook<A: Allocator + Copy> {
    orders: Vec<Order, A>,
}

impl<A: Allocator + Copy> Model for ListBook<A> {
    ghost use Rattle.std.specs.Prelude.{List};
    ghost use Rattle.spread_rules.specs.declared.order.Order.{Order};

    ghost Value = { List Order };

    ghost view = { λ b. b.orders.items };
}

/// The front of a queue with one more order looked at.
fn front_after(
    front: Option<Order>,
    order: &Order,
    instrument: Instrument,
    side: Side,
) -> Option<Order>
    ensures { result ≡ front_step instrument side front order.now }
{
    if is_in(order, instrument, side) {
        Some(front_with(front, order))
    } else {
        front
    }
}

/// The front of a queue.
fn first_in(orders: &[Order], instrument: Instrument, side: Side) -> Option<Order>
    ensures { result ≡ fold (front_step instrument side) None orders.now }
{
    let mut found: Option<Order> = None;
    for order in orders {
        found = front_after(found, order, instrument, side);
    }
    found
}

fn reduce_all(orders: &mut [Order], place: u64, by: u32)
    requires { All (λ o. o.place ≡ place → by < o.leaves) orders.old }
    ensures { orders.new ≡ reduced place by orders.old }
{
    for order in orders.iter_mut() {
        reduce_one(order, place, by);
    }
}

fn reduce_one(order: &mut Order, place: u64, by: u32)
    requires { order.old.place ≡ place → by < order.old.leaves }
    ensures { order.new ≡ with_less_left place by order.old }
{
    if order.place == place {
        order.leaves -= by;
    }
}

fn amend_all(orders: &mut [Order], place: u64, id: Id, quantity: u32)
    ensures { orders.new ≡ amended place id quantity orders.old }
{
    for order in orders.iter_mut() {
        amend_one(order, place, id, quantity);
    }
}

fn amend_one(order: &mut Order, place: u64, id: Id, quantity: u32)
    ensures { order.new ≡ amended_at place id quantity order.old }
{
    if order.place == place {
        *order = with_quantity(order, id, quantity);
    }
}

fn remove_all<A: Allocator + Copy>(orders: &mut Vec<Order, A>, place: u64)
    ensures { orders.new.items ≡ removed place orders.old.items }
{
    orders.retain(|o| o.place != place);
}

fn find_own(orders: &[Order], session: u8, id: &Id) -> Option<Order>
    ensures { result ≡ find (is_own session id.now) orders.now }
{
    for order in orders {
        if is_own(order, session, id) {
            return Some(*order);
        }
    }
    None
}

fn find_at(orders: &[Order], place: u64) -> Option<Order>
    ensures { result ≡ find (λ o. o.place == place) orders.now }
{
    for order in orders {
        if order.place == place {
            return Some(*order);
        }
    }
    None
}

impl<A: Allocator + Copy> ListBook<A> {
    /// A book in which no order rests. Takes no memory yet.
    pub fn new(alloc: A) -> Self
        ensures { result ≡ [] }
    {
        ListBook {
            orders: Vec::new(alloc),
        }
    }
}

impl<A: Allocator + Copy> Book for ListBook<A> {
    ghost orders = { λ b. b };

    ghost quotes_by = { λ b. None };

    fn front(&self, instrument: Instrument, side: Side) -> Option<Order> {
        first_in(&self.orders, instrument, side)
    }

    fn find(&self, session: u8, id: &Id) -> Option<Order> {
        find_own(&self.orders, session, id)
    }

    fn at(&self, place: u64) -> Option<Order> {
        find_at(&self.orders, place)
    }

    fn add(&mut self, order: Order) -> Result<(), NoMemory> {
        self.orders.push(order)?;
        Ok(())
    }

    fn reduce(&mut self, place: u64, by: u32) {
        reduce_all(&mut self.orders, place, by);
    }

    fn amend(&mut self, place: u64, id: Id, quantity: u32) -> Result<(), NoMemory> {
        amend_all(&mut self.orders, place, id, quantity);
        Ok(())
    }

    fn remove(&mut self, place: u64) {
        remove_all(&mut self.orders, place);
    }

    fn walk(&self, n: usize) -> Option<Order> {
        self.orders.get(n).copied()
    }

    fn len(&self) -> usize {
        self.orders.len()
    }
}
