//! The ranks of resting orders, queue by queue, the least of each queue at hand.
//!
//! A rank that comes takes the logarithm of the ranks of its queue. The rank of an order that leaves stays while
//! another rank of its queue is less, and goes when it comes to be the least, or when a queue has many such: each goes
//! once, in the logarithm.
ghost use Rattle.std.specs.Prelude.{◌≡◌, ◌<◌, [], All, OnOk, OnErr, IfSome, IfNone, length, map};
ghost use Rattle.spread_books_queues.specs.code.Heaps.{IsRankHeap, ranks_in, ranks_at, Joins, SameRanks, IsLeast, is_of_rank, is_ranked, HasSettled, Settles, HasThinned, Thins};
ghost use Rattle.spread_books_rows.specs.Places.{Ascends};

use crate::queue_rank::{QueueRank, queue_number};
use spread_books_rows::PlaceRows;
use spread_rules::{NoMemory, Order};
use std::alloc::Allocator;
use std::cmp::Reverse;
use std::collections::BinaryHeap;
use std::marker::Model;

/// A heap for each queue by its number, the least rank at the top. Queues behind the last one with a rank have none.
#[derive(Drop)]
pub struct QueueHeaps<A: Allocator + Copy> {
    heaps: Vec<BinaryHeap<Reverse<QueueRank>, A>, A>,
}

impl<A: Allocator + Copy> Model for QueueHeaps<A> {
    ghost use Rattle.std.specs.Prelude.{List, All, map};
    ghost use Rattle.spread_books_queues.specs.declared.queue_rank.QueueRank.{QueueRank};
    ghost use Rattle.spread_books_queues.specs.code.Heaps.{IsRankHeap, ranks_in};

    ghost Value = { List (List QueueRank) };

    ghost view = { λ q. map ranks_in q.heaps.items };

    ghost invariant = { λ q. All IsRankHeap q.heaps.items };
}

/// Makes heaps up to that queue's.
fn make_room<A: Allocator + Copy>(
    heaps: &mut Vec<BinaryHeap<Reverse<QueueRank>, A>, A>,
    queue: usize,
) -> Result<(), NoMemory>
    requires { All IsRankHeap heaps.old.items }
    ensures heaps { All IsRankHeap heaps.new.items }
    ensures same { SameRanks (map ranks_in heaps.old.items) (map ranks_in heaps.new.items) }
    ensures room { OnOk result (queue < length heaps.new.items) }
{
    let alloc = *heaps.allocator();
    while heaps.len() <= queue {
        heaps.push(BinaryHeap::new(alloc))?;
    }
    Ok(())
}

/// Whether an order is of that queue and has that rank.
fn is_of_rank(order: &Order, queue: u32, rank: &QueueRank) -> bool
    ensures { result ≡ is_of_rank queue rank.now order.now }
{
    queue_number(order.instrument, order.side) == queue && QueueRank::new(order).is(rank)
}

/// Whether an order of that queue and rank rests.
fn rests<A: Allocator + Copy>(rows: &PlaceRows<A>, queue: u32, rank: QueueRank) -> bool
    ensures value { result ≡ is_ranked rows.now queue rank }
    ensures ordered { Ascends rows.now }
{
    match rows.get(rank.place()) {
        None => false,
        Some(order) => is_of_rank(order, queue, &rank),
    }
}

/// Ranks go until the least is that of an order that rests.
fn drop_departed<A: Allocator + Copy>(
    heap: &mut BinaryHeap<Reverse<QueueRank>, A>,
    rows: &PlaceRows<A>,
    queue: u32,
)
    requires { IsRankHeap heap.old }
    ensures heap { IsRankHeap heap.new }
    ensures settled { HasSettled rows.now queue (ranks_in heap.old) (ranks_in heap.new) }
{
    while let Some(top) = heap.peek().copied() {
        if rests(rows, queue, top.0) {
            return;
        }
        heap.pop();
    }
}

/// Of all ranks those stay whose orders rest.
fn drop_all_departed<A: Allocator + Copy>(
    heap: &mut BinaryHeap<Reverse<QueueRank>, A>,
    rows: &PlaceRows<A>,
    queue: u32,
)
    requires { Ascends rows.now }
    ensures heap { IsRankHeap heap.new }
    ensures thinned { HasThinned rows.now queue (ranks_in heap.old) (ranks_in heap.new) }
{
    heap.retain(|rank| rests(rows, queue, rank.0));
}

impl<A: Allocator + Copy> QueueHeaps<A> {
    /// No rank. Takes no memory yet.
    pub fn new(alloc: A) -> Self
        ensures { result ≡ [] }
    {
        QueueHeaps {
            heaps: Vec::new(alloc),
        }
    }

    /// The least rank of that queue. Takes no memory.
    pub fn least(&self, queue: u32) -> Option<QueueRank>
        ensures some { IfSome result (IsLeast (ranks_at self.now queue)) }
        ensures none { IfNone result (ranks_at self.now queue ≡ []) }
    {
        let heap = self.heaps.get(queue as usize)?;
        let top = heap.peek()?;
        Some(top.0)
    }

    /// One rank more in that queue. After NoMemory they are as before.
    pub fn add(&mut self, queue: u32, rank: QueueRank) -> Result<(), NoMemory>
        ensures ok { OnOk result (Joins queue rank self.old self.new) }
        ensures unchanged_on_err { OnErr result (SameRanks self.old self.new) }
    {
        let n = queue as usize;
        make_room(&mut self.heaps, n)?;
        self.heaps[n].push(Reverse(rank))?;
        Ok(())
    }

    /// Where a queue has many more ranks than orders rest, those of orders that left go. Takes no memory.
    pub fn thin(&mut self, rows: &PlaceRows<A>, queue: u32)
        ensures { Thins rows.now queue self.old self.new }
    {
        let n = queue as usize;
        let most = rows.count().saturating_mul(2).saturating_add(64);
        if n < self.heaps.len() && self.heaps[n].len() > most {
            drop_all_departed(&mut self.heaps[n], rows, queue);
        }
    }

    /// After an order of that queue left: its ranks go until the least is that of an order that rests. Takes no memory.
    pub fn settle(&mut self, rows: &PlaceRows<A>, queue: u32)
        ensures { Settles rows.now queue self.old self.new }
    {
        let n = queue as usize;
        if n < self.heaps.len() {
            drop_departed(&mut self.heaps[n], rows, queue);
        }
    }
}
