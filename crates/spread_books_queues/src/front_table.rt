//! The best prices of queues, to be read with no look-up.
ghost use Rattle.std.specs.Prelude.{◌≡◌, ◌↔◌, [], None, OnOk, OnErr, replicate, IsTrue};
ghost use Rattle.spread_books_queues.specs.declared.front_table.TheConstants.{SLOTS};
ghost use Rattle.spread_books_queues.specs.FrontTable.{slot_of, known_price, with_known_price, best_price_of, level_at};

use spread_rules::{Instrument, Level, NoMemory, Order, Side};
use std::alloc::Allocator;
use std::marker::Model;

/// Queues of later months have no slot.
const MONTHS: u8 = 24;

/// Two for each outright and each pair of early months.
const SLOTS: usize = 1200;

/// Where the front of a queue stands: its price in hundredths, and its place.
#[derive(Clone, Copy)]
pub struct BestPrice {
    pub price: i64,
    pub place: u64,
}

impl BestPrice {
    /// Where that order stands.
    pub fn new(order: &Order) -> BestPrice
        ensures { result ≡ best_price_of order.now }
    {
        BestPrice {
            price: order.price,
            place: order.place,
        }
    }

    /// The level of that queue at this price.
    #[inline(always)]
    pub fn level(self, instrument: Instrument, side: Side) -> Level
        ensures { result ≡ level_at instrument side self }
    {
        Level {
            instrument,
            side,
            price: self.price,
        }
    }
}

/// A slot for each queue of early months. No slot before room is made.
#[derive(Drop)]
pub struct FrontTable<A: Allocator + Copy> {
    slots: Vec<Option<BestPrice>, A>,
}

impl<A: Allocator + Copy> Model for FrontTable<A> {
    ghost use Rattle.std.specs.Prelude.{List, Option};
    ghost use Rattle.spread_books_queues.specs.declared.front_table.BestPrice.{BestPrice};

    ghost Value = { List (Option BestPrice) };

    ghost view = { λ t. t.slots.items };
}

/// The slot of a queue.
#[inline(always)]
fn slot(instrument: Instrument, side: Side) -> Option<usize>
    ensures { result ≡ slot_of instrument side }
{
    let of = match instrument {
        Instrument::Outright(month) => {
            if month >= MONTHS {
                return None;
            }
            usize::from(month)
        }
        Instrument::Spread(near, far) => {
            if near >= MONTHS || far >= MONTHS {
                return None;
            }
            (usize::from(near) + 1) * usize::from(MONTHS) + usize::from(far)
        }
    };
    match side {
        Side::Buy => Some(of * 2),
        Side::Sell => Some(of * 2 + 1),
    }
}

impl<A: Allocator + Copy> FrontTable<A> {
    /// A table with no slot. Takes no memory yet.
    pub fn new(alloc: A) -> Self
        ensures { result ≡ [] }
    {
        FrontTable {
            slots: Vec::new(alloc),
        }
    }

    /// Whether it has no slot.
    pub fn is_empty(&self) -> bool
        ensures { IsTrue result ↔ (self.now ≡ []) }
    {
        self.slots.is_empty()
    }

    /// Makes all slots, none of them with a price.
    pub fn make_room(&mut self) -> Result<(), NoMemory>
        requires { self.old ≡ [] }
        ensures ok { OnOk result (self.new ≡ replicate SLOTS None) }
        ensures unchanged_on_err { OnErr result (self.new ≡ self.old) }
    {
        self.slots.resize(SLOTS, None)?;
        Ok(())
    }

    /// What the slot of that queue has. None where it has no slot.
    #[inline(always)]
    pub fn known_price(&self, instrument: Instrument, side: Side) -> Option<Option<BestPrice>>
        ensures { result ≡ known_price self.now instrument side }
    {
        let n = slot(instrument, side)?;
        self.slots.get(n).copied()
    }

    /// Puts that into the slot of that queue, if it has one.
    pub fn put(&mut self, instrument: Instrument, side: Side, best: Option<BestPrice>)
        ensures { self.new ≡ with_known_price self.old instrument side best }
    {
        if let Some(n) = slot(instrument, side) {
            if n < self.slots.len() {
                self.slots[n] = best;
            }
        }
    }
}
