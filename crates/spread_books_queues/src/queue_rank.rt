//! Where an order stands in its queue, as a rank to be compared.
ghost use Rattle.std.specs.Prelude.{◌≡◌};
ghost use Rattle.std.specs.Cmp.{partial_order_from_own_ties};
ghost use Rattle.std.specs.Cmp.Rules.{comparing};
ghost use Rattle.std.specs.Ordering.{is_lt, int_cmp, nat_cmp, on, then_cmp, as_partial_cmp};
ghost use Rattle.std.proofs.Common.{rules};
ghost use Rattle.spread_books_queues.specs.QueueRanks.{queue_number, queue_cost, rank_of, rank_cmp, is_rank, HasMonths};

use crate::front_table::BestPrice;
use spread_rules::{Instrument, Order, Side};
use std::cmp::Ordering;

/// Of two orders of one queue, the one ahead has the lesser rank.
#[derive(Clone, Copy, PartialEq, Eq)]
pub struct QueueRank {
    // The price as who meets it pays it: what is worse is greater.
    cost: i64,
    place: u64,
}

impl QueueRank {
    /// Whether it is the lesser one. Both parts are compared, since a branch on the first would be guessed wrong one time
    /// in three.
    #[inline(always)]
    fn is_less(&self, other: &QueueRank) -> bool
        ensures { result ≡ is_lt (rank_cmp self.now other.now) }
    {
        (self.cost < other.cost) | ((self.cost == other.cost) & (self.place < other.place))
    }
}

impl Ord for QueueRank {
    ghost cmp = { then_cmp (on (λ r. r.cost) int_cmp) (on (λ r. r.place) nat_cmp) };

    ghost total = { Prim.search (comparing, rules) };

    ghost matches_partial_cmp = { Prim.search (comparing, rules) };

    ghost matches_eq = { Prim.search (comparing, rules) };

    fn cmp(&self, other: &QueueRank) -> Ordering {
        if self.is_less(other) {
            Ordering::Less
        } else if other.is_less(self) {
            Ordering::Greater
        } else {
            Ordering::Equal
        }
    }
}

impl PartialOrd for QueueRank {
    ghost partial_cmp = { as_partial_cmp (then_cmp (on (λ r. r.cost) int_cmp) (on (λ r. r.place) nat_cmp)) };

    ghost laws = { partial_order_from_own_ties (Prim.search (comparing, rules)) (Prim.search (comparing, rules)) };

    fn partial_cmp(&self, other: &QueueRank) -> Option<Ordering> {
        Some(self.cmp(other))
    }
}

/// One number for each instrument and side.
pub fn queue_number(instrument: Instrument, side: Side) -> u32
    ensures number { result ≡ queue_number instrument side }
    ensures months { HasMonths instrument }
{
    let of = match instrument {
        Instrument::Outright(month) => u32::from(month),
        Instrument::Spread(near, far) => (u32::from(near) + 1) * 256 + u32::from(far),
    };
    match side {
        Side::Buy => of * 2,
        Side::Sell => of * 2 + 1,
    }
}

/// The least price has no negative, so a buyer's is counted down from -1. What the cost of a cost is, is the price.
fn queue_cost(side: Side, price: i64) -> i64
    ensures { result ≡ queue_cost side price }
{
    match side {
        Side::Sell => price,
        Side::Buy => -1 - price,
    }
}

impl QueueRank {
    /// Where a resting order stands.
    pub fn new(order: &Order) -> QueueRank
        ensures { result ≡ rank_of order.now }
    {
        QueueRank {
            cost: queue_cost(order.side, order.price),
            place: order.place,
        }
    }

    /// The place of the order that stands there.
    pub(crate) fn place(&self) -> u64
        ensures { result ≡ self.now.place }
    {
        self.place
    }

    /// Whether they are one rank.
    pub(crate) fn is(&self, other: &QueueRank) -> bool
        ensures { result ≡ is_rank self.now other.now }
    {
        self.cost == other.cost && self.place == other.place
    }

    /// The price and the place of the order of that side that stands there.
    pub fn best_price(&self, side: Side) -> BestPrice
        ensures price { result.price ≡ queue_cost side self.now.cost }
        ensures place { result.place ≡ self.now.place }
    {
        BestPrice {
            price: queue_cost(side, self.cost),
            place: self.place,
        }
    }
}
