//! The pair of fronts that costs the least, after the fronts of one other month changed.
ghost use Rattle.std.specs.Prelude.{◌≡◌, ◌<◌, List};
ghost use Rattle.spread_rules.specs.Candidates.{Pairs};
ghost use Rattle.spread_rules.specs.declared.order.Order.{Order};
ghost use Rattle.spread_books_plain.specs.Pairs.{IsCheapest};
ghost use Rattle.spread_books_search.specs.code.Cheapest.{is_sooner};
ghost use Rattle.spread_books_quotes.specs.code.FrontCosts.{AreFrontCosts, pair_of_cell};

use crate::front_costs::{FrontCosts, NO_PAIR};
use spread_books_plain::PairCost;
use spread_rules::Side;
use spread_rules_ids::limits::MAX_MONTHS;
use std::alloc::Allocator;

/// What costs the least among the fronts of all other months whose pair with that month takes part, and the earliest
/// month where several cost the same. Where no pair does, a cell of no pair, and of no month.
#[inline(never)]
pub fn cheapest_of_row<A: Allocator + Copy>(
    costs: &FrontCosts<A>,
    months: u8,
    side: Side,
    month: u8,
) -> PairCost
    ensures { (on : Pairs) (xs : List Order)
        → AreFrontCosts on months xs costs.now
        → month < months
        → IsCheapest on xs side month months (pair_of_cell result) }
{
    let spreads = costs.spread_row(side, month, months);
    let outrights = costs.outright_row(side, months);
    // Where a cell is of no cost, the sum is no less than `NO_PAIR`.
    let mut least = NO_PAIR;
    let mut month_of_least = MAX_MONTHS as usize;
    for other_month in 0..spreads.len().min(outrights.len()) {
        let cost = spreads[other_month] + outrights[other_month];
        if cost < least {
            least = cost;
            month_of_least = other_month;
        }
    }
    PairCost {
        cost: least,
        other_month: month_of_least as u64,
    }
}

/// Whether a pair of that month that costs so much takes the place of the one that is held: it costs less, or the same
/// and is of an earlier month.
#[inline(always)]
pub fn is_sooner(cost: i64, via: u8, held: &PairCost) -> bool
    ensures { result ≡ is_sooner cost via held.now }
{
    cost <= held.cost && (cost < held.cost || u64::from(via) < held.other_month)
}
