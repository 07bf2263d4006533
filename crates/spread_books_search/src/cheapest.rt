//! The pair of fronts that costs the least among those of all other months.
ghost use Rattle.std.specs.Prelude.{◌≡◌, ◌+ℤ◌, All, IfSome, None};
ghost use Rattle.spread_rules.specs.Candidates.{cost};
ghost use Rattle.spread_rules.specs.code.Candidates.{HasOrderPrice};
ghost use Rattle.spread_rules_rulebook.specs.Rulebook.{implied};
ghost use Rattle.spread_rules_rulebook.specs.Prices.{IsOrderPrice, IsLegPrice};
ghost use Rattle.spread_rules.specs.Legs.{other_side};
ghost use Rattle.spread_books_plain.specs.Pairs.{spread_of, spread_side, is_pair_on, IsCheapest};
ghost use Rattle.spread_books_search.specs.code.Cheapest.{CostsOfFront, CostsOfFronts, cheaper_of};

use spread_books_plain::{Book, PairCost};
use spread_rules::{Instrument, Rulebook, Side};

/// The orders of one instrument and side.
#[derive(Clone, Copy)]
pub struct Queue {
    pub instrument: Instrument,
    pub side: Side,
}

/// The pairs of so many months, of which those take part in implied trading that the rulebook says.
#[derive(Clone, Copy)]
pub struct MonthPairs<'r> {
    pub rules: &'r Rulebook,
    pub months: u8,
}

/// What an order of a queue of that side costs who meets it.
#[inline(always)]
fn cost_in(side: Side, price: i64) -> i64
    requires { IsOrderPrice price }
    ensures cost { result ≡ cost (other_side side) price }
    ensures order_price { IsOrderPrice result }
{
    match side {
        Side::Buy => -price,
        Side::Sell => price,
    }
}

/// What the front of a queue costs who meets it.
#[inline(always)]
pub fn front_cost<B: Book>(book: &B, instrument: Instrument, side: Side) -> Option<i64>
    requires { All HasOrderPrice (B.orders book.now) }
    ensures cost { CostsOfFront (B.orders book.now) instrument side result }
    ensures order_price { IfSome result IsOrderPrice }
{
    match book.front_level(instrument, side) {
        None => None,
        Some(level) => Some(cost_in(side, level.price)),
    }
}

/// What two orders together cost.
#[inline(always)]
pub fn together(first: i64, second: i64) -> i64
    requires first { IsOrderPrice first }
    requires second { IsOrderPrice second }
    ensures sum { result ≡ first +ℤ second }
    ensures leg_price { IsLegPrice result }
{
    first + second
}

/// The queue of spreads that meet an order of that side and month, together with outrights of the other month.
#[inline(always)]
pub fn spreads_with(side: Side, month: u8, other_month: u8) -> Queue
    ensures instrument { result.instrument ≡ spread_of month other_month }
    ensures side { result.side ≡ spread_side side month other_month }
{
    if month < other_month {
        Queue {
            instrument: Instrument::Spread(month, other_month),
            side: side.opposite(),
        }
    } else {
        Queue {
            instrument: Instrument::Spread(other_month, month),
            side,
        }
    }
}

/// Whether the pair of these two months, whichever is the near one, takes part in implied trading.
#[inline(always)]
pub fn is_pair_on(rules: &Rulebook, month: u8, other_month: u8) -> bool
    ensures { result ≡ is_pair_on (implied rules.now) month other_month }
{
    rules.implied(month.min(other_month), month.max(other_month))
}

/// What the fronts of an other month's two queues together cost an order of that side and month, where the pair of
/// months takes part. Only prices are read, and the rulebook is asked last: most pairs have no two fronts.
#[inline(always)]
pub fn pair_cost<B: Book>(
    book: &B,
    rules: &Rulebook,
    side: Side,
    month: u8,
    other_month: u8,
) -> Option<i64>
    requires { All HasOrderPrice (B.orders book.now) }
    ensures cost { CostsOfFronts (implied rules.now) (B.orders book.now)
        side month other_month result }
    ensures leg_price { IfSome result IsLegPrice }
{
    let spreads = spreads_with(side, month, other_month);
    let opposite = side.opposite();
    let Some(first) = front_cost(book, spreads.instrument, spreads.side) else {
        return None;
    };
    let Some(second) = front_cost(book, Instrument::Outright(other_month), opposite) else {
        return None;
    };
    if !is_pair_on(rules, month, other_month) {
        return None;
    }
    Some(together(first, second))
}

/// The one of two that costs less, the earlier one where they cost the same.
#[inline(always)]
pub fn cheaper(least: Option<PairCost>, cost: Option<i64>, other_month: u64) -> Option<PairCost>
    ensures { result ≡ cheaper_of least cost other_month }
{
    match (least, cost) {
        (least, None) => least,
        (None, Some(cost)) => Some(PairCost { cost, other_month }),
        (Some(held), Some(cost)) => {
            if cost < held.cost {
                Some(PairCost { cost, other_month })
            } else {
                Some(held)
            }
        }
    }
}

/// What costs the least among the fronts of all other months whose pair with that month takes part, and the earliest
/// month where several cost the same.
#[inline(never)]
pub fn cheapest_pair<B: Book>(
    book: &B,
    pairs: &MonthPairs<'_>,
    side: Side,
    month: u8,
) -> Option<PairCost>
    requires { All HasOrderPrice (B.orders book.now) }
    ensures { IsCheapest (implied pairs.now.rules.now) (B.orders book.now) side month pairs.now.months
        result }
{
    let mut least = None;
    for other_month in 0..pairs.months {
        let cost = pair_cost(book, pairs.rules, side, month, other_month);
        least = cheaper(least, cost, u64::from(other_month));
    }
    least
}
