//! The next candidate in rank, by a search over all orders and all pairs of one list.
ghost use Rattle.std.specs.Prelude.{◌≡◌, All, IfSome, None, false, fold, map};
ghost use Rattle.spread_rules.specs.declared.candidate.Counterparty.TheVariants.{Direct, Implied};
ghost use Rattle.spread_rules.specs.declared.order.Order.{Order};
ghost use Rattle.spread_rules.specs.code.Candidates.{HasOrderPrice, HaveOrderPrices, HasLegPrice, counterparties, least_candidate};
ghost use Rattle.spread_rules_rulebook.specs.Rulebook.{implied};
ghost use Rattle.explain_turns.specs.Explained.{is_behind, IsNextBest};
ghost use Rattle.explain_turns.specs.code.Search.{may_be_first, may_trade, next_candidate_of, next_of, next_step};

use spread_rules::{
    Candidate, Counterparty, Instrument, Order, Rulebook, better, candidate_for, levels_meet,
    ranking,
};

/// Whether a candidate ranks behind the bound.
fn is_behind(new: &Order, bound: &Option<Candidate>, candidate: &Candidate) -> bool
    requires bound { IfSome bound.now HasLegPrice }
    requires candidate { HasLegPrice candidate.now }
    ensures { result ≡ is_behind new.now bound.now candidate.now }
{
    match bound {
        None => true,
        Some(bound) => ranking(new, &bound) < ranking(new, candidate),
    }
}

/// Whether a counterparty takes part: a pair of orders does where its pair of months is not switched off.
fn may_trade(rules: &Rulebook, new: &Order, counterparty: &Counterparty) -> bool
    ensures { result ≡ may_trade (implied rules.now) new.now counterparty.now }
{
    match counterparty {
        Counterparty::Direct(_) => true,
        Counterparty::Implied(first, _) => match (new.instrument, first.instrument) {
            (Instrument::Spread(near, far), _) => rules.implied(near, far),
            (Instrument::Outright(_), Instrument::Spread(near, far)) => rules.implied(near, far),
            (Instrument::Outright(_), Instrument::Outright(_)) => true,
        },
    }
}

/// The eligible candidate that a counterparty makes, where it ranks behind the bound.
fn next_of(
    rules: &Rulebook,
    new: &Order,
    bound: &Option<Candidate>,
    counterparty: Counterparty,
) -> Option<Candidate>
    requires counterparty { HaveOrderPrices counterparty }
    requires bound { IfSome bound.now HasLegPrice }
    ensures value { result ≡ next_of (implied rules.now) new.now bound.now counterparty }
    ensures leg_price { IfSome result HasLegPrice }
{
    if !may_trade(rules, new, &counterparty) {
        return None;
    }
    match candidate_for(new, counterparty) {
        Some(candidate) if is_behind(new, bound, &candidate) => Some(candidate),
        _ => None,
    }
}

/// The best direct candidate that ranks behind `bound`, if there is one.
fn with_singles(
    rules: &Rulebook,
    new: &Order,
    bound: &Option<Candidate>,
    orders: &[Order],
) -> Option<Candidate>
    requires order_price { All HasOrderPrice orders.now }
    requires bound { IfSome bound.now HasLegPrice }
    ensures value { result
        ≡ next_candidate_of (implied rules.now) new.now bound.now (map Direct orders.now) }
    ensures leg_price { IfSome result HasLegPrice }
{
    let mut found: Option<Candidate> = None;
    for order in orders {
        found = better(
            new,
            found,
            next_of(rules, new, bound, Counterparty::Direct(*order)),
        );
    }
    found
}

/// Whether an order may be the first of two that meet the new one. Most may not.
#[inline(always)]
fn may_be_first(new: &Order, first: &Order) -> bool
    ensures { result
        ≡ may_be_first new.now.side new.now.instrument first.now.side first.now.instrument }
{
    match (new.instrument, first.instrument) {
        (Instrument::Outright(month), Instrument::Spread(near, far)) => {
            (month == near && new.side != first.side) || (month == far && new.side == first.side)
        }
        (Instrument::Spread(near, _), Instrument::Outright(month)) => {
            month == near && new.side != first.side
        }
        _ => false,
    }
}

/// The best with one more pair of orders. Most do not meet the new one, and of these only the levels are read.
#[inline(always)]
fn with_pair(
    rules: &Rulebook,
    new: &Order,
    bound: &Option<Candidate>,
    best: Option<Candidate>,
    first: &Order,
    second: &Order,
) -> Option<Candidate>
    requires first { HasOrderPrice first.now }
    requires second { HasOrderPrice second.now }
    requires bound { IfSome bound.now HasLegPrice }
    requires best { IfSome best HasLegPrice }
    ensures value { result
        ≡ next_step (implied rules.now) new.now bound.now best (Implied first.now second.now) }
    ensures leg_price { IfSome result HasLegPrice }
{
    if !levels_meet(new, &first.level(), &second.level()) {
        return best;
    }
    let pair = Counterparty::Implied(*first, *second);
    better(new, best, next_of(rules, new, bound, pair))
}

/// The best with the pairs of which this order is the first.
fn with_pairs(
    rules: &Rulebook,
    new: &Order,
    bound: &Option<Candidate>,
    best: Option<Candidate>,
    first: &Order,
    orders: &[Order],
) -> Option<Candidate>
    requires first { HasOrderPrice first.now }
    requires order_price { All HasOrderPrice orders.now }
    requires bound { IfSome bound.now HasLegPrice }
    requires best { IfSome best HasLegPrice }
    ensures value { result ≡ fold (next_step (implied rules.now) new.now bound.now) best
        (map (Implied first.now) orders.now) }
    ensures leg_price { IfSome result HasLegPrice }
{
    let mut found = best;
    for second in orders {
        found = with_pair(rules, new, bound, found, first, second);
    }
    found
}

/// The best candidate of two orders with that first one, or the one given. An order that may not be the first of two is
/// passed over.
fn with_pairs_of(
    rules: &Rulebook,
    new: &Order,
    bound: &Option<Candidate>,
    best: Option<Candidate>,
    first: &Order,
    orders: &[Order],
) -> Option<Candidate>
    requires first { HasOrderPrice first.now }
    requires order_price { All HasOrderPrice orders.now }
    requires bound { IfSome bound.now HasLegPrice }
    requires best { IfSome best HasLegPrice }
    ensures value { result ≡ fold (next_step (implied rules.now) new.now bound.now) best
        (map (Implied first.now) orders.now) }
    ensures leg_price { IfSome result HasLegPrice }
{
    if may_be_first(new, first) {
        with_pairs(rules, new, bound, best, first, orders)
    } else {
        best
    }
}

/// The least of all counterparties' candidates that rank behind the bound.
fn least_behind(
    rules: &Rulebook,
    orders: &[Order],
    new: &Order,
    bound: &Option<Candidate>,
) -> Option<Candidate>
    requires order_price { All HasOrderPrice orders.now }
    requires bound { IfSome bound.now HasLegPrice }
    ensures value { result
        ≡ next_candidate_of (implied rules.now) new.now bound.now (counterparties orders.now) }
    ensures leg_price { IfSome result HasLegPrice }
{
    let mut found = with_singles(rules, new, bound, orders);
    for first in orders {
        found = with_pairs_of(rules, new, bound, found, first, orders);
    }
    found
}

/// The eligible candidate that ranks next behind the bound; without a bound the least of all. None exactly where no
/// eligible one ranks behind it. Takes no memory.
pub fn plain_next(
    rules: &Rulebook,
    orders: &[Order],
    new: &Order,
    bound: &Option<Candidate>,
) -> Option<Candidate>
    requires order_price { All HasOrderPrice orders.now }
    requires bound { IfSome bound.now HasLegPrice }
    ensures next { IsNextBest (implied rules.now) new.now orders.now bound.now result }
    ensures least { bound.now ≡ None
        → result ≡ least_candidate (implied rules.now) new.now (counterparties orders.now) }
    ensures leg_price { IfSome result HasLegPrice }
{
    least_behind(rules, orders, new, bound)
}
