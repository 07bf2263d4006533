//! One turn of a new order over a list of orders.
ghost use Rattle.std.specs.Prelude.{◌≡◌, ◌-◌, All, IfSome, None, Some, fold};
ghost use Rattle.spread_rules.specs.code.Cases.{with_less_left};
ghost use Rattle.spread_rules.specs.Candidates.{members};
ghost use Rattle.spread_rules.specs.code.Candidates.{HasOrderPrice, HasLegPrice};
ghost use Rattle.spread_rules.specs.Clearing.{after_fill, leg_prices, reduced, removed};
ghost use Rattle.spread_rules_rulebook.specs.Rulebook.{implied};
ghost use Rattle.explain_turns.specs.Explained.{AreNext, Follows, HaveLegPrices};
ghost use Rattle.explain_turns.specs.code.Turns.{IsNextTurn};

use crate::next::plain_next;
use crate::turn::ExplainedTurn;
use spread_rules::{Candidate, Counterparty, Order, Rulebook, leg_prices, quantity_with};
use std::alloc::Allocator;

/// The next candidate behind that one, and none behind none.
fn follows(
    rules: &Rulebook,
    orders: &[Order],
    new: &Order,
    ahead: &Option<Candidate>,
) -> Option<Candidate>
    requires order_price { All HasOrderPrice orders.now }
    requires ahead { IfSome ahead.now HasLegPrice }
    ensures follows { Follows (implied rules.now) new.now orders.now ahead.now result }
    ensures leg_price { IfSome result HasLegPrice }
{
    match ahead {
        None => None,
        Some(_) => plain_next(rules, orders, new, ahead),
    }
}

/// The five that rank next behind the one that is taken.
fn five_next(
    rules: &Rulebook,
    orders: &[Order],
    new: &Order,
    taken: &Option<Candidate>,
) -> [Option<Candidate>; 5]
    requires order_price { All HasOrderPrice orders.now }
    requires taken { IfSome taken.now HasLegPrice }
    ensures next { AreNext (implied rules.now) new.now orders.now taken.now result }
    ensures leg_price { All (λ o. IfSome o HasLegPrice) result }
{
    let first = follows(rules, orders, new, taken);
    let second = follows(rules, orders, new, &first);
    let third = follows(rules, orders, new, &second);
    let fourth = follows(rules, orders, new, &third);
    let fifth = follows(rules, orders, new, &fourth);
    [first, second, third, fourth, fifth]
}

/// The next turn of a new order of which so much is left; none where there is no eligible candidate, or where nothing is
/// left.
pub fn next_turn(rules: &Rulebook, orders: &[Order], left: &Order) -> Option<ExplainedTurn>
    requires order_price { All HasOrderPrice orders.now }
    ensures turn { IsNextTurn rules.now left.now orders.now result }
    ensures leg_price { IfSome result HaveLegPrices }
{
    if left.leaves == 0 {
        return None;
    }
    let best = plain_next(rules, orders, left, &None);
    match &best {
        None => None,
        Some(taken) => Some(ExplainedTurn {
            left: left.leaves,
            taken: *taken,
            quantity: quantity_with(left, &taken.counterparty),
            legs: leg_prices(rules, left, taken),
            next: five_next(rules, orders, left, &best),
        }),
    }
}

fn reduce_one(order: &mut Order, place: u64, by: u32)
    ensures { order.new ≡ with_less_left place by order.old }
{
    if order.place == place {
        order.leaves = order.leaves.saturating_sub(by);
    }
}

fn reduce_all(orders: &mut [Order], place: u64, by: u32)
    ensures { orders.new ≡ reduced place by orders.old }
{
    for order in orders.iter_mut() {
        reduce_one(order, place, by);
    }
}

fn remove_all<A: Allocator + Copy>(orders: &mut Vec<Order, A>, place: u64)
    ensures { orders.new.items ≡ removed place orders.old.items }
{
    orders.retain(|o| o.place != place);
}

/// Takes traded lots off a resting order, which rests no longer where nothing is left of it.
fn reduce_or_remove<A: Allocator + Copy>(orders: &mut Vec<Order, A>, by: u32, order: &Order)
    ensures { orders.new.items ≡ after_fill by orders.old.items order.now }
{
    if order.leaves == by {
        remove_all(orders, order.place);
    } else {
        reduce_all(orders, order.place, by);
    }
}

/// Takes the traded lots off each member of a candidate.
pub fn reduce_members<A: Allocator + Copy>(
    orders: &mut Vec<Order, A>,
    by: u32,
    counterparty: &Counterparty,
)
    ensures { orders.new.items
        ≡ fold (after_fill by) orders.old.items (members counterparty.now) }
{
    match counterparty {
        Counterparty::Direct(order) => reduce_or_remove(orders, by, order),
        Counterparty::Implied(a, b) => {
            reduce_or_remove(orders, by, a);
            reduce_or_remove(orders, by, b);
        }
    }
}
