//! The best candidate beyond a new order's limit.
ghost use Rattle.std.specs.Prelude.{◌≡◌, ◌<◌, All, IfSome};
ghost use Rattle.spread_rules.specs.code.Candidates.{HasOrderPrice, HasLegPrice};
ghost use Rattle.spread_rules_rulebook.specs.Prices.{IsLegPrice, IsOrderPrice};
ghost use Rattle.explain_turns.specs.Explained.{IsBeyond, ticks_between, without_limit};

use crate::next::plain_next;
use crate::turn::Beyond;
use spread_rules::{Order, Rulebook, Side};
use spread_rules_ids::limits::MAX_LEG_PRICE;

/// The order at a limit that no price of a candidate lies beyond.
fn without_limit(new: &Order) -> Order
    ensures { result ≡ without_limit new.now }
{
    Order {
        price: match new.side {
            Side::Buy => MAX_LEG_PRICE,
            Side::Sell => -MAX_LEG_PRICE,
        },
        ..*new
    }
}

/// How many ticks lie between two prices.
fn ticks_between(rules: &Rulebook, price: i64, limit: i64) -> u64
    requires price { IsLegPrice price }
    requires limit { IsOrderPrice limit }
    ensures { result ≡ ticks_between rules.now price limit }
{
    (price - limit).unsigned_abs() / rules.tick().unsigned_abs()
}

/// The best candidate whatever the limit, where something is left of the order.
pub fn beyond_limit(rules: &Rulebook, orders: &[Order], left: &Order) -> Option<Beyond>
    requires order_price { All HasOrderPrice orders.now }
    requires limit { HasOrderPrice left.now }
    ensures beyond { IsBeyond rules.now left.now orders.now result }
    ensures leg_price { IfSome result (λ b. HasLegPrice b.candidate) }
{
    if left.leaves == 0 {
        return None;
    }
    match plain_next(rules, orders, &without_limit(left), &None) {
        None => None,
        Some(candidate) => Some(Beyond {
            candidate,
            ticks: ticks_between(rules, candidate.price, left.price),
        }),
    }
}
