//! The turns of a new order over orders that rest, in values.
ghost use Rattle.std.specs.Prelude.{neg_ℤ, pos, ◌≤ℤ◌};
ghost use Rattle.spread_rules.specs.code.Candidates.{HasOrderPrice};

use crate::expect::holds;
use crate::rules::three_months;
use explain_turns::{RankPoint, explain_order, plain_next, point_between};
use spread_rules::{Choice, Instrument, Members, Order, Side, chosen};
use tests_shared::id;

/// An order of session 0 of which nothing has traded.
fn order(place: u64, instrument: Instrument, side: Side, quantity: u32, price: i64) -> Order
    requires low { neg_ℤ (pos 1000000) ≤ℤ price }
    requires high { price ≤ℤ pos 1000000 }
    ensures { HasOrderPrice result }
{
    Order {
        place,
        session: 0,
        id: id(b"a"),
        instrument,
        side,
        price,
        quantity,
        leaves: quantity,
    }
}

/// A buyer of six lots meets a seller, and at the same price one of a spread with one of its far month.
#[test]
fn direct_before_implied(rt: HostRuntime) {
    let rules = three_months(&rt);
    let orders = [
        order(2, Instrument::Outright(0), Side::Sell, 2, 10_000),
        order(3, Instrument::Spread(0, 1), Side::Sell, 3, 200),
        order(4, Instrument::Outright(1), Side::Sell, 4, 9_800),
    ];
    let new = order(5, Instrument::Outright(0), Side::Buy, 6, 10_000);
    let first = plain_next(&rules, &orders, &new, &None).expect(&rt, "a candidate");
    let second = plain_next(&rules, &orders, &new, &Some(first)).expect(&rt, "a candidate");
    let two = Choice {
        price: 10_000,
        quantity: 2,
        members: Members::Direct(2),
    };
    let three = Choice {
        price: 10_000,
        quantity: 3,
        members: Members::Implied(3, 4),
    };
    holds(&rt, chosen(&new, &first) == two);
    holds(&rt, chosen(&new, &second) == three);
    holds(
        &rt,
        plain_next(&rules, &orders, &new, &Some(second)).is_none(),
    );
    let point = point_between(&new, &first, &second);
    holds(&rt, matches!(point, RankPoint::DirectFirst));
    let resting = Vec::from_slice(rt.alloc(), &orders).expect(&rt, "memory");
    let told = explain_order(rt.alloc(), &rules, resting, &new).expect(&rt, "memory");
    holds(&rt, told.turns.len() == 2 && told.left == 1);
    holds(&rt, told.beyond.is_none());
}
