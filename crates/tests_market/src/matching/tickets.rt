//! What a ticket makes of an order, before any order trades.
use super::{H6, rulebook, ticket};
use crate::expect::holds;
use spread_match_orders::{
    judge, keeps_place, moved_order, new_order, outcome_with, refusal, replace_refusal,
    resting_status,
};
use spread_rules::{Order, Outcome, Side, Ticket};
use tests_shared::{THREE_MONTHS, id};

/// Five lots that are sold at 100.00.
fn five_lots() -> Ticket {
    ticket(b"a", b"H6", Side::Sell, 5, 10_000)
}

/// Their order at place 2, of which two lots are filled.
fn partly_filled() -> Order {
    Order {
        place: 2,
        session: 1,
        id: id(b"a"),
        instrument: H6,
        side: Side::Sell,
        price: 10_000,
        quantity: 5,
        leaves: 3,
    }
}

/// A ticket is judged by its symbol, its quantity and its price, in this order. A used id is told before all of them.
#[test]
fn a_ticket_that_is_refused(rt: HostRuntime) {
    let rules = rulebook(&rt, b"tick 5\nmonth H6 10000\n", "a rulebook");
    holds(&rt, judge(&rules, &five_lots()) == Ok(H6));
    let unknown = ticket(b"a", b"X6", Side::Sell, 0, 10_001);
    holds(&rt, judge(&rules, &unknown) == Err(1));
    let no_lots = ticket(b"a", b"H6", Side::Sell, 0, 10_001);
    holds(&rt, judge(&rules, &no_lots) == Err(3));
    let off_tick = ticket(b"a", b"H6", Side::Sell, 5, 10_001);
    holds(&rt, judge(&rules, &off_tick) == Err(0));
    holds(&rt, refusal(false, 0) == Outcome::Refused(0));
    holds(&rt, refusal(true, 0) == Outcome::Refused(6));
}

/// An order is whole at first, and new until a lot of it is filled.
#[test]
fn a_new_order(rt: HostRuntime) {
    let whole = Order {
        leaves: 5,
        ..partly_filled()
    };
    holds(&rt, new_order(2, 1, &five_lots(), H6) == whole);
    holds(&rt, resting_status(&whole) == 0);
    holds(&rt, resting_status(&partly_filled()) == 1);
}

/// With nothing left it is filled; else a day order rests, and an immediate one ends.
#[test]
fn an_order_that_has_traded(rt: HostRuntime) {
    holds(&rt, outcome_with(false, 0) == Outcome::Filled);
    holds(&rt, outcome_with(false, 3) == Outcome::Rested);
    holds(&rt, outcome_with(true, 3) == Outcome::Ended { left: 3 });
}

/// The place is kept at the same price and for no more lots. What was filled stays filled.
#[test]
fn an_order_that_is_replaced(rt: HostRuntime) {
    let fewer = ticket(b"b", b"H6", Side::Sell, 4, 10_000);
    let more = ticket(b"b", b"H6", Side::Sell, 6, 10_000);
    let cheaper = ticket(b"b", b"H6", Side::Sell, 4, 9_900);
    holds(&rt, keeps_place(&fewer, &partly_filled()));
    holds(&rt, !keeps_place(&more, &partly_filled()));
    holds(&rt, !keeps_place(&cheaper, &partly_filled()));
    let moved = Order {
        place: 7,
        id: id(b"b"),
        price: 9_900,
        quantity: 4,
        leaves: 2,
        ..partly_filled()
    };
    holds(&rt, moved_order(7, &cheaper, &partly_filled()) == moved);
}

/// A used id comes first, and then no more lots than the two that are filled.
#[test]
fn a_replace_that_is_refused(rt: HostRuntime) {
    let rules = rulebook(&rt, THREE_MONTHS, "a rulebook");
    let two = ticket(b"b", b"H6", Side::Sell, 2, 10_000);
    let three = ticket(b"b", b"H6", Side::Sell, 3, 10_000);
    let refusal = replace_refusal(&rules, &two, &partly_filled(), true);
    holds(&rt, refusal == Some(2));
    let refusal = replace_refusal(&rules, &two, &partly_filled(), false);
    holds(&rt, refusal == Some(0));
    holds(
        &rt,
        replace_refusal(&rules, &three, &partly_filled(), false) == None,
    );
}
