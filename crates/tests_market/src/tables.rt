//! The tables that books stand on, each called alone.
ghost use Rattle.std.specs.Prelude.{◌≡◌};

use crate::books::rows::is;
use crate::expect::holds;
use spread_books_plain::{front_with, is_in};
use spread_books_queues::{BestPrice, FrontTable, QueueHeaps, QueueRank, queue_number};
use spread_books_rows::{PlaceRows, is_own, with_quantity};
use spread_rules::{Instrument, Order, Side};
use std::alloc::Global;
use std::process::Abort;
use tests_shared::id;

/// Two of its five lots are filled.
fn seller() -> Order
    ensures place { result.place ≡ 7 }
    ensures leaves { result.leaves ≡ 3 }
{
    Order {
        place: 7,
        session: 1,
        id: id(b"a"),
        instrument: Instrument::Outright(2),
        side: Side::Sell,
        price: 9900,
        quantity: 5,
        leaves: 3,
    }
}

#[test]
fn filled_lots_are_kept(rt: HostRuntime) {
    let amended = with_quantity(&seller(), id(b"b"), 9);
    holds(
        &rt,
        amended
            == Order {
                id: id(b"b"),
                quantity: 9,
                leaves: 7,
                ..seller()
            },
    );
}

#[test]
fn rows_are_found(rt: HostRuntime) {
    let mut rows = PlaceRows::new(rt.alloc());
    let first = seller();
    rows.push(first).expect(&rt, "memory");
    holds(&rt, rows.count() == 1);
    holds(&rt, is(rows.get(7).copied(), &first));
    holds(&rt, rows.get(8).is_none());
    holds(&rt, is(rows.reduce(7, 2), &first));
    let left = Order { leaves: 1, ..first };
    holds(&rt, is(rows.nth(0), &left));
    holds(&rt, is(rows.amend(7, id(b"b"), 6), &left));
    let amended = Order {
        id: id(b"b"),
        quantity: 6,
        leaves: 2,
        ..first
    };
    holds(&rt, is(rows.get(7).copied(), &amended));
    holds(&rt, is(rows.remove(7), &amended));
    holds(&rt, rows.nth(0) == None);
    holds(&rt, rows.count() == 0);
}

/// A rank for that order, in its queue.
fn add_rank(rt: &impl Abort, queues: &mut QueueHeaps<Global>, order: &Order) {
    let queue = queue_number(order.instrument, order.side);
    queues
        .add(queue, QueueRank::new(order))
        .expect(rt, "memory");
}

/// The best price of that queue.
fn expect_best(rt: &impl Abort, queues: &QueueHeaps<Global>, queue: u32, price: i64, place: u64) {
    match queues.least(queue) {
        Some(rank) => {
            let best = rank.best_price(Side::Sell);
            holds(rt, best.price == price && best.place == place);
        }
        None => holds(rt, false),
    }
}

#[test]
fn ranks_of_a_queue(rt: HostRuntime) {
    let rests = seller();
    let left = Order {
        price: 9800,
        place: 8,
        ..rests
    };
    let mut rows = PlaceRows::new(rt.alloc());
    rows.push(rests).expect(&rt, "memory");
    let queue = queue_number(rests.instrument, rests.side);
    let mut queues = QueueHeaps::new(rt.alloc());
    holds(&rt, queues.least(queue).is_none());
    add_rank(&rt, &mut queues, &rests);
    add_rank(&rt, &mut queues, &left);
    expect_best(&rt, &queues, queue, 9800, 8);
    queues.settle(&rows, queue);
    expect_best(&rt, &queues, queue, 9900, 7);
    holds(
        &rt,
        queues
            .least(queue_number(rests.instrument, Side::Buy))
            .is_none(),
    );
    holds(&rt, is(rows.remove(7), &rests));
    queues.settle(&rows, queue);
    holds(&rt, queues.least(queue).is_none());
}

#[test]
fn ranks_of_many_that_left(rt: HostRuntime) {
    let rests = seller();
    let mut rows = PlaceRows::new(rt.alloc());
    rows.push(rests).expect(&rt, "memory");
    let queue = queue_number(rests.instrument, rests.side);
    let mut queues = QueueHeaps::new(rt.alloc());
    add_rank(&rt, &mut queues, &rests);
    for place in 8..74 {
        let left = Order {
            price: 9800,
            place,
            ..rests
        };
        queues.thin(&rows, queue);
        add_rank(&rt, &mut queues, &left);
    }
    expect_best(&rt, &queues, queue, 9800, 8);
    queues.thin(&rows, queue);
    expect_best(&rt, &queues, queue, 9900, 7);
}

#[test]
fn whose_a_row_is(rt: HostRuntime) {
    let first = seller();
    holds(&rt, is_own(&first, 1, &id(b"a")));
    holds(&rt, !is_own(&first, 0, &id(b"a")));
    holds(&rt, !is_own(&first, 1, &id(b"b")));
    let mut rows = PlaceRows::new(rt.alloc());
    rows.push(first).expect(&rt, "memory");
    holds(&rt, is(rows.find_own(1, &id(b"a")), &first));
    holds(&rt, rows.find_own(1, &id(b"b")) == None);
    holds(&rt, is(rows.remove(7), &first));
    holds(&rt, rows.find_own(1, &id(b"a")) == None);
}

/// A better price goes ahead of the front of its queue, the same price at a later place does not.
#[test]
fn fronts_of_a_queue(rt: HostRuntime) {
    let first = seller();
    let same = Order { place: 8, ..first };
    let better = Order {
        place: 9,
        price: 9800,
        ..first
    };
    holds(&rt, front_with(None, &first) == first);
    holds(&rt, front_with(Some(first), &same) == first);
    holds(&rt, front_with(Some(first), &better) == better);
    let month = Instrument::Outright(2);
    holds(&rt, is_in(&first, month, Side::Sell));
    holds(&rt, !is_in(&first, month, Side::Buy));
    holds(&rt, !is_in(&first, Instrument::Outright(1), Side::Sell));
}

#[test]
fn best_prices(rt: HostRuntime) {
    let front = seller();
    let mut prices = FrontTable::new(rt.alloc());
    holds(&rt, prices.is_empty());
    holds(
        &rt,
        prices.known_price(front.instrument, front.side).is_none(),
    );
    prices.make_room().expect(&rt, "memory");
    prices.put(front.instrument, front.side, Some(BestPrice::new(&front)));
    match prices.known_price(front.instrument, front.side) {
        Some(Some(best)) => {
            holds(&rt, best.place == 7);
            holds(
                &rt,
                best.level(front.instrument, front.side) == front.level(),
            );
        }
        _ => holds(&rt, false),
    }
    holds(
        &rt,
        matches!(prices.known_price(front.instrument, Side::Buy), Some(None)),
    );
    holds(
        &rt,
        prices
            .known_price(Instrument::Outright(24), Side::Buy)
            .is_none(),
    );
}
