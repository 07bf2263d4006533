//! The statuses of a journal's orders: found by session and id, refused where an id was used, ended as their orders are.
use super::H6;
use crate::expect::holds_for;
use spread_match_statuses::Statuses;
use spread_rules::codes::ord_status::{CANCELED, FILLED, NEW, REPLACED};
use spread_rules::{Fill, Order, OrderStatus, Side};
use std::alloc::Global;
use std::process::Abort;
use tests_shared::id;

/// The place of an order of session 0, and its id.
#[derive(Clone, Copy)]
struct Own(u64, &'static [u8]);

/// An order that has a fill of one lot, which leaves so many.
#[derive(Clone, Copy)]
struct Filled(Own, u32);

/// What is done with the statuses, and what comes of it.
#[derive(Clone, Copy)]
enum Act {
    /// An order is added with this status. Whether its id was used before.
    Add(Own, u8, bool),
    /// Two orders have a fill each.
    Fills(Filled, Filled),
    /// Another order comes in the place of this one.
    Replace(Own),
    /// The place and the status of the earliest entry of that session and id.
    Find(u8, &'static [u8], Option<(u64, u8)>),
}

/// What a case shows, and what is done.
static CASES: [(&str, &[Act]); 3] = [
    (
        "a used id is refused, and the earliest found",
        &[
            Act::Find(0, b"a", None),
            Act::Add(Own(2, b"a"), NEW, false),
            Act::Add(Own(3, b"a"), NEW, true),
            Act::Find(0, b"a", Some((2, NEW))),
            Act::Find(1, b"a", None),
        ],
    ),
    (
        "an order of which nothing is left is filled",
        &[
            Act::Add(Own(2, b"a"), NEW, false),
            Act::Add(Own(3, b"b"), NEW, false),
            Act::Fills(Filled(Own(2, b"a"), 2), Filled(Own(3, b"b"), 0)),
            Act::Find(0, b"a", Some((2, NEW))),
            Act::Find(0, b"b", Some((3, FILLED))),
        ],
    ),
    (
        "an order in whose place another came is replaced",
        &[
            Act::Add(Own(2, b"a"), CANCELED, false),
            Act::Add(Own(3, b"b"), CANCELED, false),
            Act::Replace(Own(2, b"a")),
            Act::Find(0, b"a", Some((2, REPLACED))),
            Act::Find(0, b"b", Some((3, CANCELED))),
        ],
    ),
];

fn status(own: Own, status: u8) -> OrderStatus {
    OrderStatus {
        place: own.0,
        id: id(own.1),
        session: 0,
        status,
    }
}

fn fill(filled: Filled) -> Fill {
    let Filled(own, leaves) = filled;
    Fill {
        at: 4,
        order: own.0,
        session: 0,
        id: id(own.1),
        instrument: H6,
        side: Side::Buy,
        quantity: 1,
        price: 10_000,
        near: 10_000,
        far: 10_000,
        total: 3,
        leaves,
    }
}

/// An order of three lots, of which none has traded.
fn order(own: Own) -> Order {
    Order {
        place: own.0,
        price: 10_000,
        quantity: 3,
        leaves: 3,
        id: id(own.1),
        session: 0,
        instrument: H6,
        side: Side::Buy,
    }
}

/// The place and the status of the earliest entry of that session and id.
fn found(statuses: &Statuses<Global>, session: u8, name: &[u8]) -> Option<(u64, u8)> {
    let status = statuses.find(session, &id(name))?;
    Some((status.place, status.status))
}

/// Whether an act comes to what it should.
fn act_holds(statuses: &mut Statuses<Global>, act: Act) -> bool {
    match act {
        Act::Add(own, code, was_used) => statuses.add(status(own, code)) == Ok(was_used),
        Act::Fills(first, second) => {
            statuses.mark_filled(&[fill(first), fill(second)]);
            true
        }
        Act::Replace(own) => {
            statuses.mark_replaced(&order(own));
            true
        }
        Act::Find(session, name, wanted) => found(statuses, session, name) == wanted,
    }
}

fn expect_case(rt: &impl Abort, alloc: Global, shows: &str, acts: &[Act]) {
    let mut statuses = Statuses::new(alloc);
    statuses.reserve(2).expect(rt, "memory");
    for act in acts {
        holds_for(rt, act_holds(&mut statuses, *act), shows);
    }
}

#[test]
fn statuses_of_orders(rt: HostRuntime) {
    for (shows, acts) in &CASES {
        expect_case(&rt, rt.alloc(), shows, acts);
    }
}
