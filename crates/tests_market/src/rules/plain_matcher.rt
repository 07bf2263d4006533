//! The plain matcher over the worked rows.
ghost use Rattle.std.specs.Prelude.{◌≡◌, All, true};
ghost use Rattle.spread_rules.specs.code.Candidates.{HasOrderPrice};

use super::{H6, M6, THREE_MONTHS, U6};
use crate::books::checked::add;
use crate::books::listed::are_listed;
use crate::expect::{holds, holds_for};
use spread_books::ListBook;
use spread_books_search::best_candidate;
use spread_rules::Side::{Buy, Sell};
use spread_rules::{Choice, Instrument, Members, Order, Rulebook, Side, chosen, plain_best};
use spread_rules_ids::Id;
use std::alloc::Global;
use std::process::Abort;

/// An order: its place, its instrument, its side, its quantity and its price.
struct Placed(u64, Instrument, Side, u32, i64);

/// Orders that rest, a new one, and what that would trade with first.
struct Case {
    name: &'static str,
    resting: &'static [Placed],
    new: Placed,
    wanted: Option<Choice>,
}

const H6_M6: Instrument = Instrument::Spread(0, 1);

const H6_U6: Instrument = Instrument::Spread(0, 2);

const M6_U6: Instrument = Instrument::Spread(1, 2);

static CASES: &[Case] = &[
    Case {
        name: "spread meets two months",
        resting: &[Placed(2, H6, Sell, 1, 10000), Placed(3, M6, Buy, 1, 9800)],
        new: Placed(4, H6_M6, Buy, 1, 200),
        wanted: Some(Choice {
            price: 200,
            quantity: 1,
            members: Members::Implied(2, 3),
        }),
    },
    Case {
        name: "spread at a lower price does not meet two months",
        resting: &[Placed(2, H6, Sell, 1, 10000), Placed(3, M6, Buy, 1, 9800)],
        new: Placed(4, H6_M6, Buy, 1, 199),
        wanted: None,
    },
    Case {
        name: "direct before implied",
        resting: &[
            Placed(2, H6, Sell, 2, 10000),
            Placed(3, H6_M6, Sell, 3, 200),
            Placed(4, M6, Sell, 4, 9800),
        ],
        new: Placed(5, H6, Buy, 6, 10000),
        wanted: Some(Choice {
            price: 10000,
            quantity: 2,
            members: Members::Direct(2),
        }),
    },
    Case {
        name: "implied where there is no direct one",
        resting: &[Placed(3, H6_M6, Sell, 3, 200), Placed(4, M6, Sell, 4, 9800)],
        new: Placed(5, H6, Buy, 6, 10000),
        wanted: Some(Choice {
            price: 10000,
            quantity: 3,
            members: Members::Implied(3, 4),
        }),
    },
    Case {
        name: "earlier month first",
        resting: &[
            Placed(2, H6, Sell, 1, 10000),
            Placed(3, H6_U6, Buy, 1, 500),
            Placed(4, M6, Sell, 1, 9800),
            Placed(5, M6_U6, Buy, 1, 300),
        ],
        new: Placed(6, U6, Buy, 1, 9500),
        wanted: Some(Choice {
            price: 9500,
            quantity: 1,
            members: Members::Implied(3, 2),
        }),
    },
    Case {
        name: "negative prices",
        resting: &[Placed(2, H6_M6, Sell, 1, -300), Placed(3, M6, Sell, 1, 200)],
        new: Placed(4, H6, Buy, 1, -100),
        wanted: Some(Choice {
            price: -100,
            quantity: 1,
            members: Members::Implied(2, 3),
        }),
    },
];

fn order_of(placed: &Placed) -> Order {
    Order {
        place: placed.0,
        session: 0,
        id: Id::default(),
        instrument: placed.1,
        side: placed.2,
        price: placed.4,
        quantity: placed.3,
        leaves: placed.3,
    }
}

fn orders_of(rt: &impl Abort, alloc: Global, resting: &[Placed]) -> Vec<Order> {
    let mut orders = Vec::new(alloc);
    for placed in resting {
        orders.push(order_of(placed)).expect(rt, "memory");
    }
    orders
}

fn is_priced(order: &Order) -> bool
    ensures { result ≡ true → HasOrderPrice order.now }
{
    order.price >= -1_000_000_000 && order.price <= 1_000_000_000
}

fn are_priced(orders: &[Order]) -> bool
    ensures { result ≡ true → All HasOrderPrice orders.now }
{
    for order in orders {
        if !is_priced(order) {
            return false;
        }
    }
    true
}

/// What the new order of a case would trade with first is what is wanted.
fn expect_choice(rt: &impl Abort, rules: &Rulebook, orders: &[Order], case: &Case) {
    holds(rt, are_priced(orders));
    let choice = plain_best(rules, orders, &order_of(&case.new));
    holds_for(rt, choice == case.wanted, case.name);
}

/// A book in which these orders rest.
fn book_of(rt: &impl Abort, alloc: Global, resting: &[Placed]) -> ListBook<Global> {
    let mut book = ListBook::new(alloc);
    for placed in resting {
        let added = add(&mut book, order_of(placed));
        holds(rt, added == Ok(true));
    }
    book
}

/// What the search over a book finds for the new order of a case is what is wanted.
fn expect_found(rt: &impl Abort, rules: &Rulebook, book: &ListBook<Global>, case: &Case) {
    holds(rt, are_listed(book, rules.months()));
    let new = order_of(&case.new);
    let choice = match best_candidate(book, rules, &new) {
        None => None,
        Some(found) => Some(chosen(&new, &found)),
    };
    holds_for(rt, choice == case.wanted, case.name);
}

#[test]
fn worked_rows(rt: HostRuntime) {
    let rules = Rulebook::read(THREE_MONTHS).expect(&rt, "a rulebook");
    for case in CASES {
        let orders = orders_of(&rt, rt.alloc(), case.resting);
        expect_choice(&rt, &rules, &orders, case);
    }
}

/// The search over a book comes to the same rows.
#[test]
fn worked_rows_over_a_book(rt: HostRuntime) {
    let rules = Rulebook::read(THREE_MONTHS).expect(&rt, "a rulebook");
    for case in CASES {
        let book = book_of(&rt, rt.alloc(), case.resting);
        expect_found(&rt, &rules, &book, case);
    }
}
