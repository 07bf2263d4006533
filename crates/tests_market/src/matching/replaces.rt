//! Replace requests: refused, with the place kept, and with the place lost.
//! Rule M10 of docs/PROFILE.md.
use super::cases::Came::{Cancelled, Filled, Refused, Replaced, RequestRefused, Rested, Session};
use super::cases::Line::{Of, OfSpread};
use super::cases::Sent::{Buy, Cancel, Logon, ReplaceBuy, ReplaceSell, ReplaceSellNow, Sell};
use super::cases::{Case, Kept, expect_cases};
use super::{H6, H6_M6, M6, X6};
use spread_rules::Side;
use tests_shared::THREE_MONTHS;

const TICK_OF_FIVE: &[u8] = b"tick 5\nmonth H6 10000\nmonth M6 9800\n";

/// An order that wants no more than before, at its price, keeps its place.
static KEPT: &[Case] = &[
    Case {
        name: "the kept place is bought first: one order keeps its place with 3 lots, the other loses its with 6",
        rulebook: THREE_MONTHS,
        journal: &[
            (0, Logon, Session),
            (0, Sell(b'a', H6, 5, 10000), Rested),
            (0, Sell(b'b', H6, 5, 10000), Rested),
            (
                0,
                ReplaceSell(b'a', b'c', H6, 3, 10000),
                Replaced(Kept(2, b'c', H6, Side::Sell, 10000, 3, 3)),
            ),
            (
                0,
                ReplaceSell(b'b', b'd', H6, 6, 10000),
                Replaced(Kept(5, b'd', H6, Side::Sell, 10000, 6, 6)),
            ),
            (0, Buy(b'e', H6, 4, 10000), Filled),
        ],
        fills: &[
            Of(6, 6, H6, Side::Buy, 3, 10000),
            Of(6, 2, H6, Side::Sell, 3, 10000),
            Of(6, 6, H6, Side::Buy, 1, 10000),
            Of(6, 5, H6, Side::Sell, 1, 10000),
        ],
        resting: &[(5, 5)],
    },
    Case {
        name: "requests behind these two sellers",
        rulebook: THREE_MONTHS,
        journal: &[
            (0, Logon, Session),
            (0, Sell(b'a', H6, 5, 10000), Rested),
            (0, Sell(b'b', H6, 5, 10000), Rested),
            (
                0,
                ReplaceSell(b'a', b'c', H6, 3, 10000),
                Replaced(Kept(2, b'c', H6, Side::Sell, 10000, 3, 3)),
            ),
            (
                0,
                ReplaceSell(b'b', b'd', H6, 6, 10000),
                Replaced(Kept(5, b'd', H6, Side::Sell, 10000, 6, 6)),
            ),
            (0, Buy(b'e', H6, 4, 10000), Filled),
            (
                0,
                ReplaceSell(b'd', b'f', H6, 1, 10000),
                RequestRefused(0, 5, 1),
            ),
            (
                0,
                ReplaceSell(b'd', b'f', H6, 9, 9900),
                RequestRefused(2, 5, 1),
            ),
            (0, Cancel(b'g', b'a'), RequestRefused(0, 2, 5)),
            (0, Cancel(b'h', b'c'), RequestRefused(0, 2, 2)),
        ],
        fills: &[
            Of(6, 6, H6, Side::Buy, 3, 10000),
            Of(6, 2, H6, Side::Sell, 3, 10000),
            Of(6, 6, H6, Side::Buy, 1, 10000),
            Of(6, 5, H6, Side::Sell, 1, 10000),
        ],
        resting: &[(5, 5)],
    },
    Case {
        name: "a later order does not go ahead of one that is amended twice, once with two of its lots filled",
        rulebook: THREE_MONTHS,
        journal: &[
            (0, Sell(b'a', H6, 5, 10000), Rested),
            (0, Sell(b'b', H6, 5, 10000), Rested),
            (
                0,
                ReplaceSell(b'a', b'c', H6, 5, 10000),
                Replaced(Kept(1, b'c', H6, Side::Sell, 10000, 5, 5)),
            ),
            (0, Buy(b'd', H6, 2, 10000), Filled),
            (
                0,
                ReplaceSell(b'c', b'e', H6, 3, 10000),
                Replaced(Kept(1, b'e', H6, Side::Sell, 10000, 3, 1)),
            ),
            (0, Buy(b'f', H6, 2, 10000), Filled),
        ],
        fills: &[
            Of(4, 4, H6, Side::Buy, 2, 10000),
            Of(4, 1, H6, Side::Sell, 2, 10000),
            Of(6, 6, H6, Side::Buy, 1, 10000),
            Of(6, 1, H6, Side::Sell, 1, 10000),
            Of(6, 6, H6, Side::Buy, 1, 10000),
            Of(6, 2, H6, Side::Sell, 1, 10000),
        ],
        resting: &[(2, 4)],
    },
];

/// One that wants more, or another price, loses its place.
static LOST: &[Case] = &[
    Case {
        name: "an order that wants one lot more goes behind, with two of its lots filled",
        rulebook: THREE_MONTHS,
        journal: &[
            (0, Sell(b'a', H6, 5, 10000), Rested),
            (0, Sell(b'b', H6, 1, 10000), Rested),
            (0, Buy(b'c', H6, 2, 10000), Filled),
            (
                0,
                ReplaceSell(b'a', b'd', H6, 6, 10000),
                Replaced(Kept(4, b'd', H6, Side::Sell, 10000, 6, 4)),
            ),
            (0, Buy(b'e', H6, 2, 10000), Filled),
            (
                0,
                Cancel(b'f', b'd'),
                Cancelled(Kept(4, b'd', H6, Side::Sell, 10000, 6, 3)),
            ),
        ],
        fills: &[
            Of(3, 3, H6, Side::Buy, 2, 10000),
            Of(3, 1, H6, Side::Sell, 2, 10000),
            Of(5, 5, H6, Side::Buy, 1, 10000),
            Of(5, 2, H6, Side::Sell, 1, 10000),
            Of(5, 5, H6, Side::Buy, 1, 10000),
            Of(5, 4, H6, Side::Sell, 1, 10000),
        ],
        resting: &[],
    },
    Case {
        name: "another price trades at once: a spread that no one met takes the price of its two months",
        rulebook: THREE_MONTHS,
        journal: &[
            (0, Sell(b'a', H6, 1, 10000), Rested),
            (0, Buy(b'b', M6, 1, 9800), Rested),
            (0, Buy(b'c', H6_M6, 3, 100), Rested),
            (
                0,
                ReplaceBuy(b'c', b'd', H6_M6, 2, 200),
                Replaced(Kept(4, b'd', H6_M6, Side::Buy, 200, 2, 2)),
            ),
            (0, Cancel(b'e', b'c'), RequestRefused(0, 3, 5)),
            (
                0,
                Cancel(b'f', b'd'),
                Cancelled(Kept(4, b'd', H6_M6, Side::Buy, 200, 2, 1)),
            ),
        ],
        fills: &[
            OfSpread(4, 4, H6_M6, Side::Buy, 1, 200, 10000, 9800),
            Of(4, 1, H6, Side::Sell, 1, 10000),
            Of(4, 2, M6, Side::Buy, 1, 9800),
        ],
        resting: &[],
    },
];

/// Which ids a request uses up, and what the ids of a chain of requests stand for, in each session by itself.
static IDS: &[Case] = &[
    Case {
        name: "a refused request has used up its id, whatever refused it",
        rulebook: THREE_MONTHS,
        journal: &[
            (0, Sell(b'a', H6, 5, 10000), Rested),
            (
                0,
                ReplaceSell(b'z', b'b', H6, 4, 10000),
                RequestRefused(1, 0, 8),
            ),
            (
                0,
                ReplaceSell(b'a', b'c', M6, 4, 10000),
                RequestRefused(2, 1, 0),
            ),
            (
                0,
                ReplaceSell(b'a', b'b', H6, 4, 10000),
                RequestRefused(2, 1, 0),
            ),
            (
                0,
                ReplaceSell(b'a', b'c', H6, 4, 10000),
                RequestRefused(2, 1, 0),
            ),
            (0, Sell(b'b', H6, 1, 10000), Refused(6)),
            (0, Sell(b'c', H6, 1, 10000), Refused(6)),
            (0, Cancel(b'd', b'b'), RequestRefused(0, 2, 8)),
            (0, Cancel(b'e', b'c'), RequestRefused(0, 3, 8)),
            (
                0,
                ReplaceSell(b'a', b'd', H6, 4, 10000),
                Replaced(Kept(1, b'd', H6, Side::Sell, 10000, 4, 4)),
            ),
        ],
        fills: &[],
        resting: &[(1, 4)],
    },
    Case {
        name: "statuses of a chain: a place kept, then lost, then the last order filled or cancelled",
        rulebook: THREE_MONTHS,
        journal: &[
            (0, Sell(b'a', H6, 5, 10000), Rested),
            (
                0,
                ReplaceSell(b'a', b'b', H6, 4, 10000),
                Replaced(Kept(1, b'b', H6, Side::Sell, 10000, 4, 4)),
            ),
            (
                0,
                ReplaceSell(b'b', b'c', H6, 6, 10000),
                Replaced(Kept(3, b'c', H6, Side::Sell, 10000, 6, 6)),
            ),
            (0, Sell(b'd', M6, 5, 9800), Rested),
            (
                0,
                ReplaceSell(b'd', b'e', M6, 3, 9800),
                Replaced(Kept(4, b'e', M6, Side::Sell, 9800, 3, 3)),
            ),
            (
                0,
                Cancel(b'f', b'e'),
                Cancelled(Kept(4, b'e', M6, Side::Sell, 9800, 3, 3)),
            ),
            (0, Buy(b'g', H6, 6, 10000), Filled),
            (0, Cancel(b'h', b'a'), RequestRefused(0, 1, 5)),
            (0, Cancel(b'i', b'b'), RequestRefused(0, 1, 5)),
            (0, Cancel(b'j', b'c'), RequestRefused(0, 3, 2)),
            (0, Cancel(b'k', b'd'), RequestRefused(0, 4, 5)),
            (0, Cancel(b'l', b'e'), RequestRefused(0, 4, 4)),
            (
                0,
                ReplaceSell(b'a', b'm', H6, 5, 10000),
                RequestRefused(0, 1, 5),
            ),
            (
                0,
                ReplaceSell(b'c', b'n', H6, 9, 10000),
                RequestRefused(0, 3, 2),
            ),
            (
                0,
                ReplaceSell(b'e', b'o', M6, 5, 9800),
                RequestRefused(0, 4, 4),
            ),
        ],
        fills: &[
            Of(7, 7, H6, Side::Buy, 6, 10000),
            Of(7, 3, H6, Side::Sell, 6, 10000),
        ],
        resting: &[],
    },
    Case {
        name: "orders of another session stay: it has no order of that id, and may use all ids that this one used",
        rulebook: THREE_MONTHS,
        journal: &[
            (0, Sell(b'a', H6, 5, 10000), Rested),
            (
                1,
                ReplaceSell(b'a', b'b', H6, 4, 10000),
                RequestRefused(1, 0, 8),
            ),
            (1, Sell(b'a', M6, 5, 9800), Rested),
            (
                0,
                ReplaceSell(b'a', b'b', H6, 4, 10000),
                Replaced(Kept(1, b'b', H6, Side::Sell, 10000, 4, 4)),
            ),
            (1, Cancel(b'c', b'b'), RequestRefused(0, 2, 8)),
        ],
        fills: &[],
        resting: &[(1, 4), (3, 5)],
    },
];

/// Every request for the seller is refused, and leaves it as it was: a cancel ends it at last.
static UNFIT: &[Case] = &[
    Case {
        name: "what does not fit is refused: a used id first, then one thing of each that does not fit",
        rulebook: TICK_OF_FIVE,
        journal: &[
            (0, Sell(b'a', H6, 5, 10000), Rested),
            (0, Sell(b'z', M6, 1, 20000), Rested),
            (0, Buy(b'y', H6, 0, 10000), Refused(3)),
            (
                0,
                ReplaceSell(b'a', b'z', H6, 4, 10000),
                RequestRefused(2, 1, 0),
            ),
            (
                0,
                ReplaceSell(b'a', b'm', M6, 4, 10000),
                RequestRefused(2, 1, 0),
            ),
            (
                0,
                ReplaceSell(b'a', b'n', X6, 4, 10000),
                RequestRefused(2, 1, 0),
            ),
            (
                0,
                ReplaceBuy(b'a', b'o', H6, 4, 10000),
                RequestRefused(2, 1, 0),
            ),
            (
                0,
                ReplaceSell(b'a', b'p', H6, 0, 10000),
                RequestRefused(2, 1, 0),
            ),
            (
                0,
                ReplaceSell(b'a', b'q', H6, 1_000_000, 10000),
                RequestRefused(2, 1, 0),
            ),
            (
                0,
                ReplaceSell(b'a', b'r', H6, 4, 10001),
                RequestRefused(2, 1, 0),
            ),
            (
                0,
                ReplaceSellNow(b'a', b's', H6, 4, 10000),
                RequestRefused(2, 1, 0),
            ),
            (
                0,
                Cancel(b'x', b'a'),
                Cancelled(Kept(1, b'a', H6, Side::Sell, 10000, 5, 5)),
            ),
        ],
        fills: &[],
        resting: &[(2, 1)],
    },
    Case {
        name: "what does not fit is refused where two lots are filled",
        rulebook: TICK_OF_FIVE,
        journal: &[
            (0, Sell(b'a', H6, 5, 10000), Rested),
            (0, Sell(b'z', M6, 1, 20000), Rested),
            (0, Buy(b'y', H6, 2, 10000), Filled),
            (
                0,
                ReplaceSell(b'a', b'z', H6, 4, 10000),
                RequestRefused(2, 1, 1),
            ),
            (
                0,
                ReplaceSell(b'a', b'm', M6, 4, 10000),
                RequestRefused(2, 1, 1),
            ),
            (
                0,
                ReplaceSell(b'a', b'n', X6, 4, 10000),
                RequestRefused(2, 1, 1),
            ),
            (
                0,
                ReplaceBuy(b'a', b'o', H6, 4, 10000),
                RequestRefused(2, 1, 1),
            ),
            (
                0,
                ReplaceSell(b'a', b'p', H6, 0, 10000),
                RequestRefused(2, 1, 1),
            ),
            (
                0,
                ReplaceSell(b'a', b'q', H6, 1_000_000, 10000),
                RequestRefused(2, 1, 1),
            ),
            (
                0,
                ReplaceSell(b'a', b'r', H6, 4, 10001),
                RequestRefused(2, 1, 1),
            ),
            (
                0,
                ReplaceSellNow(b'a', b's', H6, 4, 10000),
                RequestRefused(2, 1, 1),
            ),
            (
                0,
                Cancel(b'x', b'a'),
                Cancelled(Kept(1, b'a', H6, Side::Sell, 10000, 5, 3)),
            ),
        ],
        fills: &[
            Of(3, 3, H6, Side::Buy, 2, 10000),
            Of(3, 1, H6, Side::Sell, 2, 10000),
        ],
        resting: &[(2, 1)],
    },
    Case {
        name: "what does not fit is refused as such, also where no more is wanted than is filled",
        rulebook: TICK_OF_FIVE,
        journal: &[
            (0, Sell(b'a', H6, 5, 10000), Rested),
            (0, Sell(b'z', M6, 1, 20000), Rested),
            (0, Buy(b'y', H6, 3, 10000), Filled),
            (
                0,
                ReplaceBuy(b'a', b'm', H6, 3, 10000),
                RequestRefused(2, 1, 1),
            ),
            (
                0,
                ReplaceSell(b'a', b'n', H6, 1, 10001),
                RequestRefused(2, 1, 1),
            ),
            (
                0,
                ReplaceSellNow(b'a', b'o', H6, 2, 10000),
                RequestRefused(2, 1, 1),
            ),
            (
                0,
                Cancel(b'x', b'a'),
                Cancelled(Kept(1, b'a', H6, Side::Sell, 10000, 5, 2)),
            ),
        ],
        fills: &[
            Of(3, 3, H6, Side::Buy, 3, 10000),
            Of(3, 1, H6, Side::Sell, 3, 10000),
        ],
        resting: &[(2, 1)],
    },
];

/// The same where a used id or too late a request refuses them.
static USED_OR_LATE: &[Case] = &[
    Case {
        name: "a used id is refused before all else, also where nothing else fits",
        rulebook: TICK_OF_FIVE,
        journal: &[
            (0, Sell(b'a', H6, 5, 10000), Rested),
            (0, Sell(b'z', M6, 1, 20000), Rested),
            (0, Buy(b'y', H6, 0, 10000), Refused(3)),
            (
                0,
                ReplaceBuy(b'a', b'z', X6, 0, 10001),
                RequestRefused(2, 1, 0),
            ),
            (
                0,
                ReplaceSell(b'a', b'z', H6, 2, 10000),
                RequestRefused(2, 1, 0),
            ),
            (
                0,
                ReplaceSell(b'a', b'a', H6, 4, 10000),
                RequestRefused(2, 1, 0),
            ),
            (
                0,
                ReplaceSell(b'a', b'a', H6, 9, 10005),
                RequestRefused(2, 1, 0),
            ),
            (
                0,
                ReplaceSellNow(b'a', b'y', H6, 4, 10000),
                RequestRefused(2, 1, 0),
            ),
            (
                0,
                Cancel(b'x', b'a'),
                Cancelled(Kept(1, b'a', H6, Side::Sell, 10000, 5, 5)),
            ),
        ],
        fills: &[],
        resting: &[(2, 1)],
    },
    Case {
        name: "a used id is refused before all else where two lots are filled",
        rulebook: TICK_OF_FIVE,
        journal: &[
            (0, Sell(b'a', H6, 5, 10000), Rested),
            (0, Sell(b'z', M6, 1, 20000), Rested),
            (0, Buy(b'y', H6, 2, 10000), Filled),
            (
                0,
                ReplaceBuy(b'a', b'z', X6, 0, 10001),
                RequestRefused(2, 1, 1),
            ),
            (
                0,
                ReplaceSell(b'a', b'z', H6, 2, 10000),
                RequestRefused(2, 1, 1),
            ),
            (
                0,
                ReplaceSell(b'a', b'a', H6, 4, 10000),
                RequestRefused(2, 1, 1),
            ),
            (
                0,
                ReplaceSell(b'a', b'a', H6, 9, 10005),
                RequestRefused(2, 1, 1),
            ),
            (
                0,
                ReplaceSellNow(b'a', b'y', H6, 4, 10000),
                RequestRefused(2, 1, 1),
            ),
            (
                0,
                Cancel(b'x', b'a'),
                Cancelled(Kept(1, b'a', H6, Side::Sell, 10000, 5, 3)),
            ),
        ],
        fills: &[
            Of(3, 3, H6, Side::Buy, 2, 10000),
            Of(3, 1, H6, Side::Sell, 2, 10000),
        ],
        resting: &[(2, 1)],
    },
    Case {
        name: "no more than is filled is too late",
        rulebook: TICK_OF_FIVE,
        journal: &[
            (0, Sell(b'a', H6, 5, 10000), Rested),
            (0, Sell(b'z', M6, 1, 20000), Rested),
            (0, Buy(b'y', H6, 3, 10000), Filled),
            (
                0,
                ReplaceSell(b'a', b'm', H6, 3, 10000),
                RequestRefused(0, 1, 1),
            ),
            (
                0,
                ReplaceSell(b'a', b'n', H6, 1, 10000),
                RequestRefused(0, 1, 1),
            ),
            (
                0,
                ReplaceSell(b'a', b'o', H6, 2, 9995),
                RequestRefused(0, 1, 1),
            ),
            (
                0,
                Cancel(b'x', b'a'),
                Cancelled(Kept(1, b'a', H6, Side::Sell, 10000, 5, 2)),
            ),
        ],
        fills: &[
            Of(3, 3, H6, Side::Buy, 3, 10000),
            Of(3, 1, H6, Side::Sell, 3, 10000),
        ],
        resting: &[(2, 1)],
    },
];

#[test]
fn places_are_kept(rt: HostRuntime) {
    expect_cases(&rt, rt.alloc(), KEPT)
}

#[test]
fn places_are_lost(rt: HostRuntime) {
    expect_cases(&rt, rt.alloc(), LOST)
}

#[test]
fn ids_are_used_up(rt: HostRuntime) {
    expect_cases(&rt, rt.alloc(), IDS)
}

#[test]
fn unfit_requests_are_refused(rt: HostRuntime) {
    expect_cases(&rt, rt.alloc(), UNFIT)
}

#[test]
fn used_ids_and_late_requests_are_refused(rt: HostRuntime) {
    expect_cases(&rt, rt.alloc(), USED_OR_LATE)
}
