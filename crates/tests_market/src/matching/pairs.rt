//! Pairs of months that are switched on or off.
//! Rule M3 of docs/PROFILE.md.
use super::cases::Came::{Filled, Rested, Session};
use super::cases::Line::{Of, OfSpread};
use super::cases::Sent::{Buy, Logon, Sell};
use super::cases::{Case, expect_cases};
use super::quotes::{QuoteCase, expect_quotes};
use super::{H6, H6_M6, H6_U6, M6, M6_U6, U6};
use spread_rules::{Instrument, Side};

const H6_M6_OFF: &[u8] = b"tick 1\nmonth H6 10000\nmonth M6 9800\nmonth U6 9500\npair H6 M6 off\n";

pub(super) const H6_U6_OFF: &[u8] =
    b"tick 1\nmonth H6 10000\nmonth M6 9800\nmonth U6 9500\npair H6 U6 off\n";

static PAIRS: &[Case] = &[
    Case {
        name: "a pair that is off makes nothing implied: nor does the buyer of the spread lift two months",
        rulebook: H6_M6_OFF,
        journal: &[
            (0, Logon, Session),
            (0, Sell(b'a', H6, 1, 10000), Rested),
            (0, Buy(b'b', M6, 1, 9800), Rested),
            (0, Buy(b'c', H6_M6, 1, 200), Rested),
        ],
        fills: &[],
        resting: &[(2, 1), (3, 1), (4, 1)],
    },
    Case {
        name: "the pairs that are on trade",
        rulebook: H6_U6_OFF,
        journal: &[
            (0, Logon, Session),
            (0, Sell(b'a', H6, 1, 10000), Rested),
            (0, Buy(b'b', H6_U6, 1, 500), Rested),
            (0, Sell(b'c', M6, 1, 9800), Rested),
            (0, Buy(b'd', M6_U6, 1, 300), Rested),
            (0, Buy(b'e', U6, 1, 9500), Filled),
        ],
        fills: &[
            Of(6, 6, U6, Side::Buy, 1, 9500),
            OfSpread(
                6,
                5,
                Instrument::Spread(1, 2),
                Side::Buy,
                1,
                300,
                9800,
                9500,
            ),
            Of(6, 4, M6, Side::Sell, 1, 9800),
        ],
        resting: &[(2, 1), (3, 1)],
    },
    Case {
        name: "spreads of a pair that is off trade directly",
        rulebook: H6_M6_OFF,
        journal: &[
            (0, Logon, Session),
            (0, Sell(b'a', H6_M6, 4, 200), Rested),
            (0, Buy(b'b', H6_M6, 3, 250), Filled),
        ],
        fills: &[
            OfSpread(3, 3, H6_M6, Side::Buy, 3, 200, 10000, 9800),
            OfSpread(3, 2, H6_M6, Side::Sell, 3, 200, 10000, 9800),
        ],
        resting: &[(2, 1)],
    },
];

#[test]
fn pairs_are_switched(rt: HostRuntime) {
    expect_cases(&rt, rt.alloc(), PAIRS)
}

/// Orders that would make an implied quote of each spread with H6, and of U6.
static QUOTED: &[QuoteCase] = &[
    QuoteCase {
        case: Case {
            name: "quotes without the earlier pair",
            rulebook: H6_M6_OFF,
            journal: &[
                (0, Logon, Session),
                (0, Sell(b'a', H6, 1, 10000), Rested),
                (0, Buy(b'b', M6, 1, 9800), Rested),
                (0, Buy(b'c', U6, 1, 9500), Rested),
                (0, Buy(b'd', H6_U6, 1, 400), Rested),
            ],
            fills: &[],
            resting: &[(2, 1), (3, 1), (4, 1), (5, 1)],
        },
        quotes: &[
            (H6_M6, None),
            (H6_U6, Some((500, 2, 4))),
            (U6, Some((9600, 5, 2))),
            (H6, None),
        ],
    },
    QuoteCase {
        case: Case {
            name: "quotes without the later pair",
            rulebook: H6_U6_OFF,
            journal: &[
                (0, Logon, Session),
                (0, Sell(b'a', H6, 1, 10000), Rested),
                (0, Buy(b'b', M6, 1, 9800), Rested),
                (0, Buy(b'c', U6, 1, 9500), Rested),
                (0, Buy(b'd', H6_U6, 1, 400), Rested),
            ],
            fills: &[],
            resting: &[(2, 1), (3, 1), (4, 1), (5, 1)],
        },
        quotes: &[
            (H6_M6, Some((200, 2, 3))),
            (H6_U6, None),
            (U6, None),
            (H6, None),
        ],
    },
];

#[test]
fn quotes_without_a_pair(rt: HostRuntime) {
    expect_quotes(&rt, rt.alloc(), QUOTED)
}
