//! The worked rows of matching.
//! Rules M1, M3 to M8 of docs/PROFILE.md.
use super::cases::Came::{Ended, Filled, Rested, Session};
use super::cases::Line::{Of, OfSpread};
use super::cases::Sent::{Buy, BuyNow, Logon, Sell};
use super::cases::{Case, expect_cases};
use super::{H6, H6_M6, H6_U6, M6, M6_U6, U6};
use spread_rules::Side;
use tests_shared::THREE_MONTHS;

static ROWS: &[Case] = &[
    Case {
        name: "spread lifts two months",
        rulebook: THREE_MONTHS,
        journal: &[
            (0, Logon, Session),
            (0, Sell(b'a', H6, 1, 10000), Rested),
            (0, Buy(b'b', M6, 1, 9800), Rested),
            (0, Buy(b'c', H6_M6, 1, 200), Filled),
        ],
        fills: &[
            OfSpread(4, 4, H6_M6, Side::Buy, 1, 200, 10000, 9800),
            Of(4, 2, H6, Side::Sell, 1, 10000),
            Of(4, 3, M6, Side::Buy, 1, 9800),
        ],
        resting: &[],
    },
    Case {
        name: "direct before implied",
        rulebook: THREE_MONTHS,
        journal: &[
            (0, Logon, Session),
            (0, Sell(b'a', H6, 2, 10000), Rested),
            (0, Sell(b'b', H6_M6, 3, 200), Rested),
            (0, Sell(b'c', M6, 4, 9800), Rested),
            (0, Buy(b'd', H6, 6, 10000), Rested),
        ],
        fills: &[
            Of(5, 5, H6, Side::Buy, 2, 10000),
            Of(5, 2, H6, Side::Sell, 2, 10000),
            Of(5, 5, H6, Side::Buy, 3, 10000),
            OfSpread(5, 3, H6_M6, Side::Sell, 3, 200, 10000, 9800),
            Of(5, 4, M6, Side::Sell, 3, 9800),
        ],
        resting: &[(4, 1), (5, 1)],
    },
    Case {
        name: "earlier month first",
        rulebook: THREE_MONTHS,
        journal: &[
            (0, Logon, Session),
            (0, Sell(b'a', H6, 1, 10000), Rested),
            (0, Buy(b'b', H6_U6, 1, 500), Rested),
            (0, Sell(b'c', M6, 1, 9800), Rested),
            (0, Buy(b'd', M6_U6, 1, 300), Rested),
            (0, Buy(b'e', U6, 1, 9500), Filled),
        ],
        fills: &[
            Of(6, 6, U6, Side::Buy, 1, 9500),
            OfSpread(6, 3, H6_U6, Side::Buy, 1, 500, 10000, 9500),
            Of(6, 2, H6, Side::Sell, 1, 10000),
        ],
        resting: &[(4, 1), (5, 1)],
    },
    Case {
        name: "negative prices",
        rulebook: THREE_MONTHS,
        journal: &[
            (0, Logon, Session),
            (0, Sell(b'a', H6_M6, 1, -300), Rested),
            (0, Sell(b'b', M6, 1, 200), Rested),
            (0, Buy(b'c', H6, 1, -100), Filled),
        ],
        fills: &[
            Of(4, 4, H6, Side::Buy, 1, -100),
            OfSpread(4, 2, H6_M6, Side::Sell, 1, -300, -100, 200),
            Of(4, 3, M6, Side::Sell, 1, 200),
        ],
        resting: &[],
    },
    Case {
        name: "spread against spread",
        rulebook: THREE_MONTHS,
        journal: &[
            (0, Logon, Session),
            (0, Sell(b'a', H6_M6, 4, 200), Rested),
            (0, Buy(b'b', H6_M6, 3, 250), Filled),
        ],
        fills: &[
            OfSpread(3, 3, H6_M6, Side::Buy, 3, 200, 10000, 9800),
            OfSpread(3, 2, H6_M6, Side::Sell, 3, 200, 10000, 9800),
        ],
        resting: &[(2, 1)],
    },
    Case {
        name: "sold near month against a spread",
        rulebook: THREE_MONTHS,
        journal: &[
            (0, Logon, Session),
            (0, Buy(b'a', H6_M6, 1, 200), Rested),
            (0, Buy(b'b', M6, 1, 9800), Rested),
            (0, Sell(b'c', H6, 1, 9900), Filled),
        ],
        fills: &[
            Of(4, 4, H6, Side::Sell, 1, 10000),
            OfSpread(4, 2, H6_M6, Side::Buy, 1, 200, 10000, 9800),
            Of(4, 3, M6, Side::Buy, 1, 9800),
        ],
        resting: &[],
    },
    Case {
        name: "sold far month against a spread",
        rulebook: THREE_MONTHS,
        journal: &[
            (0, Logon, Session),
            (0, Sell(b'a', H6_M6, 1, 200), Rested),
            (0, Buy(b'b', H6, 1, 10000), Rested),
            (0, Sell(b'c', M6, 1, 9000), Filled),
        ],
        fills: &[
            Of(4, 4, M6, Side::Sell, 1, 9800),
            OfSpread(4, 2, H6_M6, Side::Sell, 1, 200, 10000, 9800),
            Of(4, 3, H6, Side::Buy, 1, 10000),
        ],
        resting: &[],
    },
    Case {
        name: "immediate remainder ends",
        rulebook: THREE_MONTHS,
        journal: &[
            (0, Logon, Session),
            (0, Sell(b'a', H6, 4, 10000), Rested),
            (0, BuyNow(b'b', H6, 10, 10000), Ended(6)),
        ],
        fills: &[
            Of(3, 3, H6, Side::Buy, 4, 10000),
            Of(3, 2, H6, Side::Sell, 4, 10000),
        ],
        resting: &[],
    },
];

#[test]
fn worked_rows(rt: HostRuntime) {
    expect_cases(&rt, rt.alloc(), ROWS)
}
