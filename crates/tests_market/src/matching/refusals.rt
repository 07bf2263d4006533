//! Refused orders, cancels, and cancels that come too late.
//! Rules M2 and M9 of docs/PROFILE.md.
use super::cases::Came::{Cancelled, Refused, RequestRefused, Rested, Session};
use super::cases::Line::Of;
use super::cases::Sent::{Buy, Cancel, Logon, Sell};
use super::cases::{Case, Kept, expect_cases};
use super::{H6, M6_H6};
use spread_rules::Side;
use tests_shared::THREE_MONTHS;

static REFUSALS: &[Case] = &[
    Case {
        name: "refusals and cancels: what a cancel of an order that never rested comes to",
        rulebook: THREE_MONTHS,
        journal: &[
            (0, Logon, Session),
            (0, Buy(b'a', M6_H6, 1, 0), Refused(1)),
            (0, Cancel(b'b', b'a'), RequestRefused(0, 2, 8)),
            (0, Cancel(b'c', b'z'), RequestRefused(1, 0, 8)),
            (0, Buy(b'a', H6, 1, 0), Refused(6)),
            (0, Buy(b'd', H6, 0, 0), Refused(3)),
            (0, Cancel(b'e', b'd'), RequestRefused(0, 6, 8)),
        ],
        fills: &[],
        resting: &[],
    },
    Case {
        name: "cancels of filled and of ended orders",
        rulebook: THREE_MONTHS,
        journal: &[
            (0, Sell(b'a', H6, 2, 10000), Rested),
            (0, Buy(b'b', H6, 3, 10000), Rested),
            (0, Cancel(b'c', b'a'), RequestRefused(0, 1, 2)),
            (
                0,
                Cancel(b'd', b'b'),
                Cancelled(Kept(2, b'b', H6, Side::Buy, 10000, 3, 1)),
            ),
            (0, Cancel(b'e', b'b'), RequestRefused(0, 2, 4)),
            (0, Buy(b'b', H6, 1, 1), Refused(6)),
        ],
        fills: &[
            Of(2, 2, H6, Side::Buy, 2, 10000),
            Of(2, 1, H6, Side::Sell, 2, 10000),
        ],
        resting: &[],
    },
    Case {
        name: "a used id is refused before all else",
        rulebook: THREE_MONTHS,
        journal: &[
            (0, Buy(b'a', H6, 1, 10), Rested),
            (0, Buy(b'a', M6_H6, 1, 10), Refused(6)),
            (0, Buy(b'a', H6, 0, 10), Refused(6)),
            (0, Buy(b'a', H6, 5, 20), Refused(6)),
            (0, Sell(b'b', H6, 2, 10), Rested),
            (0, Cancel(b'c', b'a'), RequestRefused(0, 1, 2)),
        ],
        fills: &[
            Of(5, 5, H6, Side::Sell, 1, 10),
            Of(5, 1, H6, Side::Buy, 1, 10),
        ],
        resting: &[(5, 1)],
    },
    Case {
        name: "a price off the tick is refused",
        rulebook: b"tick 5\nmonth H6 10000\n",
        journal: &[
            (0, Buy(b'a', H6, 1_000_000, 7), Refused(3)),
            (0, Buy(b'b', H6, 999_999, -7), Refused(0)),
            (0, Buy(b'c', H6, 999_999, -10), Rested),
        ],
        fills: &[],
        resting: &[(3, 999_999)],
    },
];

#[test]
fn refusals_and_cancels(rt: HostRuntime) {
    expect_cases(&rt, rt.alloc(), REFUSALS)
}
