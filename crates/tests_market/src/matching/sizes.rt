//! Many orders, all months, and prices at their limits.
use super::cases::Came::{Filled, Refused, RequestRefused, Rested, Session};
use super::cases::Line::{Of, OfSpread};
use super::cases::Sent::{Buy, Cancel, Logon, Sell};
use super::cases::{Case, Line, expect_cases, expect_fill, expect_fills};
use super::{H6, H6_M6, M6, M6_H6, apply_all, buy, rulebook, sell};
use crate::expect::holds;
use spread_books::ListBook;
use spread_match::Market;
use spread_rules::{Entry, Fill, Instrument, Side};
use std::alloc::Global;
use std::process::Abort;
use tests_shared::THREE_MONTHS;

static SIZES: &[Case] = &[
    Case {
        name: "the first and the newest of many orders are filled",
        rulebook: THREE_MONTHS,
        journal: &[
            (0, Logon, Session),
            (0, Sell(b'a', H6, 1, 10000), Rested),
            (0, Logon, Session),
            (0, Buy(b'b', M6_H6, 1, 0), Refused(1)),
            (0, Sell(b'c', H6, 1, 10010), Rested),
            (0, Logon, Session),
            (0, Sell(b'd', H6, 1, 10020), Rested),
            (0, Buy(b'e', H6, 1, 10000), Filled),
            (0, Cancel(b'f', b'a'), RequestRefused(0, 2, 2)),
            (0, Cancel(b'g', b'b'), RequestRefused(0, 4, 8)),
            (0, Cancel(b'h', b'e'), RequestRefused(0, 8, 2)),
        ],
        fills: &[
            Of(8, 8, H6, Side::Buy, 1, 10000),
            Of(8, 2, H6, Side::Sell, 1, 10000),
        ],
        resting: &[(5, 1), (7, 1)],
    },
    Case {
        name: "prices at both limits",
        rulebook: THREE_MONTHS,
        journal: &[
            (0, Buy(b'a', H6_M6, 1, 1_000_000_000), Rested),
            (0, Buy(b'b', M6, 1, 1_000_000_000), Rested),
            (0, Sell(b'c', H6, 1, -1_000_000_000), Filled),
            (0, Sell(b'd', H6_M6, 1, -1_000_000_000), Rested),
            (0, Buy(b'e', H6_M6, 1, -1_000_000_000), Filled),
        ],
        fills: &[
            Of(3, 3, H6, Side::Sell, 1, 2_000_000_000),
            OfSpread(
                3,
                1,
                H6_M6,
                Side::Buy,
                1,
                1_000_000_000,
                2_000_000_000,
                1_000_000_000,
            ),
            Of(3, 2, M6, Side::Buy, 1, 1_000_000_000),
            OfSpread(
                5,
                5,
                H6_M6,
                Side::Buy,
                1,
                -1_000_000_000,
                10000,
                1_000_010_000,
            ),
            OfSpread(
                5,
                4,
                H6_M6,
                Side::Sell,
                1,
                -1_000_000_000,
                10000,
                1_000_010_000,
            ),
        ],
        resting: &[],
    },
];

#[test]
fn sizes(rt: HostRuntime) {
    expect_cases(&rt, rt.alloc(), SIZES)
}

const TWELVE_MONTHS: &[u8] =
    b"tick 1\nmonth A0 100\nmonth A1 101\nmonth A2 102\nmonth A3 103\nmonth A4 104\nmonth A5 105\nmonth A6 106\nmonth A7 107\nmonth A8 108\nmonth A9 109\nmonth B0 110\nmonth B1 111\n";

static NAMES: [&[u8; 2]; 12] = [
    b"A0", b"A1", b"A2", b"A3", b"A4", b"A5", b"A6", b"A7", b"A8", b"A9", b"B0", b"B1",
];

/// The fills of a journal over the rulebook with this text.
fn fills_of(rt: &impl Abort, alloc: Global, months: &[u8], journal: &[Entry]) -> Vec<Fill> {
    let rules = rulebook(rt, months, "a rulebook");
    let mut market = Market::new(alloc, &rules, ListBook::new(alloc));
    apply_all(rt, alloc, &mut market, journal)
}

/// A seller of the near month, a buyer of the far one, and a buyer of their spread.
fn pair_journal(rt: &impl Abort, alloc: Global, near: &[u8; 2], far: &[u8; 2]) -> Vec<Entry> {
    let both = [near[0], near[1], b'-', far[0], far[1]];
    let mut journal = Vec::new(alloc);
    journal.push(sell(b"a", near, 1, 700)).expect(rt, "memory");
    journal.push(buy(b"b", far, 1, 500)).expect(rt, "memory");
    journal.push(buy(b"c", &both, 1, 200)).expect(rt, "memory");
    journal
}

/// These three trade at once.
fn expect_pair(rt: &impl Abort, alloc: Global, near: u8, far: u8) {
    let journal = pair_journal(
        rt,
        alloc,
        NAMES[near as usize % 12],
        NAMES[far as usize % 12],
    );
    let fills = fills_of(rt, alloc, TWELVE_MONTHS, &journal);
    let wanted: [Line; 3] = [
        OfSpread(
            3,
            3,
            Instrument::Spread(near, far),
            Side::Buy,
            1,
            200,
            700,
            500,
        ),
        Of(3, 1, Instrument::Outright(near), Side::Sell, 1, 700),
        Of(3, 2, Instrument::Outright(far), Side::Buy, 1, 500),
    ];
    expect_fills(rt, &fills, &wanted);
}

#[test]
fn every_pair_of_twelve_months(rt: HostRuntime) {
    for far in 1..12u8 {
        for near in 0..far {
            expect_pair(&rt, rt.alloc(), near, far);
        }
    }
}

/// Sellers of one lot, a thousand of them, and a buyer of a thousand lots.
fn thousand_sellers(rt: &impl Abort, alloc: Global) -> Vec<Entry> {
    let mut journal = Vec::new(alloc);
    for n in 0..1000u32 {
        let name = n.to_be_bytes();
        let own = [name[2] | 128, name[3] | 128, b'a' + (n / 128) as u8];
        journal
            .push(sell(&own, b"H6", 1, 10000))
            .expect(rt, "memory");
    }
    journal
        .push(buy(b"all", b"H6", 1000, 10000))
        .expect(rt, "memory");
    journal
}

/// The buyer's part and the seller's part of each trade.
fn expect_thousand(rt: &impl Abort, fills: &[Fill]) {
    holds(rt, fills.len() == 2000);
    for n in 0..1000usize {
        let seller = n as u64 + 1;
        expect_fill(rt, &fills[2 * n], &Of(1001, 1001, H6, Side::Buy, 1, 10000));
        expect_fill(
            rt,
            &fills[2 * n + 1],
            &Of(1001, seller, H6, Side::Sell, 1, 10000),
        );
    }
}

#[test]
fn one_order_trades_with_a_thousand(rt: HostRuntime) {
    let journal = thousand_sellers(&rt, rt.alloc());
    let fills = fills_of(&rt, rt.alloc(), THREE_MONTHS, &journal);
    expect_thousand(&rt, &fills);
}
