//! The first trade's entries applied one by one, with what each session is sent.
ghost use Rattle.std.specs.Prelude.{All};
ghost use Rattle.spread_rules.specs.Journal.{FitsEntry};

use super::read_again;
use crate::expect::holds;
use crate::rules::three_months;
use apply_desk::{FillsAndMessages, ReportedEntries};
use spread_rules::{Entry, Fill, Instrument, Rulebook, Side};
use std::alloc::Global;
use std::process::Abort;
use tests_shared::{FIRST_TRADE_JOURNAL, id, is_first_sent, stamp};

/// One order's part of the first trade, five of H6 at 100.00, made by the third entry.
fn fill_of(order: u64, text: &[u8], side: Side) -> Fill {
    Fill {
        at: 3,
        order,
        session: 0,
        id: id(text),
        instrument: Instrument::Outright(0),
        side,
        quantity: 5,
        price: 10_000,
        near: 10_000,
        far: 10_000,
        total: 5,
        leaves: 0,
    }
}

/// The fills of the first trade.
pub fn first_fills() -> [Fill; 2] {
    [fill_of(3, b"b", Side::Buy), fill_of(2, b"a", Side::Sell)]
}

/// Applies the journal's entries and reports them.
fn report_all(
    rt: &impl Abort,
    alloc: Global,
    rules: &Rulebook,
    journal: &[Entry],
) -> FillsAndMessages<Global>
    requires { All FitsEntry journal.now }
{
    let mut reported = ReportedEntries::new(alloc, rules, stamp()).expect(rt, "memory");
    for entry in journal {
        reported.apply(entry).expect(rt, "memory");
    }
    holds(rt, reported.count() == journal.len() as u64);
    // Session 0 alone was sent something.
    holds(
        rt,
        reported.next_sent(0, 16) == 0 && reported.next_sent(1, 16) == 16,
    );
    reported.into_parts()
}

#[test]
fn first_trade_reported(rt: HostRuntime) {
    let rules = three_months(&rt);
    let journal = read_again(&rt, rt.alloc(), FIRST_TRADE_JOURNAL);
    let parts = report_all(&rt, rt.alloc(), &rules, &journal);
    holds(&rt, parts.fills.as_slice() == first_fills().as_slice());
    holds(&rt, is_first_sent(&parts.out));
}
