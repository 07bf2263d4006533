//! A day's text, of which one thread writes what another makes.
ghost use Rattle.std.specs.Prelude.{◌≡◌, false};

use crate::expect::holds;
use crate::live::days::{Open, USUAL, streams_of};
use crate::rules::three_months;
use exchange_print::{Printed, print_day};
use spread_host::{HostFault, run_day};
use spread_rules::{Rulebook, Sink, TestSink};
use std::process::Abort;
use std::sync::Wait;
use std::thread::Threads;
use tests_shared::{FIRST_TRADE, FIRST_TRADE_JOURNAL, FIRST_TRADE_TEXT, stamp};

/// The text of the first trade's day, printed.
fn print_first_trade<R: AllocGlobal + Threads + Wait + Sync + Abort>(
    rt: &R,
    rulebook: &Rulebook,
    sink: TestSink,
) -> Printed<TestSink>
    requires { ⟦<TestSink as Sink>⟧.has_failed sink ≡ false }
{
    let streams = streams_of(rt.alloc(), 1, FIRST_TRADE).expect(rt, "memory");
    let day = run_day(rt, rt.alloc(), rulebook, stamp(), streams, &Open, USUAL).expect(rt, "a day");
    print_day(rt, rulebook, day, sink)
}

/// A sink of that room which fails at that write takes this text, and no more.
fn expect_printed<R: AllocGlobal + Threads + Wait + Sync + Abort>(
    rt: &R,
    room: usize,
    fail: u32,
    answer: Result<(), HostFault>,
    want: &[u8],
) {
    let rulebook = three_months(rt);
    let sink = TestSink::new(rt.alloc(), room, fail).expect(rt, "memory");
    let printed = print_first_trade(rt, &rulebook, sink);
    holds(rt, printed.result == answer);
    holds(rt, printed.sink.bytes() == want);
}

/// The journal is one write, what stands behind it another.
#[test]
fn printed_days(rt: HostRuntime) {
    let cannot_write = Err(HostFault::Write);
    expect_printed(&rt, 4096, 0, Ok(()), FIRST_TRADE_TEXT);
    expect_printed(&rt, 4096, 1, cannot_write, b"");
    expect_printed(&rt, 4096, 2, cannot_write, FIRST_TRADE_JOURNAL);
    expect_printed(&rt, 10, 0, cannot_write, b"JOURNAL 2\n");
}
