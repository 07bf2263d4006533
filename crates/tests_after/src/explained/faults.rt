//! What is not explained.
use crate::expect::holds;
use crate::rules::three_months;
use explain_day::{ExplainFault, explain};
use spread_journal::JournalFault;
use spread_rules::{Rulebook, TestSink};
use std::alloc::{Allocator, Global};
use std::process::Abort;
use tests_shared::{FIRST_TRADE_JOURNAL, Refusing};

/// The entry is not explained to a sink of so much room, for this fault, and this is written.
fn expect_fault(
    rt: &impl Abort,
    alloc: Global,
    journal: &[u8],
    place: u64,
    room: usize,
    want: (ExplainFault, &[u8]),
) {
    let rules = three_months(rt);
    let mut sink = TestSink::new(alloc, room, 0).expect(rt, "memory");
    let fault = explain(alloc, &rules, journal, place, &mut sink).err();
    holds(rt, fault == Some(want.0));
    holds(rt, sink.bytes() == want.1);
}

#[test]
fn no_such_place(rt: HostRuntime) {
    for place in &[0, 5, u64::MAX] {
        let want = (ExplainFault::Place, b"".as_slice());
        expect_fault(&rt, rt.alloc(), FIRST_TRADE_JOURNAL, *place, 1000, want);
    }
}

/// Texts that are no journals, and their faults.
static NO_JOURNALS: [(&[u8], JournalFault); 4] = [
    (b"", JournalFault::Version),
    (b"JOURNAL 1\n", JournalFault::Cut),
    (b"JOURNAL 1\nEND 1\n", JournalFault::Line(2)),
    (
        b"JOURNAL 1\n0 new 61 4836 2 5 10000 day\nEND 1\n",
        JournalFault::Order(2),
    ),
];

#[test]
fn bad_journals(rt: HostRuntime) {
    for (journal, fault) in &NO_JOURNALS {
        let want = (ExplainFault::Journal(*fault), b"".as_slice());
        expect_fault(&rt, rt.alloc(), journal, 1, 1000, want);
    }
}

#[test]
fn sink_that_fails(rt: HostRuntime) {
    let want = (ExplainFault::Write, b"entry 3, s".as_slice());
    expect_fault(&rt, rt.alloc(), FIRST_TRADE_JOURNAL, 3, 10, want);
}

/// An explanation in which all memory is the heap's: nothing is written where it has no answer.
fn explain_over<A: Allocator + Copy>(
    rt: &impl Abort,
    alloc: Global,
    heap: A,
    rules: &Rulebook,
) -> Option<ExplainFault> {
    let mut sink = TestSink::new(alloc, 1000, 0).expect(rt, "memory");
    let fault = explain(heap, rules, FIRST_TRADE_JOURNAL, 3, &mut sink).err();
    match fault {
        None => holds(rt, !sink.bytes().is_empty()),
        Some(_) => holds(rt, sink.bytes().is_empty()),
    }
    fault
}

#[test]
fn refused_memory(rt: HostRuntime) {
    let rules = three_months(&rt);
    for number in 1..500u64 {
        let heap = Refusing::new(rt.alloc(), number);
        match explain_over(&rt, rt.alloc(), &heap, &rules) {
            // A guess of a row that finds no memory is left out, and the answer is the same.
            None if heap.has_refused() => {}
            None => {
                holds(&rt, number > 10);
                return;
            }
            Some(fault) => holds(&rt, fault == ExplainFault::NoMemory && heap.has_refused()),
        }
    }
    holds(&rt, false);
}
