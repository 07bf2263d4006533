//! Days that are not drawn.
use super::pictures::{DIRECT_BEFORE_IMPLIED, drawn};
use crate::expect::holds;
use crate::rules::three_months;
use draw_day::{DrawFault, draw};
use spread_journal::JournalFault;
use spread_rules::{Rulebook, TestSink};
use std::alloc::{Allocator, Global};
use std::process::Abort;
use tests_shared::Refusing;

/// The day is not drawn to a sink of a thousand bytes, for this fault. What is out then.
fn not_drawn(
    rt: &impl Abort,
    alloc: Global,
    journal: &[u8],
    fail: u32,
    want: DrawFault,
) -> TestSink {
    let rules = three_months(rt);
    let mut sink = TestSink::new(alloc, 1000, fail).expect(rt, "memory");
    let fault = draw(alloc, &rules, journal, &mut sink).err();
    holds(rt, fault == Some(want));
    sink
}

/// Texts that are no journals, and their faults.
static NO_JOURNALS: [(&[u8], JournalFault); 6] = [
    (b"", JournalFault::Version),
    (b"JOURNAL 3\nEND 0\n", JournalFault::Version),
    (b"JOURNAL 1\n", JournalFault::Cut),
    (b"JOURNAL 1\nEND 1\n", JournalFault::Line(2)),
    (
        b"JOURNAL 1\n0 new 61 4836 2 5 10000 day\nEND 1\n",
        JournalFault::Order(2),
    ),
    (b"JOURNAL 1\n0 close 1\nEND 1\nx", JournalFault::Line(4)),
];

#[test]
fn journal_faults(rt: HostRuntime) {
    for (journal, fault) in &NO_JOURNALS {
        let sink = not_drawn(&rt, rt.alloc(), journal, 0, DrawFault::Journal(*fault));
        holds(&rt, sink.bytes().is_empty());
    }
}

/// The sink takes a thousand bytes, or fails at once: so much of the picture is out.
#[test]
fn failing_sink(rt: HostRuntime) {
    let whole = drawn(&rt, rt.alloc(), DIRECT_BEFORE_IMPLIED);
    for (fail, out) in &[(0, 1000), (1, 0)] {
        let sink = not_drawn(
            &rt,
            rt.alloc(),
            DIRECT_BEFORE_IMPLIED,
            *fail,
            DrawFault::Write,
        );
        holds(&rt, sink.bytes().len() == *out);
        holds(&rt, whole.bytes().starts_with(sink.bytes()));
    }
}

/// A picture for which all memory is the heap's: nothing is written where there is none.
fn draw_over<A: Allocator + Copy>(
    rt: &impl Abort,
    alloc: Global,
    heap: A,
    rules: &Rulebook,
) -> (Option<DrawFault>, usize) {
    let mut sink = TestSink::new(alloc, 100_000, 0).expect(rt, "memory");
    let fault = draw(heap, rules, DIRECT_BEFORE_IMPLIED, &mut sink).err();
    (fault, sink.bytes().len())
}

#[test]
fn refused_memory(rt: HostRuntime) {
    let rules = three_months(&rt);
    let whole = drawn(&rt, rt.alloc(), DIRECT_BEFORE_IMPLIED).bytes().len();
    let mut refused = 0u64;
    for number in 1..1000u64 {
        let heap = Refusing::new(rt.alloc(), number);
        let (fault, written) = draw_over(&rt, rt.alloc(), &heap, &rules);
        match fault {
            // A guess of a row that finds no memory is left out, and the picture is the same.
            None => holds(&rt, written == whole),
            Some(fault) => {
                holds(
                    &rt,
                    fault == DrawFault::NoMemory && written == 0 && heap.has_refused(),
                );
                refused = refused.wrapping_add(1);
            }
        }
        if !heap.has_refused() {
            holds(&rt, refused > 20);
            return;
        }
    }
    holds(&rt, false);
}
