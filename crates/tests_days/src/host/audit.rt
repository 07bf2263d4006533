//! Claims of a journal's fills and months.
use super::check::{DIRECT_BEFORE_IMPLIED, DIRECT_BEFORE_IMPLIED_TEXT};
use super::no_memory::{CHECKED_PLACES, Places};
use crate::expect::holds;
use crate::rules::three_months;
use spread_host::{AuditFault, HostFault, audit};
use spread_journal::JournalFault;
use spread_rules::Rulebook;
use std::alloc::{Allocator, Global};
use std::process::Abort;
use tests_shared::Refusing;

/// What is answered to a claim.
#[derive(Clone, Copy)]
enum Answer {
    Right,
    /// The first line that is wrong, and what it should be.
    Differs(u64, &'static [u8]),
    Fault(HostFault),
}

/// A journal, a claim and the answer.
static CLAIMS: [(&[u8], &[u8], Answer); 12] = [
    (
        DIRECT_BEFORE_IMPLIED,
        DIRECT_BEFORE_IMPLIED_TEXT,
        Answer::Right,
    ),
    (
        DIRECT_BEFORE_IMPLIED,
        b"",
        Answer::Differs(1, b"F 5 5 0 H6 1 2 10000\n"),
    ),
    (
        DIRECT_BEFORE_IMPLIED,
        b"\n",
        Answer::Differs(1, b"F 5 5 0 H6 1 2 10000\n"),
    ),
    (
        DIRECT_BEFORE_IMPLIED,
        b"F 5 5 0 H6 1 2 10000",
        Answer::Differs(1, b"F 5 5 0 H6 1 2 10000\n"),
    ),
    (
        DIRECT_BEFORE_IMPLIED,
        b"F 5 5 0 H6 1 2 10000\n",
        Answer::Differs(2, b"F 5 2 0 H6 2 2 10000\n"),
    ),
    // Another quantity, another member first, a line end of two bytes.
    (
        DIRECT_BEFORE_IMPLIED,
        b"F 5 5 0 H6 1 2 10000\nF 5 2 0 H6 2 3 10000\n",
        Answer::Differs(2, b"F 5 2 0 H6 2 2 10000\n"),
    ),
    (
        DIRECT_BEFORE_IMPLIED,
        b"F 5 2 0 H6 2 2 10000\nF 5 5 0 H6 1 2 10000\n",
        Answer::Differs(1, b"F 5 5 0 H6 1 2 10000\n"),
    ),
    (
        DIRECT_BEFORE_IMPLIED,
        b"F 5 5 0 H6 1 2 10000\r\nF 5 2 0 H6 2 2 10000\r\n",
        Answer::Differs(1, b"F 5 5 0 H6 1 2 10000\n"),
    ),
    // The last line without its end, and a line too many.
    (
        DIRECT_BEFORE_IMPLIED,
        b"F 5 5 0 H6 1 2 10000\nF 5 2 0 H6 2 2 10000\nF 5 5 0 H6 1 3 10000\nF 5 3 0 H6-M6 2 3 200 10000 9800\nF 5 4 0 M6 2 3 9800\nM H6 5 5 50000 50000\nM M6 3 3 29400 29400\nM U6 0 0 0 0",
        Answer::Differs(8, b"M U6 0 0 0 0\n"),
    ),
    (
        DIRECT_BEFORE_IMPLIED,
        b"F 5 5 0 H6 1 2 10000\nF 5 2 0 H6 2 2 10000\nF 5 5 0 H6 1 3 10000\nF 5 3 0 H6-M6 2 3 200 10000 9800\nF 5 4 0 M6 2 3 9800\nM H6 5 5 50000 50000\nM M6 3 3 29400 29400\nM U6 0 0 0 0\n\n",
        Answer::Differs(9, b""),
    ),
    // A journal that cannot be read is the fault, whatever is claimed.
    (
        b"JOURNAL 1\n",
        b"",
        Answer::Fault(HostFault::Journal(JournalFault::Cut)),
    ),
    (
        b"JOURNAL 1\n",
        DIRECT_BEFORE_IMPLIED_TEXT,
        Answer::Fault(HostFault::Journal(JournalFault::Cut)),
    ),
];

fn expect_answer(
    rt: &impl Abort,
    alloc: Global,
    rules: &Rulebook,
    journal: &[u8],
    claim: &[u8],
    want: Answer,
) {
    match (audit(alloc, rules, journal, claim), want) {
        (Ok(()), Answer::Right) => {}
        (Err(AuditFault::Differs(found)), Answer::Differs(line, right)) => {
            holds(rt, found.line == line && found.right.as_slice() == right);
        }
        (Err(AuditFault::Host(found)), Answer::Fault(fault)) => holds(rt, found == fault),
        _ => rt.panic("another answer"),
    }
}

#[test]
fn claims(rt: HostRuntime) {
    let rules = three_months(&rt);
    for (journal, claim, want) in &CLAIMS {
        expect_answer(&rt, rt.alloc(), &rules, journal, claim, *want);
    }
}

/// Whether an audit in which all memory is the heap's finds the claim right. None where there is no memory, with the
/// place noted.
fn audit_over<A: Allocator + Copy>(
    rt: &impl Abort,
    heap: A,
    rules: &Rulebook,
    claim: &[u8],
    places: &mut Places,
) -> Option<bool> {
    match audit(heap, rules, DIRECT_BEFORE_IMPLIED, claim) {
        Ok(()) => Some(true),
        Err(AuditFault::Differs(_)) => Some(false),
        Err(AuditFault::Host(HostFault::NoMemory(place))) => {
            holds(rt, places.note(place));
            None
        }
        Err(AuditFault::Host(_)) => rt.panic("another fault"),
    }
}

/// Each request for memory refused in turn: no answer, or the one that there is with all memory. The places are those of
/// a check, and the last of the numbers names no request.
fn expect_refusals(rt: &impl Abort, alloc: Global, rules: &Rulebook, claim: &[u8], right: bool) {
    let mut places = Places::new();
    let mut last_refused = true;
    for number in 1..250u64 {
        let heap = Refusing::new(alloc, number);
        let answer = audit_over(rt, &heap, rules, claim, &mut places);
        last_refused = heap.has_refused();
        holds(
            rt,
            answer == Some(right) || (answer.is_none() && last_refused),
        );
    }
    holds(rt, !last_refused);
    holds(rt, places.are(&CHECKED_PLACES));
}

#[test]
fn audit_refused_memory(rt: HostRuntime) {
    let rules = three_months(&rt);
    expect_refusals(&rt, rt.alloc(), &rules, DIRECT_BEFORE_IMPLIED_TEXT, true);
    expect_refusals(&rt, rt.alloc(), &rules, b"", false);
}
