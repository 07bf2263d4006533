//! Journal texts, and the lines of their fills and months.
use super::replaces::{ORDERS_FILLS, ORDERS_JOURNAL};
use crate::expect::holds;
use crate::rules::three_months;
use spread_host::{HostFault, check};
use spread_journal::JournalFault;
use spread_rules::{Rulebook, TestSink};
use std::alloc::Global;
use std::process::Abort;

pub const DIRECT_BEFORE_IMPLIED: &[u8] =
    b"JOURNAL 1\n0 logon 4331 484f5354 30\n0 new 61 4836 2 2 10000 day\n0 new 62 48362d4d36 2 3 200 day\n0 new 63 4d36 2 4 9800 day\n0 new 64 4836 1 6 10000 day\nEND 5\n";

pub const DIRECT_BEFORE_IMPLIED_TEXT: &[u8] =
    b"F 5 5 0 H6 1 2 10000\nF 5 2 0 H6 2 2 10000\nF 5 5 0 H6 1 3 10000\nF 5 3 0 H6-M6 2 3 200 10000 9800\nF 5 4 0 M6 2 3 9800\nM H6 5 5 50000 50000\nM M6 3 3 29400 29400\nM U6 0 0 0 0\n";

/// A journal, the room of the sink and the write at which it fails (0: none); how many fills there are, or the fault, and
/// what is written.
struct Checked {
    journal: &'static [u8],
    room: usize,
    fail: u32,
    answer: Result<usize, HostFault>,
    written: &'static [u8],
}

static CHECKED: [Checked; 16] = [
    Checked {
        journal: DIRECT_BEFORE_IMPLIED,
        room: 1000,
        fail: 0,
        answer: Ok(5),
        written: DIRECT_BEFORE_IMPLIED_TEXT,
    },
    // Orders that are replaced.
    Checked {
        journal: ORDERS_JOURNAL,
        room: 1000,
        fail: 0,
        answer: Ok(4),
        written: ORDERS_FILLS,
    },
    // Writes that fail.
    Checked {
        journal: DIRECT_BEFORE_IMPLIED,
        room: 1000,
        fail: 1,
        answer: Err(HostFault::Write),
        written: b"",
    },
    Checked {
        journal: DIRECT_BEFORE_IMPLIED,
        room: 0,
        fail: 0,
        answer: Err(HostFault::Write),
        written: b"",
    },
    Checked {
        journal: DIRECT_BEFORE_IMPLIED,
        room: 50,
        fail: 0,
        answer: Err(HostFault::Write),
        written: b"F 5 5 0 H6 1 2 10000\nF 5 2 0 H6 2 2 10000\nF 5 5 0 ",
    },
    Checked {
        journal: DIRECT_BEFORE_IMPLIED,
        room: 50,
        fail: 2,
        answer: Err(HostFault::Write),
        written: b"F 5 5 0 H6 1 2 10000\nF 5 2 0 H6 2 2 10000\nF 5 5 0 ",
    },
    // Texts that are no journals.
    Checked {
        journal: b"",
        room: 1000,
        fail: 0,
        answer: Err(HostFault::Journal(JournalFault::Version)),
        written: b"",
    },
    Checked {
        journal: b"JOURNAL 3\nEND 0\n",
        room: 1000,
        fail: 0,
        answer: Err(HostFault::Journal(JournalFault::Version)),
        written: b"",
    },
    Checked {
        journal: b"JOURNAL 1\n",
        room: 1000,
        fail: 0,
        answer: Err(HostFault::Journal(JournalFault::Cut)),
        written: b"",
    },
    Checked {
        journal: b"JOURNAL 1\nEND 1\n",
        room: 1000,
        fail: 0,
        answer: Err(HostFault::Journal(JournalFault::Line(2))),
        written: b"",
    },
    Checked {
        journal: b"JOURNAL 1\n0 new 61 4836 2 5 10000 day\nEND 1\n",
        room: 1000,
        fail: 0,
        answer: Err(HostFault::Journal(JournalFault::Order(2))),
        written: b"",
    },
    Checked {
        journal: b"JOURNAL 1\n0 logon 4331 484F5354 30\nEND 1\n",
        room: 1000,
        fail: 0,
        answer: Err(HostFault::Journal(JournalFault::Line(2))),
        written: b"",
    },
    Checked {
        journal: b"JOURNAL 1\n0 close 1\nEND 1\nx",
        room: 1000,
        fail: 0,
        answer: Err(HostFault::Journal(JournalFault::Line(4))),
        written: b"",
    },
    Checked {
        journal: b"JOURNAL 1\n0 close 1\nEND 1",
        room: 1000,
        fail: 0,
        answer: Err(HostFault::Journal(JournalFault::Cut)),
        written: b"",
    },
    Checked {
        journal: b"JOURNAL 1\n0 close 1\n0 close 1\nEND 2\n",
        room: 1000,
        fail: 0,
        answer: Err(HostFault::Journal(JournalFault::Order(3))),
        written: b"",
    },
    // Both orders stand and would trade, but the end is not there.
    Checked {
        journal: b"JOURNAL 1\n0 logon 4331 484f5354 30\n0 new 61 4836 2 5 10000 day\n0 new 62 4836 1 5 10000 day\n",
        room: 1000,
        fail: 0,
        answer: Err(HostFault::Journal(JournalFault::Cut)),
        written: b"",
    },
];

fn expect_checked(rt: &impl Abort, alloc: Global, rules: &Rulebook, case: &Checked) {
    let mut sink = TestSink::new(alloc, case.room, case.fail).expect(rt, "memory");
    let answer = match check(alloc, rules, case.journal, &mut sink) {
        Ok(fills) => Ok(fills.len()),
        Err(fault) => Err(fault),
    };
    holds(rt, answer == case.answer);
    holds(rt, sink.bytes() == case.written);
}

#[test]
fn checked_journals(rt: HostRuntime) {
    let rules = three_months(&rt);
    for case in &CHECKED {
        expect_checked(&rt, rt.alloc(), &rules, case);
    }
}
