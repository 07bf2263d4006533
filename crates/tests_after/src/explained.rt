//! Entries of journals, explained.
use crate::expect::holds_for;
use explain_day::explain;
use spread_rules::{Rulebook, TestSink};
use std::alloc::Global;
use std::process::Abort;

mod faults;
mod orders;
mod refusals;
mod replaces;
mod sessions;
mod told;
mod turns;

/// A tick of five hundredths.
const TICK_5: &[u8] = b"tick 5\nmonth H6 10000\nmonth M6 9800\nmonth U6 9500\n";

/// A rulebook, a journal, the place of an entry in it, and what is written of that entry.
struct Case {
    shows: &'static str,
    rules: &'static [u8],
    journal: &'static [u8],
    place: u64,
    words: &'static [u8],
}

fn expect_words(rt: &impl Abort, alloc: Global, case: &Case) {
    let rules = Rulebook::read(case.rules).expect(rt, "a rulebook");
    let mut sink = TestSink::new(alloc, 4000, 0).expect(rt, "memory");
    explain(alloc, &rules, case.journal, case.place, &mut sink).expect(rt, "an entry");
    holds_for(rt, sink.bytes() == case.words, case.shows);
}

fn expect_all(rt: &impl Abort, alloc: Global, cases: &[Case]) {
    for case in cases {
        expect_words(rt, alloc, case);
    }
}
