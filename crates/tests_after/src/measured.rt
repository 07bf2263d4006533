//! The phases of the benchmark: what they count of the first trade, and the lines that tell it.
use crate::expect::{holds, holds_for};
use bench::{BenchFault, Beside, Measured, measure};
use bench_phases::{apply_entry, read_inputs, scanned};
use spread_books::IndexBook;
use spread_match::Market;
use spread_rules::codes::close_reason;
use spread_rules::{Entry, Event, Outcome};
use std::alloc::{AllocError, Global};
use tests_shared::{FIRST_TRADE, FIRST_TRADE_JOURNAL, THREE_MONTHS};

/// A phase, what it counts and in which unit, and what is told beside it.
struct Phase {
    name: &'static str,
    takes_journal: bool,
    count: u64,
    unit: &'static str,
    beside: u64,
}

static PHASES: [Phase; 6] = [
    Phase {
        name: "scan",
        takes_journal: false,
        count: 400,
        unit: "bytes",
        beside: 4,
    },
    Phase {
        name: "judge",
        takes_journal: false,
        count: 4,
        unit: "messages",
        beside: 4,
    },
    Phase {
        name: "threads",
        takes_journal: false,
        count: 4,
        unit: "messages",
        beside: 4,
    },
    Phase {
        name: "slices",
        takes_journal: false,
        count: 4,
        unit: "messages",
        beside: 4,
    },
    Phase {
        name: "match",
        takes_journal: true,
        count: 4,
        unit: "entries",
        beside: 2,
    },
    Phase {
        name: "report",
        takes_journal: true,
        count: 6,
        unit: "messages",
        beside: 716,
    },
];

fn files_of(alloc: Global, texts: &[&[u8]]) -> Result<Vec<Vec<u8>>, AllocError> {
    let mut files = Vec::new(alloc);
    for text in texts {
        files.push(text.to_vec(alloc)?)?;
    }
    Ok(files)
}

fn counts(measured: &Measured, phase: &Phase) -> bool {
    let beside = match measured.beside {
        Beside::Count(count, _) => count,
        Beside::Bytes(bytes) => bytes,
    };
    measured.phase == phase.name
        && measured.count == phase.count
        && measured.unit == phase.unit
        && beside == phase.beside
}

#[test]
fn phases_of_the_first_trade(rt: HostRuntime) {
    let streams = files_of(rt.alloc(), &[FIRST_TRADE]).expect(&rt, "memory");
    let inputs = files_of(rt.alloc(), &[THREE_MONTHS, FIRST_TRADE_JOURNAL]).expect(&rt, "memory");
    for phase in &PHASES {
        let files = if phase.takes_journal {
            &inputs
        } else {
            &streams
        };
        let measured = measure(&rt, phase.name, files).ok().expect(&rt, "measured");
        holds_for(&rt, counts(&measured, phase), phase.name);
    }
    holds(&rt, scanned(&streams) == 4);
    let refused = measure(&rt, "match", &streams);
    holds(&rt, matches!(refused, Err(BenchFault::Phase)));
}

/// What is read for the phases of a journal, and one entry applied, which trades nothing.
#[test]
fn inputs_of_the_first_trade(rt: HostRuntime) {
    let read = read_inputs(rt.alloc(), THREE_MONTHS, FIRST_TRADE_JOURNAL);
    let (rulebook, journal) = read.ok().expect(&rt, "inputs");
    holds(&rt, rulebook.months() == 3 && journal.len() == 4);
    let book = IndexBook::new(rt.alloc(), &rulebook).expect(&rt, "memory");
    let mut market = Market::new(rt.alloc(), &rulebook, book);
    let mut fills = Vec::new(rt.alloc());
    let close = Entry {
        session: 0,
        event: Event::Close {
            reason: close_reason::LOGOUT,
        },
    };
    let outcome = apply_entry(&mut market, 1, &close, &mut fills).expect(&rt, "memory");
    holds(&rt, matches!(outcome, Outcome::Session) && fills.is_empty());
}

#[test]
fn lines_of_a_phase(rt: HostRuntime) {
    let measured = Measured {
        phase: "report",
        count: 6,
        unit: "messages",
        nanos: 3_000,
        beside: Beside::Bytes(716),
    };
    let text = format!(in rt.alloc(); "{measured}").expect(&rt, "memory");
    holds(
        &rt,
        text.as_str()
            == "report: 6 messages, 0.000003 s, 2000000 a second\n\
                report-bytes: 716 bytes, 0.000003 s, 238666666 a second",
    );
}
