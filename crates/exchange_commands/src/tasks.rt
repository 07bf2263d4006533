//! What is asked of a journal text: it is checked, held against a claim, explained, drawn.
use crate::files::{read_file, read_rules};
use draw_day::draw;
use exchange_faults::Fault;
use exchange_words::Task;
use explain_day::explain;
use spread_host::{AuditFault, Difference, audit, check};
use spread_rules::{Rulebook, ToWriter};
use std::alloc::Global;
use std::fs::Files;
use std::io;

/// The journal is worked again.
fn run_check<'a>(
    rt: &(impl Print + AllocGlobal),
    rulebook: &Rulebook,
    text: &[u8],
) -> Result<(), Fault<'a>> {
    let mut sink = ToWriter::new(io::writer(rt));
    match check(rt.alloc(), rulebook, text, &mut sink) {
        Ok(_fills) => Ok(()),
        Err(fault) => Err(Fault::Host(fault)),
    }
}

/// Says which line of a claim is the first wrong one, and what it should be.
fn tell_difference(rt: &impl Eprint, difference: &Difference<Global>) {
    let line = difference.line;
    let _ = match std::str::from_utf8(&difference.right) {
        Ok(right) if !right.is_empty() => {
            eprintln!(rt;
                "exchange: claim line {line} should be {}",
                right.trim_end()
            )
        }
        _ => eprintln!(rt; "exchange: claim line {line} should not be there"),
    };
}

/// The journal is held against what somebody claims of it.
fn run_audit<'a>(
    rt: &(impl Files + Eprint + AllocGlobal),
    rulebook: &Rulebook,
    text: &[u8],
    claim: &'a str,
) -> Result<(), Fault<'a>> {
    let claimed = read_file(rt, claim)?;
    match audit(rt.alloc(), rulebook, text, &claimed) {
        Ok(()) => Ok(()),
        Err(AuditFault::Host(fault)) => Err(Fault::Host(fault)),
        Err(AuditFault::Differs(difference)) => {
            tell_difference(rt, &difference);
            Err(Fault::Claim)
        }
    }
}

/// The entry of that place is explained.
fn run_explain<'a>(
    rt: &(impl Print + AllocGlobal),
    rulebook: &Rulebook,
    text: &[u8],
    place: u32,
) -> Result<(), Fault<'a>> {
    let mut sink = ToWriter::new(io::writer(rt));
    match explain(rt.alloc(), rulebook, text, place as u64, &mut sink) {
        Ok(()) => Ok(()),
        Err(fault) => Err(Fault::of_explain(fault, place)),
    }
}

/// The journal's day is drawn.
fn run_draw<'a>(
    rt: &(impl Print + AllocGlobal),
    rulebook: &Rulebook,
    text: &[u8],
) -> Result<(), Fault<'a>> {
    let mut sink = ToWriter::new(io::writer(rt));
    match draw(rt.alloc(), rulebook, text, &mut sink) {
        Ok(()) => Ok(()),
        Err(fault) => Err(Fault::from(fault)),
    }
}

/// What is asked of a journal text, done.
fn run_task<'a>(
    rt: &(impl Print + Eprint + Files + AllocGlobal),
    rulebook: &Rulebook,
    text: &[u8],
    task: Task<'a>,
) -> Result<(), Fault<'a>> {
    match task {
        Task::Check => run_check(rt, rulebook, text),
        Task::Audit { claim } => run_audit(rt, rulebook, text, claim),
        Task::Explain { place } => run_explain(rt, rulebook, text, place),
        Task::Draw => run_draw(rt, rulebook, text),
    }
}

/// What is asked of the journal text in one file, done under the rulebook of the other.
pub fn run_journal<'a>(
    rt: &(impl Print + Eprint + Files + AllocGlobal),
    rules: &'a str,
    journal: &'a str,
    task: Task<'a>,
) -> Result<(), Fault<'a>> {
    let rulebook = read_rules(rt, rules)?;
    let text = read_file(rt, journal)?;
    run_task(rt, &rulebook, &text, task)
}
