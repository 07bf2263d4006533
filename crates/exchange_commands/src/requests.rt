//! A function for each request of the command line.
use crate::files::{read_files, read_rules};
use crate::tasks::run_journal;
use bench::measure;
use exchange_faults::Fault;
use exchange_print::{Printed, print_day};
use exchange_words::Request;
use spread_host::{Caps, Gate, HostFault, replay, run_day};
use spread_rules_ends::{FromReader, ToWriter};
use spread_rules_ids::Id;
use std::fs::Files;
use std::io;
use std::sync::Wait;
use std::thread::Threads;
use std::time::{Clock, CpuClock};

fn read_stamp<'a>(stamp: &str) -> Result<Id, Fault<'a>> {
    match Id::new(stamp.as_bytes()) {
        Some(stamp) => Ok(stamp),
        None => Err(Fault::Stamp),
    }
}

/// Day lines from standard input.
fn run_replay<'a>(
    rt: &(impl Input + Print + Files + AllocGlobal),
    rules: &'a str,
    stamp: &str,
    journal_only: bool,
) -> Result<(), Fault<'a>> {
    let stamp = read_stamp(stamp)?;
    let rulebook = read_rules(rt, rules)?;
    let mut source = FromReader::new(rt.reader());
    let mut sink = ToWriter::new(io::writer(rt));
    let _day = replay(
        rt.alloc(),
        &rulebook,
        stamp,
        &mut source,
        &mut sink,
        journal_only,
    )?;
    Ok(())
}

/// A gate that lets every message pass.
struct Open;

impl Gate for Open {
    fn before(&self, _session: u8, _message: u32) {}
}

/// A thread for each session's file.
fn run_live<'a>(
    rt: &(impl Print + Files + AllocGlobal + Threads + Wait + Sync),
    rules: &'a str,
    sessions: &[&'a str],
    stamp: &str,
    caps: Caps,
) -> Result<(), Fault<'a>> {
    let stamp = read_stamp(stamp)?;
    let rulebook = read_rules(rt, rules)?;
    let streams = read_files(rt, sessions)?;
    let day = run_day(rt, rt.alloc(), &rulebook, stamp, streams, &Open, caps)?;
    let sink = ToWriter::new(io::writer(rt));
    let Printed { result, .. } = print_day(rt, &rulebook, day, sink);
    result?;
    Ok(())
}

/// A phase is measured over these files.
fn run_bench<'a>(
    rt: &(impl Print + Files + Clock + CpuClock + AllocGlobal + Threads + Sync),
    phase: &str,
    files: &[&'a str],
) -> Result<(), Fault<'a>> {
    let files = read_files(rt, files)?;
    let measured = measure(rt, phase, &files)?;
    match println!(rt; "{measured}") {
        Ok(()) => Ok(()),
        Err(_) => Err(Fault::Host(HostFault::Write)),
    }
}

/// What the command line asks for, done.
pub fn run<'a>(
    rt: &(impl Input
        + Print
        + Eprint
        + Files
        + Clock
        + CpuClock
        + AllocGlobal
        + Threads
        + Wait
        + Sync),
    request: &Request<'a>,
) -> Result<(), Fault<'a>> {
    match request {
        Request::Replay {
            rules,
            stamp,
            journal_only,
        } => run_replay(rt, rules, stamp, *journal_only),
        Request::Live {
            rules,
            sessions,
            stamp,
            ring,
            entries,
        } => {
            let caps = Caps {
                ring: *ring as usize,
                journal: *entries as usize,
            };
            run_live(rt, rules, sessions, stamp, caps)
        }
        Request::Journal {
            rules,
            journal,
            task,
        } => run_journal(rt, rules, journal, *task),
        Request::Bench { phase, files } => run_bench(rt, phase, files),
    }
}
