//! What the sessions of a journal are sent, measured.
ghost use Rattle.std.specs.Prelude.{◌≡◌, [], All};
ghost use Rattle.spread_rules.specs.Journal.{FitsEntry};
ghost use Rattle.spread_match_state.specs.State.{empty_state};

use crate::reports::{Applied, send_all};
use bench_phases::{
    BenchFault, Beside, Measured, RUNS, Timer, apply_entry, bytes_of, read_inputs, scanned,
};
use spread_books::{Book, IndexBook};
use spread_match::Market;
use spread_rules::{Entry, NoMemory, Rulebook};
use std::alloc::{AllocGlobal, Allocator, Global};
use std::time::CpuClock;

/// Applies the entries of a journal in a market before its first entry, and keeps what came of them.
fn apply_each<B: Book, A: Allocator + Copy>(
    market: &mut Market<'_, B, A>,
    journal: &[Entry],
    applied: &mut Applied<A>,
) -> Result<(), NoMemory>
    requires first { market.old.state ≡ empty_state market.old.state.quotes_by }
    requires entries { All FitsEntry journal.now }
{
    market.reserve(journal.len())?;
    for n in 0..journal.len() {
        let outcome = apply_entry(market, n as u64 + 1, &journal[n], &mut applied.fills)?;
        applied.outcomes.push(outcome)?;
    }
    Ok(())
}

/// Writes some times what the sessions of an applied journal are sent: the least time of a run. The lists of one run
/// are freed when the next were made, and those of the last stay.
fn send_runs(
    rt: &(impl CpuClock + AllocGlobal),
    rulebook: &Rulebook,
    journal: &[Entry],
    applied: &Applied<Global>,
    lists: &mut Vec<Vec<u8>>,
) -> Result<u64, BenchFault> {
    let mut least = u64::MAX;
    for _ in 0..RUNS {
        let timer = Timer::start(rt)?;
        *lists = send_all(rt.alloc(), rulebook, journal, applied)?;
        least = least.min(timer.used(rt)?);
    }
    Ok(least)
}

/// Writes what the sessions of an applied journal are sent.
fn time_messages(
    rt: &(impl CpuClock + AllocGlobal),
    rulebook: &Rulebook,
    journal: &[Entry],
    applied: &Applied<Global>,
) -> Result<Measured, BenchFault> {
    let mut lists = Vec::new(rt.alloc());
    let least = send_runs(rt, rulebook, journal, applied, &mut lists)?;
    Ok(Measured {
        phase: "report",
        count: scanned(&lists),
        unit: "messages",
        nanos: least,
        beside: Beside::Bytes(bytes_of(&lists)),
    })
}

/// Writes what the sessions of a journal are sent, which is applied over an empty book. The market stays until the messages are written, as it does in a
/// day: what is freed decides how `malloc` grows the lists of messages.
fn time_messages_over<B: Book + Drop>(
    rt: &(impl CpuClock + AllocGlobal),
    rulebook: &Rulebook,
    book: B,
    journal: &[Entry],
) -> Result<Measured, BenchFault>
    requires empty { B.orders book ≡ [] }
    requires entries { All FitsEntry journal.now }
{
    let mut market = Market::new(rt.alloc(), rulebook, book);
    let mut applied = Applied {
        fills: Vec::new(rt.alloc()),
        outcomes: Vec::new(rt.alloc()),
    };
    match apply_each(&mut market, journal, &mut applied) {
        Ok(()) => time_messages(rt, rulebook, journal, &applied),
        Err(NoMemory) => Err(BenchFault::NoMemory),
    }
}

/// Writes what the sessions of a journal are sent, which is applied over the book that the host has.
pub fn time_report(
    rt: &(impl CpuClock + AllocGlobal),
    rules: &[u8],
    text: &[u8],
) -> Result<Measured, BenchFault> {
    let (rulebook, journal) = read_inputs(rt.alloc(), rules, text)?;
    let book = IndexBook::new(rt.alloc(), &rulebook)?;
    time_messages_over(rt, &rulebook, book, &journal)
}
