//! A journal's entries matched, measured.
ghost use Rattle.std.specs.Prelude.{◌≡◌, ◌<◌, [], All, Ok, OnOk, OnErr, IfOk};
ghost use Rattle.spread_journal.specs.Lawful.{IsTextOf};
ghost use Rattle.spread_match.specs.Sound.{IsEntryApplied, IsStateOf};
ghost use Rattle.spread_rules.specs.Journal.{FitsEntry};
ghost use Rattle.spread_rules.specs.code.Meaning.{JournalState};
ghost use Rattle.spread_rules_rulebook.specs.RulebookText.{ReadsRulebook};
ghost use Rattle.spread_match_state.specs.State.{empty_state};

use crate::fault::BenchFault;
use crate::timing::{Beside, Measured, RUNS, Timer};
use spread_books::{Book, IndexBook};
use spread_journal::read_journal;
use spread_match::Market;
use spread_rules::{Entry, Fill, NoMemory, Outcome, Rulebook};
use std::alloc::{AllocGlobal, Allocator, Global};
use std::time::CpuClock;

/// A rulebook and a journal, of their texts.
pub fn read_inputs(
    alloc: Global,
    rules: &[u8],
    text: &[u8],
) -> Result<(Rulebook, Vec<Entry>), BenchFault>
    ensures rules { IfOk result (λ inputs. ReadsRulebook rules.now (Ok inputs.0)) }
    ensures entries { IfOk result (λ inputs. IsTextOf text.now inputs.1.items) }
    ensures fits { IfOk result (λ inputs. All FitsEntry inputs.1.items) }
{
    let rulebook = Rulebook::read(rules)?;
    let journal = read_journal(alloc, text)?;
    Ok((rulebook, journal))
}

/// Applies an entry that fits, as `Market::apply` does: a new order's price is then within the limits that it asks for.
pub fn apply_entry<B: Book, A: Allocator + Copy>(
    market: &mut Market<'_, B, A>,
    place: u64,
    entry: &Entry,
    fills: &mut Vec<Fill, A>,
) -> Result<Outcome, NoMemory>
    requires entry { FitsEntry entry.now }
    requires place { market.old.state.last < place }
    ensures meaning { IfOk result (λ outcome. (past : JournalState)
        → IsStateOf market.old.rules market.old.state past
        → IsEntryApplied market.old.rules past place entry.now outcome
        fills.old.items fills.new.items market.new.state) }
    ensures rules { market.new.rules ≡ market.old.rules }
    ensures last { OnOk result (market.new.state.last ≡ place) }
    ensures unchanged_on_err { OnErr result (market.new.state ≡ market.old.state) }
    ensures no_fills { OnErr result (fills.new.items ≡ fills.old.items) }
{
    market.apply(place, entry, fills)
}

/// Applies an entry that fits, its fills over those of the one before, and counts them.
fn match_entry<B: Book, A: Allocator + Copy>(
    market: &mut Market<'_, B, A>,
    place: u64,
    entry: &Entry,
    fills: &mut Vec<Fill, A>,
) -> Result<u64, NoMemory>
    requires entry { FitsEntry entry.now }
    requires place { market.old.state.last < place }
    ensures { OnOk result (market.new.state.last ≡ place) }
{
    fills.clear();
    apply_entry(market, place, entry, fills)?;
    Ok(fills.len() as u64)
}

/// Applies the entries of a journal in a market before its first entry, and counts the fills.
fn match_each<B: Book, A: Allocator + Copy>(
    market: &mut Market<'_, B, A>,
    journal: &[Entry],
    fills: &mut Vec<Fill, A>,
) -> Result<u64, NoMemory>
    requires first { market.old.state ≡ empty_state market.old.state.quotes_by }
    requires entries { All FitsEntry journal.now }
{
    market.reserve(journal.len())?;
    let mut count = 0u64;
    for n in 0..journal.len() {
        let made = match_entry(market, n as u64 + 1, &journal[n], fills)?;
        count = count.wrapping_add(made);
    }
    Ok(count)
}

/// How many fills the entries of a journal make, over an empty book. They are not kept.
fn match_all<B: Book + Drop, A: Allocator + Copy>(
    alloc: A,
    rulebook: &Rulebook,
    book: B,
    journal: &[Entry],
) -> Result<u64, NoMemory>
    requires empty { B.orders book ≡ [] }
    requires entries { All FitsEntry journal.now }
{
    let mut market = Market::new(alloc, rulebook, book);
    let mut fills = Vec::new(alloc);
    match_each(&mut market, journal, &mut fills)
}

/// Matches a journal over the book that the host has, and measures it.
fn match_indexed<A: Allocator + Copy>(
    alloc: A,
    rulebook: &Rulebook,
    journal: &[Entry],
) -> Result<u64, NoMemory>
    requires { All FitsEntry journal.now }
{
    let book = IndexBook::new(alloc, rulebook)?;
    match_all(alloc, rulebook, book, journal)
}

/// Applies the entries of a journal some times, and keeps neither fills nor outcomes.
fn match_runs(
    rt: &(impl CpuClock + AllocGlobal),
    rulebook: &Rulebook,
    journal: &[Entry],
) -> Result<Measured, BenchFault>
    requires { All FitsEntry journal.now }
{
    let mut fills = 0;
    let mut least = u64::MAX;
    for _ in 0..RUNS {
        let timer = Timer::start(rt)?;
        fills = match_indexed(rt.alloc(), rulebook, journal)?;
        least = least.min(timer.used(rt)?);
    }
    Ok(Measured {
        phase: "match",
        count: journal.len() as u64,
        unit: "entries",
        nanos: least,
        beside: Beside::Count(fills, "fills"),
    })
}

/// Applies the entries of a journal, and keeps neither fills nor outcomes.
pub fn time_match(
    rt: &(impl CpuClock + AllocGlobal),
    rules: &[u8],
    text: &[u8],
) -> Result<Measured, BenchFault> {
    let (rulebook, journal) = read_inputs(rt.alloc(), rules, text)?;
    match_runs(rt, &rulebook, &journal)
}
