//! What the sessions of an applied journal are sent.
ghost use Rattle.std.specs.Prelude.{◌≤◌, length};

use bench_phases::BenchFault;
use spread_journal::JournalFault;
use spread_report::{Desk, DeskFault, fit_fills, fits_outcome};
use spread_rules::{Entry, Fill, Outcome, Rulebook};
use spread_rules_ids::Id;
use spread_rules_ids::limits::SESSIONS;
use std::alloc::{AllocError, Allocator};

/// All fills of a journal's entries, and each entry's outcome.
#[derive(Drop)]
pub struct Applied<A: Allocator> {
    pub fills: Vec<Fill, A>,
    pub outcomes: Vec<Outcome, A>,
}

/// An entry at its place, and what came of it.
#[derive(Clone, Copy)]
struct SentEntry<'a> {
    place: u64,
    entry: &'a Entry,
    outcome: &'a Outcome,
    fills: &'a [Fill],
}

/// The fault of an entry that the desk may not be given. Line numbers count the line `JOURNAL 2`, so its line is one more
/// than its place.
fn unfit(place: u64) -> BenchFault {
    BenchFault::Journal(JournalFault::Line(place.saturating_add(1)))
}

/// Sends what an entry sends. The ranges that the desk asks for are tested here.
fn send<A: Allocator + Copy>(
    desk: &mut Desk,
    rules: &Rulebook,
    applied: &SentEntry<'_>,
    lists: &mut Vec<Vec<u8, A>, A>,
) -> Result<(), BenchFault> {
    if usize::from(applied.entry.session) >= SESSIONS
        || lists.len() != SESSIONS
        || !fits_outcome(rules, &applied.entry.event, applied.outcome)
        || !fit_fills(rules, applied.fills)
    {
        return Err(unfit(applied.place));
    }
    match desk.outgoing(
        rules,
        applied.place,
        applied.entry,
        applied.outcome,
        applied.fills,
        lists,
    ) {
        Ok(()) => Ok(()),
        Err(DeskFault::NoMemory) => Err(BenchFault::NoMemory),
        Err(DeskFault::NumbersSpent) => Err(BenchFault::NumbersSpent(applied.place)),
    }
}

/// How many fills at the front the entry of that place made.
fn made_at(fills: &[Fill], place: u64) -> usize
    ensures { result ≤ length fills.now }
{
    fills
        .iter()
        .position(|fill| fill.at != place)
        .unwrap_or(fills.len())
}

/// Sixteen empty lists.
fn new_lists<A: Allocator + Copy>(alloc: A) -> Result<Vec<Vec<u8, A>, A>, AllocError> {
    let mut lists = Vec::new(alloc);
    for _ in 0..SESSIONS {
        lists.push(Vec::new(alloc))?;
    }
    Ok(lists)
}

/// Sends what each entry of an applied journal sends.
fn send_each<A: Allocator + Copy>(
    desk: &mut Desk,
    rules: &Rulebook,
    journal: &[Entry],
    applied: &Applied<A>,
    lists: &mut Vec<Vec<u8, A>, A>,
) -> Result<(), BenchFault> {
    let mut rest = applied.fills.as_slice();
    let outcomes = applied.outcomes.as_slice();
    if outcomes.len() != journal.len() {
        return Err(unfit(0));
    }
    for n in 0..journal.len() {
        let place = n as u64 + 1;
        let (fills, others) = rest.split_at(made_at(rest, place));
        let one = SentEntry {
            place,
            entry: &journal[n],
            outcome: &outcomes[n],
            fills,
        };
        send(desk, rules, &one, lists)?;
        rest = others;
    }
    Ok(())
}

/// What each session is sent for the entries of an applied journal.
pub fn send_all<A: Allocator + Copy>(
    alloc: A,
    rules: &Rulebook,
    journal: &[Entry],
    applied: &Applied<A>,
) -> Result<Vec<Vec<u8, A>, A>, BenchFault> {
    let mut lists = new_lists(alloc)?;
    let mut desk = Desk::new(Id::new(b"20260105-14:30:00").unwrap_or(Id::default()));
    send_each(&mut desk, rules, journal, applied, &mut lists)?;
    Ok(lists)
}
