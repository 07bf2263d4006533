//! A day in threads: one for each session, one that matches, one for each session's writer, and the sequencer in the
//! caller's.
ghost use Rattle.std.specs.Prelude.{◌≡◌, ◌<◌, ◌≤◌, ◌⊎◌, ℕ, [], length, slice_index_or, IfOk, IfErr, OnOk};
ghost use Rattle.spread_rules_ids.specs.declared.limits.TheConstants.{SESSIONS};
ghost use Rattle.text_messages.specs.Messages.{texts_of};
ghost use Rattle.live_day.specs.Limits.{IsWithinLimits};
ghost use Rattle.spread_host.specs.Headline.{IsJournalOfStreams, HasFills, HasOutgoing, BoughtIsSold, PaidIsReceived, IsAlwaysQuiet, IsDayOf};
ghost use Rattle.spread_host.specs.LiveDays.{IsLink, IsRunDayFault};

use live_day::{Caps, DaySettings, SessionsDay, run_sessions};
use live_shared::Gate;
use spread_host_faults::HostFault;
use spread_match::laws::ranges;
use spread_rules::Rulebook;
use spread_rules_ids::Id;
use std::alloc::Allocator;
use std::sync::Wait;
use std::thread::Threads;
use text_day::Day;

/// Runs a day in threads: one for each of 1 to 16 streams, session 0 first, one that applies the journal's entries while
/// it grows, one for each session that collects what it is sent, and the sequencer in the caller's.
///
/// Faults: Link, where the number of streams or a cap is out of range, or its memory ran out; Spawn, naming the thread
/// that could not be started: a session's by the session, the matching thread by the number of sessions, the writer's of
/// session s by the number of sessions + 1 + s; JournalFull; NoMemory, its place 0 where no entry was begun, else that of
/// the first entry not worked through, where a writer found none one more than the number of entries worked through;
/// NumbersSpent. After a fault the threads that run are told to stop, and joined; of several faults the one with the least
/// number is answered.
pub fn run_day<R: Threads + Wait + Sync, G: Gate, A: Allocator + Copy + Send>(
    rt: &R,
    alloc: A,
    rulebook: &Rulebook,
    stamp: Id,
    streams: Vec<Vec<u8, A>, A>,
    gate: &G,
    caps: Caps,
) -> Result<Day<A>, HostFault>
    // The headline.
    ensures journal { IfOk result (λ day. IsJournalOfStreams streams.items day.journal.items) }
    ensures fills { IfOk result (λ day. HasFills rulebook.now day.journal.items day.fills.items) }
    ensures outgoing { IfOk result (λ day.
        HasOutgoing rulebook.now stamp day.journal.items day.out.items) }
    ensures bought_is_sold { IfOk result (λ day. BoughtIsSold day.fills.items) }
    ensures paid_is_received { IfOk result (λ day. PaidIsReceived day.fills.items) }
    ensures quiet { IfOk result (λ day. IsAlwaysQuiet rulebook.now day.journal.items) }

    // What else is true of the day.
    ensures day { IfOk result (λ day.
        IsDayOf rulebook.now stamp day.journal.items day.fills.items) }
    ensures limits { OnOk result
        (IsWithinLimits (length streams.items) caps.ring caps.journal) }
    ensures size { IfOk result (λ day. length day.journal.items ≤ caps.journal) }
    ensures no_stream { IfOk result (λ day. (s : ℕ) → s < SESSIONS → length streams.items ≤ s
        → slice_index_or (texts_of day.out.items) s [] ≡ []) }

    // A number out of range is answered by Link alone.
    ensures within { IfErr result (λ f.
        IsLink f ⊎ IsWithinLimits (length streams.items) caps.ring caps.journal) }
    // When each fault comes; JournalFull, where the streams have more events than the journal has room for.
    ensures fault { IfErr result (IsRunDayFault rulebook.now streams.items caps.ring caps.journal) }
{
    // Cites the ranges of a journal's fills, and that a rulebook is lawful.
    ranges();
    rulebook.months();
    let rules = DaySettings { rulebook, stamp };
    let SessionsDay { journal, applied } = run_sessions(rt, alloc, &rules, streams, gate, caps)?;
    Ok(Day {
        journal,
        fills: applied.fills,
        out: applied.out,
    })
}
