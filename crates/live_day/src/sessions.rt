//! A day of sessions in threads: all are started, the journal is made in the caller's, and all are joined.
ghost use Rattle.std.specs.Prelude.{◌≡◌, ◌≤◌, ◌⊎◌, ℕ, length, IfOk, IfErr, OnOk};
ghost use Rattle.spread_rules_ids.specs.declared.limits.TheConstants.{MAX_JOURNAL_ENTRIES};
ghost use Rattle.spread_rules.specs.Journal.{IsLawful};
ghost use Rattle.apply_desk.specs.Sending.{sending_rules, stamp_of};
ghost use Rattle.live_day.specs.code.Starting.{AreReady, IsRunning};
ghost use Rattle.live_day.specs.Streams.{IsDayOfSessions, IsLink, IsThreadsFault};
ghost use Rattle.live_day.specs.Limits.{IsWithinLimits};

use crate::conclusion::{SessionsDay, conclude};
use crate::fault::ThreadsFault;
use crate::stages::{Caps, DaySettings, Stages, stages_of};
use crate::starting::{RunningDay, start_day};
use live_sessions::{GivenStreams, SequenceEnd, sequence};
use live_shared::{Gate, Shared};
use live_writers::join_writers;
use std::alloc::Allocator;
use std::snapshot::Snapshot;
use std::sync::Wait;
use std::sync::atomic::{AtomicBool, Ordering};
use std::thread;
use std::thread::{Scope, Threads};

/// Takes the sequencer's turns until the journal is whole, then joins all threads: the day that their parts make, or the
/// fault with the least number.
fn finish<R: Wait + Threads, A: Allocator + Copy>(
    rt: &R,
    stop: &AtomicBool,
    running: RunningDay<'_, A>,
    streams: &GivenStreams<A>,
    room: usize,
) -> Result<SessionsDay<A>, ThreadsFault>
    requires running { IsRunning room streams.now.value.items running }
    requires few { room ≤ MAX_JOURNAL_ENTRIES }
    ensures size { IfOk result (λ day. length day.journal.items ≤ room) }
    ensures day { IfOk result (IsDayOfSessions
        (sending_rules running.entry.matching.promise.posted.value.reported)
        (stamp_of running.entry.matching.promise.posted.value.reported) streams.now.value.items) }
    ensures fault { IfErr result (λ f. (ring : ℕ)
        → IsThreadsFault (sending_rules running.entry.matching.promise.posted.value.reported)
        streams.now.value.items ring room f) }
{
    let RunningDay {
        sequencer,
        feeder,
        workers,
        matching,
        writing,
    } = running;
    let sequenced = sequence(rt, stop, sequencer, feeder, workers, streams);
    if sequenced.end != SequenceEnd::Whole {
        stop.store(true, Ordering::SeqCst);
    }
    let matched = matching.join(rt);
    let written = join_writers(rt, writing);
    conclude(sequenced, matched, written, streams, room)
}

/// The sessions of a scope: a thread for each, one that matches, one for each writer, and the sequencer's turns in this
/// one.
fn sessions_in<'r: 's, 's, E, R: Wait + Threads + Sync, G: Gate, A: Allocator + Copy + Send + 's>(
    scope: &Scope<'s, E>,
    shared: &Shared<'r, 's, R, G>,
    stages: Stages<'s, A>,
    streams: Vec<Vec<u8, A>, A>,
    alloc: A,
) -> Result<SessionsDay<A>, ThreadsFault>
    requires ready { AreReady streams.items stages }
    requires few { stages.room ≤ MAX_JOURNAL_ENTRIES }
    ensures day { IfOk result (IsDayOfSessions (sending_rules stages.entry.posted.reported)
        (stamp_of stages.entry.posted.reported) streams.items) }
    ensures size { IfOk result (λ day. length day.journal.items ≤ stages.entry.room) }
    ensures fault { IfErr result (λ f. (ring : ℕ)
        → IsThreadsFault (sending_rules stages.entry.posted.reported)
        streams.items ring stages.entry.room f) }
{
    let given = Snapshot::of(&streams);
    let room = stages.room;
    match start_day(scope, shared, stages, streams, alloc) {
        Ok(running) => finish(shared.rt, shared.stop, running, &given, room),
        Err(fault) => Err(fault),
    }
}

/// Runs a thread for each of 1 to 16 streams, session 0 first, one that matches, one for each session's writer, and
/// the sequencer in the caller's. The journal has, of each session, exactly the events of its stream, its close
/// included; the fills, and what each session is sent, are those of the journal.
///
/// Link and NoMemory(0) come before any thread is started. After each later fault the threads that run are told to
/// stop, and joined; of several faults the one with the least number is answered.
pub fn run_sessions<'r, R: Threads + Wait + Sync, G: Gate, A: Allocator + Copy + Send>(
    rt: &'r R,
    alloc: A,
    rules: &DaySettings<'r>,
    streams: Vec<Vec<u8, A>, A>,
    gate: &'r G,
    caps: Caps,
) -> Result<SessionsDay<A>, ThreadsFault>
    ensures day { IfOk result
        (IsDayOfSessions rules.now.rulebook.now rules.now.stamp streams.items) }
    ensures size { IfOk result (λ day. length day.journal.items ≤ caps.journal) }
    ensures lawful { IfOk result (λ day. IsLawful day.journal.items) }
    ensures limits { OnOk result
        (IsWithinLimits (length streams.items) caps.ring caps.journal) }
    ensures within { IfErr result (λ f.
        IsLink f ⊎ IsWithinLimits (length streams.items) caps.ring caps.journal) }
    ensures fault { IfErr result
        (IsThreadsFault rules.now.rulebook.now streams.items caps.ring caps.journal) }
{
    let flag = AtomicBool::new(false);
    let shared = Shared {
        rt,
        gate,
        stop: &flag,
        ring: caps.ring,
    };
    // The stages are made inside, so that nothing outside of the scope owns a market.
    thread::scope(
        thread::scope_env(),
        rt,
        |scope| -> Result<SessionsDay<A>, ThreadsFault>
            ensures day { IfOk result
                (IsDayOfSessions rules.entry.now.rulebook.now rules.entry.now.stamp streams.items) }
            ensures size { IfOk result (λ day. length day.journal.items ≤ caps.journal) }
            ensures limits { OnOk result
                (IsWithinLimits (length streams.items) caps.ring caps.journal) }
            ensures within { IfErr result (λ f.
                IsLink f ⊎ IsWithinLimits (length streams.items) caps.ring caps.journal) }
            ensures fault { IfErr result
                (IsThreadsFault rules.entry.now.rulebook.now streams.items caps.ring caps.journal) }
        {
            match stages_of(alloc, rules, streams.len(), caps) {
                Ok(stages) => sessions_in(scope, &shared, stages, streams, alloc),
                Err(fault) => Err(fault),
            }
        },
    )
}
