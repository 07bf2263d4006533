//! A thread for each session, one that matches, and one for each writer, started in this order.
ghost use Rattle.std.specs.Prelude.{◌≡◌, ◌≤◌, length, IfOk, IfErr, vec_len, vec_capacity};
ghost use Rattle.live_day.specs.code.Starting.{AreReady, IsRunning, IsStartFault};
ghost use Rattle.live_sessions.specs.code.Handing.{IsRoom};
ghost use Rattle.live_day.specs.declared.fault.ThreadsFault.TheVariants.{NoMemory, Spawn};

use crate::fault::ThreadsFault;
use crate::stages::Stages;
use apply_desk::FillsAndMessages;
use gate_link::Sequencer;
use gate_link_stages::Feeder;
use live_matching::{MatchPromise, Matched, PostedEntries, start_matching};
use live_sessions::{Started, Workers, join_all, start_all};
use live_shared::{Gate, Shared};
use live_writers::{StartedWriters, Writing, join_writers, start_writers};
use std::alloc::{AllocError, Allocator};
use std::sync::Wait;
use std::sync::atomic::Ordering;
use std::thread::{PromisedHandle, Scope, Threads};

/// A day all of whose threads were started: their handles, and what the sequencer works with.
#[derive(Drop)]
pub struct RunningDay<'r, A: Allocator + Copy> {
    pub sequencer: Sequencer<A>,
    pub feeder: Feeder<A>,
    pub workers: Workers<A>,
    pub matching: PromisedHandle<Matched<'r, A>, MatchPromise<'r, A>>,
    pub writing: Writing<A>,
}

/// The fault of a day whose stages found no room for their threads' handles.
fn no_room<T: Drop>(_unused: T) -> ThreadsFault
    ensures { result ≡ NoMemory 0 }
{
    ThreadsFault::NoMemory(0)
}

/// Tells the threads that run to stop, and joins them, since the one of this number could not be started. What no
/// thread took goes.
fn stop_workers<R: Threads, G, A: Allocator, T: Drop>(
    shared: &Shared<'_, '_, R, G>,
    workers: Workers<A>,
    number: u8,
    _unused: T,
) -> ThreadsFault
    requires { (vec_len workers.room ≡ 0) × (vec_len workers.handles ≤ vec_capacity workers.room) }
    ensures { result ≡ Spawn number }
{
    shared.stop.store(true, Ordering::SeqCst);
    drop(join_all(shared.rt, workers));
    ThreadsFault::Spawn(number)
}

/// Room for the handles of the sessions' threads and of the writers', and for what they hand back.
fn rooms_of<A: Allocator + Copy>(
    alloc: A,
    sessions: usize,
) -> Result<(Workers<A>, Writing<A>), AllocError>
    ensures workers { IfOk result (λ r.
        IsRoom sessions (vec_len r.0.handles) (vec_capacity r.0.handles)
        × IsRoom sessions (vec_len r.0.room) (vec_capacity r.0.room)) }
    ensures writers { IfOk result (λ r.
        IsRoom sessions (vec_len r.1.handles) (vec_capacity r.1.handles)
        × IsRoom sessions (vec_len r.1.room) (vec_capacity r.1.room)) }
{
    let workers = Workers {
        handles: Vec::with_capacity(alloc, sessions)?,
        room: Vec::with_capacity(alloc, sessions)?,
    };
    let writing = Writing {
        handles: Vec::with_capacity(alloc, sessions)?,
        room: Vec::with_capacity(alloc, sessions)?,
    };
    Ok((workers, writing))
}

/// What was applied and posted goes, since threads give no day.
fn let_go<A: Allocator + Copy>(posted: PostedEntries<'_, A>) {
    let PostedEntries { reported, .. } = posted;
    let FillsAndMessages { .. } = reported.into_parts();
}

/// Starts the threads of a day. Where one cannot be started, or there is no memory for their handles, those that run are
/// told to stop, and joined; what no thread took goes.
pub fn start_day<'r: 's, 's, E, R: Wait + Threads + Sync, G: Gate, A: Allocator + Copy + Send + 's>(
    scope: &Scope<'s, E>,
    shared: &Shared<'r, 's, R, G>,
    stages: Stages<'s, A>,
    streams: Vec<Vec<u8, A>, A>,
    alloc: A,
) -> Result<RunningDay<'s, A>, ThreadsFault>
    requires { AreReady streams.items stages }
    ensures running { IfOk result (IsRunning stages.entry.room streams.items) }
    ensures posted { IfOk result (λ running.
        running.matching.promise.posted.value ≡ stages.entry.posted) }
    ensures fault { IfErr result (IsStartFault (length streams.items)) }
{
    let sessions = stages.gateways.len();
    let Stages {
        gateways,
        sequencer,
        feeder,
        matcher,
        posted,
        writers,
        ..
    } = stages;
    let Ok((workers, writing)) = rooms_of(alloc, sessions) else {
        let_go(posted);
        let unused = (gateways, sequencer, feeder, matcher, writers, streams);
        return Err(no_room(unused));
    };
    let Started { workers, refused } = start_all(scope, shared, gateways, streams, workers);
    if let Some(session) = refused {
        let_go(posted);
        let unused = (sequencer, feeder, matcher, writers, writing);
        return Err(stop_workers(shared, workers, session, unused));
    }
    let Shared { rt, gate, stop, .. } = *shared;
    let Some(matching) = start_matching(scope, rt, gate, stop, matcher, posted) else {
        let unused = (sequencer, feeder, writers, writing);
        return Err(stop_workers(shared, workers, sessions as u8, unused));
    };
    let StartedWriters { writing, refused } = start_writers(scope, shared, writers, writing);
    if let Some(session) = refused {
        let number = sessions as u8 + 1 + session;
        let fault = stop_workers(shared, workers, number, (sequencer, feeder));
        let Matched { posted, .. } = matching.join(rt);
        let_go(posted);
        drop(join_writers(rt, writing));
        return Err(fault);
    }
    Ok(RunningDay {
        sequencer,
        feeder,
        workers,
        matching,
        writing,
    })
}
