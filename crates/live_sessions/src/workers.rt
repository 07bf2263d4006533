//! A thread for each session's stream: all are started, and all are joined.
ghost use Rattle.std.specs.Prelude.{◌≡◌, ◌<◌, ◌≤◌, ℕ, IfNone, IfSome, vec_len, vec_capacity};
ghost use Rattle.spread_rules_ids.specs.declared.limits.TheConstants.{SESSIONS};
ghost use Rattle.gate_link_sessions.specs.declared.gateway.Gateway.{Gateway};
ghost use Rattle.gate_link_sessions.specs.Fresh.{AreFresh};
ghost use Rattle.live_sessions.specs.code.Handing.{AreStarted, AreKept};

use crate::worker::{WorkerPromise, start};
use gate_link::Gateway;
use live_shared::{Gate, Shared, join_each};
use std::alloc::Allocator;
use std::snapshot::Snapshot;
use std::sync::Wait;
use std::thread::{PromisedHandle, Scope, Threads};

/// The handle of a session's thread.
pub type WorkerHandle<A> = PromisedHandle<Gateway<A>, WorkerPromise<A>>;

/// The streams of all sessions as clauses see them. It has no bytes: each thread has its own stream.
pub type GivenStreams<A> = Snapshot<Vec<Vec<u8, A>, A>>;

/// The handles of all threads of sessions that were started, and room for the gateways that they hand back.
#[derive(Drop)]
pub struct Workers<A: Allocator> {
    pub handles: Vec<WorkerHandle<A>, A>,
    pub room: Vec<Gateway<A>, A>,
}

/// The threads that were started, and the session of the one that was refused.
#[derive(Drop)]
pub struct Started<A: Allocator> {
    pub workers: Workers<A>,
    pub refused: Option<u8>,
}

/// Starts a thread for each gateway, with its stream, up to the first that is refused.
pub fn start_all<'r: 's, 's, E, R: Wait + Threads + Sync, G: Gate, A: Allocator + Send + 's>(
    scope: &Scope<'s, E>,
    shared: &Shared<'r, 's, R, G>,
    gateways: Vec<Gateway<A>, A>,
    streams: Vec<Vec<u8, A>, A>,
    workers: Workers<A>,
) -> Started<A>
    requires fresh { (ring : ℕ) × AreFresh ring gateways.items }
    requires streams { vec_len gateways ≡ vec_len streams }
    requires few { vec_len gateways ≤ SESSIONS }
    requires room { (vec_len workers.handles ≡ 0)
        × (vec_len gateways ≤ vec_capacity workers.handles) }
    ensures most { vec_len result.workers.handles ≤ vec_len gateways }
    ensures all { IfNone result.refused (vec_len result.workers.handles ≡ vec_len gateways) }
    ensures refused { IfSome result.refused (λ session.
        (session ≡ vec_len result.workers.handles) × (session < vec_len streams)) }
    ensures started { AreStarted streams.items gateways.items result.workers.handles.items }
    ensures room { result.workers.room ≡ workers.room }
{
    let Workers { handles, room } = workers;
    let mut handles = handles;
    let mut streams = streams;
    for gateway in gateways {
        match start(scope, shared, gateway, streams.remove(0)) {
            Some(handle) => handles.push_reserved(handle),
            None => {
                let refused = Some(handles.len() as u8);
                let workers = Workers { handles, room };
                return Started { workers, refused };
            }
        }
    }
    Started {
        workers: Workers { handles, room },
        refused: None,
    }
}

/// Joins each thread.
pub fn join_all<R: Threads, A: Allocator>(rt: &R, workers: Workers<A>) -> Vec<Gateway<A>, A>
    requires { (vec_len workers.room ≡ 0)
        × (vec_len workers.handles ≤ vec_capacity workers.room) }
    ensures len { vec_len result ≡ vec_len workers.handles }
    ensures kept { AreKept workers.handles.items result.items }
{
    let Workers { handles, room } = workers;
    join_each(rt, handles, room)
}
