//! One session's writer, in a thread of its own.
ghost use Rattle.std.specs.Prelude.{◌≡◌, ◌<◌, ◌≤◌, IfSome, IfNone, vec_len, vec_capacity};
ghost use Rattle.spread_rules_ids.specs.declared.limits.TheConstants.{SESSIONS};
ghost use Rattle.gate_link_stages.specs.declared.post.Writer.{Writer};
ghost use Rattle.gate_link_stages.specs.Posting.{SameWriter};
ghost use Rattle.live_writers.specs.code.Writing.{AreWriting, AreWritten};

use gate_link::{Writer, Wrote};
use live_shared::{Gate, Pace, Shared, join_each};
use std::alloc::Allocator;
use std::snapshot::Snapshot;
use std::sync::Wait;
use std::sync::atomic::{AtomicBool, Ordering};
use std::thread;
use std::thread::{Promise, PromisedHandle, Scope, Threads};

/// What a writer's thread hands back: its own end of the ring, with the bytes that it took, and whether it found no
/// memory for more.
#[derive(Drop)]
pub struct Written<A: Allocator> {
    pub writer: Writer<A>,
    pub refused: bool,
}

/// What it promises: its own end of the ring.
#[derive(Drop)]
pub struct WritePromise<A: Allocator> {
    pub writer: Snapshot<Writer<A>>,
}

impl<A: Allocator> Promise<Written<A>> for WritePromise<A> {
    ghost kept_by = { λ p r. SameWriter p.writer.value r.writer };
}

/// The handle of a writer's thread.
pub type WritingHandle<A> = PromisedHandle<Written<A>, WritePromise<A>>;

/// The handles of all writers' threads that were started, and room for what they hand back.
#[derive(Drop)]
pub struct Writing<A: Allocator> {
    pub handles: Vec<WritingHandle<A>, A>,
    pub room: Vec<Written<A>, A>,
}

/// The writers' threads that were started, and the session of the one that was refused.
#[derive(Drop)]
pub struct StartedWriters<A: Allocator> {
    pub writing: Writing<A>,
    pub refused: Option<u8>,
}

/// Takes the bytes as they come, until the end mark is taken, or the flag is set and none is there; where it finds no
/// memory it sets the flag.
fn write_all<R: Wait, G: Gate, A: Allocator>(
    rt: &R,
    gate: &G,
    stop: &AtomicBool,
    ring: usize,
    session: u8,
    writer: Writer<A>,
) -> Written<A>
    ensures { SameWriter writer result.writer }
{
    let mut writer = writer;
    let mut pace = Pace::of_ring(ring);
    for _ in rt.forever() {
        match writer.take() {
            Ok(Wrote::Bytes(_)) => {
                pace.found();
                gate.written(session, writer.bytes().len() as u64);
            }
            Ok(Wrote::Ended) => return handed(writer, false),
            Ok(Wrote::Empty) => {
                if stop.load(Ordering::SeqCst) {
                    return handed(writer, false);
                }
                pace.rest(rt);
            }
            Err(_) => {
                stop.store(true, Ordering::SeqCst);
                return handed(writer, true);
            }
        }
    }
    unreachable!()
}

fn handed<A: Allocator>(writer: Writer<A>, refused: bool) -> Written<A>
    ensures { (result.writer ≡ writer) × (result.refused ≡ refused) }
{
    Written { writer, refused }
}

/// A thread of the scope for one session's writer.
fn start_writer<'r: 's, 's, E, R: Wait + Threads + Sync, G: Gate, A: Allocator + Send + 's>(
    scope: &Scope<'s, E>,
    shared: &Shared<'r, 's, R, G>,
    session: u8,
    writer: Writer<A>,
) -> Option<WritingHandle<A>>
    ensures { IfSome result (λ h. h.promise.writer.value ≡ writer) }
{
    let promise = WritePromise {
        writer: Snapshot::of(&writer),
    };
    let Shared {
        rt,
        gate,
        stop,
        ring,
    } = *shared;
    let started = scope.spawn_with(
        promise,
        move || -> Written<A>
            ensures { SameWriter writer result.writer }
        { write_all(rt, gate, stop, ring, session, writer) },
    );
    started.ok()
}

/// Starts a thread for each writer, up to the first that is refused.
pub fn start_writers<'r: 's, 's, E, R: Wait + Threads + Sync, G: Gate, A: Allocator + Send + 's>(
    scope: &Scope<'s, E>,
    shared: &Shared<'r, 's, R, G>,
    writers: Vec<Writer<A>, A>,
    writing: Writing<A>,
) -> StartedWriters<A>
    requires few { vec_len writers ≤ SESSIONS }
    requires room { (vec_len writing.handles ≡ 0)
        × (vec_len writers ≤ vec_capacity writing.handles) }
    ensures most { vec_len result.writing.handles ≤ vec_len writers }
    ensures all { IfNone result.refused (vec_len result.writing.handles ≡ vec_len writers) }
    ensures refused { IfSome result.refused (λ session. session < vec_len writers) }
    ensures started { AreWriting writers.items result.writing.handles.items }
    ensures room { result.writing.room ≡ writing.room }
{
    let Writing { handles, room } = writing;
    let mut handles = handles;
    for writer in writers {
        let session = handles.len() as u8;
        match start_writer(scope, shared, session, writer) {
            Some(handle) => handles.push_reserved(handle),
            None => {
                return StartedWriters {
                    writing: Writing { handles, room },
                    refused: Some(session),
                };
            }
        }
    }
    StartedWriters {
        writing: Writing { handles, room },
        refused: None,
    }
}

/// Joins each writer's thread.
pub fn join_writers<R: Threads, A: Allocator>(rt: &R, writing: Writing<A>) -> Vec<Written<A>, A>
    requires { (vec_len writing.room ≡ 0)
        × (vec_len writing.handles ≤ vec_capacity writing.room) }
    ensures len { vec_len result ≡ vec_len writing.handles }
    ensures kept { AreWritten writing.handles.items result.items }
{
    let Writing { handles, room } = writing;
    join_each(rt, handles, room)
}
