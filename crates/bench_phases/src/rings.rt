//! Gateways, rings and the sequencer, in two threads.
use crate::fault::BenchFault;
use crate::timing::{Beside, Measured};
use crate::wire::{PIECE, scanned};
use gate_link::{Burst, Gateway, Sequencer, Step, Takes, Turn, link};
use std::alloc::{AllocGlobal, Allocator, Global};
use std::thread;
use std::thread::{Threads, join_mut};
use std::time::{Clock, Instant};

/// More than a framer can hold messages.
const MOST: u32 = 8192;

/// How many events go into a ring and out of it at once.
#[derive(Clone, Copy)]
pub enum AtOnce {
    One,
    /// The events of up to 64 messages at once, as `live` sends them.
    Slice,
}

impl AtOnce {
    fn phase(self) -> &'static str {
        match self {
            AtOnce::One => "threads",
            AtOnce::Slice => "slices",
        }
    }
}

/// Judges a message, or those of a slice, and sends what comes of them.
fn step_of<A: Allocator>(gateway: &mut Gateway<A>, at_once: AtOnce) -> Step {
    match at_once {
        AtOnce::One => gateway.step(),
        AtOnce::Slice => match gateway.step_many(64) {
            Burst::Sent(_) => Step::Sent,
            Burst::Skipped => Step::Skipped,
            Burst::Need => Step::Need,
            Burst::Full => Step::Full,
            Burst::Closed => Step::Closed,
        },
    }
}

/// Steps until no message stands, and lets other threads run where the ring is full.
fn send_standing<A: Allocator>(gateway: &mut Gateway<A>, at_once: AtOnce) {
    for _ in 0..u64::MAX {
        match step_of(gateway, at_once) {
            Step::Sent | Step::Skipped => {}
            Step::Full => thread::yield_now(),
            Step::Need | Step::Closed => return,
        }
    }
}

fn send_piece<A: Allocator>(gateway: &mut Gateway<A>, piece: &[u8], at_once: AtOnce) {
    let mut rest = piece;
    for _ in 0..MOST {
        if rest.is_empty() {
            break;
        }
        let taken = gateway.put(rest);
        rest = &rest[taken..];
        send_standing(gateway, at_once);
    }
}

/// Sends the close of a session's end.
fn close<A: Allocator>(gateway: &mut Gateway<A>) {
    for _ in 0..u64::MAX {
        match gateway.end() {
            Step::Closed => return,
            Step::Full => thread::yield_now(),
            _ => {}
        }
    }
}

fn send_stream<A: Allocator>(gateway: &mut Gateway<A>, stream: &[u8], at_once: AtOnce) {
    for piece in stream.chunks(PIECE) {
        send_piece(gateway, piece, at_once);
    }
    close(gateway);
}

/// Sends the streams of all sessions, one after another.
fn send_streams<A: Allocator>(gateways: &mut [Gateway<A>], streams: &[Vec<u8>], at_once: AtOnce) {
    for (gateway, stream) in gateways.iter_mut().zip(streams.iter()) {
        send_stream(gateway, stream, at_once);
    }
}

/// Takes an event of a session, or those of a slice.
fn turn_of<A: Allocator>(sequencer: &mut Sequencer<A>, session: u8, at_once: AtOnce) -> Turn {
    if usize::from(session) >= sequencer.sessions() {
        return Turn::Done;
    }
    match at_once {
        AtOnce::One => sequencer.turn(session),
        AtOnce::Slice => match sequencer.turn_many(session, 64) {
            Takes::Took(_) => Turn::Took,
            Takes::Empty => Turn::Empty,
            Takes::Done => Turn::Done,
            Takes::JournalFull => Turn::JournalFull,
        },
    }
}

/// Takes a session's events until its close, or until the journal is full.
fn take_session<A: Allocator>(sequencer: &mut Sequencer<A>, session: u8, at_once: AtOnce) {
    for _ in 0..u64::MAX {
        match turn_of(sequencer, session, at_once) {
            Turn::Took => {}
            Turn::Empty => thread::yield_now(),
            Turn::Done | Turn::JournalFull => return,
        }
    }
}

fn take_sessions<A: Allocator>(sequencer: &mut Sequencer<A>, at_once: AtOnce) {
    for session in 0..16u8 {
        take_session(sequencer, session, at_once);
    }
}

/// One thread sends, another takes.
fn send_and_take<R: Threads + Sync>(
    rt: &R,
    gateways: &mut [Gateway<Global>],
    sequencer: &mut Sequencer<Global>,
    streams: &[Vec<u8>],
    at_once: AtOnce,
) {
    // Each thread reads a copy of its own.
    let (sent, taken) = (at_once, at_once);
    join_mut(
        rt,
        &mut || send_streams(gateways, streams, sent),
        &mut || take_sessions(sequencer, taken),
    );
}

/// Sends and takes the streams once, by the clock: they hold so many messages.
fn time_sending<R: Clock + Threads + Sync>(
    rt: &R,
    gateways: &mut [Gateway<Global>],
    sequencer: &mut Sequencer<Global>,
    streams: &[Vec<u8>],
    messages: u64,
    at_once: AtOnce,
) -> Result<Measured, BenchFault> {
    let start = Instant::now(rt)?;
    send_and_take(rt, gateways, sequencer, streams, at_once);
    let used = start.elapsed(rt)?;
    Ok(Measured {
        phase: at_once.phase(),
        count: messages,
        unit: "messages",
        nanos: u64::try_from(used.as_nanos()).unwrap_or(u64::MAX),
        beside: Beside::Count(sequencer.journal().len() as u64, "entries"),
    })
}

/// Messages of streams in two threads, by the clock: one frames, judges and sends, the other takes.
pub fn time_threads<R: Clock + AllocGlobal + Threads + Sync>(
    rt: &R,
    streams: &[Vec<u8>],
    at_once: AtOnce,
) -> Result<Measured, BenchFault> {
    let messages = scanned(streams);
    let Ok((mut gateways, mut sequencer)) = link(rt.alloc(), streams.len(), 256, 1_000_000) else {
        return Err(BenchFault::NoMemory);
    };
    time_sending(
        rt,
        gateways.as_mut_slice(),
        &mut sequencer,
        streams,
        messages,
        at_once,
    )
}
