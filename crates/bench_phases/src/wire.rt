//! Frames and messages.
use crate::fault::BenchFault;
use crate::timing::{Beside, Measured, RUNS, Timer};
use fix_session::{Reader, Verdict};
use fix_wire_framer::{Framer, Next};
use std::time::CpuClock;

/// A piece of a stream, as a connection would give it.
pub const PIECE: usize = 4096;

/// How many messages a framer can hold at most, and more.
const HELD: u32 = 8192;

/// Passes every message that stands, and counts them.
fn pass_messages(framer: &mut Framer) -> u64 {
    let mut passed = 0u64;
    for _ in 0..HELD {
        let Next::Message(_) = framer.next() else {
            break;
        };
        framer.pass();
        passed = passed.wrapping_add(1);
    }
    passed
}

fn scan_piece(framer: &mut Framer, piece: &[u8]) -> u64 {
    let mut rest = piece;
    let mut passed = 0u64;
    for _ in 0..HELD {
        if rest.is_empty() {
            break;
        }
        let taken = framer.put(rest);
        rest = &rest[taken..];
        passed = passed.wrapping_add(pass_messages(framer));
    }
    passed
}

/// Puts a stream in pieces, passes every message, and counts them.
fn scan(stream: &[u8]) -> u64 {
    let mut framer = Framer::new();
    let mut passed = 0u64;
    for piece in stream.chunks(PIECE) {
        passed = passed.wrapping_add(scan_piece(&mut framer, piece));
    }
    passed
}

/// Judges and passes every message that stands, and counts the events.
fn judge_messages(reader: &mut Reader) -> u64 {
    let mut events = 0u64;
    for _ in 0..HELD {
        let Some(verdict) = reader.look() else {
            break;
        };
        reader.pass();
        if let Verdict::Event(_) = verdict {
            events = events.wrapping_add(1);
        }
    }
    events
}

fn judge_piece(reader: &mut Reader, piece: &[u8]) -> u64 {
    let mut rest = piece;
    let mut events = 0u64;
    for _ in 0..HELD {
        if rest.is_empty() {
            break;
        }
        let taken = reader.put(rest);
        rest = &rest[taken..];
        events = events.wrapping_add(judge_messages(reader));
    }
    events
}

/// Puts a session's stream in pieces, judges every message, and counts the events.
fn judge(stream: &[u8]) -> u64 {
    let mut reader = Reader::new();
    let mut events = 0u64;
    for piece in stream.chunks(PIECE) {
        events = events.wrapping_add(judge_piece(&mut reader, piece));
    }
    events
}

/// Scans streams, and counts their messages. In line, so that what is timed is the loop and no call around it.
#[inline(always)]
pub fn scanned(streams: &[Vec<u8>]) -> u64 {
    let mut passed = 0u64;
    for stream in streams {
        passed = passed.wrapping_add(scan(stream));
    }
    passed
}

fn judged(streams: &[Vec<u8>]) -> u64 {
    let mut events = 0u64;
    for stream in streams {
        events = events.wrapping_add(judge(stream));
    }
    events
}

/// How many bytes the streams have.
pub fn bytes_of(streams: &[Vec<u8>]) -> u64 {
    let mut bytes = 0u64;
    for stream in streams {
        bytes = bytes.wrapping_add(stream.len() as u64);
    }
    bytes
}

/// Scans streams: the bytes, and the messages.
pub fn time_scan(rt: &impl CpuClock, streams: &[Vec<u8>]) -> Result<Measured, BenchFault> {
    let mut passed = 0u64;
    let mut least = u64::MAX;
    for _ in 0..RUNS {
        let timer = Timer::start(rt)?;
        passed = scanned(streams);
        least = least.min(timer.used(rt)?);
    }
    Ok(Measured {
        phase: "scan",
        count: bytes_of(streams),
        unit: "bytes",
        nanos: least,
        beside: Beside::Count(passed, "messages passed"),
    })
}

/// Frames and judges streams.
pub fn time_judge(rt: &impl CpuClock, streams: &[Vec<u8>]) -> Result<Measured, BenchFault> {
    let messages = scanned(streams);
    let mut events = 0u64;
    let mut least = u64::MAX;
    for _ in 0..RUNS {
        let timer = Timer::start(rt)?;
        events = judged(streams);
        least = least.min(timer.used(rt)?);
    }
    Ok(Measured {
        phase: "judge",
        count: messages,
        unit: "messages",
        nanos: least,
        beside: Beside::Count(events, "events"),
    })
}
