//! Sources and sinks, over memory and over std.
ghost use Rattle.std.specs.Prelude.{◌≡◌, false};

use crate::expect::holds;
use spread_rules_ends::{
    Failed, FromReader, Sink, Source, TestSink, TestSource, ToWriter, write_all,
};
use std::io;
use std::io::{ErrorKind, Read};

/// What two writes into a sink with room for twelve bytes answer, and what is written then.
fn written<K: Sink>(sink: &mut K) -> (Result<(), Failed>, Result<(), Failed>)
    requires { K.has_failed sink.old ≡ false }
{
    match write_all(sink, b"8=FIX") {
        Ok(()) => (Ok(()), write_all(sink, b"10=220||")),
        Err(Failed) => (Err(Failed), Err(Failed)),
    }
}

/// What two reads of a source answer, and the bytes that the first one gave.
fn read_twice<S: Source>(source: &mut S, room: &mut [u8]) -> (Option<usize>, Option<usize>)
    requires { S.has_failed source.old ≡ false }
{
    match source.read(room) {
        Ok(count) => (Some(count), source.read(&mut [0u8; 16]).ok()),
        Err(Failed) => (None, None),
    }
}

/// The number of the read that fails (0: none), and how many bytes the first two reads give.
const SOURCES: &[(u32, Option<usize>, Option<usize>)] = &[
    (0, Some(9), Some(0)),
    (1, None, None),
    (2, Some(9), None),
    (3, Some(9), Some(0)),
];

#[test]
fn sources_in_memory(rt: HostRuntime) {
    let text = b"8=FIX.4.2";
    for (fail, first, second) in SOURCES {
        let bytes = Vec::from_slice(rt.alloc(), text).expect(&rt, "memory");
        let mut source = TestSource::new(bytes, *fail);
        let mut room = [0u8; 16];
        let counts = read_twice(&mut source, &mut room);
        holds(&rt, counts.0 == *first && counts.1 == *second);
        holds(&rt, first.is_none() || room.starts_with(text));
    }
}

/// The number of the write that fails (0: none), whether the first write passes, and the bytes that are written then.
const SINKS: &[(u32, bool, &[u8])] = &[
    (0, true, b"8=FIX10=220|"),
    (1, false, b""),
    (2, true, b"8=FIX"),
    (3, true, b"8=FIX10=220|"),
];

#[test]
fn sinks_in_memory(rt: HostRuntime) {
    for (fail, passes, bytes) in SINKS {
        let mut sink = TestSink::new(rt.alloc(), 12, *fail).expect(&rt, "memory");
        let (first, second) = written(&mut sink);
        holds(&rt, first.is_ok() == *passes && second.is_err());
        holds(&rt, sink.bytes() == *bytes);
    }
}

#[test]
fn ends_over_std(rt: HostRuntime) {
    let text = b"10=220|";
    let mut source = FromReader::new(text.as_slice());
    let mut room = [0u8; 16];
    let counts = read_twice(&mut source, &mut room);
    holds(&rt, counts.0 == Some(7) && counts.1 == Some(0));
    holds(&rt, room.starts_with(text));
    let mut sink = ToWriter::new(Vec::new(rt.alloc()));
    holds(&rt, write_all(&mut sink, text) == Ok(()));
}

/// A reader that a signal interrupts twice, and that then gives one byte.
#[derive(Drop)]
struct Interrupting {
    left: u32,
}

impl Read for Interrupting {
    fn read(&mut self, buf: &mut [u8]) -> io::Result<usize> {
        let left = self.left;
        self.left = left.saturating_sub(1);
        if left > 2 {
            return Err(io::Error::from(ErrorKind::Interrupted));
        }
        if left < 2 || buf.is_empty() {
            return Ok(0);
        }
        buf[0] = b'x';
        Ok(1)
    }
}

/// An interrupted read is asked again.
#[test]
fn interrupted_reads(rt: HostRuntime) {
    let mut source = FromReader::new(Interrupting { left: 4 });
    let mut room = [0u8; 16];
    let counts = read_twice(&mut source, &mut room);
    holds(&rt, counts.0 == Some(1) && counts.1 == Some(0));
    holds(&rt, room[0] == b'x');
}
