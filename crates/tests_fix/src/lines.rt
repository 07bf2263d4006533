//! Day lines as they are read.
ghost use Rattle.std.specs.Prelude.{◌<◌, length};

use crate::expect::holds;
use intake_lines::laws::{day_journal, day_lines};
use intake_lines::{DayReader, LinesFault, read_day_lines};
use spread_rules::{Entry, Event};
use spread_rules_ends::{FromReader, TestSource};
use std::alloc::Global;
use std::io::Read;
use std::process::Abort;
use tests_shared::Refusing;

/// What day lines give of which so many bytes come first, and then the others.
fn read_cut(alloc: Global, lines: &[u8], cut: usize) -> Result<Vec<Entry>, LinesFault> {
    let (first, rest) = lines.split_at(cut.min(lines.len()));
    let mut source = FromReader::new(first.chain(rest));
    read_day_lines(alloc, &mut source)
}

/// Day lines, and the sessions that they name, in the sessions' order.
const SESSIONS: &[(&[u8], &[u8])] = &[
    (b"", b""),
    (b"\n\n", b""),
    (b"# 0:a\n#\n", b""),
    (b"3:", b"\x03"),
    (b"0:a\n0:b\n", b"\x00"),
    (b"9:a\n\n10:b\n# c\n15:d", b"\x09\x0a\x0f"),
    (b"15:\n1::#\n", b"\x01\x0f"),
    (b"14: \n11:\r\n12:#|\n13:14:\n", b"\x0b\x0c\x0d\x0e"),
];

/// The sessions that day lines name, in their order, are closed once each at the end of their bytes, and nothing enters
/// before.
#[test]
fn sessions_of_lines(rt: HostRuntime) {
    for (lines, sessions) in SESSIONS {
        for cut in 0..=lines.len() {
            let journal = read_cut(rt.alloc(), lines, cut).expect(&rt, "day lines");
            expect_closes(&rt, &journal, sessions);
        }
    }
}

/// The journal has one close of each session, for the end of its bytes, in this order.
fn expect_closes(rt: &impl Abort, journal: &[Entry], sessions: &[u8]) {
    holds(rt, journal.len() == sessions.len());
    for n in 0..sessions.len() {
        holds(rt, journal[n].session == sessions[n]);
        holds(rt, journal[n].event == Event::Close { reason: 5 });
    }
}

/// What one piece of day lines gives.
fn read_piece(alloc: Global, piece: &mut [u8]) -> Result<Vec<Entry>, LinesFault>
    requires { length piece.old < 1000 }
{
    let mut reader = DayReader::new(alloc)?;
    reader.take_piece(piece)?;
    reader.into_journal()
}

/// A piece is read by itself as a source of it is.
#[test]
fn piece_of_day_lines(rt: HostRuntime) {
    let mut piece = Vec::from_slice(rt.alloc(), b"3:a\n5:b").expect(&rt, "memory");
    holds(&rt, piece.len() < 1000);
    let journal = read_piece(rt.alloc(), &mut piece).expect(&rt, "day lines");
    expect_closes(&rt, &journal, b"\x03\x05");
}

/// Day lines, and the number of the first line that is bad.
const BAD_LINES: &[(&[u8], u64)] = &[
    (b"16:a", 1),
    (b"00:a", 1),
    (b"01:a", 1),
    (b"19:a", 1),
    (b"20:a", 1),
    (b"100:a", 1),
    (b"-1:a", 1),
    (b"+1:a", 1),
    (b" 0:a", 1),
    (b"0 :a", 1),
    (b"0", 1),
    (b"15", 1),
    (b":", 1),
    (b":a", 1),
    (b"a:a", 1),
    (b"1a:a", 1),
    (b"0;a", 1),
    (b" ", 1),
    (b" # a", 1),
    (b"\n# a\n0:a\n\nb\n16:\n", 5),
    (b"0:a\n\n1", 3),
    (b"0:a\r\n\r\n", 2),
];

#[test]
fn bad_day_lines(rt: HostRuntime) {
    for (lines, line) in BAD_LINES {
        for cut in 0..=lines.len() {
            let fault = read_cut(rt.alloc(), lines, cut).err();
            holds(&rt, fault == Some(LinesFault::BadLine(*line)));
        }
    }
}

/// A line of 150,000 bytes in the midst of others, which stands in three pieces.
fn with_long_line(
    rt: &impl Abort,
    alloc: Global,
    before: &[u8],
    byte: u8,
    after: &[u8],
) -> Vec<u8> {
    let mut lines = Vec::from_slice(alloc, before).expect(rt, "memory");
    let length = lines.len().saturating_add(150_000);
    lines.resize(length, byte).expect(rt, "memory");
    lines.extend_from_slice(after).expect(rt, "memory");
    lines
}

/// A line that goes over pieces is one line.
#[test]
fn line_over_pieces(rt: HostRuntime) {
    let lines = with_long_line(&rt, rt.alloc(), b"3:a\n5:", b'x', b"\n9:b");
    let mut source = TestSource::new(lines, 0);
    let journal = read_day_lines(rt.alloc(), &mut source).expect(&rt, "day lines");
    expect_closes(&rt, &journal, b"\x03\x05\x09");
    let lines = with_long_line(&rt, rt.alloc(), b"3:a\n# ", b'x', b"\n\n16:b\n5:");
    let mut source = TestSource::new(lines, 0);
    let fault = read_day_lines(rt.alloc(), &mut source).err();
    holds(&rt, fault == Some(LinesFault::BadLine(4)));
}

/// Day lines, the number of the read that fails (0: none), and the fault. A bad line does not end the reading.
const FAILING: &[(&[u8], u32, Option<LinesFault>)] = &[
    (b"3:", 0, None),
    (b"3:", 1, Some(LinesFault::Read)),
    (b"3:", 2, Some(LinesFault::Read)),
    (b"3:", 3, None),
    (b"x\n", 1, Some(LinesFault::Read)),
    (b"x\n", 2, Some(LinesFault::Read)),
    (b"x\n", 3, Some(LinesFault::BadLine(1))),
];

#[test]
fn sources_that_fail(rt: HostRuntime) {
    for (lines, fail, fault) in FAILING {
        let lines = Vec::from_slice(rt.alloc(), lines).expect(&rt, "memory");
        let mut source = TestSource::new(lines, *fail);
        holds(&rt, read_day_lines(rt.alloc(), &mut source).err() == *fault);
    }
}

/// 16,777,216 bytes are taken. Above them the source is not read, a bad line or not.
#[test]
fn too_many_bytes(rt: HostRuntime) {
    for (length, fault) in [
        (16_777_216, LinesFault::BadLine(1)),
        (16_777_217, LinesFault::Read),
    ] {
        let mut lines = Vec::from_slice(rt.alloc(), b"x\n").expect(&rt, "memory");
        lines.resize(length, b'#').expect(&rt, "memory");
        let mut source = TestSource::new(lines, 0);
        holds(
            &rt,
            read_day_lines(rt.alloc(), &mut source).err() == Some(fault),
        );
    }
}

/// NoMemory comes where a request was refused, and only there.
#[test]
fn lines_with_memory_refused(rt: HostRuntime) {
    for number in 1..100u64 {
        let heap = Refusing::new(rt.alloc(), number);
        let first = b"0:a\n# a line that is kept".as_slice();
        let mut source = FromReader::new(first.chain(b" while it comes\n15:b".as_slice()));
        match read_day_lines(&heap, &mut source) {
            Ok(journal) => {
                let is_whole = (journal.len() == 2) & (number > 1);
                holds(&rt, is_whole & !heap.has_refused());
                return;
            }
            Err(fault) => holds(&rt, (fault == LinesFault::NoMemory) & heap.has_refused()),
        }
    }
    holds(&rt, false);
}

/// A law asks nothing of who cites it, and does nothing when it runs. That it holds is the prover's to say.
#[test]
fn laws_have_no_premises() {
    day_lines();
    day_journal();
}
