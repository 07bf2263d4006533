//! Day lines cut anywhere, and the faults of `replay`.
use crate::expect::holds;
use crate::headline::day_of_lines;
use crate::rules::three_months;
use spread_host::HostFault;
use spread_rules::{Rulebook, TestSink, TestSource};
use std::alloc::Global;
use std::process::Abort;
use tests_shared::{FIRST_TRADE_LINES, FIRST_TRADE_TEXT, stamp};

/// A piece of day lines.
pub enum Piece {
    Bytes(&'static [u8]),
    /// So many times this byte.
    Fill(u8, usize),
    /// The first trade's day lines, and its messages with no line around them.
    FirstTrade,
    Messages,
    /// Its messages, a day line of session 0 for each byte.
    CutMessages,
}

/// What is written.
pub enum Written {
    /// This text.
    Whole(&'static [u8]),
    /// What a replay of the first trade writes, and so many bytes of its beginning.
    FirstTrade,
    FirstTradeStart(usize),
}

/// A replay of these day lines.
pub struct Replay {
    pub lines: &'static [Piece],
    /// The read at which the source fails, and the write at which the sink does; 0 is none.
    pub fails: (u32, u32),
    /// The room of the sink.
    pub room: usize,
    pub journal_only: bool,
    pub fault: Option<HostFault>,
    pub written: Written,
}

const MESSAGES: &[u8] =
    b"8=FIX.4.2|9=57|35=A|34=1|49=C1|52=20260105-14:30:00|56=HOST|98=0|108=30|10=220|8=FIX.4.2|9=104|35=D|34=2|49=C1|52=20260105-14:30:00|56=HOST|11=a|21=1|55=H6|54=2|60=20260105-14:30:00|38=5|40=2|44=100|10=168|8=FIX.4.2|9=104|35=D|34=3|49=C1|52=20260105-14:30:00|56=HOST|11=b|21=1|55=H6|54=1|60=20260105-14:30:00|38=5|40=2|44=100|10=169|8=FIX.4.2|9=45|35=5|34=4|49=C1|52=20260105-14:30:00|56=HOST|10=183|";

/// What a day without entries writes.
const EMPTY_TEXT: &[u8] = b"JOURNAL 2\nEND 0\nM H6 0 0 0 0\nM M6 0 0 0 0\nM U6 0 0 0 0\n";

static REPLAYS: [Replay; 23] = [
    // Messages cut after each byte.
    Replay {
        lines: &[Piece::CutMessages],
        fails: (0, 0),
        room: 4096,
        journal_only: false,
        fault: None,
        written: Written::FirstTrade,
    },
    // Messages behind a frame that is long, behind one that is not whole, and behind one that is waited for.
    Replay {
        lines: &[
            Piece::Bytes(b"0:8=FIX.4.2|9=4000|35=0|58="),
            Piece::Fill(b'x', 3991),
            Piece::Bytes(b"|10=000|"),
            Piece::Messages,
        ],
        fails: (0, 0),
        room: 4096,
        journal_only: false,
        fault: None,
        written: Written::FirstTrade,
    },
    Replay {
        lines: &[Piece::Bytes(b"0:8=FIX.4.2|9=200|"), Piece::Messages],
        fails: (0, 0),
        room: 4096,
        journal_only: false,
        fault: None,
        written: Written::FirstTrade,
    },
    Replay {
        lines: &[Piece::Bytes(b"0:8=FIX.4.2|9=4000|"), Piece::Messages],
        fails: (0, 0),
        room: 4096,
        journal_only: true,
        fault: None,
        written: Written::Whole(b"JOURNAL 2\n0 close 5\nEND 1\n"),
    },
    // A line that begins in one piece that is read and ends in the next.
    Replay {
        lines: &[
            Piece::Bytes(b"#"),
            Piece::Fill(b' ', 65_500),
            Piece::Bytes(b"\n0:"),
            Piece::Messages,
        ],
        fails: (0, 0),
        room: 4096,
        journal_only: false,
        fault: None,
        written: Written::FirstTrade,
    },
    // Lines that are no day lines.
    Replay {
        lines: &[Piece::Bytes(b"x")],
        fails: (0, 0),
        room: 4096,
        journal_only: false,
        fault: Some(HostFault::DayLine(1)),
        written: Written::Whole(b""),
    },
    Replay {
        lines: &[Piece::Bytes(b"# one\n\n0:a\n16:b\nx\n")],
        fails: (0, 0),
        room: 4096,
        journal_only: false,
        fault: Some(HostFault::DayLine(4)),
        written: Written::Whole(b""),
    },
    Replay {
        lines: &[Piece::Bytes(b"0:\n\n# three\n\n01:8=FIX.4.2|\n")],
        fails: (0, 0),
        room: 4096,
        journal_only: false,
        fault: Some(HostFault::DayLine(5)),
        written: Written::Whole(b""),
    },
    Replay {
        lines: &[Piece::Bytes(b"0")],
        fails: (0, 0),
        room: 4096,
        journal_only: false,
        fault: Some(HostFault::DayLine(1)),
        written: Written::Whole(b""),
    },
    Replay {
        lines: &[Piece::Bytes(b"0:a\n ")],
        fails: (0, 0),
        room: 4096,
        journal_only: false,
        fault: Some(HostFault::DayLine(2)),
        written: Written::Whole(b""),
    },
    Replay {
        lines: &[Piece::Bytes(b"\n\n\n0;a\n")],
        fails: (0, 0),
        room: 4096,
        journal_only: false,
        fault: Some(HostFault::DayLine(4)),
        written: Written::Whole(b""),
    },
    // Three reads of bytes and one of none: a comment of 150,000 bytes.
    Replay {
        lines: &[Piece::Bytes(b"#"), Piece::Fill(b' ', 149_999)],
        fails: (1, 0),
        room: 4096,
        journal_only: false,
        fault: Some(HostFault::Read),
        written: Written::Whole(b""),
    },
    Replay {
        lines: &[Piece::Bytes(b"#"), Piece::Fill(b' ', 149_999)],
        fails: (2, 0),
        room: 4096,
        journal_only: false,
        fault: Some(HostFault::Read),
        written: Written::Whole(b""),
    },
    Replay {
        lines: &[Piece::Bytes(b"#"), Piece::Fill(b' ', 149_999)],
        fails: (3, 0),
        room: 4096,
        journal_only: false,
        fault: Some(HostFault::Read),
        written: Written::Whole(b""),
    },
    Replay {
        lines: &[Piece::Bytes(b"#"), Piece::Fill(b' ', 149_999)],
        fails: (4, 0),
        room: 4096,
        journal_only: false,
        fault: Some(HostFault::Read),
        written: Written::Whole(b""),
    },
    Replay {
        lines: &[Piece::Bytes(b"#"), Piece::Fill(b' ', 149_999)],
        fails: (5, 0),
        room: 4096,
        journal_only: false,
        fault: None,
        written: Written::Whole(EMPTY_TEXT),
    },
    // A read that fails behind a bad line.
    Replay {
        lines: &[Piece::Bytes(b"x\n"), Piece::Fill(b' ', 149_998)],
        fails: (3, 0),
        room: 4096,
        journal_only: false,
        fault: Some(HostFault::Read),
        written: Written::Whole(b""),
    },
    // Just enough room, and writes that fail.
    Replay {
        lines: &[Piece::FirstTrade],
        fails: (0, 0),
        room: FIRST_TRADE_TEXT.len(),
        journal_only: false,
        fault: None,
        written: Written::FirstTrade,
    },
    Replay {
        lines: &[Piece::FirstTrade],
        fails: (0, 1),
        room: 4096,
        journal_only: false,
        fault: Some(HostFault::Write),
        written: Written::FirstTradeStart(0),
    },
    Replay {
        lines: &[Piece::FirstTrade],
        fails: (0, 0),
        room: 0,
        journal_only: false,
        fault: Some(HostFault::Write),
        written: Written::FirstTradeStart(0),
    },
    Replay {
        lines: &[Piece::FirstTrade],
        fails: (0, 0),
        room: 100,
        journal_only: false,
        fault: Some(HostFault::Write),
        written: Written::FirstTradeStart(100),
    },
    Replay {
        lines: &[Piece::FirstTrade],
        fails: (0, 2),
        room: 100,
        journal_only: false,
        fault: Some(HostFault::Write),
        written: Written::FirstTradeStart(100),
    },
    Replay {
        lines: &[Piece::FirstTrade],
        fails: (0, 0),
        room: FIRST_TRADE_TEXT.len() - 1,
        journal_only: false,
        fault: Some(HostFault::Write),
        written: Written::FirstTradeStart(FIRST_TRADE_TEXT.len() - 1),
    },
];

/// 16,777,216 bytes are read, and no more.
static TOO_MANY_BYTES: [Replay; 3] = [
    Replay {
        lines: &[Piece::Bytes(b"#"), Piece::Fill(b' ', 16_777_215)],
        fails: (0, 0),
        room: 4096,
        journal_only: false,
        fault: None,
        written: Written::Whole(EMPTY_TEXT),
    },
    Replay {
        lines: &[Piece::Bytes(b"#"), Piece::Fill(b' ', 16_777_216)],
        fails: (0, 0),
        room: 4096,
        journal_only: false,
        fault: Some(HostFault::Read),
        written: Written::Whole(b""),
    },
    Replay {
        lines: &[Piece::Bytes(b"x\n"), Piece::Fill(b' ', 16_777_215)],
        fails: (0, 0),
        room: 4096,
        journal_only: false,
        fault: Some(HostFault::Read),
        written: Written::Whole(b""),
    },
];

/// Appends a day line of session 0 for each byte of the message.
fn put_cut(rt: &impl Abort, lines: &mut Vec<u8>, message: &[u8]) {
    for byte in message {
        let line = [b'0', b':', *byte, b'\n'];
        lines.extend_from_slice(&line).expect(rt, "memory");
    }
}

/// The bytes of the pieces.
fn lines_of(rt: &impl Abort, alloc: Global, pieces: &[Piece]) -> Vec<u8> {
    let mut lines = Vec::new(alloc);
    for piece in pieces {
        match *piece {
            Piece::Bytes(bytes) => lines.extend_from_slice(bytes).expect(rt, "memory"),
            Piece::Fill(byte, count) => {
                let length = lines.len().saturating_add(count);
                lines.resize(length, byte).expect(rt, "memory");
            }
            Piece::FirstTrade => lines
                .extend_from_slice(FIRST_TRADE_LINES)
                .expect(rt, "memory"),
            Piece::Messages => lines.extend_from_slice(MESSAGES).expect(rt, "memory"),
            Piece::CutMessages => put_cut(rt, &mut lines, MESSAGES),
        }
    }
    lines
}

fn expect_written(rt: &impl Abort, bytes: &[u8], written: &Written) {
    let first_trade = FIRST_TRADE_TEXT;
    let (text, length) = match *written {
        Written::Whole(text) => (text, text.len()),
        Written::FirstTrade => (first_trade, first_trade.len()),
        Written::FirstTradeStart(length) => (first_trade, length),
    };
    holds(rt, bytes.len() == length && text.starts_with(bytes));
}

/// What is answered to these lines, and what is written, are the case's.
fn expect_replay(rt: &impl Abort, alloc: Global, rules: &Rulebook, lines: Vec<u8>, case: &Replay) {
    let mut source = TestSource::new(lines, case.fails.0);
    let mut sink = TestSink::new(alloc, case.room, case.fails.1).expect(rt, "memory");
    let only = case.journal_only;
    let fault = day_of_lines(alloc, rules, stamp(), &mut source, &mut sink, only).err();
    holds(rt, fault == case.fault);
    expect_written(rt, sink.bytes(), &case.written);
}

pub fn expect_replays(rt: &impl Abort, alloc: Global, cases: &[Replay]) {
    let rules = three_months(rt);
    for case in cases {
        let lines = lines_of(rt, alloc, case.lines);
        expect_replay(rt, alloc, &rules, lines, case);
    }
}

#[test]
fn replays(rt: HostRuntime) {
    expect_replays(&rt, rt.alloc(), &REPLAYS);
}

#[test]
fn too_many_bytes(rt: HostRuntime) {
    expect_replays(&rt, rt.alloc(), &TOO_MANY_BYTES);
}
