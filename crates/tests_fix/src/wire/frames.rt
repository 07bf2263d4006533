//! Frames of streams, cut and garbled.
use crate::expect::holds;
use fix_wire::{Framer, Look, Message, Next};
use fix_wire_frames::FrameTable;
use std::alloc::Allocator;
use std::process::Abort;
use tests_shared::{FIRST_BUY, FIRST_LOGON, FIRST_LOGOUT, FIRST_MESSAGES, FIRST_SELL, FIRST_TRADE};

/// A part of a stream: bytes, or that many letters x.
enum Part {
    Bytes(&'static [u8]),
    Letters(usize),
}

use Part::{Bytes, Letters};

fn append<A: Allocator>(rt: &impl Abort, stream: &mut Vec<u8, A>, part: &Part) {
    match part {
        Bytes(bytes) => stream.extend_from_slice(bytes).expect(rt, "memory"),
        Letters(count) => {
            let end = stream.len().saturating_add(*count);
            stream.resize(end, b'x').expect(rt, "memory");
        }
    }
}

/// The bytes of a stream.
fn stream_of<A: Allocator>(rt: &impl Abort, alloc: A, parts: &[Part]) -> Vec<u8, A> {
    let mut stream = Vec::new(alloc);
    for part in parts {
        append(rt, &mut stream, part);
    }
    stream
}

/// Passes the frames that stand, which are those from this place on, and says which one is still to come.
fn take_frames(rt: &impl Abort, framer: &mut Framer, want: &[&[u8]], from: usize) -> usize {
    for place in from..want.len() {
        match framer.next() {
            Next::Message(message) => holds(rt, message.bytes() == want[place]),
            Next::Need => return place,
        }
        framer.pass();
    }
    holds(rt, matches!(framer.next(), Next::Need));
    want.len()
}

/// The frames of these pieces are those.
fn expect_frames(rt: &impl Abort, pieces: &[&[u8]], want: &[&[u8]]) {
    let mut framer = Framer::new();
    let mut place = 0;
    for piece in pieces {
        holds(rt, framer.put(piece) == piece.len());
        place = take_frames(rt, &mut framer, want, place);
    }
    holds(rt, place == want.len());
}

/// The same of a stream that is put in pieces of one byte.
fn expect_frames_byte_by_byte(rt: &impl Abort, stream: &[u8], want: &[&[u8]]) {
    let mut framer = Framer::new();
    let mut place = 0;
    for piece in stream.chunks(1) {
        holds(rt, framer.put(piece) == 1);
        place = take_frames(rt, &mut framer, want, place);
    }
    holds(rt, place == want.len());
}

#[test]
fn a_stream_cut_anywhere(rt: HostRuntime) {
    holds(&rt, FIRST_TRADE.len() == 400);
    for cut in 0..=400usize {
        let pieces = [&FIRST_TRADE[..cut], &FIRST_TRADE[cut..]];
        expect_frames(&rt, &pieces, &FIRST_MESSAGES);
    }
}

/// The frames that stand in a stream: these, or the whole stream as one.
enum Frames {
    These(&'static [&'static [u8]]),
    Whole,
}

use Frames::{These, Whole};

struct StreamCase {
    name: &'static str,
    stream: &'static [Part],
    length: usize,
    frames: Frames,
}

static STREAMS: &[StreamCase] = &[
    StreamCase {
        name: "a day",
        stream: &[Bytes(FIRST_TRADE)],
        length: 400,
        frames: These(&FIRST_MESSAGES),
    },
    StreamCase {
        name: "a frame of 4,000 bytes of body with a wrong CheckSum, and a day",
        stream: &[
            Bytes(b"8=FIX.4.2\x019=4000\x0135=0\x0158="),
            Letters(3991),
            Bytes(b"\x0110=000\x01"),
            Bytes(FIRST_TRADE),
        ],
        length: 4424,
        frames: These(&FIRST_MESSAGES),
    },
    StreamCase {
        name: "the same, whose body is a byte short of its BodyLength",
        stream: &[
            Bytes(b"8=FIX.4.2\x019=4000\x0135=0\x0158="),
            Letters(3990),
            Bytes(b"\x0110=000\x01"),
            Bytes(FIRST_TRADE),
        ],
        length: 4423,
        frames: These(&FIRST_MESSAGES),
    },
    StreamCase {
        name: "a header whose body would end within the day",
        stream: &[Bytes(b"8=FIX.4.2\x019=200\x01"), Bytes(FIRST_TRADE)],
        length: 416,
        frames: These(&FIRST_MESSAGES),
    },
    StreamCase {
        name: "a header that waits for more than the day",
        stream: &[Bytes(b"8=FIX.4.2\x019=4000\x01"), Bytes(FIRST_TRADE)],
        length: 417,
        frames: These(&[]),
    },
    StreamCase {
        name: "frames within a garbled frame",
        stream: &[
            Bytes(b"8=FIX.4.2\x019=408\x0135=0\x0158="),
            Bytes(FIRST_TRADE),
            Bytes(b"10=000\x01"),
        ],
        length: 431,
        frames: These(&FIRST_MESSAGES),
    },
    StreamCase {
        name: "frames within a lawful frame",
        stream: FRAMES_WITHIN,
        length: 431,
        frames: Whole,
    },
    StreamCase {
        name: "a CheckSum of two digits",
        stream: &[
            Bytes(FIRST_LOGON),
            Bytes(
                b"8=FIX.4.2\x019=104\x0135=D\x0134=2\x0149=C1\x0152=20260105-14:30:00\x0156=HOST\x0111=a\x0121=1\x0155=H6\x0154=2\x0160=20260105-14:30:00\x0138=5\x0140=2\x0144=100\x0110=68\x01",
            ),
            Bytes(FIRST_BUY),
            Bytes(FIRST_LOGOUT),
        ],
        length: 399,
        frames: These(&[FIRST_LOGON, FIRST_BUY, FIRST_LOGOUT]),
    },
    StreamCase {
        name: "the least frame",
        stream: &[Bytes(b"8=FIX.4.2\x019=5\x0135=0\x0110=161\x01")],
        length: 26,
        frames: Whole,
    },
    StreamCase {
        name: "a frame with no MsgType",
        stream: &[Bytes(b"8=FIX.4.2\x019=4\x0135=\x0110=112\x01")],
        length: 25,
        frames: These(&[]),
    },
    StreamCase {
        name: "the greatest frame",
        stream: &[
            Bytes(b"8=FIX.4.2\x019=00004096\x0135=0\x0158="),
            Letters(4087),
            Bytes(b"\x0110=114\x01"),
        ],
        length: 4124,
        frames: Whole,
    },
];

/// A day as the text of a lawful Heartbeat.
const FRAMES_WITHIN: &[Part] = &[
    Bytes(b"8=FIX.4.2\x019=408\x0135=0\x0158="),
    Bytes(FIRST_TRADE),
    Bytes(b"10=129\x01"),
];

/// Put whole and byte by byte, a stream has the same frames.
#[test]
fn frames_of_streams(rt: HostRuntime) {
    for case in STREAMS {
        let stream = stream_of(&rt, rt.alloc(), case.stream);
        expect_case(&rt, case, &stream);
    }
}

fn expect_case(rt: &impl Abort, case: &StreamCase, stream: &[u8]) {
    holds(rt, stream.len() == case.length);
    match case.frames {
        These(frames) => expect_both_ways(rt, stream, frames),
        Whole => {
            holds(rt, Message::whole(stream).is_some());
            expect_both_ways(rt, stream, &[stream]);
        }
    }
}

fn expect_both_ways(rt: &impl Abort, stream: &[u8], want: &[&[u8]]) {
    expect_frames(rt, &[stream], want);
    expect_frames_byte_by_byte(rt, stream, want);
}

/// The frame around them is the message, and the number is the one that comes first.
#[test]
fn frames_within_a_lawful_frame(rt: HostRuntime) {
    let stream = stream_of(&rt, rt.alloc(), FRAMES_WITHIN);
    expect_heartbeat(&rt, &stream);
}

/// The stream is one Heartbeat of number 1.
fn expect_heartbeat(rt: &impl Abort, stream: &[u8]) {
    let message = Message::whole(stream).expect(rt, "a frame");
    holds(rt, message.kind() == b"0".as_slice());
    holds(rt, message.number() == Some(1));
}

/// What is done with a framer, and what it answers.
enum Step {
    /// So many bytes of these are taken.
    Put(&'static [Part], usize),
    /// The next message is this one, if any.
    Next(Option<&'static [u8]>),
    /// Whether a message was passed.
    Pass(bool),
    Held(usize),
    /// From this place on this message stands, if any, and ends at that place.
    Look(usize, Option<(&'static [u8], usize)>),
}

const A_FULL_BUFFER: &[Step] = &[
    Step::Pass(false),
    Step::Put(&[Letters(8113), Bytes(FIRST_LOGON)], 8192),
    Step::Put(&[Bytes(FIRST_LOGON)], 0),
    Step::Next(Some(FIRST_LOGON)),
    Step::Held(79),
    Step::Put(&[Bytes(FIRST_SELL)], 127),
    Step::Pass(true),
    Step::Pass(true),
    Step::Next(None),
    Step::Pass(false),
    Step::Held(0),
];

const LOOKED_AT_FROM_A_PLACE: &[Step] = &[
    Step::Put(
        &[
            Bytes(b"xx"),
            Bytes(FIRST_LOGON),
            Bytes(FIRST_SELL),
            Bytes(FIRST_BUY),
        ],
        335,
    ),
    Step::Held(335),
    Step::Look(0, Some((FIRST_LOGON, 81))),
    Step::Look(2, Some((FIRST_LOGON, 81))),
    Step::Look(3, Some((FIRST_SELL, 208))),
    Step::Look(81, Some((FIRST_SELL, 208))),
    Step::Look(208, Some((FIRST_BUY, 335))),
    Step::Look(335, None),
    Step::Held(335),
];

/// Whether this stands from a place on: the message and the place after it.
fn stands(framer: &Framer, at: usize, want: Option<(&[u8], usize)>) -> bool {
    if framer.held() < at {
        return false;
    }
    let is_looked_at = match framer.look(at) {
        Look::Message(message, after) => want == Some((message.bytes(), after)),
        Look::Need => want.is_none(),
    };
    let mut table = FrameTable::empty();
    let is_found = match framer.find(at, &mut table) {
        Some(found) => want == Some((framer.message(found, &table).bytes(), found.end)),
        None => want.is_none(),
    };
    is_looked_at & is_found
}

/// Whether this message stands next in a framer.
fn stands_next(framer: &mut Framer, want: Option<&[u8]>) -> bool {
    match framer.next() {
        Next::Message(message) => want == Some(message.bytes()),
        Next::Need => want.is_none(),
    }
}

fn expect_step<A: Allocator>(rt: &impl Abort, alloc: A, framer: &mut Framer, step: &Step) {
    let is_so = match step {
        Step::Put(parts, taken) => framer.put(&stream_of(rt, alloc, parts)) == *taken,
        Step::Next(message) => stands_next(framer, *message),
        Step::Pass(stands) => framer.pass() == *stands,
        Step::Held(count) => framer.held() == *count,
        Step::Look(at, message) => stands(framer, *at, *message),
    };
    holds(rt, is_so);
}

fn expect_steps<A: Allocator + Copy>(rt: &impl Abort, alloc: A, steps: &[Step]) {
    let mut framer = Framer::new();
    for step in steps {
        expect_step(rt, alloc, &mut framer, step);
    }
}

#[test]
fn steps_of_a_framer(rt: HostRuntime) {
    expect_steps(&rt, rt.alloc(), A_FULL_BUFFER);
    expect_steps(&rt, rt.alloc(), LOOKED_AT_FROM_A_PLACE);
}
