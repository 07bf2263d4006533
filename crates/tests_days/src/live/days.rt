//! Days in threads. Each ends by itself, whatever the schedule.
ghost use Rattle.text_day.specs.DayText.{AreShown};

use crate::expect::holds;
use crate::live::headline::day_of_streams;
use crate::live::watch::{Meeting, Point, Watch};
use crate::rules::three_months;
use fix_wire::{Field, Head, Value, write_message};
use fix_wire_frames::{msg_types, tags};
use gate_link::LinkFault;
use live_day::run_sessions;
use spread_host::{Caps, DaySettings, Gate, HostFault, run_day};
use spread_rules::{Entry, Event, Fill, Rulebook, Side};
use std::alloc::{AllocError, Allocator, Global};
use std::process::Abort;
use std::sync::Wait;
use std::thread::Threads;
use tests_shared::{FIRST_LOGON, FIRST_TRADE, first_logon, first_order, id, is_first_sent, stamp};
use text_day::{Day, put_months};

pub const USUAL: Caps = Caps {
    ring: 256,
    journal: 100_000,
};

pub struct Open;

impl Gate for Open {
    fn before(&self, _session: u8, _message: u32) {}
}

/// So many streams of these bytes.
pub fn streams_of<A: Allocator + Copy>(
    heap: A,
    count: usize,
    bytes: &[u8],
) -> Result<Vec<Vec<u8, A>, A>, AllocError> {
    let mut all = Vec::new(heap);
    for _ in 0..count {
        let mut one = Vec::new(heap);
        one.extend_from_slice(bytes)?;
        all.push(one)?;
    }
    Ok(all)
}

// ---- what is expected

/// The events of the first trade's stream.
fn first_trade() -> [Event; 4] {
    [
        first_logon(),
        first_order(b"a", Side::Sell),
        first_order(b"b", Side::Buy),
        Event::Close { reason: 1 },
    ]
}

/// The events of one session.
fn part(rt: &impl Abort, alloc: Global, journal: &[Entry], session: u8) -> Vec<Event> {
    let mut events = Vec::new(alloc);
    for entry in journal {
        if entry.session == session {
            events.push(entry.event).expect(rt, "memory");
        }
    }
    events
}

/// The session's part of the journal is these events.
fn expect_part(rt: &impl Abort, alloc: Global, journal: &[Entry], session: u8, want: &[Event]) {
    let events = part(rt, alloc, journal, session);
    assert!(rt; events.as_slice() == want, "{session}");
}

/// The journal has the first trade's events of each session, and no other entry.
pub fn expect_trades(rt: &impl Abort, alloc: Global, journal: &[Entry], sessions: u8) {
    holds(rt, journal.len() == usize::from(sessions) * 4);
    let want = first_trade();
    for session in 0..sessions {
        expect_part(rt, alloc, journal, session, &want);
    }
}

/// The month lines of the fills are these.
pub fn expect_months(
    rt: &impl Abort,
    alloc: Global,
    rulebook: &Rulebook,
    fills: &[Fill],
    want: &[u8],
)
    requires { AreShown rulebook.now fills.now }
{
    let mut months = Vec::new(alloc);
    put_months(&mut months, rulebook, fills).expect(rt, "memory");
    holds(rt, months.as_slice() == want);
}

/// There are sixteen lists. So many of them begin with the answer to a Logon, and the others are empty.
fn expect_logons_first(rt: &impl Abort, out: &[Vec<u8>], sessions: u8) {
    holds(rt, out.len() == 16);
    for session in 0..16 {
        let list = out[session].as_slice();
        let is_said = if session < usize::from(sessions) {
            list.starts_with(b"8=FIX.4.2\x019=57\x0135=A\x0134=1\x01")
        } else {
            list.is_empty()
        };
        holds(rt, is_said);
    }
}

// ---- streams of the first trade

/// A day whose streams are all the first trade's.
struct TradesDay {
    streams: u8,
    /// So many bytes that hold no frame stand before the first trade.
    before: usize,
    ring: usize,
    journal: usize,
    meeting: Meeting,
    /// How many messages a session steps on together.
    most: u32,
    /// The fills: two of each stream.
    fills: usize,
    months: &'static [u8],
}

const ONE_TRADE: &[u8] = b"M H6 5 5 50000 50000\nM M6 0 0 0 0\nM U6 0 0 0 0\n";

pub const TWO_TRADES: &[u8] = b"M H6 10 10 100000 100000\nM M6 0 0 0 0\nM U6 0 0 0 0\n";

static TRADES_DAYS: [TradesDay; 13] = [
    // Two sessions in threads of their own, each of which waits at its message 0 for the other.
    TradesDay {
        streams: 2,
        before: 0,
        ring: 256,
        journal: 100_000,
        meeting: Meeting::Both(Point::Message(0, 0), Point::Message(1, 0)),
        most: 64,
        fills: 4,
        months: TWO_TRADES,
    },
    // One session is held at message 0 until message 3 of the other has come, over a ring of one event.
    TradesDay {
        streams: 2,
        before: 0,
        ring: 1,
        journal: 100_000,
        meeting: Meeting::Held(Point::Message(0, 0), Point::Message(1, 3)),
        most: 64,
        fills: 4,
        months: TWO_TRADES,
    },
    TradesDay {
        streams: 2,
        before: 0,
        ring: 1,
        journal: 100_000,
        meeting: Meeting::Held(Point::Message(1, 0), Point::Message(0, 3)),
        most: 64,
        fills: 4,
        months: TWO_TRADES,
    },
    // The first entry is matched before the session has sent its last one: the two wait for each other, over a ring of
    // one event, and over one of 256.
    TradesDay {
        streams: 1,
        before: 0,
        ring: 1,
        journal: 100_000,
        meeting: Meeting::Both(Point::Message(0, 3), Point::Matched(1)),
        most: 1,
        fills: 2,
        months: ONE_TRADE,
    },
    TradesDay {
        streams: 1,
        before: 0,
        ring: 256,
        journal: 100_000,
        meeting: Meeting::Both(Point::Message(0, 3), Point::Matched(1)),
        most: 1,
        fills: 2,
        months: ONE_TRADE,
    },
    // Bytes are written while entries are matched, in a thread of their own: the first piece that the writer takes and
    // the match of the second entry wait for each other.
    TradesDay {
        streams: 1,
        before: 0,
        ring: 256,
        journal: 100_000,
        meeting: Meeting::Both(Point::Written, Point::Matched(2)),
        most: 64,
        fills: 2,
        months: ONE_TRADE,
    },
    // What an entry sends is with its writer before the gate is told that it was matched: the two wait for each other.
    TradesDay {
        streams: 1,
        before: 0,
        ring: 256,
        journal: 100_000,
        meeting: Meeting::Both(Point::Written, Point::Matched(1)),
        most: 64,
        fills: 2,
        months: ONE_TRADE,
    },
    // The gate is told how many bytes a writer has, piece by piece, also over rings of one item.
    TradesDay {
        streams: 1,
        before: 0,
        ring: 1,
        journal: 100,
        meeting: Meeting::Nowhere,
        most: 64,
        fills: 2,
        months: ONE_TRADE,
    },
    TradesDay {
        streams: 1,
        before: 0,
        ring: 256,
        journal: 100,
        meeting: Meeting::Nowhere,
        most: 64,
        fills: 2,
        months: ONE_TRADE,
    },
    // Rings of one event are enough, and so is a journal of just so many entries as there are.
    TradesDay {
        streams: 2,
        before: 0,
        ring: 1,
        journal: 100_000,
        meeting: Meeting::Nowhere,
        most: 64,
        fills: 4,
        months: TWO_TRADES,
    },
    TradesDay {
        streams: 2,
        before: 0,
        ring: 1,
        journal: 8,
        meeting: Meeting::Nowhere,
        most: 64,
        fills: 4,
        months: TWO_TRADES,
    },
    // Sixteen sessions and their writers over rings of one item, more threads than processors.
    TradesDay {
        streams: 16,
        before: 0,
        ring: 1,
        journal: 64,
        meeting: Meeting::Nowhere,
        most: 64,
        fills: 32,
        months: b"M H6 80 80 800000 800000\nM M6 0 0 0 0\nM U6 0 0 0 0\n",
    },
    // Streams longer than a gateway's buffer.
    TradesDay {
        streams: 3,
        before: 20_000,
        ring: 1,
        journal: 12,
        meeting: Meeting::Nowhere,
        most: 64,
        fills: 6,
        months: b"M H6 15 15 150000 150000\nM M6 0 0 0 0\nM U6 0 0 0 0\n",
    },
];

/// The case's bytes that hold no frame, and the first trade behind them.
fn trade_bytes(rt: &impl Abort, alloc: Global, before: usize) -> Vec<u8> {
    let mut stream = Vec::new(alloc);
    stream.resize(before, b'x').expect(rt, "memory");
    stream.extend_from_slice(FIRST_TRADE).expect(rt, "memory");
    stream
}

/// The journal's first entries are none of the session that was held.
fn expect_held(rt: &impl Abort, meeting: Meeting, journal: &[Entry]) {
    if let Meeting::Held(Point::Message(held, _), _) = meeting {
        holds(rt, journal.len() == 8);
        for n in 0..2 {
            holds(rt, journal[n].session != held);
        }
    }
}

/// What the gate is told: each message of each session, each piece of its bytes, and each entry, in turn.
fn expect_told(rt: &impl Abort, watch: &Watch, sessions: u8, day: &Day<Global>) {
    holds(rt, watch.in_turn());
    holds(rt, watch.entries() == day.journal.len() as u64);
    holds(rt, day.out.len() == 16);
    for session in 0..sessions {
        holds(rt, watch.messages(session) == 4);
        let list = day.out.get(usize::from(session)).expect(rt, "a list");
        holds(rt, watch.bytes(session) == list.len() as u64);
    }
}

/// The day is the case's.
fn expect_trades_day(
    rt: &impl Abort,
    alloc: Global,
    rulebook: &Rulebook,
    case: &TradesDay,
    watch: &Watch,
    day: &Day<Global>,
)
    requires { AreShown rulebook.now day.now.fills.items }
{
    holds(rt, watch.in_time());
    expect_told(rt, watch, case.streams, day);
    expect_trades(rt, alloc, &day.journal, case.streams);
    expect_held(rt, case.meeting, &day.journal);
    expect_logons_first(rt, &day.out, case.streams);
    if case.streams == 1 {
        holds(rt, is_first_sent(&day.out));
    }
    holds(rt, day.fills.len() == case.fills);
    expect_months(rt, alloc, rulebook, &day.fills, case.months);
}

fn run_trades_day<R: Threads + Wait + Sync + Abort>(
    rt: &R,
    alloc: Global,
    rulebook: &Rulebook,
    case: &TradesDay,
) {
    let caps = Caps {
        ring: case.ring,
        journal: case.journal,
    };
    let watch = Watch::new(case.most, case.meeting);
    let bytes = trade_bytes(rt, alloc, case.before);
    let streams = streams_of(alloc, usize::from(case.streams), &bytes).expect(rt, "memory");
    let day = run_day(rt, alloc, rulebook, stamp(), streams, &watch, caps).expect(rt, "a day");
    expect_trades_day(rt, alloc, rulebook, case, &watch, &day);
}

#[test]
fn days_of_first_trades(rt: HostRuntime) {
    let rulebook = three_months(&rt);
    for case in &TRADES_DAYS {
        run_trades_day(&rt, rt.alloc(), &rulebook, case);
    }
}

/// A gate that says nothing of it lets a session step on as many messages together as it may.
#[test]
fn messages_of_an_open_gate(rt: HostRuntime) {
    holds(&rt, Open.most() == 64);
}

// ---- days that are refused

/// How many streams there are, the room of the rings and of the journal, and the fault.
static REFUSED_DAYS: [(usize, Caps, HostFault); 5] = [
    // Seventeen streams, or none.
    (0, USUAL, HostFault::Link(LinkFault::Sessions)),
    (17, USUAL, HostFault::Link(LinkFault::Sessions)),
    // A journal of fewer entries than there are.
    (
        2,
        Caps {
            ring: 1,
            journal: 7,
        },
        HostFault::JournalFull,
    ),
    (
        2,
        Caps {
            ring: 1,
            journal: 1,
        },
        HostFault::JournalFull,
    ),
    (
        2,
        Caps {
            ring: 1,
            journal: 0,
        },
        HostFault::JournalFull,
    ),
];

#[test]
fn refused_days(rt: HostRuntime) {
    let rulebook = three_months(&rt);
    for (count, caps, want) in &REFUSED_DAYS {
        let streams = streams_of(rt.alloc(), *count, FIRST_TRADE).expect(&rt, "memory");
        let fault = run_day(&rt, rt.alloc(), &rulebook, stamp(), streams, &Open, *caps).err();
        holds(&rt, fault == Some(*want));
    }
}

// ---- a stream of no bytes

/// The journal is one close, nothing is filled, and nothing goes out.
fn expect_close_alone(rt: &impl Abort, day: &Day<Global>) {
    holds(rt, day.journal.len() == 1);
    for entry in &day.journal {
        holds(rt, entry.session == 0);
        holds(rt, entry.event == Event::Close { reason: 5 });
    }
    holds(rt, day.fills.is_empty());
    expect_logons_first(rt, &day.out, 0);
}

/// A stream of no bytes: its session is closed at its end, and nothing goes out.
#[test]
fn no_bytes(rt: HostRuntime) {
    let rulebook = three_months(&rt);
    let streams = streams_of(rt.alloc(), 1, b"").expect(&rt, "memory");
    let day = day_of_streams(&rt, rt.alloc(), &rulebook, stamp(), streams, &Open, USUAL);
    expect_close_alone(&rt, &day.expect(&rt, "a day"));
}

// ---- messages in turn

/// The gate sees each message once, in order, and all that are stepped on together before the first of them is.
#[test]
fn each_message_once(rt: HostRuntime) {
    let watch = Watch::new(64, Meeting::Nowhere);
    let rulebook = three_months(&rt);
    let rules = DaySettings {
        rulebook: &rulebook,
        stamp: stamp(),
    };
    let streams = streams_of(rt.alloc(), 1, FIRST_TRADE).expect(&rt, "memory");
    let day = run_sessions(&rt, rt.alloc(), &rules, streams, &watch, USUAL);
    let day = day.ok().expect(&rt, "a day");
    holds(&rt, watch.messages(0) == 4);
    holds(&rt, watch.messages_at_first() == 4);
    holds(&rt, watch.in_turn());
    holds(&rt, day.applied.fills.len() == 2);
    expect_part(&rt, rt.alloc(), &day.journal, 0, &first_trade());
}

/// A Logon, then as many TestRequests, as one session's bytes.
fn test_requests(rt: &impl Abort, alloc: Global, count: u32) -> Vec<u8> {
    let mut stream = Vec::from_slice(alloc, FIRST_LOGON).expect(rt, "memory");
    let fields = [Field {
        tag: tags::TEST_REQ_ID,
        value: Value::Text(id(b"T")),
    }];
    for number in 2..u64::from(count) + 2 {
        let head = Head {
            kind: msg_types::TEST_REQUEST,
            number,
            duplicate: false,
            sender: id(b"C1"),
            target: id(b"HOST"),
            stamp: stamp(),
        };
        write_message(&mut stream, &head, &fields).expect(rt, "memory");
    }
    stream
}

/// The sizes of a ring, and how many messages are stepped on together.
static FULL_RINGS: [(usize, u32); 6] = [
    (1, 64),
    (4, 3),
    (4, 64),
    (64, 1),
    (256, 0),
    (256, u32::MAX),
];

/// A Logon and three hundred TestRequests over a ring of this size, of which so many are stepped on together.
fn requests_in_turn<R: Threads + Wait + Sync + Abort>(
    rt: &R,
    alloc: Global,
    rulebook: &Rulebook,
    ring: usize,
    most: u32,
) {
    let caps = Caps {
        ring,
        journal: 1_000,
    };
    let watch = Watch::new(most, Meeting::Nowhere);
    let stream = test_requests(rt, alloc, 300);
    let streams = streams_of(alloc, 1, &stream).expect(rt, "memory");
    let day = run_day(rt, alloc, rulebook, stamp(), streams, &watch, caps).expect(rt, "a day");
    holds(rt, day.journal.len() == 302);
    holds(rt, watch.messages(0) == 301);
    holds(rt, watch.in_turn());
}

/// The gate sees each message once also where the ring is full and messages have to be stepped on again, however many are
/// stepped on together.
#[test]
fn each_message_once_over_a_full_ring(rt: HostRuntime) {
    let rulebook = three_months(&rt);
    for (ring, most) in &FULL_RINGS {
        requests_in_turn(&rt, rt.alloc(), &rulebook, *ring, *most);
    }
}

/// The events of a Logon and so many TestRequests.
fn said_by_requests(rt: &impl Abort, alloc: Global, count: u32) -> Vec<Event> {
    let mut events = Vec::new(alloc);
    events.push(first_logon()).expect(rt, "memory");
    for _ in 0..count {
        let event = Event::TestReply { text: id(b"T") };
        events.push(event).expect(rt, "memory");
    }
    events.push(Event::Close { reason: 5 }).expect(rt, "memory");
    events
}

/// A stream of a Logon and seventy TestRequests, and one of the first trade.
fn two_streams(rt: &impl Abort, alloc: Global) -> Vec<Vec<u8>> {
    let mut streams = Vec::new(alloc);
    streams
        .push(test_requests(rt, alloc, 70))
        .expect(rt, "memory");
    streams.push(trade_bytes(rt, alloc, 0)).expect(rt, "memory");
    streams
}

/// Both streams over a ring of this size, of whose messages so many are stepped on together.
fn expect_both_said<R: Threads + Wait + Sync + Abort>(
    rt: &R,
    alloc: Global,
    rulebook: &Rulebook,
    ring: usize,
    most: u32,
    first_said: &[Event],
) {
    let caps = Caps { ring, journal: 100 };
    let streams = two_streams(rt, alloc);
    let watch = Watch::new(most, Meeting::Nowhere);
    let day = run_day(rt, alloc, rulebook, stamp(), streams, &watch, caps).expect(rt, "a day");
    expect_part(rt, alloc, &day.journal, 0, first_said);
    expect_part(rt, alloc, &day.journal, 1, &first_trade());
}

/// However many messages are stepped on together, over a ring of any size, a session's part is what its stream says.
#[test]
fn slices_of_every_size(rt: HostRuntime) {
    let rulebook = three_months(&rt);
    let first_said = said_by_requests(&rt, rt.alloc(), 70);
    for ring in [1, 2, 5, 64, 4_096] {
        for most in 1..=64u32 {
            expect_both_said(&rt, rt.alloc(), &rulebook, ring, most, &first_said);
        }
    }
}
