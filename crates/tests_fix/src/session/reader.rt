//! A reader looks at a message, passes it, and reads whole texts.
ghost use Rattle.std.specs.Prelude.{◌<◌, ◌≤◌};

use super::Says::{Close, Logon, Nothing};
use super::{BUY, FIRST_TRADE_SAYS, SELL, Says, expect_said};
use crate::expect::holds;
use fix_session::{Reader, Session, Verdict};
use fix_session_judging::{count_messages, judge_ahead};
use fix_wire::{Framer, Message, Next};
use spread_rules::{Entry, Event};
use std::alloc::{Allocator, Global};
use std::process::Abort;
use tests_shared::{FIRST_BUY, FIRST_MESSAGES, FIRST_TRADE};

/// What is done with a reader, and what it answers.
enum Step {
    /// So many bytes of these are taken.
    Put(&'static [u8], usize),
    /// The next message says this.
    Look(Says),
    NoMessage,
    /// Whether a message was passed.
    Pass(bool),
    IsClosed(bool),
    /// What the end would say.
    AtEnd(Says),
    /// What the end says.
    End(Says),
}

/// A message is looked at as often as one likes, and bytes that come after it change nothing.
const LOOKED_AT_TWICE: &[Step] = &[
    Step::NoMessage,
    Step::Pass(false),
    Step::Put(FIRST_100_BYTES, 100),
    Step::Look(Logon),
    Step::Put(LAST_300_BYTES, 300),
    Step::Look(Logon),
    Step::Pass(true),
    Step::Look(SELL),
    Step::Look(SELL),
    Step::Pass(true),
    Step::Pass(true),
    Step::Look(Close(1)),
    Step::IsClosed(false),
    Step::Pass(true),
    Step::IsClosed(true),
    Step::Pass(false),
    Step::End(Nothing),
];

/// The first trade, cut in its second message.
const FIRST_100_BYTES: &[u8] =
    b"8=FIX.4.2\x019=57\x0135=A\x0134=1\x0149=C1\x0152=20260105-14:30:00\x0156=HOST\x0198=0\x01108=30\x0110=220\x018=FIX.4.2\x019=104\x0135=D\x01";

const LAST_300_BYTES: &[u8] =
    b"34=2\x0149=C1\x0152=20260105-14:30:00\x0156=HOST\x0111=a\x0121=1\x0155=H6\x0154=2\x0160=20260105-14:30:00\x0138=5\x0140=2\x0144=100\x0110=168\x01\
8=FIX.4.2\x019=104\x0135=D\x0134=3\x0149=C1\x0152=20260105-14:30:00\x0156=HOST\x0111=b\x0121=1\x0155=H6\x0154=1\x0160=20260105-14:30:00\x0138=5\x0140=2\x0144=100\x0110=169\x01\
8=FIX.4.2\x019=45\x0135=5\x0134=4\x0149=C1\x0152=20260105-14:30:00\x0156=HOST\x0110=183\x01";

/// The end closes a session, whatever was looked at before.
const THE_END_OF_A_STREAM: &[Step] = &[
    Step::Put(FIRST_TRADE, 400),
    Step::Look(Logon),
    Step::AtEnd(Close(5)),
    Step::IsClosed(false),
    Step::End(Close(5)),
    Step::IsClosed(true),
    Step::AtEnd(Nothing),
    Step::Look(Nothing),
    Step::Pass(true),
];

/// A full reader takes nothing until what is no message is skipped.
const A_FULL_READER: &[Step] = &[
    Step::Put(FIRST_TRADE, 0),
    Step::Look(Logon),
    Step::Put(FIRST_TRADE, 400),
];

fn expect_step(rt: &impl Abort, reader: &mut Reader, step: &Step) {
    match step {
        Step::Put(bytes, taken) => holds(rt, reader.put(bytes) == *taken),
        Step::Look(says) => expect_said(rt, reader.look().expect(rt, "a message"), says),
        Step::NoMessage => holds(rt, reader.look().is_none()),
        Step::Pass(stands) => holds(rt, reader.pass() == *stands),
        Step::IsClosed(is_closed) => holds(rt, reader.is_closed() == *is_closed),
        Step::AtEnd(says) => expect_said(rt, reader.at_end(), says),
        Step::End(says) => expect_said(rt, reader.end(), says),
    }
}

fn expect_steps(rt: &impl Abort, steps: &[Step]) {
    let mut reader = Reader::new();
    for step in steps {
        expect_step(rt, &mut reader, step);
    }
}

#[test]
fn steps_of_a_reader(rt: HostRuntime) {
    expect_steps(&rt, LOOKED_AT_TWICE);
    expect_steps(&rt, THE_END_OF_A_STREAM);
}

#[test]
fn a_full_reader(rt: HostRuntime) {
    let mut text = Vec::new(rt.alloc());
    text.resize(8192 - 400, b'x').expect(&rt, "memory");
    text.extend_from_slice(FIRST_TRADE).expect(&rt, "memory");
    let mut reader = Reader::new();
    holds(&rt, reader.put(&text) == 8192);
    for step in A_FULL_READER {
        expect_step(&rt, &mut reader, step);
    }
}

/// Each byte is put alone, and each message is looked at once it stands.
#[test]
fn byte_by_byte(rt: HostRuntime) {
    let mut reader = Reader::new();
    let mut count = 0;
    for byte in FIRST_TRADE.chunks(1) {
        holds(&rt, reader.put(byte) == 1);
        if let Some(verdict) = reader.look() {
            holds(&rt, count < 4);
            expect_said(&rt, verdict, &FIRST_TRADE_SAYS[count]);
            holds(&rt, reader.pass());
            count += 1;
        }
    }
    holds(&rt, count == 4);
}

/// The entries of a text that is read in pieces of so many bytes.
fn read_by<A: Allocator + Copy>(
    rt: &impl Abort,
    alloc: A,
    text: &[u8],
    size: usize,
) -> Vec<Entry, A>
    requires { 0 < size }
{
    let mut reader = Reader::new();
    let mut entries = Vec::new(alloc);
    for piece in text.chunks(size) {
        reader.read(7, piece, &mut entries).expect(rt, "memory");
    }
    entries
}

/// The entries are the first trade's, of the session with that number.
fn expect_first_trade(rt: &impl Abort, entries: &[Entry], session: u8) {
    holds(rt, entries.len() == 4);
    for n in 0..4 {
        holds(rt, entries[n].session == session);
        expect_said(rt, Verdict::Event(entries[n].event), &FIRST_TRADE_SAYS[n]);
    }
}

const SIZES: &[usize] = &[1, 2, 79, 80, 399, 400];

#[test]
fn entries_of_a_text(rt: HostRuntime) {
    for size in SIZES {
        holds(&rt, 0 < *size);
        let entries = read_by(&rt, rt.alloc(), FIRST_TRADE, *size);
        expect_first_trade(&rt, &entries, 7);
    }
}

/// The first trade in two pieces is what it is in one.
fn expect_whole(rt: &impl Abort, alloc: Global, first: &[u8], rest: &[u8]) {
    let mut reader = Reader::new();
    let mut entries = Vec::new(alloc);
    reader.read(7, first, &mut entries).expect(rt, "memory");
    reader.read(7, rest, &mut entries).expect(rt, "memory");
    expect_first_trade(rt, &entries, 7);
    holds(rt, reader.is_closed());
}

#[test]
fn a_day_cut_anywhere(rt: HostRuntime) {
    holds(&rt, FIRST_TRADE.len() == 400);
    for cut in 0..=400usize {
        expect_whole(&rt, rt.alloc(), &FIRST_TRADE[..cut], &FIRST_TRADE[cut..]);
    }
}

/// How many of the first trade's messages stand whole in so many of its bytes, of which it has 400: its Logon has 79 bytes,
/// each order 127.
fn whole_messages(length: usize) -> usize
    ensures { result ≤ 3 }
{
    match length {
        0..79 => 0,
        79..206 => 1,
        206..333 => 2,
        _ => 3,
    }
}

/// A stream that ends within the first trade says what its whole messages say, and then that it was cut.
fn expect_cut_short(rt: &impl Abort, alloc: Global, stream: &[u8]) {
    let mut reader = Reader::new();
    let mut entries = Vec::new(alloc);
    reader.read(0, stream, &mut entries).expect(rt, "memory");
    let whole = whole_messages(stream.len());
    holds(rt, entries.len() == whole);
    for n in 0..whole {
        expect_said(rt, Verdict::Event(entries[n].event), &FIRST_TRADE_SAYS[n]);
    }
    expect_said(rt, reader.end(), &Close(5));
}

/// The first trade cut short behind each of its bytes but the last.
#[test]
fn a_day_cut_short(rt: HostRuntime) {
    holds(&rt, FIRST_TRADE.len() == 400);
    for length in 0..400usize {
        expect_cut_short(&rt, rt.alloc(), &FIRST_TRADE[..length]);
    }
}

/// What entries that no message has written hold.
fn no_entry() -> Entry {
    Entry {
        session: 0,
        event: Event::Close { reason: 0 },
    }
}

/// What a framer holds is counted, and judged ahead up to what closes the session.
#[test]
fn messages_of_a_framer(rt: HostRuntime) {
    let mut framer = Framer::new();
    holds(&rt, framer.put(FIRST_TRADE) == 400);
    holds(&rt, count_messages(&framer, 64) == 4);
    holds(&rt, count_messages(&framer, 2) == 2);
    let mut entries = [no_entry(); 64];
    let ahead = judge_ahead(&framer, Session::new(), 3, 64, &mut entries);
    holds(
        &rt,
        (ahead.messages, ahead.events, ahead.place) == (4, 4, 400),
    );
    holds(&rt, ahead.session.is_closed());
    expect_first_trade(&rt, &entries[..4], 3);
}

/// The framer goes past the first two of the first trade's messages, which were judged ahead.
fn expect_two_passed_to(rt: &impl Abort, framer: &mut Framer) {
    let mut entries = [no_entry(); 64];
    let two = judge_ahead(framer, Session::new(), 3, 2, &mut entries);
    if two.messages == 0 {
        panic!(rt; "no message stands");
    }
    framer.pass_to(two.place);
    holds(rt, framer.held() == 400 - 206);
    holds(
        rt,
        matches!(framer.next(), Next::Message(third) if third.bytes() == FIRST_BUY),
    );
}

/// Frames that were looked at are passed together.
#[test]
fn passed_to_a_place(rt: HostRuntime) {
    let mut framer = Framer::new();
    holds(&rt, framer.put(FIRST_TRADE) == 400);
    expect_two_passed_to(&rt, &mut framer);
}

/// A session says of each message what it changes, and changes so.
#[test]
fn changes_of_a_session(rt: HostRuntime) {
    let mut session = Session::new();
    for place in 0..4usize {
        let message = Message::whole(FIRST_MESSAGES[place]).expect(&rt, "a message");
        let mut verdict = Verdict::Nothing;
        let change = session.judge_into(&message, &mut verdict);
        session.change(&verdict, change);
        expect_said(&rt, verdict, &FIRST_TRADE_SAYS[place]);
    }
    holds(&rt, session.is_closed());
}

/// Messages are judged ahead, and nothing changes.
#[test]
fn judged_ahead(rt: HostRuntime) {
    let mut reader = Reader::new();
    holds(&rt, reader.put(FIRST_TRADE) == 400);
    holds(&rt, reader.standing(64) == 4);
    holds(&rt, reader.standing(2) == 2);
    let mut entries = [no_entry(); 64];
    let two = reader.judge_ahead(3, 2, &mut entries);
    holds(&rt, (two.messages, two.events, two.place) == (2, 2, 206));
    holds(&rt, entries[2] == no_entry());
    let all = reader.judge_ahead(3, 64, &mut entries);
    holds(&rt, (all.messages, all.events, all.place) == (4, 4, 400));
    expect_first_trade(&rt, &entries[..4], 3);
    expect_step(&rt, &mut reader, &Step::Look(Logon));
    holds(&rt, reader.standing(64) == 4);
}

/// The messages that were judged ahead are passed together.
#[test]
fn passed_ahead(rt: HostRuntime) {
    expect_two_passed(&rt, FIRST_TRADE);
}

/// Of a day's messages two are judged ahead and passed.
fn expect_two_passed(rt: &impl Abort, day: &[u8]) {
    let mut reader = Reader::new();
    holds(rt, reader.put(day) == 400);
    let mut entries = [no_entry(); 64];
    let two = reader.judge_ahead(3, 2, &mut entries);
    if two.messages == 0 {
        panic!(rt; "no message stands");
    }
    reader.pass_ahead(&two);
    holds(rt, reader.standing(64) == 2);
    expect_step(rt, &mut reader, &Step::Look(BUY));
}
