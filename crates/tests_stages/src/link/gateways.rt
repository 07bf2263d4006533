//! A gateway looks at messages, sends their events and waits for room.
use super::days::Act::{Ends, IsClosed, Put, PutLetters, Settles, Stands, Steps, Turns};
use super::days::{Act, Day, expect_acts_of_two, expect_day};
use super::{FIRST_TRADE_SAYS, Says, expect_journal};
use crate::expect::holds;
use gate_link::{Gateway, Sequencer, Settle, Step, Turn, link};
use std::alloc::Allocator;
use std::process::Abort;
use tests_shared::{FIRST_LOGON, FIRST_TRADE};

/// The first trade without its Logout.
const THREE_MESSAGES: &[u8] =
    b"8=FIX.4.2\x019=57\x0135=A\x0134=1\x0149=C1\x0152=20260105-14:30:00\x0156=HOST\x0198=0\x01108=30\x0110=220\x01\
8=FIX.4.2\x019=104\x0135=D\x0134=2\x0149=C1\x0152=20260105-14:30:00\x0156=HOST\x0111=a\x0121=1\x0155=H6\x0154=2\x0160=20260105-14:30:00\x0138=5\x0140=2\x0144=100\x0110=168\x01\
8=FIX.4.2\x019=104\x0135=D\x0134=3\x0149=C1\x0152=20260105-14:30:00\x0156=HOST\x0111=b\x0121=1\x0155=H6\x0154=1\x0160=20260105-14:30:00\x0138=5\x0140=2\x0144=100\x0110=169\x01";

static DAYS: &[Day] = &[
    Day {
        name: "the ring has room for one event: nothing is lost or doubled",
        ring: 1,
        journal: 10,
        acts: &[
            Put(THREE_MESSAGES, 333),
            Stands(true),
            Steps(Step::Sent),
            Steps(Step::Full),
            Steps(Step::Full),
            Stands(true),
            Turns(Turn::Took),
            Steps(Step::Sent),
            Steps(Step::Full),
            Turns(Turn::Took),
            Steps(Step::Sent),
            Stands(false),
            Steps(Step::Need),
            Turns(Turn::Took),
            Turns(Turn::Empty),
        ],
        says: &[Says::Logon, Says::Sell, Says::Buy],
    },
    Day {
        name: "bytes that hold no frame are taken without end, and the message behind them is sent",
        ring: 1,
        journal: 10,
        acts: &[
            PutLetters,
            Stands(false),
            PutLetters,
            Stands(false),
            PutLetters,
            Stands(false),
            Put(FIRST_LOGON, 79),
            Steps(Step::Sent),
        ],
        says: &[],
    },
    Day {
        name: "without a byte the close alone fits, and it is done before the journal is full",
        ring: 4,
        journal: 1,
        acts: &[
            IsClosed(false),
            Ends(Step::Sent),
            IsClosed(true),
            Turns(Turn::Took),
            Turns(Turn::Done),
            Settles(Settle::Settled),
        ],
        says: &[Says::Close(5)],
    },
    Day {
        name: "a full journal",
        ring: 4,
        journal: 1,
        acts: &[
            Put(FIRST_LOGON, 79),
            Steps(Step::Sent),
            Turns(Turn::Took),
            Turns(Turn::JournalFull),
            Settles(Settle::NotClosed(0)),
            Ends(Step::Sent),
            Settles(Settle::JournalFull),
        ],
        says: &[Says::Logon],
    },
    Day {
        name: "a whole day",
        ring: 4,
        journal: 4,
        acts: &[
            Put(FIRST_TRADE, 400),
            Steps(Step::Sent),
            Steps(Step::Sent),
            Steps(Step::Sent),
            Steps(Step::Sent),
            Steps(Step::Closed),
            Put(FIRST_TRADE, 400),
            Settles(Settle::Settled),
        ],
        says: &[Says::Logon, Says::Sell, Says::Buy, Says::Close(1)],
    },
];

#[test]
fn days_in_steps(rt: HostRuntime) {
    for day in DAYS {
        expect_day(&rt, rt.alloc(), day);
    }
}

/// Before the first byte.
static AT_FIRST: &[Act] = &[Stands(false), Steps(Step::Need)];

/// A message stands, and the ring is full.
static FULL: &[Act] = &[Steps(Step::Full), Stands(true), Turns(Turn::Took)];

/// A message stands, and the ring has room.
static SENT: &[Act] = &[Steps(Step::Sent), Stands(false)];

/// Behind the last byte.
static AT_LAST: &[Act] = &[
    IsClosed(true),
    Steps(Step::Closed),
    Turns(Turn::Took),
    Turns(Turn::Done),
];

/// Puts a byte, and steps over the message that stands then, if one does; where the ring is full, after a turn.
fn put_byte<A: Allocator>(
    rt: &impl Abort,
    gateway: &mut Gateway<A>,
    sequencer: &mut Sequencer<A>,
    byte: &[u8],
    is_full: bool,
) -> bool {
    holds(rt, gateway.put(byte) == 1);
    if !gateway.stands() {
        holds(rt, gateway.step() == Step::Need);
        return is_full;
    }
    if is_full {
        expect_acts_of_two(rt, gateway, sequencer, FULL);
    }
    expect_acts_of_two(rt, gateway, sequencer, SENT);
    true
}

fn put_each_byte<A: Allocator>(
    rt: &impl Abort,
    gateway: &mut Gateway<A>,
    sequencer: &mut Sequencer<A>,
) {
    expect_acts_of_two(rt, gateway, sequencer, AT_FIRST);
    let mut is_full = false;
    for byte in FIRST_TRADE.chunks(1) {
        is_full = put_byte(rt, gateway, sequencer, byte, is_full);
    }
    expect_acts_of_two(rt, gateway, sequencer, AT_LAST);
    expect_journal(rt, sequencer.journal(), FIRST_TRADE_SAYS.as_slice());
}

/// A message stands exactly where a step does not answer Need, and at Full the same message stays due.
#[test]
fn stands_and_steps_agree(rt: HostRuntime) {
    let (mut gateways, mut sequencer) = link(rt.alloc(), 1, 1, 10).expect(&rt, "a link");
    let gateway = gateways.as_mut_slice().first_mut().expect(&rt, "a gateway");
    put_each_byte(&rt, gateway, &mut sequencer);
}
