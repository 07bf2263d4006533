//! Messages and their fields.
ghost use Rattle.fix_wire_frames.specs.Frames.{IsFrameRow};

use super::writing::REPORT;
use crate::expect::{holds, holds_for};
use fix_wire::{Message, read_price};
use fix_wire_framer::first_of_row;
use tests_shared::{FIRST_LOGON, FIRST_SELL};

struct MessageCase {
    name: &'static str,
    frame: &'static [u8],
    kind: &'static [u8],
    number: u32,
    /// What it holds at tag 44, in hundredths.
    price: Option<i64>,
    /// What it holds at other tags, if anything.
    fields: &'static [(u32, Option<&'static [u8]>)],
}

static MESSAGES: &[MessageCase] = &[
    MessageCase {
        name: "a sell order",
        frame: FIRST_SELL,
        kind: b"D",
        number: 2,
        price: Some(10_000),
        fields: &[(55, Some(b"H6")), (59, None), (10, None)],
    },
    MessageCase {
        name: "a price with zeros before and behind",
        frame: b"8=FIX.4.2\x019=109\x0135=D\x0134=2\x0149=C1\x0152=20260105-14:30:00\x0156=HOST\x0111=a\x0121=1\x0155=H6\x0154=2\x0160=20260105-14:30:00\x0138=5\x0140=2\x0144=0012.340\x0110=164\x01",
        kind: b"D",
        number: 2,
        price: Some(1234),
        fields: &[],
    },
    MessageCase {
        name: "a field that no order needs",
        frame: b"8=FIX.4.2\x019=110\x0135=D\x0134=2\x0149=C1\x0152=20260105-14:30:00\x0156=HOST\x011=ACC\x0111=a\x0121=1\x0155=H6\x0154=2\x0160=20260105-14:30:00\x0138=5\x0140=2\x0144=100\x0110=219\x01",
        kind: b"D",
        number: 2,
        price: Some(10_000),
        fields: &[(1, Some(b"ACC"))],
    },
    MessageCase {
        name: "more fields than a table has",
        frame: b"8=FIX.4.2\x019=222\x0135=D\x0134=2\x01701=v1\x01702=v2\x01703=v3\x01704=v4\x01705=v5\x01706=v6\x01707=v7\x01708=v8\x01709=v9\x01710=v10\x01711=v11\x01712=v12\x01713=v13\x01714=v14\x01715=v15\x01716=v16\x01717=v17\x01718=v18\x01719=v19\x01720=v20\x01721=v21\x01722=v22\x01723=v23\x01724=v24\x01725=v25\x01726=v26\x01727=v27\x0134=9\x0110=068\x01",
        kind: b"D",
        number: 2,
        price: None,
        fields: &[
            (722, Some(b"v22")),
            (723, Some(b"v23")),
            (727, Some(b"v27")),
            (728, None),
        ],
    },
    MessageCase {
        name: "a report whose ExecID is a pair",
        frame: REPORT,
        kind: b"8",
        number: 4,
        price: None,
        fields: &[(17, Some(b"3-2"))],
    },
];

#[test]
fn whole_messages(rt: HostRuntime) {
    for case in MESSAGES {
        let message = Message::whole(case.frame).expect(&rt, case.name);
        holds_for(&rt, is_as_wanted(case, &message), case.name);
    }
}

fn is_as_wanted(case: &MessageCase, message: &Message) -> bool {
    message.bytes() == case.frame
        && message.kind() == case.kind
        && message.number() == Some(case.number)
        && price_of(message) == case.price
        && has_fields(message, case.fields)
}

/// What a message holds at tag 44, if anything, in hundredths.
fn price_of(message: &Message) -> Option<i64> {
    read_price(message.get(44)?).ok()
}

fn has_fields(message: &Message, fields: &[(u32, Option<&[u8]>)]) -> bool {
    for (tag, value) in fields {
        if message.get(*tag) != *value {
            return false;
        }
    }
    true
}

/// A Logon and a sell order.
fn two_frames() -> &'static [u8]
    ensures { IsFrameRow result.now }
{
    b"8=FIX.4.2\x019=57\x0135=A\x0134=1\x0149=C1\x0152=20260105-14:30:00\x0156=HOST\x0198=0\x01108=30\x0110=220\x018=FIX.4.2\x019=104\x0135=D\x0134=2\x0149=C1\x0152=20260105-14:30:00\x0156=HOST\x0111=a\x0121=1\x0155=H6\x0154=2\x0160=20260105-14:30:00\x0138=5\x0140=2\x0144=100\x0110=168\x01"
}

/// A frame without its first byte, nothing, and two frames are no message.
#[test]
fn no_whole_message(rt: HostRuntime) {
    holds(&rt, Message::whole(&FIRST_SELL[1..]).is_none());
    holds(&rt, Message::whole(b"").is_none());
    holds(&rt, Message::whole(two_frames()).is_none());
}

#[test]
fn rows_of_frames(rt: HostRuntime) {
    let (first, rest) = first_of_row(two_frames()).expect(&rt, "a frame");
    holds(&rt, first == FIRST_LOGON);
    let (second, end) = first_of_row(rest).expect(&rt, "a second frame");
    holds(&rt, second == FIRST_SELL);
    holds(&rt, first_of_row(end).is_none());
}
