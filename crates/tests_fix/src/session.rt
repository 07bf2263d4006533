//! Worked rows: messages of a session as its client writes them, and what the session says to them.
use crate::expect::{holds, holds_for};
use fix_session::{Session, Verdict};
use fix_wire::Message;
use spread_rules::{Event, Side, Ticket};
use std::alloc::Allocator;
use std::process::Abort;
use tests_shared::{first_logon, id};

mod kinds;
mod laws;
mod numbering;
mod reader;
mod table;

const LOGON: &str = "35=A|34=1|49=C1|52=20260105-14:30:00|56=HOST|98=0|108=30|";

/// What a session says to a message, or at the end of its stream.
enum Says {
    Nothing,
    /// Client C1 opens a session with HOST, with a heartbeat interval of 30 seconds.
    Logon,
    New(Order),
    /// An order that is wanted in place of the one with this id.
    Replace(&'static [u8], Order),
    /// The cancel's id, and the id of the order that it names.
    Cancel(&'static [u8], &'static [u8]),
    TestReply(&'static [u8]),
    Gap(u32),
    Resend(u32, u32),
    /// The message's number and the reason.
    Reject(u32, u8),
    Close(u8),
}

/// An order in H6.
struct Order {
    id: &'static [u8],
    side: Side,
    quantity: u32,
    price: i64,
    immediate: bool,
}

/// The first trade's orders: 5 lots at 100.00.
const SELL: Says = Says::New(Order {
    id: b"a",
    side: Side::Sell,
    quantity: 5,
    price: 10_000,
    immediate: false,
});

const BUY: Says = Says::New(Order {
    id: b"b",
    side: Side::Buy,
    quantity: 5,
    price: 10_000,
    immediate: false,
});

/// What the first trade's messages say.
static FIRST_TRADE_SAYS: [Says; 4] = [Says::Logon, SELL, BUY, Says::Close(1)];

fn ticket_of(order: &Order) -> Ticket {
    Ticket {
        id: id(order.id),
        symbol: id(b"H6"),
        side: order.side,
        quantity: order.quantity,
        price: order.price,
        immediate: order.immediate,
    }
}

fn verdict_of(says: &Says) -> Verdict {
    let event = match says {
        Says::Nothing => return Verdict::Nothing,
        Says::Logon => first_logon(),
        Says::New(order) => Event::New(ticket_of(order)),
        Says::Replace(original, order) => Event::Replace {
            original: id(original),
            ticket: ticket_of(order),
        },
        Says::Cancel(cancel, original) => Event::Cancel {
            id: id(cancel),
            original: id(original),
        },
        Says::TestReply(text) => Event::TestReply { text: id(text) },
        Says::Gap(first) => Event::Gap { first: *first },
        Says::Resend(first, last) => Event::Resend {
            first: *first,
            last: *last,
        },
        Says::Reject(number, reason) => Event::Reject {
            number: *number,
            reason: *reason,
        },
        Says::Close(reason) => Event::Close { reason: *reason },
    };
    Verdict::Event(event)
}

fn is_said(verdict: Verdict, says: &Says) -> bool {
    verdict == verdict_of(says)
}

fn expect_said(rt: &impl Abort, verdict: Verdict, says: &Says) {
    holds(rt, is_said(verdict, says));
}

/// These events and no others were said, in this order.
fn expect_events(rt: &impl Abort, name: &str, events: &[Event], want: &[Says]) {
    holds_for(rt, events.len() == want.len(), name);
    for n in 0..want.len() {
        holds_for(rt, is_said(Verdict::Event(events[n]), &want[n]), name);
    }
}

/// The bytes of a text in which `|` stands for byte 1.
fn bytes_of<A: Allocator>(rt: &impl Abort, alloc: A, text: &str) -> Vec<u8, A> {
    let mut bytes = Vec::new(alloc);
    for byte in text.as_bytes() {
        let byte = if *byte == b'|' { 1 } else { *byte };
        bytes.push(byte).expect(rt, "memory");
    }
    bytes
}

/// The sum of these bytes, as a CheckSum has it.
fn sum_of(bytes: &[u8]) -> u8 {
    let mut sum = 0u8;
    for byte in bytes {
        sum = sum.wrapping_add(*byte);
    }
    sum
}

/// The CheckSum's field of three digits.
fn end_of(sum: u8) -> [u8; 7] {
    let digits = [b'0' + sum / 100, b'0' + sum / 10 % 10, b'0' + sum % 10];
    [b'1', b'0', b'=', digits[0], digits[1], digits[2], 1]
}

/// A frame around a body.
fn framed<A: Allocator + Copy>(rt: &impl Abort, alloc: A, body: &str) -> Vec<u8, A> {
    let text = format!(in alloc; "8=FIX.4.2|9={}|{body}", body.len()).expect(rt, "memory");
    let mut frame = bytes_of(rt, alloc, text.as_str());
    let end = end_of(sum_of(&frame));
    frame.extend_from_slice(&end).expect(rt, "memory");
    frame
}

/// What a session says to a body, and the session after it.
fn judged<A: Allocator + Copy>(
    rt: &impl Abort,
    alloc: A,
    session: &Session,
    body: &str,
) -> (Verdict, Session) {
    let frame = framed(rt, alloc, body);
    let message = Message::whole(&frame).expect(rt, "a frame");
    session.judge(&message)
}

fn push_event<A: Allocator>(rt: &impl Abort, events: &mut Vec<Event, A>, verdict: Verdict) {
    if let Verdict::Event(event) = verdict {
        events.push(event).expect(rt, "memory");
    }
}
