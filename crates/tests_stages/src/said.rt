//! What a session says, as a table of cases holds it.
use spread_rules::{Entry, Event, Side, Ticket};
use tests_shared::id;

/// A day order: its id, its symbol, its side, its quantity, and its limit in hundredths.
#[derive(Clone, Copy)]
pub struct DayOrder(
    pub &'static [u8],
    pub &'static [u8],
    pub Side,
    pub u32,
    pub i64,
);

#[derive(Clone, Copy)]
pub enum Said {
    /// A Logon of this client to HOST, with a heartbeat of 30 seconds.
    Logon(&'static [u8]),
    New(DayOrder),
    /// A cancel by this id of the order that had that one.
    Cancel(&'static [u8], &'static [u8]),
    /// A replace of the order that had this id.
    Replace(&'static [u8], DayOrder),
    /// A TestRequest with the text T.
    TestReply,
    /// Messages from this number on are missing.
    Gap(u32),
    /// The messages from this number to that one are asked for again.
    Resend(u32, u32),
    /// The message of this number is rejected for this reason.
    Reject(u32, u8),
    /// The session is over, for this reason.
    Close(u8),
}

fn ticket_of(order: &DayOrder) -> Ticket {
    let DayOrder(name, symbol, side, quantity, price) = *order;
    Ticket {
        id: id(name),
        symbol: id(symbol),
        side,
        quantity,
        price,
        immediate: false,
    }
}

fn event_of(said: &Said) -> Event {
    match *said {
        Said::Logon(client) => Event::Logon {
            client: id(client),
            host: id(b"HOST"),
            beat: 30,
        },
        Said::New(order) => Event::New(ticket_of(&order)),
        Said::Cancel(name, original) => Event::Cancel {
            id: id(name),
            original: id(original),
        },
        Said::Replace(original, order) => Event::Replace {
            original: id(original),
            ticket: ticket_of(&order),
        },
        Said::TestReply => Event::TestReply { text: id(b"T") },
        Said::Gap(first) => Event::Gap { first },
        Said::Resend(first, last) => Event::Resend { first, last },
        Said::Reject(number, reason) => Event::Reject { number, reason },
        Said::Close(reason) => Event::Close { reason },
    }
}

/// The entry that keeps it.
pub fn entry_of(session: u8, said: &Said) -> Entry {
    Entry {
        session,
        event: event_of(said),
    }
}
