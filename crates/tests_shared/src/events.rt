//! What the messages of the first trade say.
use crate::samples::id;
use spread_rules::{Event, Side, Ticket};

/// Its Logon.
pub fn first_logon() -> Event {
    Event::Logon {
        client: id(b"C1"),
        host: id(b"HOST"),
        beat: 30,
    }
}

/// A day order of that ClOrdID for 5 H6 at 100.00.
pub fn first_order(text: &[u8], side: Side) -> Event {
    Event::New(Ticket {
        id: id(text),
        symbol: id(b"H6"),
        side,
        quantity: 5,
        price: 10_000,
        immediate: false,
    })
}
