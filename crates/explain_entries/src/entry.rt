//! The line of an entry itself.
use crate::words::Words;
use spread_rules::{Entry, Event, Id, Ticket};
use std::alloc::Allocator;

/// What a ticket asks for.
fn put_ticket<A: Allocator + Copy>(words: &mut Words<'_, A>, ticket: &Ticket) {
    words.put(b", ");
    words.side(ticket.side);
    words.number(u64::from(ticket.quantity));
    words.put(b" ");
    words.symbol(&ticket.symbol);
    words.put(b" at ");
    words.price(ticket.price);
    if ticket.immediate {
        words.put(b", ioc");
    } else {
        words.put(b", day");
    }
}

/// A request that names an order.
fn put_request<A: Allocator + Copy>(
    words: &mut Words<'_, A>,
    request: &[u8],
    id: &Id,
    original: &Id,
) {
    words.put(request);
    words.id(id);
    words.put(b" of order ");
    words.id(original);
}

/// A Logon.
fn put_logon<A: Allocator + Copy>(words: &mut Words<'_, A>, client: &Id, host: &Id, beat: u32) {
    words.put(b"logon of ");
    words.id(client);
    words.put(b" to ");
    words.id(host);
    words.named(b", beat ", u64::from(beat));
}

/// A request for messages that were sent before; a `last` of 0 is no end.
fn put_resend<A: Allocator + Copy>(words: &mut Words<'_, A>, first: u32, last: u32) {
    words.named(b"resend request from ", u64::from(first));
    if last == 0 {
        words.put(b" on");
    } else {
        words.named(b" to ", u64::from(last));
    }
}

/// What an event says.
fn put_event<A: Allocator + Copy>(words: &mut Words<'_, A>, event: &Event) {
    match event {
        Event::Logon { client, host, beat } => put_logon(words, client, host, *beat),
        Event::New(ticket) => {
            words.put(b"new order ");
            words.id(&ticket.id);
            put_ticket(words, ticket);
        }
        Event::Cancel { id, original } => put_request(words, b"cancel ", id, original),
        Event::Replace { original, ticket } => {
            put_request(words, b"replace ", &ticket.id, original);
            put_ticket(words, ticket);
        }
        Event::TestReply { text } => {
            words.put(b"test request ");
            words.id(text);
        }
        Event::Gap { first } => words.named(b"messages missing from ", u64::from(*first)),
        Event::Resend { first, last } => put_resend(words, *first, *last),
        Event::Reject { number, reason } => {
            words.named(b"message ", u64::from(*number));
            words.named(b" rejected, reason ", u64::from(*reason));
        }
        Event::Close { reason } => words.named(b"session closed, reason ", u64::from(*reason)),
    }
}

/// The line of the entry of that place.
pub fn put_entry<A: Allocator + Copy>(words: &mut Words<'_, A>, place: u64, entry: &Entry) {
    words.named(b"entry ", place);
    words.named(b", session ", u64::from(entry.session));
    words.put(b": ");
    put_event(words, &entry.event);
    words.put(b"\n");
}
