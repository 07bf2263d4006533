//! Why an entry was refused, and what that rests on.
use crate::words::Words;
use spread_rules::codes::ord_status;
use spread_rules::{Entry, Event, Id, Order, Ticket};
use spread_rules_ids::limits::MAX_ORDER_QTY;
use std::alloc::Allocator;

/// Whether an entry is a new order or a replace of the session with that id.
fn uses_id(entry: &Entry, session: u8, id: &Id) -> bool {
    match &entry.event {
        Event::New(ticket) | Event::Replace { ticket, .. } => {
            entry.session == session && ticket.id.is(id)
        }
        _ => false,
    }
}

/// The place of the first of these entries that used the id; 0 where none did.
fn used_before(before: &[Entry], session: u8, id: &Id) -> u64 {
    let mut place = 0u64;
    for entry in before {
        place = place.saturating_add(1);
        if uses_id(entry, session, id) {
            return place;
        }
    }
    0
}

fn put_used<A: Allocator + Copy>(words: &mut Words<'_, A>, place: u64) {
    words.named(b"the session used this id before, in entry ", place);
}

fn put_quantity<A: Allocator + Copy>(words: &mut Words<'_, A>, quantity: u32) {
    words.named(b"quantity ", u64::from(quantity));
    words.named(b" is not from 1 to ", u64::from(MAX_ORDER_QTY));
}

fn put_price<A: Allocator + Copy>(words: &mut Words<'_, A>, price: i64) {
    let tick = words.rulebook.tick();
    words.put(b"price ");
    words.price(price);
    words.put(b" is no multiple of the tick ");
    words.price(tick);
}

/// The first reason for which a new order was refused.
pub fn put_new_refusal<A: Allocator + Copy>(
    words: &mut Words<'_, A>,
    before: &[Entry],
    session: u8,
    ticket: &Ticket,
) {
    let used = used_before(before, session, &ticket.id);
    if used > 0 {
        put_used(words, used);
    } else if words.rulebook.find(ticket.symbol.bytes()).is_none() {
        words.put(b"symbol ");
        words.id(&ticket.symbol);
        words.put(b" names no instrument");
    } else if ticket.quantity == 0 || ticket.quantity > MAX_ORDER_QTY {
        put_quantity(words, ticket.quantity);
    } else {
        put_price(words, ticket.price);
    }
}

/// How an order stands that rests no longer.
fn status_text(status: u8) -> &'static [u8] {
    match status {
        ord_status::FILLED => b" is filled",
        ord_status::REPLACED => b" is replaced",
        ord_status::REJECTED => b" was refused",
        _ => b" is cancelled",
    }
}

/// Why a cancel or a replace was refused that names no resting order.
pub fn put_nothing_resting<A: Allocator + Copy>(words: &mut Words<'_, A>, place: u64, status: u8) {
    if place == 0 {
        words.put(b"the session entered no order with this id");
    } else {
        words.named(b"the order of place ", place);
        words.put(status_text(status));
    }
}

/// What holds of a ticket that is not that of the order that it would replace.
fn put_other<A: Allocator + Copy>(words: &mut Words<'_, A>, what: &[u8], named: &Order) {
    words.put(what);
    words.named(b" is not that of the order of place ", named.place);
}

/// The first reason for which a replace of a resting order was refused.
pub fn put_replace_refusal<A: Allocator + Copy>(
    words: &mut Words<'_, A>,
    before: &[Entry],
    session: u8,
    ticket: &Ticket,
    named: &Order,
) {
    let used = used_before(before, session, &ticket.id);
    if used > 0 {
        put_used(words, used);
    } else if words.rulebook.find(ticket.symbol.bytes()) != Some(named.instrument) {
        put_other(words, b"symbol", named);
    } else if ticket.side != named.side {
        put_other(words, b"side", named);
    } else if ticket.quantity == 0 || ticket.quantity > MAX_ORDER_QTY {
        put_quantity(words, ticket.quantity);
    } else if ticket.price % words.rulebook.tick() != 0 {
        put_price(words, ticket.price);
    } else if ticket.immediate {
        words.put(b"it is immediate");
    } else {
        put_filled(words, ticket, named);
    }
}

/// No more is wanted than is filled.
fn put_filled<A: Allocator + Copy>(words: &mut Words<'_, A>, ticket: &Ticket, named: &Order) {
    words.named(b"quantity ", u64::from(ticket.quantity));
    let done = named.quantity.saturating_sub(named.leaves);
    words.named(b" is no more than the ", u64::from(done));
    words.named(b" filled of the order of place ", named.place);
}
