//! The line of what came of an entry.
use explain_entries::{
    EntryExplanation, Words, put_new_refusal, put_nothing_resting, put_replace_refusal,
};
use spread_rules::{Entry, Event, Order, Outcome};
use std::alloc::Allocator;

/// What is left of an order, or that nothing is.
fn put_left<A: Allocator + Copy>(words: &mut Words<'_, A>, stays: &[u8], left: u32) {
    if left == 0 {
        words.put(b"filled");
    } else {
        words.named(stays, u64::from(left));
        words.put(b" left");
    }
}

/// How much is left of the order that was traded.
fn left_of<A: Allocator + Copy>(told: &EntryExplanation<A>) -> u32 {
    match &told.traded {
        None => 0,
        Some(traded) => traded.explanation.left,
    }
}

/// A replace that was accepted: the order keeps its place, or another stands behind it.
fn put_replaced<A: Allocator + Copy>(
    words: &mut Words<'_, A>,
    told: &EntryExplanation<A>,
    order: &Order,
) {
    match &told.traded {
        None => {
            words.named(b"keeps its place ", order.place);
            words.named(b" with ", u64::from(order.leaves));
            words.put(b" left");
        }
        Some(traded) => put_left(words, b"rests with ", traded.explanation.left),
    }
}

/// Why it was refused.
fn put_refusal<A: Allocator + Copy>(
    words: &mut Words<'_, A>,
    before: &[Entry],
    entry: &Entry,
    told: &EntryExplanation<A>,
    reason: u8,
) {
    words.named(b"refused, reason ", u64::from(reason));
    words.put(b": ");
    match (&entry.event, &told.named, &told.outcome) {
        (Event::New(ticket), _, _) => put_new_refusal(words, before, entry.session, ticket),
        (Event::Replace { ticket, .. }, Some(named), _) => {
            put_replace_refusal(words, before, entry.session, ticket, named);
        }
        (_, _, Outcome::CancelRefused { place, status, .. }) => {
            put_nothing_resting(words, *place, *status);
        }
        _ => {}
    }
}

/// Which order loses its place, before the turns of the one that stands for it.
pub fn put_loses_place<A: Allocator + Copy>(words: &mut Words<'_, A>, told: &EntryExplanation<A>) {
    match (&told.traded, &told.named) {
        (Some(_), Some(named)) => {
            words.put(b"loses its place: ");
            words.order(named);
            words.put(b"\n");
        }
        _ => {}
    }
}

/// What came of the entry that follows these.
pub fn put_outcome<A: Allocator + Copy>(
    words: &mut Words<'_, A>,
    before: &[Entry],
    entry: &Entry,
    told: &EntryExplanation<A>,
) {
    words.put(b"outcome: ");
    match &told.outcome {
        Outcome::Rested => put_left(words, b"rests with ", left_of(told)),
        Outcome::Filled => words.put(b"filled"),
        Outcome::Ended { left } => put_left(words, b"ended with ", *left),
        Outcome::Cancelled(order) => {
            words.put(b"ends the order of ");
            words.order(order);
        }
        Outcome::Replaced(order) => put_replaced(words, told, order),
        Outcome::Refused(reason) => put_refusal(words, before, entry, told, *reason),
        Outcome::CancelRefused { reason, .. } => put_refusal(words, before, entry, told, *reason),
        Outcome::Session => words.put(b"no order changes"),
    }
    words.put(b"\n");
}
