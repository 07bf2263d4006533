//! The receiving end of a session's ring, alone.
use super::{Says, expect_journal, is_said};
use crate::expect::holds;
use gate_link_sessions::{Inbox, NO_ENTRY, Step, look_all, rings};
use std::alloc::Global;
use std::process::Abort;
use tests_shared::FIRST_TRADE;

/// The first trade's events are taken: one, one that was seen, and the others together.
fn expect_taken(rt: &impl Abort, inbox: &mut Inbox<Global>) {
    let first = inbox.take().expect(rt, "an event");
    holds(rt, is_said(&first, &Says::Logon));
    if inbox.known_count() == 0 {
        panic!(rt; "no event was seen");
    }
    let second = inbox.take_known();
    holds(rt, is_said(&second, &Says::Sell));
    let mut others = [NO_ENTRY; 4];
    holds(rt, inbox.take_many(&mut others) == 2);
    expect_journal(rt, &others[..2], &[Says::Buy, Says::Close(1)]);
}

/// An inbox takes what its gateway sent, and is done behind the close.
#[test]
fn an_inbox_takes_what_was_sent(rt: HostRuntime) {
    let (gateways, inboxes) = rings(rt.alloc(), 1, 4).expect(&rt, "memory");
    let mut gateways = gateways;
    let mut inboxes = inboxes;
    look_all(&mut inboxes, &mut gateways);
    holds(&rt, inboxes[0].known_count() == 0 && !inboxes[0].is_done());
    holds(&rt, gateways[0].put(FIRST_TRADE) == 400);
    for _ in 0..4 {
        holds(&rt, gateways[0].step() == Step::Sent);
    }
    expect_taken(&rt, &mut inboxes[0]);
    holds(&rt, inboxes[0].is_done() && inboxes[0].take().is_none());
}
