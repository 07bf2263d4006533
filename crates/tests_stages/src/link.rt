//! Worked rows: gateways, rings of one event and the sequencer, in one thread and in several.
use crate::expect::holds;
use spread_rules::{Entry, Event, Side};
use std::process::Abort;
use tests_shared::{first_logon, first_order};

mod days;
mod gateways;
mod inboxes;
mod laws;
mod links;
mod range;
mod ring_ends;
mod slices;
mod threads;

/// What a message of the first trade says, or another close.
enum Says {
    Logon,
    Sell,
    Buy,
    Close(u8),
}

/// What the four messages of the first trade say.
static FIRST_TRADE_SAYS: [Says; 4] = [Says::Logon, Says::Sell, Says::Buy, Says::Close(1)];

fn event_of(says: &Says) -> Event {
    match says {
        Says::Logon => first_logon(),
        Says::Sell => first_order(b"a", Side::Sell),
        Says::Buy => first_order(b"b", Side::Buy),
        Says::Close(reason) => Event::Close { reason: *reason },
    }
}

fn is_said(event: &Event, says: &Says) -> bool {
    *event == event_of(says)
}

/// The journal has these events of session 0 and no others, in this order.
fn expect_journal(rt: &impl Abort, journal: &[Entry], want: &[Says]) {
    holds(rt, journal.len() == want.len());
    for n in 0..want.len() {
        holds(rt, journal[n].session == 0);
        holds(rt, is_said(&journal[n].event, &want[n]));
    }
}
