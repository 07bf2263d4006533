//! Tests by subject, and what they share.
ghost use Rattle.std.specs.Prelude.{◌<◌, ◌≡◌, true};
ghost use Rattle.spread_match_state.specs.State.{empty_state};
ghost use Rattle.spread_match_state.specs.Trade.{IsPriced};

use crate::expect::holds;
use spread_books::Book;
use spread_match::Market;
use spread_rules::{Entry, Event, Fill, Instrument, Outcome, Rulebook, Side, Ticket};
use std::alloc::Global;
use std::process::Abort;
use tests_shared::{first_logon, id};

mod cases;
mod market;
mod memory_refused;
mod pairs;
mod quotes;
mod refusals;
mod replaces;
mod rows;
mod sizes;
mod statuses;
mod tickets;

const H6: Instrument = Instrument::Outright(0);

const M6: Instrument = Instrument::Outright(1);

const U6: Instrument = Instrument::Outright(2);

const H6_M6: Instrument = Instrument::Spread(0, 1);

const H6_U6: Instrument = Instrument::Spread(0, 2);

const M6_U6: Instrument = Instrument::Spread(1, 2);

/// A spread whose months stand the wrong way round: no rulebook has it.
const M6_H6: Instrument = Instrument::Spread(1, 0);

/// A month that no rulebook has.
const X6: Instrument = Instrument::Outright(9);

/// The symbol of an instrument of these months.
fn symbol_of(instrument: Instrument) -> &'static [u8] {
    match instrument {
        Instrument::Outright(0) => b"H6",
        Instrument::Outright(1) => b"M6",
        Instrument::Outright(2) => b"U6",
        Instrument::Outright(_) => b"X6",
        Instrument::Spread(0, 1) => b"H6-M6",
        Instrument::Spread(0, 2) => b"H6-U6",
        Instrument::Spread(1, 2) => b"M6-U6",
        Instrument::Spread(_, _) => b"M6-H6",
    }
}

/// A day order.
fn ticket(name: &[u8], symbol: &[u8], side: Side, quantity: u32, price: i64) -> Ticket {
    Ticket {
        id: id(name),
        symbol: id(symbol),
        side,
        quantity,
        price,
        immediate: false,
    }
}

/// A day order of session 0.
fn day(name: &[u8], symbol: &[u8], side: Side, quantity: u32, price: i64) -> Entry {
    Entry {
        session: 0,
        event: Event::New(ticket(name, symbol, side, quantity, price)),
    }
}

fn buy(name: &[u8], symbol: &[u8], quantity: u32, price: i64) -> Entry {
    day(name, symbol, Side::Buy, quantity, price)
}

fn sell(name: &[u8], symbol: &[u8], quantity: u32, price: i64) -> Entry {
    day(name, symbol, Side::Sell, quantity, price)
}

fn cancel(name: &[u8], original: &[u8]) -> Entry {
    Entry {
        session: 0,
        event: Event::Cancel {
            id: id(name),
            original: id(original),
        },
    }
}

fn logon() -> Entry {
    Entry {
        session: 0,
        event: first_logon(),
    }
}

fn is_priced(entry: &Entry) -> bool
    ensures { result ≡ true → IsPriced entry.now.event }
{
    match entry.event {
        Event::New(ticket)
        | Event::Replace {
            original: _,
            ticket,
        } => { ticket.price >= -1_000_000_000 && ticket.price <= 1_000_000_000 }
        _ => true,
    }
}

/// The rulebook of this text, which a test of that name needs.
fn rulebook(rt: &impl Abort, text: &[u8], name: &str) -> Rulebook {
    Rulebook::read(text).expect(rt, name)
}

/// What the entry of that place comes to.
fn applied<B: Book>(
    rt: &impl Abort,
    market: &mut Market<'_, B, Global>,
    place: u64,
    entry: &Entry,
    fills: &mut Vec<Fill>,
) -> Outcome
    requires { market.old.state.last < place }
    ensures { market.new.state.last ≡ place }
{
    holds(rt, is_priced(entry));
    market.apply(place, entry, fills).expect(rt, "memory")
}

/// The fills of the entries of a journal in a market before its first entry, places counting from 1.
fn apply_all<B: Book>(
    rt: &impl Abort,
    alloc: Global,
    market: &mut Market<'_, B, Global>,
    journal: &[Entry],
) -> Vec<Fill>
    requires { market.old.state ≡ empty_state market.old.state.quotes_by }
{
    let mut fills = Vec::new(alloc);
    for n in 0..journal.len() {
        let _ = applied(rt, market, n as u64 + 1, &journal[n], &mut fills);
    }
    fills
}
