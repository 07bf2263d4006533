//! The calls of a market.
ghost use Rattle.std.specs.Prelude.{◌<◌, ◌≡◌};
ghost use Rattle.spread_match_state.specs.State.{empty_state};

use super::{H6_M6, applied, buy, rulebook, sell};
use crate::expect::holds;
use spread_books::ListBook;
use spread_match::Market;
use spread_match::laws::{lawful, ranges, without_replace};
use spread_rules::{Choice, Entry, Fill, Members, NoMemory, Order, Outcome, Side};
use std::alloc::Global;
use std::process::Abort;
use tests_shared::{Refusing, THREE_MONTHS, id};

/// The entry of that place comes to rest.
fn expect_rested(
    rt: &impl Abort,
    market: &mut Market<'_, ListBook<Global>, Global>,
    place: u64,
    entry: &Entry,
    fills: &mut Vec<Fill>,
)
    requires { market.old.state.last < place }
    ensures { market.new.state.last ≡ place }
{
    let outcome = applied(rt, market, place, entry, fills);
    holds(rt, outcome == Outcome::Rested);
}

/// A buyer of the spread.
fn buyer() -> Order {
    Order {
        place: 9,
        session: 1,
        id: id(b"x"),
        instrument: H6_M6,
        side: Side::Buy,
        price: 200,
        quantity: 4,
        leaves: 4,
    }
}

/// In a market before its first entry the buyer meets no one, and then the two orders that come to rest.
fn expect_best(
    rt: &impl Abort,
    market: &mut Market<'_, ListBook<Global>, Global>,
    fills: &mut Vec<Fill>,
)
    requires { market.old.state ≡ empty_state market.old.state.quotes_by }
{
    market.reserve(2).expect(rt, "memory");
    let buyer = buyer();
    holds(rt, market.best(&buyer) == None);
    expect_rested(rt, market, 2, &sell(b"a", b"H6", 3, 10000), fills);
    expect_rested(rt, market, 7, &buy(b"b", b"M6", 2, 9800), fills);
    let wanted = Choice {
        price: 200,
        quantity: 2,
        members: Members::Implied(2, 7),
    };
    holds(rt, market.best(&buyer) == Some(wanted));
}

#[test]
fn best_and_apply(rt: HostRuntime) {
    let rules = rulebook(&rt, THREE_MONTHS, "a rulebook");
    let mut market = Market::new(rt.alloc(), &rules, ListBook::new(rt.alloc()));
    expect_best(&rt, &mut market, &mut Vec::new(rt.alloc()));
}

/// Room for a thousand orders is asked for at once: where the first request is refused, none was made.
#[test]
fn room_is_asked_for(rt: HostRuntime) {
    let rules = rulebook(&rt, THREE_MONTHS, "a rulebook");
    let heap = Refusing::new(rt.alloc(), 1);
    let mut market = Market::new(&heap, &rules, ListBook::new(rt.alloc()));
    holds(&rt, market.reserve(1_000) == Err(NoMemory));
    holds(&rt, market.reserve(1_000) == Ok(()));
}

/// A law asks nothing of who cites it, and does nothing when it runs. That it holds is the prover's to say.
#[test]
fn laws_have_no_premises() {
    lawful();
    ranges();
    without_replace();
}
