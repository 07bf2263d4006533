//! The lines of turns.
ghost use Rattle.std.specs.Prelude.{All};
ghost use Rattle.spread_rules.specs.code.Candidates.{HasLegPrice};
ghost use Rattle.explain_turns.specs.Explained.{HaveLegPrices};

use explain_entries::{Traded, Words};
use explain_turns::{Beyond, ExplainedTurn, RankPoint, point_between};
use spread_rules::{Candidate, Counterparty, Instrument, Order};
use std::alloc::Allocator;

/// The price and the rank of a candidate: direct or implied, the other month of an outright order, and the places of its
/// members.
fn put_candidate<A: Allocator + Copy>(
    words: &mut Words<'_, A>,
    new: &Order,
    candidate: &Candidate,
) {
    words.put(b"price ");
    words.price(candidate.price);
    match candidate.counterparty {
        Counterparty::Direct(order) => words.named(b", direct, place ", order.place),
        Counterparty::Implied(a, b) => {
            words.put(b", implied, ");
            if let Instrument::Outright(_) = new.instrument {
                words.put(b"other month ");
                words.month(b.instrument.far_month());
                words.put(b", ");
            }
            words.named(b"places ", a.place);
            words.named(b" and ", b.place);
        }
    }
}

/// A member of the candidate that was taken, as it rested.
fn put_member<A: Allocator + Copy>(words: &mut Words<'_, A>, order: &Order) {
    words.put(b"    ");
    words.order(order);
    words.put(b"\n");
}

/// Each member in the order of their fills.
fn put_members<A: Allocator + Copy>(words: &mut Words<'_, A>, counterparty: &Counterparty) {
    match counterparty {
        Counterparty::Direct(order) => put_member(words, order),
        Counterparty::Implied(a, b) => {
            put_member(words, a);
            put_member(words, b);
        }
    }
}

/// The instrument of the spread that takes part; where none does, that of the new order.
fn traded_spread(new: &Order, counterparty: &Counterparty) -> Instrument {
    match (new.instrument, counterparty) {
        (Instrument::Outright(_), Counterparty::Implied(a, _)) => a.instrument,
        _ => new.instrument,
    }
}

/// The legs, where a spread takes part.
fn put_legs<A: Allocator + Copy>(
    words: &mut Words<'_, A>,
    instrument: Instrument,
    legs: (i64, i64),
) {
    match instrument {
        Instrument::Outright(_) => {}
        Instrument::Spread(near, far) => {
            words.put(b"    legs: ");
            words.month(near);
            words.put(b" at ");
            words.price(legs.0);
            words.put(b", ");
            words.month(far);
            words.put(b" at ");
            words.price(legs.1);
            words.put(b"\n");
        }
    }
}

/// The point in which one ranks behind the other.
fn point_text(point: RankPoint) -> &'static [u8] {
    match point {
        RankPoint::Price => b"price",
        RankPoint::DirectFirst => b"direct before implied",
        RankPoint::OtherMonth => b"the earlier other month",
        RankPoint::FirstMember => b"the earlier place of the first member",
        RankPoint::SecondMember => b"the earlier place of the second member",
    }
}

/// One that ranks behind the candidate that was taken.
fn put_next<A: Allocator + Copy>(
    words: &mut Words<'_, A>,
    new: &Order,
    taken: &Candidate,
    next: &Candidate,
)
    requires taken { HasLegPrice taken.now }
    requires next { HasLegPrice next.now }
{
    words.put(b"  next: ");
    put_candidate(words, new, next);
    words.put(b", behind by ");
    words.put(point_text(point_between(new, taken, next)));
    words.put(b"\n");
}

/// One turn: the candidate that was taken, and those that rank next.
fn put_turn<A: Allocator + Copy>(
    words: &mut Words<'_, A>,
    new: &Order,
    number: u64,
    turn: &ExplainedTurn,
)
    requires { HaveLegPrices turn.now }
{
    words.named(b"turn ", number);
    words.named(b": ", u64::from(turn.left));
    words.named(b" left, ", u64::from(turn.quantity));
    words.put(b" traded\n  taken: ");
    put_candidate(words, new, &turn.taken);
    words.put(b"\n");
    put_members(words, &turn.taken.counterparty);
    put_legs(
        words,
        traded_spread(new, &turn.taken.counterparty),
        turn.legs,
    );
    for next in &turn.next {
        if let Some(next) = next {
            put_next(words, new, &turn.taken, next);
        }
    }
}

/// The best candidate beyond the limit, and how far.
fn put_beyond<A: Allocator + Copy>(words: &mut Words<'_, A>, new: &Order, beyond: &Option<Beyond>) {
    match beyond {
        None => words.put(b"beyond the limit: none\n"),
        Some(beyond) => {
            words.put(b"beyond the limit: ");
            put_candidate(words, new, &beyond.candidate);
            words.named(b", by ", beyond.ticks);
            if beyond.ticks == 1 {
                words.put(b" tick\n");
            } else {
                words.put(b" ticks\n");
            }
        }
    }
}

/// Each turn, and what stopped them.
pub fn put_turns<A: Allocator + Copy>(words: &mut Words<'_, A>, traded: &Traded<A>)
    requires { All HaveLegPrices traded.now.explanation.turns.items }
{
    let mut number = 0u64;
    for turn in &traded.explanation.turns {
        number = number.saturating_add(1);
        put_turn(words, &traded.new, number, turn);
    }
    if traded.explanation.left > 0 {
        put_beyond(words, &traded.new, &traded.explanation.beyond);
    }
}
