//! Tests by subject, and the orders that they share.
ghost use Rattle.std.specs.Prelude.{neg_ℤ, pos, ◌≤ℤ◌};
ghost use Rattle.spread_rules.specs.code.Candidates.{HasOrderPrice};

use spread_rules::{Instrument, Order, Side};
use spread_rules_ids::Id;

mod candidates;
mod plain_matcher;
mod rulebook;

fn order(place: u64, instrument: Instrument, side: Side, quantity: u32, price: i64) -> Order
    requires low { neg_ℤ (pos 1000000) ≤ℤ price }
    requires high { price ≤ℤ pos 1000000 }
    ensures { HasOrderPrice result }
{
    Order {
        place,
        session: 0,
        id: Id::default(),
        instrument,
        side,
        price,
        quantity,
        leaves: quantity,
    }
}

const THREE_MONTHS: &[u8] =
    b"# March, June and September\n\ntick 1\nmonth H6 10000\nmonth M6 9800\nmonth U6 9500";

const H6: Instrument = Instrument::Outright(0);

const M6: Instrument = Instrument::Outright(1);

const U6: Instrument = Instrument::Outright(2);
