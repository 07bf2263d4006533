//! The leg prices of the spread that takes part in a trade.
ghost use Rattle.std.specs.Prelude.{◌≡◌, get_or, pos};
ghost use Rattle.spread_rules.specs.code.Candidates.{HasLegPrice};
ghost use Rattle.spread_rules.specs.Clearing.{leg_prices};
ghost use Rattle.spread_rules_rulebook.specs.Prices.{IsOrderPrice};
ghost use Rattle.spread_rules_rulebook.specs.Rulebook.{references_of};

use crate::candidate::{Candidate, Counterparty};
use crate::order::Order;
use spread_rules_rulebook::{Instrument, Rulebook};

/// The month's reference price.
fn reference(rules: &Rulebook, month: u8) -> i64
    ensures value { result ≡ get_or (references_of rules.now) month (pos 0) }
    ensures order_price { IsOrderPrice result }
{
    if month < rules.months() {
        rules.reference(month)
    } else {
        0
    }
}

/// The leg prices, near and far, of the spread that takes part where an order trades with a candidate: a spread traded
/// with one has the near month's reference price and what the price leaves for the far one; an implied trade has its
/// outrights' prices. An outright that trades with one has its price twice. Rule M7.
pub fn leg_prices(rules: &Rulebook, new: &Order, candidate: &Candidate) -> (i64, i64)
    requires { HasLegPrice candidate.now }
    ensures { result
        ≡ leg_prices (references_of rules.now) new.now.instrument
        candidate.now.price candidate.now.counterparty }
{
    match (new.instrument, candidate.counterparty) {
        (Instrument::Outright(_), Counterparty::Direct(_)) => (candidate.price, candidate.price),
        (Instrument::Spread(near, _), Counterparty::Direct(_)) => {
            let near = reference(rules, near);
            (near, near - candidate.price)
        }
        (Instrument::Spread(_, _), Counterparty::Implied(a, b)) => (a.price, b.price),
        (Instrument::Outright(month), Counterparty::Implied(_, b)) => {
            if month < b.instrument.far_month() {
                (candidate.price, b.price)
            } else {
                (b.price, candidate.price)
            }
        }
    }
}
