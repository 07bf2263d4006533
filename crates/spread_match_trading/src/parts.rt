//! The up to three fills of one turn.
ghost use Rattle.std.specs.Prelude.{◌≡◌};
ghost use Rattle.spread_rules.specs.Candidates.{least_left};
ghost use Rattle.spread_rules.specs.code.Candidates.{HasLegPrice};
ghost use Rattle.spread_rules.specs.Clearing.{fills_of};
ghost use Rattle.spread_rules_rulebook.specs.Rulebook.{references_of};

use crate::trading::fill_of;
use smallvec::SmallVec;
use spread_rules::{Candidate, Counterparty, Fill, Order, Rulebook, leg_prices};
use std::alloc::Allocator;

/// Taken without memory: three fit inline.
pub fn turn_fills<'a, A: Allocator>(
    alloc: &'a A,
    rules: &Rulebook,
    new: &Order,
    candidate: &Candidate,
    by: u32,
) -> SmallVec<Fill, 3, &'a A>
    requires leg_price { HasLegPrice candidate.now }
    requires by { by ≡ least_left new.now candidate.now.counterparty }
    ensures { result.items ≡ fills_of (references_of rules.now) new.now candidate.now }
{
    let legs = leg_prices(rules, new, candidate);
    let mut parts = SmallVec::new(alloc);
    parts.push_reserved(fill_of(new.place, by, legs, new, candidate.price));
    match candidate.counterparty {
        Counterparty::Direct(order) => {
            parts.push_reserved(fill_of(new.place, by, legs, &order, order.price));
        }
        Counterparty::Implied(a, b) => {
            parts.push_reserved(fill_of(new.place, by, legs, &a, a.price));
            parts.push_reserved(fill_of(new.place, by, legs, &b, b.price));
        }
    }
    parts
}
