//! An entry told: what came of it, and how its order was traded.
ghost use Rattle.std.specs.Option.{option_map};
ghost use Rattle.std.specs.Prelude.{◌≡◌, ◌+◌, All, IfOk, IfSome, length};
ghost use Rattle.spread_rules.specs.code.Candidates.{HasOrderPrice};
ghost use Rattle.spread_rules.specs.Clearing.{removed};
ghost use Rattle.spread_rules.specs.Journal.{FitsEntry};
ghost use Rattle.apply_market.specs.Application.{meaning_behind};
ghost use Rattle.explain_turns.specs.Explained.{AreTurns, HaveLegPrices, LiesBeyond, after_all_turns};
ghost use Rattle.explain_entries.specs.EntryExplained.{named_by, others_of, standing_at, trader_of};

use crate::orders_before::{OrdersBefore, named_by, standing_at};
use crate::told::{EntryExplanation, Traded};
use explain_turns::explain_order;
use spread_match::laws::ranges;
use spread_match_orders::new_order;
use spread_rules::{Entry, Event, NoMemory, Order, Outcome, Rulebook};
use std::alloc::Allocator;

/// The order that an entry of that place brings to be matched, where it brings one.
fn trader_of(rulebook: &Rulebook, place: u64, entry: &Entry, outcome: &Outcome) -> Option<Order>
    requires { FitsEntry entry.now }
    ensures trader { result
        ≡ trader_of rulebook.now place entry.now.session entry.now.event outcome.now }
    ensures order_price { IfSome result HasOrderPrice }
{
    match (&entry.event, outcome) {
        (Event::New(_), Outcome::Refused(_)) => None,
        (Event::New(ticket), _) => {
            let instrument = rulebook.find(ticket.symbol.bytes())?;
            Some(new_order(place, entry.session, ticket, instrument))
        }
        (Event::Replace { ticket, .. }, Outcome::Replaced(order)) if order.place == place => {
            Some(Order {
                price: ticket.price,
                ..*order
            })
        }
        _ => None,
    }
}

/// All of these but the order that is replaced.
fn others_of<A: Allocator + Copy>(orders: Vec<Order, A>, named: &Option<Order>) -> Vec<Order, A>
    ensures { result.items ≡ others_of named.now orders.items }
{
    let mut orders = orders;
    if let Some(replaced) = named {
        remove(&mut orders, replaced.place);
    }
    orders
}

fn remove<A: Allocator + Copy>(orders: &mut Vec<Order, A>, place: u64)
    ensures { orders.new.items ≡ removed place orders.old.items }
{
    orders.retain(|o| o.place != place);
}

/// What is told of the entry that follows these.
pub fn explain_entry<A: Allocator + Copy>(
    alloc: A,
    rulebook: &Rulebook,
    before: &[Entry],
    entry: &Entry,
) -> Result<EntryExplanation<A>, NoMemory>
    requires before { All FitsEntry before.now }
    requires entry { FitsEntry entry.now }
    ensures outcome { IfOk result (λ t.
        t.outcome ≡ (meaning_behind rulebook.now before.now entry.now).outcome) }
    ensures named { IfOk result (λ t. t.named ≡ named_by entry.now.session entry.now.event
        (standing_at rulebook.now before.now)) }
    ensures trader { IfOk result (λ t. option_map (λ x. x.new) t.traded
        ≡ trader_of rulebook.now (length before.now + 1) entry.now.session entry.now.event
        t.outcome) }
    ensures turns { IfOk result (λ t. IfSome t.traded (λ x. AreTurns rulebook.now x.new
        (others_of t.named (standing_at rulebook.now before.now)) x.explanation.turns.items)) }
    ensures leg_price { IfOk result (λ t. IfSome t.traded (λ x.
        All HaveLegPrices x.explanation.turns.items)) }
    ensures left { IfOk result (λ t. IfSome t.traded (λ x. x.explanation.left
        ≡ (after_all_turns rulebook.now x.new
        (others_of t.named (standing_at rulebook.now before.now))).new.leaves)) }
    ensures beyond { IfOk result (λ t. IfSome t.traded (λ x. LiesBeyond rulebook.now x.new
        (others_of t.named (standing_at rulebook.now before.now)) x.explanation.beyond)) }
{
    // Cites the ranges of a journal's orders, and that a rulebook is lawful.
    ranges();
    rulebook.months();
    let OrdersBefore { orders, outcome } = standing_at(alloc, rulebook, before, entry)?;
    let named = named_by(&orders, entry);
    let place = before.len() as u64 + 1;
    let traded = match trader_of(rulebook, place, entry, &outcome) {
        None => None,
        Some(new) => {
            let others = others_of(orders, &named);
            let explanation = explain_order(alloc, rulebook, others, &new)?;
            Some(Traded { new, explanation })
        }
    };
    Ok(EntryExplanation {
        outcome,
        named,
        traded,
    })
}
