//! What rests before an entry, and what comes of it.
ghost use Rattle.std.specs.Prelude.{◌≡◌, ◌<◌, ◌-◌, ◌^◌, [], All, IfOk, List};
ghost use Rattle.spread_rules.specs.declared.event.Entry.{Entry};
ghost use Rattle.std.specs.List.{find};
ghost use Rattle.spread_rules.specs.Journal.{FitsEntry};
ghost use Rattle.spread_rules.specs.Meaning.{is_own};
ghost use Rattle.apply_market.specs.Application.{HasApplied, IsApplying, meaning_behind, rules_of};
ghost use Rattle.explain_entries.specs.EntryExplained.{named_by, standing_at};

use apply_market::{MatchedJournal, apply_entries};
use spread_books_plain::Book;
use spread_rules::{Entry, Event, Id, NoMemory, Order, Outcome, Rulebook};
use std::alloc::{AllocError, Allocator};

/// The orders that rest before an entry, in order of place, and what comes of the entry.
#[derive(Drop)]
pub struct OrdersBefore<A: Allocator + Copy> {
    pub orders: Vec<Order, A>,
    pub outcome: Outcome,
}

/// The orders of a book, in order of place.
fn orders_of<B: Book, A: Allocator + Copy>(alloc: A, book: &B) -> Result<Vec<Order, A>, AllocError>
    ensures { IfOk result (λ orders. orders.items ≡ B.orders book.now) }
{
    let mut orders = Vec::new(alloc);
    let count = book.len();
    for k in 0..count {
        let Some(order) = book.walk(k) else {
            break;
        };
        orders.push(order)?;
    }
    Ok(orders)
}

/// What rests behind the entries that were applied, and what comes of the one that follows.
fn standing_before<A: Allocator + Copy>(
    alloc: A,
    applied: &mut MatchedJournal<'_, A>,
    entry: &Entry,
) -> Result<OrdersBefore<A>, NoMemory>
    requires fits { FitsEntry entry.now }
    requires applied { IsApplying applied.old }
    requires room { applied.old.count < 2 ^ 64 - 1 }
    ensures orders { IfOk result (λ s. s.orders.items ≡ applied.old.market.state.orders) }
    ensures outcome { IfOk result (λ s. (entries : List Entry) → HasApplied entries applied.old
        → s.outcome ≡ (meaning_behind (rules_of applied.old) entries entry.now).outcome) }
{
    let orders = orders_of(alloc, applied.book())?;
    match applied.apply(entry) {
        Ok(outcome) => Ok(OrdersBefore { orders, outcome }),
        Err(_) => Err(NoMemory),
    }
}

/// What rests behind these entries, applied behind none, and what comes of the one that follows.
fn standing_behind<A: Allocator + Copy>(
    alloc: A,
    applied: &mut MatchedJournal<'_, A>,
    before: &[Entry],
    entry: &Entry,
) -> Result<OrdersBefore<A>, NoMemory>
    requires before { All FitsEntry before.now }
    requires entry { FitsEntry entry.now }
    requires applied { HasApplied [] applied.old }
    ensures orders { IfOk result (λ s.
        s.orders.items ≡ standing_at (rules_of applied.old) before.now) }
    ensures outcome { IfOk result (λ s.
        s.outcome ≡ (meaning_behind (rules_of applied.old) before.now entry.now).outcome) }
{
    if apply_entries(applied, before).is_err() {
        return Err(NoMemory);
    }
    standing_before(alloc, applied, entry)
}

/// What rests behind these entries, and what comes of the one that follows.
pub fn standing_at<A: Allocator + Copy>(
    alloc: A,
    rulebook: &Rulebook,
    before: &[Entry],
    entry: &Entry,
) -> Result<OrdersBefore<A>, NoMemory>
    requires before { All FitsEntry before.now }
    requires entry { FitsEntry entry.now }
    ensures orders { IfOk result (λ s.
        s.orders.items ≡ standing_at rulebook.now before.now) }
    ensures outcome { IfOk result (λ s.
        s.outcome ≡ (meaning_behind rulebook.now before.now entry.now).outcome) }
{
    let Ok(mut applied) = MatchedJournal::new(alloc, rulebook) else {
        return Err(NoMemory);
    };
    let standing = standing_behind(alloc, &mut applied, before, entry);
    // The market is dropped within this call.
    applied.into_fills();
    standing
}

/// The session's resting order with that id.
fn find_own(orders: &[Order], session: u8, id: &Id) -> Option<Order>
    ensures { result ≡ find (is_own session id.now) orders.now }
{
    for order in orders {
        if order.session == session && order.id.is(id) {
            return Some(*order);
        }
    }
    None
}

/// The resting order that a cancel or a replace names.
pub fn named_by(orders: &[Order], entry: &Entry) -> Option<Order>
    ensures { result ≡ named_by entry.now.session entry.now.event orders.now }
{
    match &entry.event {
        Event::Cancel { original, .. } | Event::Replace { original, .. } => {
            find_own(orders, entry.session, original)
        }
        _ => None,
    }
}
