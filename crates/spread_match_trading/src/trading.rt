//! Turns over a book.
ghost use Rattle.std.specs.Prelude.{◌≡◌, ◌<◌, ◌≤◌, ◌+◌, ◌-◌, ◌*◌, ◌++◌, ◌∷◌, [], List, Contains, vec_len, vec_capacity, fold, min, length};
ghost use Rattle.spread_rules.specs.Candidates.{least_left, AllStandIn, PlacesDiffer, members};
ghost use Rattle.spread_rules.specs.code.Candidates.{HasLegPrice};
ghost use Rattle.spread_rules.specs.Clearing.{leg_prices_of_fill, fill_of, after_fill, fills_of, clear};
ghost use Rattle.spread_match_trading.specs.Tradable.{IsTradable};
ghost use Rattle.spread_match_trading.specs.code.Turns.{HaveLeft, AreApart};
ghost use Rattle.spread_rules_rulebook.specs.Rulebook.{implied, month_count, references_of};

use crate::parts::turn_fills;
use spread_books_plain::Book;
use spread_books_search::best_candidate;
use spread_rules::{Candidate, Counterparty, Fill, Instrument, Order, Rulebook, quantity_with};
use std::alloc::Allocator;

/// The legs of a fill: of an outright its price twice, of a spread those of the spread that takes part.
fn legs_of_fill(instrument: Instrument, price: i64, legs: (i64, i64)) -> (i64, i64)
    ensures { result ≡ leg_prices_of_fill instrument price legs }
{
    match instrument {
        Instrument::Outright(_) => (price, price),
        Instrument::Spread(_, _) => legs,
    }
}

/// An order's fill at that price, made by the entry of that place.
pub fn fill_of(at: u64, quantity: u32, legs: (i64, i64), order: &Order, price: i64) -> Fill
    requires { quantity ≤ order.now.leaves }
    ensures { result ≡ fill_of at quantity legs order.now price }
{
    let (near, far) = legs_of_fill(order.instrument, price, legs);
    Fill {
        at,
        order: order.place,
        session: order.session,
        id: order.id,
        instrument: order.instrument,
        side: order.side,
        quantity,
        price,
        near,
        far,
        total: order.quantity,
        leaves: order.leaves - quantity,
    }
}

/// Appends fills for which there is room.
fn append_reserved<A: Allocator + Copy>(fills: &mut Vec<Fill, A>, parts: &[Fill])
    requires { vec_len fills.old + length parts.now ≤ vec_capacity fills.old }
    ensures items { fills.new.items ≡ fills.old.items ++ parts.now }
    ensures len { vec_len fills.new ≡ vec_len fills.old + length parts.now }
    ensures room { vec_capacity fills.old ≤ vec_capacity fills.new }
{
    match fills.extend_from_slice(parts) {
        Ok(()) => {}
        Err(_) => unreachable!(),
    }
}

/// Takes traded lots off a resting order, which leaves the book where nothing is left of it.
pub fn reduce_or_remove<B: Book>(book: &mut B, by: u32, order: &Order)
    requires stands { Contains (B.orders book.old) order.now }
    requires most { by ≤ order.now.leaves }
    requires places { PlacesDiffer (B.orders book.old) }
    ensures orders { B.orders book.new ≡ after_fill by (B.orders book.old) order.now }
    ensures rules { B.quotes_by book.new ≡ B.quotes_by book.old }
{
    if order.leaves == by {
        book.remove(order.place);
    } else {
        book.reduce(order.place, by);
    }
}

/// All the fills of one turn.
fn put_fills<A: Allocator + Copy>(
    rules: &Rulebook,
    new: &Order,
    candidate: &Candidate,
    by: u32,
    fills: &mut Vec<Fill, A>,
)
    requires leg_price { HasLegPrice candidate.now }
    requires by { by ≡ least_left new.now candidate.now.counterparty }
    requires room { vec_len fills.old + 3 ≤ vec_capacity fills.old }
    ensures items { fills.new.items
        ≡ fills.old.items ++ fills_of (references_of rules.now) new.now candidate.now }
    ensures len { vec_len fills.new ≤ vec_len fills.old + 3 }
    ensures room { vec_capacity fills.old ≤ vec_capacity fills.new }
{
    let alloc = *fills.allocator();
    let parts = turn_fills(&alloc, rules, new, candidate, by);
    append_reserved(fills, parts.as_slice());
}

/// Takes the traded lots off each order that took part in one turn.
pub fn reduce_members<B: Book>(book: &mut B, by: u32, candidate: &Candidate)
    requires stands { AllStandIn (B.orders book.old) candidate.now.counterparty }
    requires most { HaveLeft by candidate.now.counterparty }
    requires places { PlacesDiffer (B.orders book.old) }
    requires apart { AreApart candidate.now.counterparty }
    ensures orders { B.orders book.new
        ≡ fold (after_fill by) (B.orders book.old) (members candidate.now.counterparty) }
    ensures rules { B.quotes_by book.new ≡ B.quotes_by book.old }
{
    match candidate.counterparty {
        Counterparty::Direct(order) => reduce_or_remove(book, by, &order),
        Counterparty::Implied(a, b) => {
            reduce_or_remove(book, by, &a);
            reduce_or_remove(book, by, &b);
        }
    }
}

/// One turn: the fills, the resting orders, and what is left of the new order. Rule M6.
fn turn_once<B: Book, A: Allocator + Copy>(
    book: &mut B,
    rules: &Rulebook,
    left: &Order,
    candidate: &Candidate,
    fills: &mut Vec<Fill, A>,
) -> Order
    requires leg_price { HasLegPrice candidate.now }
    requires stands { AllStandIn (B.orders book.old) candidate.now.counterparty }
    requires places { PlacesDiffer (B.orders book.old) }
    requires apart { AreApart candidate.now.counterparty }
    requires room { vec_len fills.old + 3 ≤ vec_capacity fills.old }
    ensures left { result
        ≡ record left.now {
          leaves = left.now.leaves - least_left left.now candidate.now.counterparty;
        } }
    ensures orders { B.orders book.new
        ≡ fold (after_fill (least_left left.now candidate.now.counterparty))
        (B.orders book.old) (members candidate.now.counterparty) }
    ensures rules { B.quotes_by book.new ≡ B.quotes_by book.old }
    ensures items { fills.new.items
        ≡ fills.old.items ++ fills_of (references_of rules.now) left.now candidate.now }
    ensures len { vec_len fills.new ≤ vec_len fills.old + 3 }
    ensures room { vec_capacity fills.old ≤ vec_capacity fills.new }
{
    let by = quantity_with(left, &candidate.counterparty);
    put_fills(rules, left, candidate, by, fills);
    reduce_members(book, by, candidate);
    Order {
        leaves: left.leaves - by,
        ..*left
    }
}

/// The turns of a new order, which stands in the book already. Then the fills are those of the clearing, and so are the
/// book's other orders. Rule M8.
pub fn trade<B: Book, A: Allocator + Copy>(
    book: &mut B,
    rules: &Rulebook,
    new: Order,
    fills: &mut Vec<Fill, A>,
) -> Order
    ghost rest: { List Order }
    requires stands { B.orders book.old ≡ rest ++ new ∷ [] }
    requires tradable { IsTradable (month_count rules.now) (B.orders book.old) }
    requires room { vec_len fills.old + 3 * min new.leaves (length rest) ≤ vec_capacity fills.old }
    ensures left { result ≡ (clear (implied rules.now) (references_of rules.now) new rest).new }
    ensures orders { B.orders book.new
        ≡ (clear (implied rules.now) (references_of rules.now) new rest).orders ++ new ∷ [] }
    ensures fills { fills.new.items
        ≡ fills.old.items ++ (clear (implied rules.now) (references_of rules.now) new rest).fills }
    ensures rules { B.quotes_by book.new ≡ B.quotes_by book.old }
{
    let mut left = new;
    while left.leaves > 0 {
        let Some(candidate) = best_candidate(book, rules, &left) else {
            break;
        };
        left = turn_once(book, rules, &left, &candidate, fills);
    }
    left
}
