//! Changes of a book that look first whether they may be made.
ghost use Rattle.std.specs.Prelude.{◌≡◌, ◌<◌, ℕ, true, false, Some, All, slice_get};
ghost use Rattle.spread_rules.specs.declared.order.Order.{Order};
ghost use Rattle.spread_rules.specs.Amended.{done};

use crate::expect::holds;
use spread_books::Book;
use spread_rules::{NoMemory, Order};
use spread_rules_ids::Id;
use spread_rules_ids::limits::MAX_ORDER_QTY;
use std::process::Abort;

/// Whether that order's place is below this one.
fn is_below_at<B: Book>(book: &B, n: usize, place: u64) -> bool
    ensures { result ≡ true
        → (o : Order) → slice_get (B.orders book.now) n ≡ Some o → o.place < place }
{
    match book.walk(n) {
        None => false,
        Some(order) => order.place < place,
    }
}

fn are_below<B: Book>(book: &B, place: u64) -> bool
    ensures { result ≡ true → All (λ o. o.place < place) (B.orders book.now) }
{
    for n in 0..book.len() {
        if !is_below_at(book, n, place) {
            return false;
        }
    }
    true
}

/// Whether that order is the n-th, or stands at another place.
fn is_apart_at<B: Book>(book: &B, m: usize, n: usize, place: u64) -> bool
    ensures { result ≡ true
        → (o : Order) → slice_get (B.orders book.now) m ≡ Some o → o.place ≡ place → m ≡ n }
{
    match book.walk(m) {
        None => false,
        Some(order) => m == n || order.place != place,
    }
}

/// Whether no order but the n-th stands at that place.
fn is_alone<B: Book>(book: &B, n: usize, place: u64) -> bool
    ensures { result ≡ true → (o : Order) (m : ℕ)
        → slice_get (B.orders book.now) m ≡ Some o → o.place ≡ place → m ≡ n }
{
    for m in 0..book.len() {
        if !is_apart_at(book, m, n, place) {
            return false;
        }
    }
    true
}

/// Whether it was added.
pub fn add<B: Book>(book: &mut B, order: Order) -> Result<bool, NoMemory> {
    if !are_below(book, order.place) {
        return Ok(false);
    }
    book.add(order)?;
    Ok(true)
}

/// Whether that order was lessened.
pub fn reduce<B: Book>(book: &mut B, n: usize, by: u32) -> bool {
    match book.walk(n) {
        None => false,
        Some(order) => {
            if by >= order.leaves || !is_alone(book, n, order.place) {
                return false;
            }
            book.reduce(order.place, by);
            true
        }
    }
}

/// Whether that order left.
pub fn remove<B: Book>(book: &mut B, n: usize) -> bool {
    match book.walk(n) {
        None => false,
        Some(order) => {
            book.remove(order.place);
            true
        }
    }
}

/// All orders leave, the first one first.
pub fn clear<B: Book>(rt: &impl Abort, book: &mut B) {
    for _ in 0..book.len() {
        holds(rt, remove(book, 0));
    }
    holds(rt, book.len() == 0);
}

/// Whether so many lots of it are filled.
fn is_filled_to(order: &Order, quantity: u32) -> bool
    ensures { result ≡ false → done order.now < quantity }
{
    order.quantity.saturating_sub(order.leaves) >= quantity
}

/// Whether that order was amended.
pub fn amend<B: Book>(book: &mut B, n: usize, id: Id, quantity: u32) -> Result<bool, NoMemory> {
    match book.walk(n) {
        None => Ok(false),
        Some(order) => {
            if quantity > MAX_ORDER_QTY || is_filled_to(&order, quantity) {
                return Ok(false);
            }
            if book.find(order.session, &id).is_some() || !is_alone(book, n, order.place) {
                return Ok(false);
            }
            book.amend(order.place, id, quantity)?;
            Ok(true)
        }
    }
}
