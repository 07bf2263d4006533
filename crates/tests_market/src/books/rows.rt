//! Rows: steps of one book after another, and what the book must answer.
use super::checked::{add, amend, clear, reduce, remove};
use crate::expect::holds;
use spread_books::{Book, IndexBook, ListBook, QuotedBook};
use spread_books_heap::{FrontBook, HeapBook};
use spread_rules::{Instrument, Order, Rulebook, Side};
use spread_rules_ids::Id;
use std::alloc::Global;
use std::process::Abort;
use tests_shared::{THREE_MONTHS, id};

/// An id: its letter, and how many bytes 0 stand behind it, two at most. A text for each id of a row is dear.
#[derive(Clone, Copy)]
pub(super) struct Name(pub(super) u8, pub(super) u8);

/// An order: its place, its session, its id, its instrument, its side, its price, its quantity, and what is left of it.
pub(super) struct Lot(
    pub(super) u64,
    pub(super) u8,
    pub(super) Name,
    pub(super) Instrument,
    pub(super) Side,
    pub(super) i64,
    pub(super) u32,
    pub(super) u32,
);

/// A change that must be made or refused, or an answer that the book must give.
pub(super) enum Step {
    /// The order is added.
    Add(Lot),
    /// The n-th order is lessened by so many lots.
    Reduce(usize, u32),
    /// The n-th order takes that id and that quantity.
    Amend(usize, Name, u32),
    /// The n-th order does not take that id and that quantity.
    NotAmend(usize, Name, u32),
    /// The n-th order leaves.
    Remove(usize),
    /// So many orders rest.
    Count(usize),
    /// This order is the n-th.
    At(usize, Lot),
    /// There is no n-th order.
    NoneAt(usize),
    /// This order is the front of its queue.
    Front(Lot),
    /// No order stands in that queue.
    NoFront(Instrument, Side),
    /// This order is found by its session and its id.
    Found(Lot),
    /// No order of that session has that id.
    NotFound(u8, Name),
}

/// Steps of a book that is empty at first. All orders leave it at the end.
pub(super) struct Row {
    pub(super) name: &'static str,
    pub(super) steps: &'static [Step],
}

fn id_of(name: Name) -> Id {
    let Name(letter, zeros) = name;
    match zeros {
        0 => id(&[letter]),
        1 => id(&[letter, 0]),
        _ => id(&[letter, 0, 0]),
    }
}

fn order_of(lot: &Lot) -> Order {
    Order {
        place: lot.0,
        session: lot.1,
        id: id_of(lot.2),
        instrument: lot.3,
        side: lot.4,
        price: lot.5,
        quantity: lot.6,
        leaves: lot.7,
    }
}

/// Whether that order was found.
pub fn is(found: Option<Order>, want: &Order) -> bool {
    match found {
        Some(order) => order == *want,
        None => false,
    }
}

/// Whether that order is the front of its queue.
fn is_front<B: Book>(book: &B, want: &Order) -> bool {
    is(book.front(want.instrument, want.side), want)
        && book.front_level(want.instrument, want.side) == Some(want.level())
}

/// Whether no order stands in that queue.
fn none_stands<B: Book>(book: &B, instrument: Instrument, side: Side) -> bool {
    book.front(instrument, side).is_none() && book.front_level(instrument, side).is_none()
}

/// Whether that order is found by its session and id, and at its place.
fn is_found<B: Book>(book: &B, want: &Order) -> bool {
    is(book.find(want.session, &want.id), want) && is(book.at(want.place), want)
}

/// Whether the change was made or refused, or the answer was given, as the step says.
fn goes_as_said<B: Book>(rt: &impl Abort, book: &mut B, step: &Step) -> bool {
    match step {
        Step::Add(lot) => add(book, order_of(lot)).expect(rt, "memory"),
        Step::Reduce(n, by) => reduce(book, *n, *by),
        Step::Amend(n, name, quantity) => {
            amend(book, *n, id_of(*name), *quantity).expect(rt, "memory")
        }
        Step::NotAmend(n, name, quantity) => {
            !amend(book, *n, id_of(*name), *quantity).expect(rt, "memory")
        }
        Step::Remove(n) => remove(book, *n),
        Step::Count(count) => book.len() == *count,
        Step::At(n, lot) => is(book.walk(*n), &order_of(lot)),
        Step::NoneAt(n) => book.walk(*n).is_none(),
        Step::Front(lot) => is_front(book, &order_of(lot)),
        Step::NoFront(instrument, side) => none_stands(book, *instrument, *side),
        Step::Found(lot) => is_found(book, &order_of(lot)),
        Step::NotFound(session, name) => book.find(*session, &id_of(*name)).is_none(),
    }
}

fn expect_row<B: Book>(rt: &impl Abort, book: &mut B, row: &Row) {
    for n in 0..row.steps.len() {
        assert!(rt;
            goes_as_said(rt, book, &row.steps[n]),
            "{}, step {n}",
            row.name
        );
    }
    clear(rt, book);
}

/// Every row, each in the book once all orders have left it.
fn expect_rows<B: Book>(rt: &impl Abort, book: &mut B, rows: &[Row]) {
    for row in rows {
        expect_row(rt, book, row);
    }
}

/// A new book has no orders, and no pair of them.
fn expect_new(rt: &impl Abort, book: &QuotedBook<'_, Global>) {
    holds(rt, book.count() == 0 && book.is_all_on());
    holds(rt, book.rules().months() == 3);
    let pair = book.known_pair(Side::Buy, 0).expect(rt, "a month");
    holds(rt, pair.is_none());
}

fn expect_over_quoted(rt: &impl Abort, alloc: Global, rules: &Rulebook, rows: &[Row]) {
    let mut book = QuotedBook::new(alloc, rules).expect(rt, "memory");
    expect_new(rt, &book);
    expect_rows(rt, &mut book, rows)
}

fn expect_over_index(rt: &impl Abort, alloc: Global, rules: &Rulebook, rows: &[Row]) {
    let mut book = IndexBook::new(alloc, rules).expect(rt, "memory");
    expect_rows(rt, &mut book, rows)
}

/// The rows in each kind of book in turn.
pub(super) fn expect_over_each(rt: &impl Abort, alloc: Global, rows: &[Row]) {
    expect_rows(rt, &mut ListBook::new(alloc), rows);
    expect_rows(rt, &mut HeapBook::new(alloc), rows);
    expect_rows(rt, &mut FrontBook::new(alloc), rows);
    let rules = Rulebook::read(THREE_MONTHS).expect(rt, "a rulebook");
    expect_over_quoted(rt, alloc, &rules, rows);
    expect_over_index(rt, alloc, &rules, rows)
}
