//! Orders in one row in order of place, found by place.
//!
//! A row is found by its hint, and where no hint names it by halves: at worst the logarithm of the rows. One order that
//! comes or goes takes constant time but where the rows are tidied or grow, which takes time for all of them and comes
//! once for as many changes.
ghost use Rattle.std.specs.Prelude.{◌≡◌, ◌≢◌, ◌<◌, ◌==◌, ◌++◌, ◌∷◌, [], List, All, IfSome, IfNone, OnOk, OnErr, length, true, ◌^◌, map, slice_get, slice_index_or};
ghost use Rattle.std.specs.List.{find};
ghost use Rattle.std.specs.Option.{option_copied};
ghost use Rattle.spread_rules.specs.declared.order.Order.{Order};
ghost use Rattle.spread_rules.specs.Clearing.{reduced, removed};
ghost use Rattle.spread_books_rows.specs.declared.row.Row.{Row};
ghost use Rattle.spread_rules.specs.code.Amended.{amended};
ghost use Rattle.spread_rules.specs.Meaning.{is_own};
ghost use Rattle.spread_books_rows.specs.Places.{HasMore, HasPlace, Ascends};
ghost use Rattle.spread_books_rows.specs.code.Rows.{live, Rises};

use crate::amend::with_quantity;
use crate::hints::Hints;
use crate::own::is_own;
use crate::row::Row;
use crate::rows::PlacedRows;
use spread_rules::{Id, NoMemory, Order};
use std::alloc::Allocator;
use std::marker::Model;

/// Orders in order of place. One that left is marked, and goes when the rows are tidied: where more left than rest.
#[derive(Drop)]
pub struct PlaceRows<A: Allocator + Copy> {
    rows: Vec<Row, A>,
    hints: Hints<A>,
    count: usize,
}

impl<A: Allocator + Copy> Model for PlaceRows<A> {
    ghost use Rattle.std.specs.Prelude.{List, ◌≡◌, length};
    ghost use Rattle.spread_rules.specs.declared.order.Order.{Order};
    ghost use Rattle.spread_books_rows.specs.code.Rows.{live, Rises};

    ghost Value = { List Order };

    ghost view = { λ b. live b.rows.items };

    ghost invariant = { λ b. Rises b.rows.items × (b.count ≡ length (live b.rows.items)) };
}

/// Rows of orders, to be looked up by place.
#[derive(Clone, Copy)]
struct OrderRows<'a> {
    rows: &'a [Row],
}

impl<'a> PlacedRows for OrderRows<'a> {
    ghost places = { λ r. map (λ row. row.order.place) r.rows.now };

    fn place_at(&self, row: usize) -> Option<u64> {
        let row = self.rows.get(row)?;
        Some(row.order.place)
    }
}

/// Where the row of that place stands.
fn row_at<A: Allocator + Copy>(rows: &[Row], hints: &Hints<A>, place: u64) -> Option<usize>
    requires { Rises rows.now }
    ensures within { IfSome result (λ i. i < length rows.now) }
    ensures at { (d : Row) → IfSome result (λ i. (slice_index_or rows.now i d).order.place ≡ place) }
    ensures none { IfNone result (All (λ r. r.order.place ≢ place) rows.now) }
{
    if let Some(at) = hints.find(&OrderRows { rows }, place) {
        return Some(at);
    }
    match rows.binary_search_by_key(&place, |row| row.order.place) {
        Ok(at) => Some(at),
        Err(_) => None,
    }
}

/// Every row gets its hint, and no place another one.
fn hint_all<A: Allocator + Copy>(hints: &mut Hints<A>, rows: &[Row]) {
    hints.clear();
    for at in 0..rows.len() {
        hints.note(rows[at].order.place, at);
    }
}

/// Orders that left go.
fn tidy<A: Allocator + Copy>(rows: &mut Vec<Row, A>)
    requires { Rises rows.old.items }
    ensures live { live rows.new.items ≡ live rows.old.items }
    ensures rises { Rises rows.new.items }
    ensures rest { All (λ r. r.rests ≡ true) rows.new.items }
{
    rows.retain(|row| row.rests);
}

/// Whether a row of that place may follow.
fn may_follow(rows: &[Row], place: u64) -> bool
    requires { Rises rows.now }
    ensures { result ≡ true → All (λ r. r.order.place < place) rows.now }
{
    match rows.last() {
        None => true,
        Some(last) => last.order.place < place,
    }
}

/// Before an order of that place is put behind those that rest: rows of orders that left go where they are many, or where
/// the last one has a later place.
fn make_way<A: Allocator + Copy>(
    rows: &mut Vec<Row, A>,
    hints: &mut Hints<A>,
    count: usize,
    place: u64,
)
    requires rises { Rises rows.old.items }
    requires below { All (λ o. o.place < place) (live rows.old.items) }
    ensures live { live rows.new.items ≡ live rows.old.items }
    ensures rises { Rises rows.new.items }
    ensures below { All (λ r. r.order.place < place) rows.new.items }
{
    let most = count.saturating_mul(2).saturating_add(64);
    if rows.len() < most && may_follow(rows, place) {
        return;
    }
    tidy(rows);
    hint_all(hints, rows);
}

impl<A: Allocator + Copy> PlaceRows<A> {
    /// No order. Takes no memory yet.
    pub fn new(alloc: A) -> Self
        ensures { result ≡ [] }
    {
        PlaceRows {
            rows: Vec::new(alloc),
            hints: Hints::new(alloc),
            count: 0,
        }
    }

    /// How many orders there are. There is no memory for as many as a `usize` counts.
    pub fn count(&self) -> usize
        ensures count { result ≡ length self.now }
        ensures below_2_to_63 { result < 2 ^ 63 }
        ensures ordered { Ascends self.now }
    {
        let _ = self.rows.len();
        self.count
    }

    /// The order of that place.
    pub fn get(&self, place: u64) -> Option<&Order>
        ensures found { option_copied result ≡ find (λ o. o.place == place) self.now }
        ensures ordered { Ascends self.now }
    {
        let at = row_at(&self.rows, &self.hints, place)?;
        let row = &self.rows[at];
        if row.rests { Some(&row.order) } else { None }
    }

    /// One more order, whose place is above all others. After NoMemory the orders are as before.
    pub fn push(&mut self, order: Order) -> Result<(), NoMemory>
        requires { All (λ o. o.place < order.place) self.old }
        ensures ok { OnOk result (self.new ≡ self.old ++ order ∷ []) }
        ensures ascends { OnOk result (Ascends self.new) }
        ensures unchanged_on_err { OnErr result (self.new ≡ self.old) }
    {
        let place = order.place;
        let count = self.count;
        make_way(&mut self.rows, &mut self.hints, count, place);
        let at = self.rows.len();
        self.rows.push(Row { order, rests: true })?;
        self.hints.note(place, at);
        self.count += 1;
        Ok(())
    }

    /// So many lots fewer are left of the order of that place. Tells which it was. Takes no memory.
    pub fn reduce(&mut self, place: u64, by: u32) -> Option<Order>
        requires { HasMore self.old place by }
        ensures book { self.new ≡ reduced place by self.old }
        ensures was { result ≡ find (λ o. o.place == place) self.old }
        ensures ordered { Ascends self.old }
    {
        let at = row_at(&self.rows, &self.hints, place)?;
        let was = self.rows[at];
        if !was.rests {
            return None;
        }
        self.rows[at].order.leaves -= by;
        Some(was.order)
    }

    /// The order of that place takes that id and that quantity, what is filled included. Tells which it was. Takes no
    /// memory.
    pub fn amend(&mut self, place: u64, id: Id, quantity: u32) -> Option<Order>
        requires { HasPlace self.old place }
        ensures book { self.new ≡ amended place id quantity self.old }
        ensures was { result ≡ find (λ o. o.place == place) self.old }
        ensures ordered { Ascends self.old }
    {
        let at = row_at(&self.rows, &self.hints, place)?;
        let was = self.rows[at];
        if !was.rests {
            return None;
        }
        self.rows[at].order = with_quantity(&was.order, id, quantity);
        Some(was.order)
    }

    /// The order of that place leaves, and is given. Takes no memory.
    pub fn remove(&mut self, place: u64) -> Option<Order>
        requires { HasPlace self.old place }
        ensures book { self.new ≡ removed place self.old }
        ensures was { result ≡ find (λ o. o.place == place) self.old }
        ensures ordered { Ascends self.old }
    {
        let at = row_at(&self.rows, &self.hints, place)?;
        let was = self.rows[at];
        if !was.rests {
            return None;
        }
        self.rows[at].rests = false;
        self.count -= 1;
        Some(was.order)
    }

    /// The n-th from 0. Takes time for all before it.
    pub fn nth(&self, n: usize) -> Option<Order>
        ensures { result ≡ slice_get self.now n }
    {
        nth_live(&self.rows, n)
    }

    /// The earliest of the session's orders with that id. Takes time for all before it.
    pub fn find_own(&self, session: u8, id: &Id) -> Option<Order>
        ensures { result ≡ find (is_own session id.now) self.now }
    {
        first_own(&self.rows, session, id)
    }
}

/// The n-th from 0 of those that rest.
fn nth_live(rows: &[Row], n: usize) -> Option<Order>
    ensures { result ≡ slice_get (live rows.now) n }
{
    let mut left = n;
    for row in rows {
        if row.rests {
            if left == 0 {
                return Some(row.order);
            }
            left -= 1;
        }
    }
    None
}

/// The first of those that rest that is the session's with that id.
fn first_own(rows: &[Row], session: u8, id: &Id) -> Option<Order>
    ensures { result ≡ find (is_own session id.now) (live rows.now) }
{
    for row in rows {
        if row.rests && is_own(&row.order, session, id) {
            return Some(row.order);
        }
    }
    None
}
