//! How the order of each New and Replace entry so far stands, found by its session and id.
ghost use Rattle.std.specs.Prelude.{◌≡◌, ◌<◌, slice_get, List, All, [], ◌++◌, ◌∷◌, map, OnOk, OnErr, IfSome, IfNone, cond, is_some, Some, None, IfOk, false};
ghost use Rattle.spread_rules.specs.declared.codes.ord_status.TheConstants.{REJECTED};
ghost use Rattle.spread_rules.specs.declared.outcome.OrderStatus.{OrderStatus};
ghost use Rattle.std.specs.List.{find};
ghost use Rattle.spread_rules.specs.Meaning.{has_id};
ghost use Rattle.spread_match_statuses.specs.code.Statuses.{key_of_status, IsIndex, IsAcceptedRow, was_accepted, status_after_fill, status_after_replace, statuses_after, AreRefusedLater};
ghost use Rattle.spread_rules.specs.code.Amended.{amended};
ghost use Rattle.spread_books_plain.specs.Queues.{CanAmend};

use spread_books_ids::{IdRows, IdTable};
use spread_books_plain::Book;
use spread_books_rows::{Hints, PlacedRows};
use spread_rules::codes::ord_status;
use spread_rules::{Fill, NoMemory, Order, OrderStatus};
use spread_rules_ids::{Id, IdKey};
use std::alloc::Allocator;
use std::marker::Model;

/// The status that an order is entered with: what a late cancel is told of an order that left by a cancel. While the order
/// rests nobody is told its status from here; a fill that leaves nothing, or a replace, sets another one.
pub const WHEN_IT_RESTS_NO_MORE: u8 = ord_status::CANCELED;

/// The status of each New and Replace entry so far, in their order.
#[derive(Drop)]
pub struct Statuses<A: Allocator + Copy> {
    rows: Vec<OrderStatus, A>,
    /// Where the row of a place may be. Each is tested where it is used.
    hints: Hints<A>,
    /// Of each session and id, where its earliest status stands.
    first: IdTable<A>,
}

impl<A: Allocator + Copy> Model for Statuses<A> {
    ghost use Rattle.std.specs.Prelude.{List};
    ghost use Rattle.spread_rules.specs.declared.outcome.OrderStatus.{OrderStatus};
    ghost use Rattle.spread_match_statuses.specs.code.Statuses.{AreRefusedLater, IsIndex};

    ghost Value = { List OrderStatus };

    ghost view = { λ m. m.rows.items };

    ghost invariant = { λ m.
        AreRefusedLater m.rows.items × IsIndex m.first m.rows.items };
}

/// Statuses, to be looked up by session and id, or where a place may be.
#[derive(Clone, Copy)]
struct StatusRows<'a> {
    rows: &'a [OrderStatus],
}

impl<'a> IdRows for StatusRows<'a> {
    ghost keys = { λ r. map key_of_status r.rows.now };

    fn key_at(&self, row: usize) -> Option<IdKey> {
        let status = self.rows.get(row)?;
        Some(IdKey::new(status.session, &status.id))
    }

    fn len(&self) -> usize {
        self.rows.len()
    }
}

impl<'a> PlacedRows for StatusRows<'a> {
    ghost places = { λ r. map (λ status. status.place) r.rows.now };

    fn place_at(&self, row: usize) -> Option<u64> {
        let status = self.rows.get(row)?;
        Some(status.place)
    }
}

/// The status of an entry that is refused where its id was used.
fn if_refused(status: OrderStatus, used: bool) -> OrderStatus
    ensures { result ≡ record status { status = cond used REJECTED status.status } }
{
    OrderStatus {
        status: if used {
            ord_status::REJECTED
        } else {
            status.status
        },
        ..status
    }
}

fn status_at(statuses: &[OrderStatus], at: usize) -> Option<OrderStatus>
    ensures { result ≡ slice_get statuses.now at }
{
    statuses.get(at).copied()
}

fn has_id(status: &OrderStatus, session: u8, id: &Id) -> bool
    ensures { result ≡ has_id session id.now status.now }
{
    status.session == session && status.id.is(id)
}

/// Whether it is the status of the order of that session and id, which was not refused.
fn was_accepted(status: &OrderStatus, session: u8, id: &Id) -> bool
    ensures { result ≡ was_accepted session id.now status.now }
{
    has_id(status, session, id) && status.status != ord_status::REJECTED
}

/// The row at that place, where it is that of the order of that session and id.
fn row_at_place<A: Allocator + Copy>(
    rows: &[OrderStatus],
    hints: &Hints<A>,
    place: u64,
    session: u8,
    id: &Id,
) -> Option<usize>
    ensures { IfSome result (IsAcceptedRow rows.now session id.now) }
{
    let at = hints.find(&StatusRows { rows }, place)?;
    let status = rows.get(at)?;
    if was_accepted(status, session, id) {
        Some(at)
    } else {
        None
    }
}

/// The row of the order of that session and id, unless it was refused.
fn open_row<A: Allocator + Copy>(
    rows: &[OrderStatus],
    first: &IdTable<A>,
    session: u8,
    id: &Id,
) -> Option<usize>
    requires index { IsIndex first.now rows.now }
    requires later { AreRefusedLater rows.now }
    ensures stands { IfSome result (IsAcceptedRow rows.now session id.now) }
    ensures none { IfNone result (All (λ s. was_accepted session id.now s ≡ false) rows.now) }
{
    let at = first.find(&StatusRows { rows }, &IdKey::new(session, id))?;
    let status = rows.get(at)?;
    if was_accepted(status, session, id) {
        Some(at)
    } else {
        None
    }
}

impl<A: Allocator + Copy> Statuses<A> {
    /// Before the first entry. Takes no memory yet.
    pub fn new(alloc: A) -> Self
        ensures { result ≡ [] }
    {
        Statuses {
            rows: Vec::new(alloc),
            hints: Hints::new(alloc),
            first: IdTable::new(alloc),
        }
    }

    /// Makes room for so many statuses more.
    pub fn reserve(&mut self, statuses: usize) -> Result<(), NoMemory>
        ensures { self.new ≡ self.old }
    {
        self.rows.reserve(statuses)?;
        self.first
            .reserve(&StatusRows { rows: &self.rows }, statuses)
    }

    /// The earliest status of that session and id.
    pub fn find(&self, session: u8, id: &Id) -> Option<OrderStatus>
        ensures { result ≡ find (has_id session id.now) self.now }
    {
        let rows = StatusRows { rows: &self.rows };
        match self.first.find(&rows, &IdKey::new(session, id)) {
            None => None,
            Some(at) => status_at(&self.rows, at),
        }
    }

    /// The status of one entry more. Where its session and id have one already, it is refused, and the answer is true.
    pub fn add(&mut self, status: OrderStatus) -> Result<bool, NoMemory>
        ensures used { IfOk result (λ used.
            used ≡ is_some (find (has_id status.session status.id) self.old)) }
        ensures ok { IfOk result (λ used. self.new
            ≡ self.old ++ record status { status = cond used REJECTED status.status } ∷ []) }
        ensures unchanged_on_err { OnErr result (self.new ≡ self.old) }
    {
        self.rows.reserve(1)?;
        let key = IdKey::new(status.session, &status.id);
        let noted = self.first.note(&StatusRows { rows: &self.rows }, &key)?;
        let used = noted.is_known();
        self.hints.note(status.place, self.rows.len());
        self.rows.push_reserved(if_refused(status, used));
        Ok(used)
    }

    /// The status of an order that keeps its place under another id and with this quantity, in the book too. No status
    /// has its session and id yet. After NoMemory nothing has changed, here and in the book.
    pub fn add_amended<B: Book>(
        &mut self,
        book: &mut B,
        status: OrderStatus,
        quantity: u32,
    ) -> Result<(), NoMemory>
        requires unused { find (has_id status.session status.id) self.old ≡ None }
        requires amend { CanAmend (B.orders book.old) status.place status.id quantity }
        ensures statuses { OnOk result (self.new ≡ self.old ++ status ∷ []) }
        ensures orders { OnOk result
            (B.orders book.new ≡ amended status.place status.id quantity (B.orders book.old)) }
        ensures unchanged_on_err { OnErr result (self.new ≡ self.old) }
        ensures as_before { OnErr result (B.orders book.new ≡ B.orders book.old) }
        ensures rules { B.quotes_by book.new ≡ B.quotes_by book.old }
    {
        self.rows.reserve(1)?;
        let key = IdKey::new(status.session, &status.id);
        let noted = self.first.note(&StatusRows { rows: &self.rows }, &key)?;
        if book.amend(status.place, status.id, quantity).is_err() {
            self.first.take_back(&key, noted);
            return Err(NoMemory);
        }
        self.hints.note(status.place, self.rows.len());
        self.rows.push_reserved(status);
        Ok(())
    }

    /// Where the order of that session and id stands, unless it was refused. It may be where that place was.
    fn row_of(&self, place: u64, session: u8, id: &Id) -> Option<usize>
        ensures stands { IfSome result (IsAcceptedRow self.now session id.now) }
        ensures none { IfNone result (All (λ s. was_accepted session id.now s ≡ false) self.now) }
    {
        match row_at_place(&self.rows, &self.hints, place, session, id) {
            Some(at) => Some(at),
            None => open_row(&self.rows, &self.first, session, id),
        }
    }

    /// An order whose fill leaves nothing is filled.
    fn mark_fill(&mut self, fill: &Fill)
        ensures { self.new ≡ map (status_after_fill fill.now) self.old }
    {
        if fill.leaves > 0 {
            return;
        }
        if let Some(at) = self.row_of(fill.order, fill.session, &fill.id) {
            self.rows[at].status = ord_status::FILLED;
        }
    }

    /// After these fills.
    pub fn mark_filled(&mut self, fills: &[Fill])
        ensures { self.new ≡ statuses_after fills.now self.old }
    {
        for fill in fills {
            self.mark_fill(fill);
        }
    }

    /// Another order came in the place of that one.
    pub fn mark_replaced(&mut self, order: &Order)
        ensures { self.new
            ≡ map (status_after_replace order.now.session order.now.id) self.old }
    {
        if let Some(at) = self.row_of(order.place, order.session, &order.id) {
            if self.rows[at].status == WHEN_IT_RESTS_NO_MORE {
                self.rows[at].status = ord_status::REPLACED;
            }
        }
    }
}
