//! The execution reports write their fields themselves: each tag is known where it is written.
ghost use Rattle.std.specs.Prelude.{◌≡◌, ◌++◌, ◌≤◌, ◌+◌, ◌*◌, FitsSigned, length, take};
ghost use Rattle.std.specs.Int.{w64};
ghost use Rattle.std.specs.List.{flat_map, AllByRecursion};
ghost use Rattle.fix_wire.specs.Layout.{field_text, FitsValueOf};
ghost use Rattle.spread_report_fields.specs.code.ReportBodies.{order_fields, event_fields, terms_fields, left_fields, last_fields, fields_of_order, fields_of_reject, fields_of_cancel, fields_of_fill};

use crate::codes::{EXEC_TRANS_TYPE_NEW, MultiLegReportingType, OrdStatus, side_code};
use fix_wire::{Body, FIELD_ROOM, Field, Value, put_field, put_text_field};
use fix_wire_frames::tags;
use spread_rules::Side;
use spread_rules_ids::Id;

/// ExecID (tag 17): the place of the entry, and the report's index among its reports, from 1.
#[derive(Clone, Copy)]
pub struct ExecId {
    pub place: u64,
    pub index: u64,
}

/// What each report tells of its order.
#[derive(Clone, Copy)]
pub struct OrderReport<'a> {
    /// OrderID (tag 37).
    pub order_id: u64,
    /// ClOrdID (tag 11).
    pub cl_ord_id: &'a Id,
    pub exec_id: ExecId,
    /// ExecType and OrdStatus (tags 150 and 39).
    pub ord_status: OrdStatus,
    pub symbol: &'a Id,
    pub side: Side,
    /// OrderQty (tag 38).
    pub order_qty: u64,
    /// LeavesQty (tag 151).
    pub leaves_qty: u64,
    /// CumQty (tag 14).
    pub cum_qty: u64,
}

/// A report of an order that is refused.
#[derive(Clone, Copy)]
pub struct RejectReport<'a> {
    pub order: OrderReport<'a>,
    /// OrdRejReason (tag 103).
    pub reason: u64,
}

/// A report of an order that a request cancelled or replaced.
#[derive(Clone, Copy)]
pub struct CancelReport<'a> {
    pub order: OrderReport<'a>,
    /// OrigClOrdID (tag 41).
    pub original: &'a Id,
}

/// A report of a fill.
#[derive(Clone, Copy)]
pub struct FillReport<'a> {
    pub order: OrderReport<'a>,
    /// LastShares (tag 32).
    pub last_shares: u64,
    /// LastPx (tag 31), in hundredths.
    pub last_px: i64,
    /// MultiLegReportingType (tag 442).
    pub multi_leg: MultiLegReportingType,
}

#[inline(always)]
fn put_order(room: &mut [u8], at: usize, report: &OrderReport<'_>) -> usize
    requires within { at + 2 * FIELD_ROOM ≤ length room.old }
    ensures text { take result room.new ≡ take at room.old
        ++ flat_map field_text (order_fields report.now) }
    ensures most { result ≤ at + 2 * FIELD_ROOM }
    ensures values { AllByRecursion FitsValueOf (order_fields report.now) }
    ensures size { length room.new ≡ length room.old }
{
    let at = put_field(room, at, &number_field!(tags::ORDER_ID, report.order_id));
    put_text_field(room, at, tags::CL_ORD_ID, report.cl_ord_id)
}

#[inline(always)]
fn put_event(room: &mut [u8], at: usize, report: &OrderReport<'_>) -> usize
    requires within { at + 4 * FIELD_ROOM ≤ length room.old }
    ensures text { take result room.new ≡ take at room.old
        ++ flat_map field_text (event_fields report.now) }
    ensures most { result ≤ at + 4 * FIELD_ROOM }
    ensures values { AllByRecursion FitsValueOf (event_fields report.now) }
    ensures size { length room.new ≡ length room.old }
{
    let exec_id = report.exec_id;
    let ord_status = report.ord_status.code();
    let at = put_field(
        room,
        at,
        &pair_field!(tags::EXEC_ID, exec_id.place, exec_id.index),
    );
    let at = put_field(
        room,
        at,
        &number_field!(tags::EXEC_TRANS_TYPE, EXEC_TRANS_TYPE_NEW),
    );
    let at = put_field(room, at, &number_field!(tags::EXEC_TYPE, ord_status));
    put_field(room, at, &number_field!(tags::ORD_STATUS, ord_status))
}

#[inline(always)]
fn put_terms(room: &mut [u8], at: usize, report: &OrderReport<'_>) -> usize
    requires within { at + 3 * FIELD_ROOM ≤ length room.old }
    ensures text { take result room.new ≡ take at room.old
        ++ flat_map field_text (terms_fields report.now) }
    ensures most { result ≤ at + 3 * FIELD_ROOM }
    ensures values { AllByRecursion FitsValueOf (terms_fields report.now) }
    ensures size { length room.new ≡ length room.old }
{
    let at = put_text_field(room, at, tags::SYMBOL, report.symbol);
    let at = put_field(room, at, &number_field!(tags::SIDE, side_code(report.side)));
    put_field(room, at, &number_field!(tags::ORDER_QTY, report.order_qty))
}

#[inline(always)]
fn put_left(room: &mut [u8], at: usize, report: &OrderReport<'_>) -> usize
    requires within { at + 3 * FIELD_ROOM ≤ length room.old }
    ensures text { take result room.new ≡ take at room.old
        ++ flat_map field_text (left_fields report.now) }
    ensures most { result ≤ at + 3 * FIELD_ROOM }
    ensures values { AllByRecursion FitsValueOf (left_fields report.now) }
    ensures size { length room.new ≡ length room.old }
{
    let at = put_field(
        room,
        at,
        &number_field!(tags::LEAVES_QTY, report.leaves_qty),
    );
    let at = put_field(room, at, &number_field!(tags::CUM_QTY, report.cum_qty));
    put_field(room, at, &number_field!(tags::AVG_PX, 0))
}

#[inline(always)]
fn put_last(room: &mut [u8], at: usize, quantity: u64, price: i64) -> usize
    requires within { at + 2 * FIELD_ROOM ≤ length room.old }
    ensures text { take result room.new ≡ take at room.old
        ++ flat_map field_text (last_fields quantity price) }
    ensures most { result ≤ at + 2 * FIELD_ROOM }
    ensures values { AllByRecursion FitsValueOf (last_fields quantity price) }
    ensures size { length room.new ≡ length room.old }
{
    let at = put_field(room, at, &number_field!(tags::LAST_SHARES, quantity));
    put_field(room, at, &price_field!(tags::LAST_PX, price))
}

/// The price that a report tells.
#[inline(always)]
fn price_of(report: &FillReport<'_>) -> i64
    ensures value { result ≡ report.now.last_px }
    ensures fits { FitsSigned w64 report.now.last_px }
{
    report.last_px
}

impl<'a> Body for OrderReport<'a> {
    ghost fields = { fields_of_order };

    fn count(&self) -> usize {
        12
    }

    fn put(&self, room: &mut [u8], at: usize) -> usize {
        let at = put_order(room, at, self);
        let at = put_event(room, at, self);
        let at = put_terms(room, at, self);
        put_left(room, at, self)
    }
}

impl<'a> Body for RejectReport<'a> {
    ghost fields = { fields_of_reject };

    fn count(&self) -> usize {
        13
    }

    fn put(&self, room: &mut [u8], at: usize) -> usize {
        let at = put_order(room, at, &self.order);
        let at = put_event(room, at, &self.order);
        let at = put_field(room, at, &number_field!(tags::ORD_REJ_REASON, self.reason));
        let at = put_terms(room, at, &self.order);
        put_left(room, at, &self.order)
    }
}

impl<'a> Body for CancelReport<'a> {
    ghost fields = { fields_of_cancel };

    fn count(&self) -> usize {
        13
    }

    fn put(&self, room: &mut [u8], at: usize) -> usize {
        let at = put_order(room, at, &self.order);
        let at = put_text_field(room, at, tags::ORIG_CL_ORD_ID, self.original);
        let at = put_event(room, at, &self.order);
        let at = put_terms(room, at, &self.order);
        put_left(room, at, &self.order)
    }
}

impl<'a> Body for FillReport<'a> {
    ghost fields = { fields_of_fill };

    fn count(&self) -> usize {
        15
    }

    fn put(&self, room: &mut [u8], at: usize) -> usize {
        let at = put_order(room, at, &self.order);
        let at = put_event(room, at, &self.order);
        let at = put_terms(room, at, &self.order);
        let at = put_last(room, at, self.last_shares, price_of(self));
        let at = put_left(room, at, &self.order);
        put_field(
            room,
            at,
            &number_field!(tags::MULTI_LEG_REPORTING_TYPE, self.multi_leg.code()),
        )
    }
}
