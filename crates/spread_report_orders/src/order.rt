//! The execution reports of what became of an order besides its fills, a function for each.
ghost use Rattle.std.specs.Prelude.{◌≡◌, ◌<◌, ◌≤◌, ◌∷◌, []};
ghost use Rattle.spread_rules_ids.specs.declared.limits.TheConstants.{SESSIONS};
ghost use Rattle.spread_report_outbound.specs.code.Sending.{Sends};
ghost use Rattle.spread_report_orders.specs.ExecutionReports.{new_report};
ghost use Rattle.spread_report_orders.specs.code.Reports.{report, rejected_report, ended_report, cancelled_report, replaced_report};

use fix_wire_frames::msg_types;
use spread_report_fields::{CancelReport, ExecId, OrdStatus, OrderReport, RejectReport};
use spread_report_outbound::{DeskFault, Outbox};
use spread_rules::{Order, Ticket};
use spread_rules_ids::Id;
use std::alloc::Allocator;

/// A new order, at its entry's place.
#[derive(Clone, Copy)]
pub struct NewOrder<'a> {
    pub place: u64,
    pub session: u8,
    pub ticket: &'a Ticket,
    ghost in_range: { session < SESSIONS },
}

/// A cancel request or a cancel/replace request, at its entry's place.
#[derive(Clone, Copy)]
pub struct CancelRequest<'a> {
    pub place: u64,
    pub session: u8,
    /// Its own ClOrdID (tag 11).
    pub id: &'a Id,
    /// The ClOrdID of the order that it names (OrigClOrdID, tag 41).
    pub original: &'a Id,
    ghost in_range: { session < SESSIONS },
}

/// Reports that a new order is accepted.
pub fn send_accepted<A: Allocator + Copy>(
    outbox: &mut Outbox<'_, A>,
    order: &NewOrder<'_>,
) -> Result<(), DeskFault>
    ensures { Sends outbox.old outbox.new
        (report order.now.place 1
        (new_report order.now.session order.now.place order.now.ticket.now) ∷ []) result }
{
    let ticket = order.ticket;
    let report = OrderReport {
        order_id: order.place,
        cl_ord_id: &ticket.id,
        exec_id: ExecId {
            place: order.place,
            index: 1,
        },
        ord_status: OrdStatus::New,
        symbol: &ticket.symbol,
        side: ticket.side,
        order_qty: ticket.quantity as u64,
        leaves_qty: ticket.quantity as u64,
        cum_qty: 0,
    };
    outbox.send_body(order.session, msg_types::EXECUTION_REPORT, &report)
}

/// Reports that a new order is refused.
pub fn send_rejected<A: Allocator + Copy>(
    outbox: &mut Outbox<'_, A>,
    order: &NewOrder<'_>,
    reason: u8,
) -> Result<(), DeskFault>
    ensures { Sends outbox.old outbox.new
        (report order.now.place 1 (rejected_report order.now.session order.now.place
        order.now.ticket.now reason) ∷ []) result }
{
    let ticket = order.ticket;
    let report = RejectReport {
        order: OrderReport {
            order_id: order.place,
            cl_ord_id: &ticket.id,
            exec_id: ExecId {
                place: order.place,
                index: 1,
            },
            ord_status: OrdStatus::Rejected,
            symbol: &ticket.symbol,
            side: ticket.side,
            order_qty: ticket.quantity as u64,
            leaves_qty: 0,
            cum_qty: 0,
        },
        reason: reason as u64,
    };
    outbox.send_body(order.session, msg_types::EXECUTION_REPORT, &report)
}

/// Reports that what is left of an immediate order is cancelled.
pub fn send_ended<A: Allocator + Copy>(
    outbox: &mut Outbox<'_, A>,
    order: &NewOrder<'_>,
    index: u64,
    left: u32,
) -> Result<(), DeskFault>
    requires { left ≤ order.now.ticket.now.quantity }
    ensures { Sends outbox.old outbox.new
        (report order.now.place index (ended_report order.now.session order.now.place
        order.now.ticket.now left) ∷ []) result }
{
    let ticket = order.ticket;
    let filled = ticket.quantity - left;
    let report = OrderReport {
        order_id: order.place,
        cl_ord_id: &ticket.id,
        exec_id: ExecId {
            place: order.place,
            index,
        },
        ord_status: OrdStatus::Canceled,
        symbol: &ticket.symbol,
        side: ticket.side,
        order_qty: ticket.quantity as u64,
        leaves_qty: 0,
        cum_qty: filled as u64,
    };
    outbox.send_body(order.session, msg_types::EXECUTION_REPORT, &report)
}

/// Reports a cancelled order to who cancelled it.
pub fn send_cancelled<A: Allocator + Copy>(
    outbox: &mut Outbox<'_, A>,
    request: &CancelRequest<'_>,
    order: &Order,
    symbol: &Id,
) -> Result<(), DeskFault>
    requires { order.now.leaves ≤ order.now.quantity }
    ensures { Sends outbox.old outbox.new
        (report request.now.place 1 (cancelled_report symbol.now request.now.session
        request.now.id.now request.now.original.now order.now) ∷ []) result }
{
    let filled = order.quantity - order.leaves;
    let report = CancelReport {
        order: OrderReport {
            order_id: order.place,
            cl_ord_id: request.id,
            exec_id: ExecId {
                place: request.place,
                index: 1,
            },
            ord_status: OrdStatus::Canceled,
            symbol,
            side: order.side,
            order_qty: order.quantity as u64,
            leaves_qty: 0,
            cum_qty: filled as u64,
        },
        original: request.original,
    };
    outbox.send_body(request.session, msg_types::EXECUTION_REPORT, &report)
}

/// Reports a replaced order to who replaced it: ClOrdID (tag 11) is its new id, OrigClOrdID
/// (tag 41) the one that it had, ExecType and OrdStatus (tags 150 and 39) are 5.
pub fn send_replaced<A: Allocator + Copy>(
    outbox: &mut Outbox<'_, A>,
    request: &CancelRequest<'_>,
    order: &Order,
    symbol: &Id,
) -> Result<(), DeskFault>
    requires { order.now.leaves ≤ order.now.quantity }
    ensures { Sends outbox.old outbox.new
        (report request.now.place 1 (replaced_report symbol.now request.now.session
        request.now.id.now request.now.original.now order.now) ∷ []) result }
{
    let filled = order.quantity - order.leaves;
    let report = CancelReport {
        order: OrderReport {
            order_id: order.place,
            cl_ord_id: request.id,
            exec_id: ExecId {
                place: request.place,
                index: 1,
            },
            ord_status: OrdStatus::Replaced,
            symbol,
            side: order.side,
            order_qty: order.quantity as u64,
            leaves_qty: order.leaves as u64,
            cum_qty: filled as u64,
        },
        original: request.original,
    };
    outbox.send_body(request.session, msg_types::EXECUTION_REPORT, &report)
}
