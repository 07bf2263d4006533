//! What an entry sends, by its event and by what came of it.
ghost use Rattle.std.specs.Prelude.{◌≡◌, ℕ, ◌<◌, ◌+◌, List, ◌∷◌, IfOk};
ghost use Rattle.spread_rules_ids.specs.declared.limits.TheConstants.{SESSIONS};
ghost use Rattle.spread_rules.specs.declared.event.Event.TheVariants.{New, Cancel, Replace};
ghost use Rattle.spread_rules.specs.declared.fill.Fill.{Fill};
ghost use Rattle.spread_rules.specs.Ranges.{FitsCancel, FitsNew, FitsReplace, FitsOutcome, FitFills};
ghost use Rattle.spread_report_outbound.specs.code.Sending.{StaysLent, Sends};
ghost use Rattle.spread_report.specs.code.PerSession.{noted_messages, outbound_at_entry};
ghost use Rattle.spread_report_orders.specs.code.Reports.{reports_of, reports_from};
ghost use Rattle.spread_report.specs.code.Addressed.{event_messages};
ghost use Rattle.spread_report_orders.specs.ExecutionReports.{new_report, fills_reports};
ghost use Rattle.spread_report_outbound.specs.code.Sessions.{outbound_at};

use crate::admin::{
    send_cancel_reject, send_heartbeat, send_logon, send_logout, send_reject, send_resend_request,
};
use spread_report_fields::{CXL_REJ_RESPONSE_TO_CANCEL, CXL_REJ_RESPONSE_TO_REPLACE, symbol_of};
use spread_report_orders::{
    CancelRequest, NewOrder, send_accepted, send_cancelled, send_ended, send_fills, send_rejected,
    send_replaced,
};
use spread_report_outbound::{CompIds, DeskFault, Outbox};
use spread_rules::{Entry, Event, Fill, Outcome, Rulebook, Ticket};
use spread_rules_ids::Id;
use std::alloc::Allocator;

/// An entry at its place in the journal, and what came of it.
#[derive(Clone, Copy)]
pub struct AppliedEntry<'a> {
    pub place: u64,
    pub entry: &'a Entry,
    pub outcome: &'a Outcome,
    pub fills: &'a [Fill],
    ghost in_range: { entry.now.session < SESSIONS },
}

/// Why a cancel request or a cancel/replace request is refused, and what it says of the order that it names.
#[derive(Clone, Copy)]
pub struct CancelRefusal {
    /// CxlRejResponseTo (tag 434).
    pub response_to: u64,
    /// CxlRejReason (tag 102).
    pub reason: u8,
    /// The place of the order, 0 where there is none.
    pub place: u64,
    /// Its OrdStatus (tag 39).
    pub status: u8,
}

/// Notes the CompIDs that a Logon brings.
pub fn note_comp_ids<A: Allocator + Copy>(outbox: &mut Outbox<'_, A>, entry: &Entry)
    requires { entry.now.session < SESSIONS }
    ensures lent { StaysLent outbox.old outbox.new }
    ensures lists { outbox.new.lists.now ≡ outbox.old.lists.now }
    ensures stamp { outbox.new.outbound.now.stamp ≡ outbox.old.outbound.now.stamp }
    ensures noted { (s : ℕ) → s < SESSIONS
        → outbound_at outbox.new.outbound.now.sessions s ≡ outbound_at_entry s
        (outbound_at outbox.old.outbound.now.sessions s) entry.now.session entry.now.event }
{
    if let Event::Logon { client, host, .. } = entry.event {
        outbox.log_on(entry.session, CompIds { client, host });
    }
}

/// Sends an entry's messages, the session's CompIDs being there.
pub fn send_entry<A: Allocator + Copy>(
    outbox: &mut Outbox<'_, A>,
    rules: &Rulebook,
    applied: &AppliedEntry,
) -> Result<(), DeskFault>
    requires outcome { FitsOutcome rules.now applied.now.entry.now.event
        applied.now.outcome.now }
    requires fills { FitFills rules.now applied.now.fills.now }
    ensures { Sends outbox.old outbox.new
        (noted_messages rules.now applied.now.place applied.now.entry.now.session
        applied.now.entry.now.event applied.now.outcome.now applied.now.fills.now) result }
{
    let place = applied.place;
    let session = applied.entry.session;
    match &applied.entry.event {
        Event::Logon { beat, .. } => send_logon(outbox, session, *beat),
        Event::New(ticket) => {
            let order = NewOrder {
                place,
                session,
                ticket,
            };
            new_entry(outbox, rules, &order, applied.outcome, applied.fills)
        }
        Event::Cancel { id, original } => {
            let request = CancelRequest {
                place,
                session,
                id,
                original,
            };
            cancel_entry(outbox, rules, &request, applied.outcome)
        }
        Event::Replace { original, ticket } => {
            replace_entry(outbox, rules, applied, original, ticket)
        }
        Event::TestReply { text } => send_heartbeat(outbox, session, text),
        Event::Gap { first } => send_resend_request(outbox, session, *first),
        Event::Resend { first, last } => outbox.fill_gap(session, *first, *last),
        Event::Reject { number, reason } => send_reject(outbox, session, *number, *reason),
        Event::Close { reason } => send_logout(outbox, session, *reason),
    }
}

/// Tells the session of a new order what came of it.
fn new_entry<A: Allocator + Copy>(
    outbox: &mut Outbox<'_, A>,
    rules: &Rulebook,
    order: &NewOrder<'_>,
    outcome: &Outcome,
    fills: &[Fill],
) -> Result<(), DeskFault>
    requires outcome { FitsNew order.now.ticket.now.quantity outcome.now }
    requires fills { FitFills rules.now fills.now }
    ensures { Sends outbox.old outbox.new
        (event_messages rules.now order.now.place order.now.session (New order.now.ticket.now)
        outcome.now fills.now) result }
{
    match *outcome {
        Outcome::Refused(reason) => send_rejected(outbox, order, reason),
        Outcome::Rested | Outcome::Filled => {
            accepted_with_fills(outbox, rules, order, fills)?;
            Ok(())
        }
        Outcome::Ended { left } => {
            let index = accepted_with_fills(outbox, rules, order, fills)?;
            send_ended(outbox, order, index, left)
        }
        _ => Ok(()),
    }
}

/// Reports a new order and its fills, and tells the next index.
fn accepted_with_fills<A: Allocator + Copy>(
    outbox: &mut Outbox<'_, A>,
    rules: &Rulebook,
    order: &NewOrder<'_>,
    fills: &[Fill],
) -> Result<u64, DeskFault>
    requires { FitFills rules.now fills.now }
    ensures sent { Sends outbox.old outbox.new
        (reports_from order.now.place 1
        (new_report order.now.session order.now.place order.now.ticket.now
        ∷ fills_reports rules.now fills.now)) result }
    ensures index { IfOk result (λ i. i ≡ 2 + reports_of fills.now) }
{
    send_accepted(outbox, order)?;
    send_fills(outbox, rules, order.place, fills)
}

/// Tells the session of a cancel what came of it.
fn cancel_entry<A: Allocator + Copy>(
    outbox: &mut Outbox<'_, A>,
    rules: &Rulebook,
    request: &CancelRequest<'_>,
    outcome: &Outcome,
) -> Result<(), DeskFault>
    requires { FitsCancel rules.now outcome.now }
    ensures { (fills : List Fill) → Sends outbox.old outbox.new
        (event_messages rules.now request.now.place request.now.session
        (Cancel request.now.id.now request.now.original.now) outcome.now fills) result }
{
    match *outcome {
        Outcome::Cancelled(order) => {
            let symbol = symbol_of(rules, order.instrument);
            send_cancelled(outbox, request, &order, &symbol)
        }
        Outcome::CancelRefused {
            reason,
            place,
            status,
        } => {
            let refusal = CancelRefusal {
                response_to: CXL_REJ_RESPONSE_TO_CANCEL,
                reason,
                place,
                status,
            };
            send_cancel_reject(outbox, request, refusal)
        }
        _ => Ok(()),
    }
}

/// Tells the session of a replace what came of it: a report of the replaced order and behind it
/// those of its fills, or an OrderCancelReject with CxlRejResponseTo (tag 434) 2.
fn replace_entry<A: Allocator + Copy>(
    outbox: &mut Outbox<'_, A>,
    rules: &Rulebook,
    applied: &AppliedEntry,
    original: &Id,
    ticket: &Ticket,
) -> Result<(), DeskFault>
    requires outcome { FitsReplace rules.now applied.now.outcome.now }
    requires fills { FitFills rules.now applied.now.fills.now }
    ensures { Sends outbox.old outbox.new
        (event_messages rules.now applied.now.place applied.now.entry.now.session
        (Replace original.now ticket.now) applied.now.outcome.now applied.now.fills.now) result }
{
    let request = CancelRequest {
        place: applied.place,
        session: applied.entry.session,
        id: &ticket.id,
        original,
    };
    match *applied.outcome {
        Outcome::Replaced(order) => {
            let symbol = symbol_of(rules, order.instrument);
            send_replaced(outbox, &request, &order, &symbol)?;
            send_fills(outbox, rules, request.place, applied.fills)?;
            Ok(())
        }
        Outcome::CancelRefused {
            reason,
            place,
            status,
        } => {
            let refusal = CancelRefusal {
                response_to: CXL_REJ_RESPONSE_TO_REPLACE,
                reason,
                place,
                status,
            };
            send_cancel_reject(outbox, &request, refusal)
        }
        _ => Ok(()),
    }
}
