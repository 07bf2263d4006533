//! The session's own messages, and the refusal of a request: a function for each kind.
ghost use Rattle.std.specs.Prelude.{◌≡◌, ◌<◌, ◌≤◌, ◌∷◌, []};
ghost use Rattle.spread_report_outbound.specs.code.Sending.{Sends};
ghost use Rattle.fix_wire_frames.specs.declared.msg_types.TheConstants.{HEARTBEAT, RESEND_REQUEST, REJECT, LOGON};
ghost use Rattle.spread_report_outbound.specs.code.Addressed.{numbered_message, steps_to};
ghost use Rattle.spread_report.specs.code.Reports.{logon_fields, heartbeat_fields, reject_fields, resend_request_fields};
ghost use Rattle.spread_report_outbound.specs.Steps.{gap_fill};
ghost use Rattle.spread_report.specs.EntryMessages.{close_steps, order_cancel_reject};

use crate::entry::CancelRefusal;
use fix_wire::{Field, Value};
use fix_wire_frames::{msg_types, tags};
use spread_report_fields::{ENCRYPT_METHOD_NONE, number_field, text_field};
use spread_report_orders::CancelRequest;
use spread_report_outbound::{DeskFault, Outbox};
use spread_rules::codes::close_reason;
use spread_rules_ids::Id;
use spread_rules_ids::limits::SESSIONS;
use std::alloc::Allocator;

/// Answers a Logon.
pub fn send_logon<A: Allocator + Copy>(
    outbox: &mut Outbox<'_, A>,
    session: u8,
    beat: u32,
) -> Result<(), DeskFault>
    requires { session < SESSIONS }
    ensures { Sends outbox.old outbox.new
        (numbered_message session LOGON (logon_fields beat) ∷ []) result }
{
    let fields = [
        number_field!(tags::ENCRYPT_METHOD, ENCRYPT_METHOD_NONE),
        number_field!(tags::HEART_BT_INT, beat as u64),
    ];
    outbox.send(session, msg_types::LOGON, &fields)
}

/// Answers a TestRequest.
pub fn send_heartbeat<A: Allocator + Copy>(
    outbox: &mut Outbox<'_, A>,
    session: u8,
    answer: &Id,
) -> Result<(), DeskFault>
    requires { session < SESSIONS }
    ensures { Sends outbox.old outbox.new
        (numbered_message session HEARTBEAT (heartbeat_fields answer.now) ∷ []) result }
{
    let fields = [text_field!(tags::TEST_REQ_ID, *answer)];
    outbox.send(session, msg_types::HEARTBEAT, &fields)
}

/// Asks for what is missing.
pub fn send_resend_request<A: Allocator + Copy>(
    outbox: &mut Outbox<'_, A>,
    session: u8,
    first: u32,
) -> Result<(), DeskFault>
    requires { session < SESSIONS }
    ensures { Sends outbox.old outbox.new
        (numbered_message session RESEND_REQUEST (resend_request_fields first) ∷ []) result }
{
    let fields = [
        number_field!(tags::BEGIN_SEQ_NO, first as u64),
        number_field!(tags::END_SEQ_NO, 0),
    ];
    outbox.send(session, msg_types::RESEND_REQUEST, &fields)
}

/// Refuses a message.
pub fn send_reject<A: Allocator + Copy>(
    outbox: &mut Outbox<'_, A>,
    session: u8,
    refused: u32,
    reason: u8,
) -> Result<(), DeskFault>
    requires { session < SESSIONS }
    ensures { Sends outbox.old outbox.new
        (numbered_message session REJECT (reject_fields refused reason) ∷ []) result }
{
    let fields = [
        number_field!(tags::REF_SEQ_NUM, refused as u64),
        number_field!(tags::SESSION_REJECT_REASON, reason as u64),
    ];
    outbox.send(session, msg_types::REJECT, &fields)
}

/// Sends a Logout, where the session closed by a Logout, by a number too low or by another CompID.
pub fn send_logout<A: Allocator + Copy>(
    outbox: &mut Outbox<'_, A>,
    session: u8,
    reason: u8,
) -> Result<(), DeskFault>
    requires { session < SESSIONS }
    ensures { Sends outbox.old outbox.new
        (steps_to session (close_steps reason)) result }
{
    if reason == close_reason::LOGOUT {
        outbox.send(session, msg_types::LOGOUT, &[])
    } else if reason == close_reason::MSG_SEQ_NUM_TOO_LOW {
        let fields = [text_field!(tags::TEXT, Id::of(b"MsgSeqNum too low"))];
        outbox.send(session, msg_types::LOGOUT, &fields)
    } else if reason == close_reason::COMP_ID {
        let fields = [text_field!(tags::TEXT, Id::of(b"CompID"))];
        outbox.send(session, msg_types::LOGOUT, &fields)
    } else {
        Ok(())
    }
}

/// Sends an OrderCancelReject, of a cancel or a replace.
pub fn send_cancel_reject<A: Allocator + Copy>(
    outbox: &mut Outbox<'_, A>,
    request: &CancelRequest<'_>,
    refusal: CancelRefusal,
) -> Result<(), DeskFault>
    ensures { Sends outbox.old outbox.new
        (steps_to request.now.session (order_cancel_reject refusal.response_to
        request.now.id.now request.now.original.now refusal.reason refusal.place refusal.status
        ∷ [])) result }
{
    let named = if refusal.place == 0 {
        Value::Text(Id::of(b"NONE"))
    } else {
        Value::Number(refusal.place)
    };
    let fields = [
        Field {
            tag: tags::ORDER_ID,
            value: named,
        },
        text_field!(tags::CL_ORD_ID, *request.id),
        text_field!(tags::ORIG_CL_ORD_ID, *request.original),
        number_field!(tags::ORD_STATUS, refusal.status as u64),
        number_field!(tags::CXL_REJ_RESPONSE_TO, refusal.response_to),
        number_field!(tags::CXL_REJ_REASON, refusal.reason as u64),
    ];
    outbox.send(request.session, msg_types::ORDER_CANCEL_REJECT, &fields)
}
