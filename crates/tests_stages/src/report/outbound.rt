//! What one session is sent: a message, a gap fill, and a message that is taken back.
use crate::expect::holds;
use fix_wire::{Field, Value};
use fix_wire_frames::{msg_types, tags};
use spread_report_fields::text_field;
use spread_report_outbound::{CompIds, Mark, OutboundSessions, Outbox};
use std::alloc::Global;
use std::process::Abort;
use tests_shared::{id, stamp};

const FIRST_HEARTBEAT: &[u8] =
    b"8=FIX.4.2\x019=51\x0135=0\x0134=1\x0149=HOST\x0152=20260105-14:30:00\x0156=C1\x01112=T\x0110=210\x01";

const HEARTBEAT_BEHIND_A_GAP_FILL: &[u8] =
    b"8=FIX.4.2\x019=83\x0135=4\x0134=2\x0143=Y\x0149=HOST\x0152=20260105-14:30:00\x0156=C1\x01122=20260105-14:30:00\x0136=6\x01123=Y\x0110=234\x018=FIX.4.2\x019=51\x0135=0\x0134=6\x0149=HOST\x0152=20260105-14:30:00\x0156=C1\x01112=T\x0110=215\x01";

fn sixteen_lists(rt: &impl Abort, alloc: Global) -> Vec<Vec<u8>> {
    let mut lists = Vec::new(alloc);
    for _ in 0..16 {
        lists.push(Vec::new(alloc)).expect(rt, "memory");
    }
    lists
}

fn comp_ids() -> CompIds {
    CompIds {
        client: id(b"C1"),
        host: id(b"HOST"),
    }
}

/// How the sessions and their lists stand once session 0 has logged on. None where there are not sixteen lists.
fn logged_on(outbound: &mut OutboundSessions, lists: &mut [Vec<u8>]) -> Option<Mark> {
    if lists.len() != 16 {
        return None;
    }
    let mut outbox = Outbox::new(outbound, lists);
    outbox.log_on(0, comp_ids());
    Some(outbox.mark(0))
}

/// Whether session 0 is sent a Heartbeat.
fn is_sent(outbound: &mut OutboundSessions, lists: &mut [Vec<u8>]) -> bool {
    if lists.len() != 16 {
        return false;
    }
    let fields = [text_field!(tags::TEST_REQ_ID, id(b"T"))];
    let mut outbox = Outbox::new(outbound, lists);
    outbox.send(0, msg_types::HEARTBEAT, &fields).is_ok()
}

/// Whether session 0 is sent a gap fill for its numbers from 2 on.
fn is_filled(outbound: &mut OutboundSessions, lists: &mut [Vec<u8>]) -> bool {
    if lists.len() != 16 {
        return false;
    }
    let mut outbox = Outbox::new(outbound, lists);
    outbox.fill_gap(0, 2, 0).is_ok()
}

/// Whether all is taken back to the mark.
fn is_taken_back(outbound: &mut OutboundSessions, lists: &mut [Vec<u8>], mark: &Mark) -> bool {
    if lists.len() != 16 {
        return false;
    }
    let mut outbox = Outbox::new(outbound, lists);
    outbox.take_back(mark);
    true
}

/// Whether session 0 was sent this.
fn was_sent(lists: &[Vec<u8>], want: &[u8]) -> bool {
    match lists.first() {
        Some(sent) => sent.as_slice() == want,
        None => false,
    }
}

#[test]
fn sent_and_taken_back(rt: HostRuntime) {
    let mut lists = sixteen_lists(&rt, rt.alloc());
    let lists = lists.as_mut_slice();
    let mut outbound = OutboundSessions::new(stamp());
    let Some(mark) = logged_on(&mut outbound, lists) else {
        rt.panic("sixteen lists");
    };
    for _ in 0..2 {
        holds(&rt, is_sent(&mut outbound, lists));
        holds(&rt, was_sent(lists, FIRST_HEARTBEAT));
        holds(&rt, is_taken_back(&mut outbound, lists, &mark));
        holds(&rt, was_sent(lists, b""));
    }
}

#[test]
fn numbers_start_at_another_one(rt: HostRuntime) {
    holds(&rt, OutboundSessions::starting(stamp(), 0).is_none());
    holds(
        &rt,
        OutboundSessions::starting(stamp(), 1_000_000_000).is_none(),
    );
    let Some(mut outbound) = OutboundSessions::starting(stamp(), 6) else {
        rt.panic("a number within the limit");
    };
    let mut lists = sixteen_lists(&rt, rt.alloc());
    holds(
        &rt,
        logged_on(&mut outbound, lists.as_mut_slice()).is_some(),
    );
    holds(&rt, is_filled(&mut outbound, lists.as_mut_slice()));
    holds(&rt, is_sent(&mut outbound, lists.as_mut_slice()));
    holds(&rt, was_sent(&lists, HEARTBEAT_BEHIND_A_GAP_FILL));
}
