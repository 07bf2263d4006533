//! Messages that bear their session's next number.
ghost use Rattle.std.specs.Prelude.{◌≡◌, ◌≢◌, ℕ, ◌<◌, ◌≤◌, ◌==◌, ◌∷◌, [], true, length, Some, OnOk, OnErr, IsErrOf, if◌then◌else◌};
ghost use Rattle.std.specs.List.{list_all};
ghost use Rattle.spread_report_outbound.specs.code.Sessions.{sessions_starting, sessions_at, outbound_at, KeepsBytes};
ghost use Rattle.spread_report_outbound.specs.code.Addressed.{has_tag, numbered_message};
ghost use Rattle.spread_report_outbound.specs.code.PerSession.{is_above_limit};
ghost use Rattle.spread_report_outbound.specs.code.Sending.{Appended, StaysLent, Sends};
ghost use Rattle.spread_report_outbound.specs.Steps.{numbered};
ghost use Rattle.spread_report_outbound.specs.declared.fault.DeskFault.TheVariants.{NumbersSpent};

use crate::fault::DeskFault;
use crate::outbox::Outbox;
use crate::parties::{spell_parties, spelled_parties};
use crate::session::CompIds;
use fix_wire::{
    Body, FIELD_ROOM, FRAME_ROOM, Field, FieldList, SpelledHead, SpelledParties, write_body,
};
use spread_rules_ids::Id;
use spread_rules_ids::bytes::SOH;
use spread_rules_ids::limits::{MAX_MSG_SEQ_NUM, SESSIONS};
use std::alloc::Allocator;
use std::marker::Model;

/// The most fields that a message has behind its standard header.
pub const MAX_FIELDS: usize = 18;

/// Room for one message of so many fields.
const MESSAGE_ROOM: usize = FIELD_ROOM * MAX_FIELDS + FRAME_ROOM;

/// For each of the sixteen sessions the number that its next message bears, and the CompIDs of its last Logon; and the
/// stamp that every message bears as its SendingTime.
#[derive(Drop)]
pub struct OutboundSessions {
    pub(crate) stamp: Id,
    // The next number of each session. They stand beside each other, since a mark copies them all before each entry.
    pub(crate) numbers: [u64; SESSIONS],
    // None before a session's Logon.
    pub(crate) comp_ids: [Option<CompIds>; SESSIONS],
    // Of each session that has CompIDs, these and the stamp, as its messages bear them.
    pub(crate) parties: [SpelledParties; SESSIONS],
    // Each message is written here first.
    room: [u8; MESSAGE_ROOM],
}

impl Model for OutboundSessions {
    ghost use Rattle.spread_report_outbound.specs.code.Sessions.{OutboundState};
    ghost use Rattle.spread_report_outbound.specs.code.OutboundFields.{state_of, AreKept};

    ghost Value = { OutboundState };

    ghost view = { state_of };

    ghost invariant = { AreKept };
}

impl OutboundSessions {
    /// Nobody has logged on, and each session's first message bears the number 1.
    pub fn new(stamp: Id) -> OutboundSessions
        ensures { result ≡ sessions_starting stamp 1 }
    {
        numbered_from(stamp, 1)
    }

    /// Nobody has logged on, and each session's first message bears this number. None where it is 0 or above the limit.
    pub fn starting(stamp: Id, next: u32) -> Option<OutboundSessions>
        ensures { result ≡ sessions_at stamp next }
    {
        if 1 <= next && next <= MAX_MSG_SEQ_NUM {
            Some(numbered_from(stamp, u64::from(next)))
        } else {
            None
        }
    }

    /// Appends a message that bears the session's next number to the session's list, and uses that number; before its
    /// Logon a session is sent nothing. After an error nothing has changed.
    #[inline(always)]
    fn append<A: Allocator, B: Body>(
        &mut self,
        list: &mut Vec<u8, A>,
        session: u8,
        kind: u8,
        body: &B,
    ) -> Result<(), DeskFault>
        requires session { session < SESSIONS }
        requires kind { kind ≢ SOH }
        requires tags { list_all has_tag (B.fields body.now) ≡ true }
        requires few { length (B.fields body.now) ≤ MAX_FIELDS }
        ensures appended { OnOk result (Appended self.old.stamp session self.old.sessions self.new.sessions
            list.old.items list.new.items (numbered kind (B.fields body.now))) }
        ensures spent { IsErrOf result NumbersSpent → is_above_limit
            (outbound_at self.old.sessions session) (numbered kind (B.fields body.now)) ≡ true }
        ensures stamp { self.new.stamp ≡ self.old.stamp }
        ensures unchanged_on_err { OnErr result (self.new ≡ self.old) }
        ensures list_kept { OnErr result (list.new.items ≡ list.old.items) }
    {
        let at = session as usize;
        match self.comp_ids[at] {
            None => Ok(()),
            Some(_) => {
                let number = self.numbers[at];
                if number > u64::from(MAX_MSG_SEQ_NUM) {
                    return Err(DeskFault::NumbersSpent);
                }
                let head = SpelledHead {
                    kind,
                    number,
                    orig_time: None,
                    parties: &self.parties[at],
                };
                write_body(&mut self.room, list, &head, body)?;
                self.numbers[at] = number + 1;
                Ok(())
            }
        }
    }
}

impl<A: Allocator> Outbox<'_, A> {
    /// Gives a session the CompIDs that its Logon brings.
    pub fn log_on(&mut self, session: u8, comp_ids: CompIds)
        requires { session < SESSIONS }
        ensures lent { StaysLent self.old self.new }
        ensures lists { self.new.lists.now ≡ self.old.lists.now }
        ensures stamp { self.new.outbound.now.stamp ≡ self.old.outbound.now.stamp }
        ensures logged_on { (s : ℕ) → s < SESSIONS → outbound_at self.new.outbound.now.sessions s
            ≡ (if session == s
            then record (outbound_at self.old.outbound.now.sessions s) { comp_ids = Some comp_ids }
            else outbound_at self.old.outbound.now.sessions s) }
    {
        let outbound = &mut *self.outbound;
        outbound.comp_ids[session as usize] = Some(comp_ids);
        spell_parties(&mut outbound.parties, &outbound.comp_ids, &outbound.stamp);
    }

    /// Appends a message that bears the session's next number to its list, and uses that number; before its Logon a
    /// session is sent nothing. After an error nothing has changed.
    pub fn send_body<B: Body>(&mut self, session: u8, kind: u8, body: &B) -> Result<(), DeskFault>
        requires session { session < SESSIONS }
        requires kind { kind ≢ SOH }
        requires tags { list_all has_tag (B.fields body.now) ≡ true }
        requires few { length (B.fields body.now) ≤ MAX_FIELDS }
        ensures sent { Sends self.old self.new
            (numbered_message session kind (B.fields body.now) ∷ []) result }
        ensures unchanged_on_err { OnErr result (self.new.outbound.now ≡ self.old.outbound.now) }
        ensures lists_kept { OnErr result (KeepsBytes self.old.lists.now self.new.lists.now) }
    {
        let lists = &mut *self.lists;
        let list = &mut lists[session as usize];
        self.outbound.append(list, session, kind, body)
    }

    /// Sends a message of any fields, as `send_body` does.
    pub fn send(&mut self, session: u8, kind: u8, fields: &[Field]) -> Result<(), DeskFault>
        requires session { session < SESSIONS }
        requires kind { kind ≢ SOH }
        requires tags { list_all has_tag fields.now ≡ true }
        requires few { length fields.now ≤ MAX_FIELDS }
        ensures sent { Sends self.old self.new (numbered_message session kind fields.now ∷ []) result }
        ensures unchanged_on_err { OnErr result (self.new.outbound.now ≡ self.old.outbound.now) }
        ensures lists_kept { OnErr result (KeepsBytes self.old.lists.now self.new.lists.now) }
    {
        self.send_body(session, kind, &FieldList { fields })
    }
}

/// Nobody has logged on, and each session's first message bears this number.
fn numbered_from(stamp: Id, next: u64) -> OutboundSessions
    ensures { result ≡ sessions_starting stamp next }
{
    OutboundSessions {
        stamp,
        numbers: [next; SESSIONS],
        comp_ids: [None; SESSIONS],
        parties: [spelled_parties(&None, &stamp); SESSIONS],
        room: [0; MESSAGE_ROOM],
    }
}
