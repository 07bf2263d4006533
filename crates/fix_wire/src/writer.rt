//! A message in its one spelling: its parts, and the call that appends it.
ghost use Rattle.std.specs.Prelude.{◌≡◌, ◌++◌, ◌<◌, ◌≤◌, ◌*◌, ◌+◌, ◌^◌, ◌-◌, min, length, take};
ghost use Rattle.std.specs.Prelude.{if◌then◌else◌, Option, Some, None, option_map, OnOk, OnErr};
ghost use Rattle.std.specs.List.{AllByRecursion};
ghost use Rattle.fix_wire.specs.Layout.{body_text, message_text, SpellsHead};
ghost use Rattle.fix_wire.specs.code.Layout.{frame_text};
ghost use Rattle.fix_wire.specs.Layout.{FitsKind, FitsTags, FitsBody, FitsValueOf, IsReadBack};
ghost use Rattle.fix_wire.specs.Spelling.{spelled_body};

use crate::body::{Body, FIELD_ROOM, FieldList};
use crate::parties::{MAX_PARTIES_LENGTH, SpelledParties};
use crate::spelling::{MAX_HEAD_LENGTH, put_checksum, put_summed};
use spread_rules_ends::NoMemory;
use spread_rules_ids::Id;
use std::alloc::Allocator;

/// What a field holds. A price is in hundredths and prints with two places; a pair prints as `a-b`.
#[derive(Clone, Copy)]
pub enum Value {
    Text(Id),
    Number(u64),
    Price(i64),
    Pair(u64, u64),
}

/// One field of a message to be written.
#[derive(Clone, Copy)]
pub struct Field {
    pub tag: u32,
    pub value: Value,
}

/// What each message begins with: MsgType, MsgSeqNum, PossDupFlag, SenderCompID, TargetCompID and SendingTime.
#[derive(Clone, Copy)]
pub struct Head {
    pub kind: u8,
    pub number: u64,
    pub duplicate: bool,
    pub sender: Id,
    pub target: Id,
    pub stamp: Id,
}

/// A head whose SenderCompID, SendingTime and TargetCompID are spelled already, for all messages of a session.
#[derive(Clone, Copy)]
pub struct SpelledHead<'a> {
    pub kind: u8,
    pub number: u64,
    /// OrigSendingTime (tag 122), of a duplicate alone.
    pub orig_time: Option<&'a Id>,
    pub parties: &'a SpelledParties,
}

/// Room for what a message has around its fields, and for the zeros behind it of which CheckSum is summed.
pub const FRAME_ROOM: usize = 256;

/// Room for a message with so many fields, whatever they hold.
fn room_for(fields: usize) -> usize
    ensures { result ≡ min (FIELD_ROOM * fields + FRAME_ROOM) (2 ^ 64 - 1) }
{
    fields.saturating_mul(FIELD_ROOM).saturating_add(FRAME_ROOM)
}

/// The OrigSendingTime that a duplicate bears: its SendingTime.
fn time_of_duplicate(head: &Head) -> Option<&Id>
    ensures { option_map (λ t. t.now) result
        ≡ (if head.now.duplicate then Some head.now.stamp else None) }
{
    if head.duplicate {
        Some(&head.stamp)
    } else {
        None
    }
}

/// Appends one message, in its one spelling. Where no room for it can be had, nothing changes.
pub fn write_message<A: Allocator>(
    out: &mut Vec<u8, A>,
    head: &Head,
    fields: &[Field],
) -> Result<(), NoMemory>
    ensures ok { OnOk result (out.new.items ≡ out.old.items ++ message_text head.now fields.now) }
    ensures unchanged_on_err { OnErr result (out.new.items ≡ out.old.items) }
    ensures short { OnOk result
        (length (body_text head.now fields.now) ≤ FIELD_ROOM * length fields.now + MAX_HEAD_LENGTH) }
    // Where the kind isn't byte 1, tags have 1 to 9 digits and the body fits, it is a lawful frame with exactly its fields.
    ensures lawful { OnOk result (FitsKind head.now → FitsTags fields.now →
        FitsBody head.now fields.now → IsReadBack head.now fields.now) }
{
    let most = room_for(fields.len());
    out.reserve(most)?;
    let start = out.as_slice().len();
    let _ = out.resize(start + most, 0);
    let parties = SpelledParties::new(&head.sender, &head.target, &head.stamp);
    let lent = SpelledHead {
        kind: head.kind,
        number: head.number,
        orig_time: time_of_duplicate(head),
        parties: &parties,
    };
    let end = put_message(out.as_mut_slice(), start, &lent, &FieldList { fields });
    out.truncate(end);
    Ok(())
}

/// Appends one message whose body writes its own fields, as `write_message` does one of a list of fields. It is written into
/// a room of the caller's first, of `FIELD_ROOM` for each field and `FRAME_ROOM` more. A caller that keeps its room from
/// message to message fills no bytes that no message has.
pub fn write_body<A: Allocator, B: Body>(
    room: &mut [u8],
    out: &mut Vec<u8, A>,
    head: &SpelledHead<'_>,
    body: &B,
) -> Result<(), NoMemory>
    requires room { FIELD_ROOM * length (B.fields body.now) + FRAME_ROOM ≤ length room.old }
    requires parties { head.now.parties.now.len ≤ MAX_PARTIES_LENGTH }
    ensures ok { OnOk result ((h : Head) → SpellsHead head.now h →
        out.new.items ≡ out.old.items ++ message_text h (B.fields body.now)) }
    ensures bytes { OnOk result (out.new.items
        ≡ out.old.items ++ frame_text (spelled_body head.now (B.fields body.now))) }
    ensures unchanged_on_err { OnErr result (out.new.items ≡ out.old.items) }
    ensures size { length room.new ≡ length room.old }
    ensures short { OnOk result ((h : Head) → SpellsHead head.now h →
        length (body_text h (B.fields body.now))
        ≤ FIELD_ROOM * length (B.fields body.now) + MAX_HEAD_LENGTH) }
    ensures lawful { OnOk result ((h : Head) → SpellsHead head.now h → FitsKind h →
        FitsTags (B.fields body.now) → FitsBody h (B.fields body.now) → IsReadBack h (B.fields body.now)) }
{
    let end = put_message(room, 0, head, body);
    out.extend_from_slice(&room[..end])?;
    Ok(())
}

/// Writes a message at that place, and tells where it ends.
fn put_message<B: Body>(room: &mut [u8], start: usize, head: &SpelledHead<'_>, body: &B) -> usize
    requires within { start + FIELD_ROOM * length (B.fields body.now) + FRAME_ROOM ≤ length room.old }
    requires short { head.now.parties.now.len ≤ MAX_PARTIES_LENGTH }
    ensures text { take result room.new
        ≡ take start room.old ++ frame_text (spelled_body head.now (B.fields body.now)) }
    ensures end { result ≤ length room.new }
    ensures size { length room.new ≡ length room.old }
    ensures body { length (spelled_body head.now (B.fields body.now))
        ≤ FIELD_ROOM * length (B.fields body.now) + MAX_HEAD_LENGTH }
    ensures range { head.now.number < 2 ^ 64 }
    ensures values { AllByRecursion FitsValueOf (B.fields body.now) }
{
    let end = put_summed(room, start, head, body);
    put_checksum(room, start, end)
}
