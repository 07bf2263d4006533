//! The parts of a message, each written into room behind the part before it. A writer is told where to begin, and tells where
//! it ended: so the place stays in a register, which a list's own length would not.
ghost use Rattle.std.specs.Prelude.{◌≡◌, ◌++◌, ◌∷◌, [], ◌<◌, ◌≤◌, ◌*◌, ◌+◌, ◌%◌, true, is_some, sum, set, take, drop, length, decimal, ◌/◌, ◌^◌};
ghost use Rattle.std.specs.List.{flat_map, AllByRecursion};
ghost use Rattle.spread_rules_ids.specs.declared.limits.TheConstants.{MAX_ID_LENGTH};
ghost use Rattle.fix_wire_frames.specs.Frames.{begin_text, checksum_field};
ghost use Rattle.spread_rules_ids.specs.declared.bytes.TheConstants.{DIGIT_ZERO, EQUALS};
ghost use Rattle.fix_wire.specs.declared.writer.Value.TheVariants.{Text};
ghost use Rattle.spread_rules_ids.specs.Ids.{is_plain};
ghost use Rattle.fix_wire.specs.Layout.{value_text, field_text, orig_time, FitsValueOf, FitsValue};
ghost use Rattle.fix_wire.specs.code.Layout.{summed_text};
ghost use Rattle.fix_wire.specs.Spelling.{kind_text, orig_text, spelled, spelled_head, spelled_body};

use crate::body::{Body, FIELD_ROOM, MAX_FIELD_LENGTH};
use crate::parties::{MAX_PARTIES_LENGTH, PARTIES_ROOM, SpelledParties};
use crate::writer::{Field, SpelledHead, Value};
use fix_wire_frames::{BEGIN_BYTES, BEGIN_TEXT, CHECKSUM_BYTES, checksum, checksum_digits};
use fix_wire_values::{put, put_byte, put_number, put_price};
use spread_rules_ids::Id;
use spread_rules_ids::bytes::SOH;
use spread_rules_ids::limits::MAX_ID_LENGTH;

/// An id. All 32 bytes that hold it are copied, since a length that is known costs less than a short one.
#[inline(always)]
pub(crate) fn put_id(room: &mut [u8], at: usize, id: &Id) -> usize
    requires within { at + MAX_ID_LENGTH ≤ length room.old }
    ensures text { take result room.new ≡ take at room.old ++ id.now }
    ensures end { result ≡ at + length id.now }
    ensures most { result ≤ at + MAX_ID_LENGTH }
    ensures plain { is_plain id.now ≡ true }
    ensures size { length room.new ≡ length room.old }
{
    room[at..at + MAX_ID_LENGTH].copy_from_slice(id.padded());
    at + id.bytes().len()
}

#[inline(always)]
fn put_value(room: &mut [u8], at: usize, value: &Value) -> usize
    requires within { at + 41 ≤ length room.old }
    ensures text { take result room.new ≡ take at room.old ++ value_text value.now }
    ensures most { result ≤ at + 41 }
    ensures fits { FitsValue value.now }
    ensures size { length room.new ≡ length room.old }
{
    match value {
        Value::Text(id) => put_id(room, at, id),
        Value::Number(number) => put_number(room, at, *number),
        Value::Price(price) => put_price(room, at, *price),
        Value::Pair(first, second) => {
            let dash = put_number(room, at, *first);
            let rest = put_byte(room, dash, b'-');
            put_number(room, rest, *second)
        }
    }
}

/// A tag, and what stands between it and its value.
#[inline(always)]
fn put_tag(room: &mut [u8], at: usize, tag: u32) -> usize
    requires within { at + 21 ≤ length room.old }
    ensures text { take result room.new ≡ take at room.old ++ (decimal tag ++ EQUALS ∷ []) }
    ensures most { result ≤ at + 21 }
    ensures size { length room.new ≡ length room.old }
{
    let end = put_number(room, at, u64::from(tag));
    put_byte(room, end, b'=')
}

/// Writes a field of that text at that place, and tells where it ends. The text is copied from where it stands: in a `Value` it
/// would be copied twice, in parts of odd lengths.
#[inline(always)]
pub fn put_text_field(room: &mut [u8], at: usize, tag: u32, text: &Id) -> usize
    requires within { at + MAX_FIELD_LENGTH ≤ length room.old }
    ensures text { take result room.new
        ≡ take at room.old ++ field_text (record { tag = tag; value = Text text.now }) }
    ensures most { result ≤ at + MAX_FIELD_LENGTH }
    ensures fits { FitsValueOf (record { tag = tag; value = Text text.now }) }
    ensures size { length room.new ≡ length room.old }
{
    let value = put_tag(room, at, tag);
    let end = put_id(room, value, text);
    put_byte(room, end, SOH)
}

/// Writes a field at that place, and tells where it ends.
#[inline(always)]
pub fn put_field(room: &mut [u8], at: usize, field: &Field) -> usize
    requires within { at + MAX_FIELD_LENGTH ≤ length room.old }
    ensures text { take result room.new
        ≡ take at room.old ++ field_text field.now }
    ensures most { result ≤ at + MAX_FIELD_LENGTH }
    ensures fits { FitsValueOf field.now }
    ensures size { length room.new ≡ length room.old }
{
    let value = put_tag(room, at, field.tag);
    let end = put_value(room, value, &field.value);
    put_byte(room, end, SOH)
}

pub(crate) fn put_fields(room: &mut [u8], at: usize, fields: &[Field]) -> usize
    requires within { at + FIELD_ROOM * length fields.now ≤ length room.old }
    ensures text { take result room.new
        ≡ take at room.old ++ flat_map field_text fields.now }
    ensures most { result ≤ at + FIELD_ROOM * length fields.now }
    ensures values { AllByRecursion FitsValueOf fields.now }
    ensures size { length room.new ≡ length room.old }
{
    let mut end = at;
    for field in fields {
        end = put_field(room, end, field);
    }
    end
}

/// MsgType, MsgSeqNum, and PossDupFlag in a duplicate.
fn put_kind(room: &mut [u8], at: usize, head: &SpelledHead<'_>) -> usize
    requires within { at + 34 ≤ length room.old }
    ensures text { take result room.new ≡ take at room.old
        ++ kind_text head.now.kind head.now.number (is_some (orig_time head.now)) }
    ensures most { result ≤ at + 34 }
    ensures range { head.now.number < 2 ^ 64 }
    ensures size { length room.new ≡ length room.old }
{
    let kind = [b'3', b'5', b'=', head.kind, SOH, b'3', b'4', b'='];
    let number = put(room, at, &kind);
    let end = put_number(room, number, head.number);
    if head.orig_time.is_some() {
        put(room, end, b"\x0143=Y\x01")
    } else {
        put_byte(room, end, SOH)
    }
}

/// SenderCompID, SendingTime and TargetCompID. All the bytes that hold them are copied, as those of an id are.
#[inline(always)]
fn put_parties(room: &mut [u8], at: usize, parties: &SpelledParties) -> usize
    requires within { at + PARTIES_ROOM ≤ length room.old }
    requires short { parties.now.len ≤ MAX_PARTIES_LENGTH }
    ensures text { take result room.new ≡ take at room.old ++ spelled parties.now }
    ensures most { result ≤ at + MAX_PARTIES_LENGTH }
    ensures size { length room.new ≡ length room.old }
{
    room[at..at + PARTIES_ROOM].copy_from_slice(&parties.bytes);
    at + parties.len
}

/// OrigSendingTime, in a duplicate.
fn put_orig_time(room: &mut [u8], at: usize, head: &SpelledHead<'_>) -> usize
    requires within { at + 37 ≤ length room.old }
    ensures text { take result room.new ≡ take at room.old ++ orig_text (orig_time head.now) }
    ensures most { result ≤ at + 37 }
    ensures size { length room.new ≡ length room.old }
{
    match head.orig_time {
        None => at,
        Some(time) => {
            let from = put(room, at, b"122=");
            let end = put_id(room, from, time);
            put_byte(room, end, SOH)
        }
    }
}

/// The greatest length of what a body has before its fields: MsgType to OrigSendingTime.
pub const MAX_HEAD_LENGTH: usize = 180;

fn put_head(room: &mut [u8], at: usize, head: &SpelledHead<'_>) -> usize
    requires within { at + MAX_HEAD_LENGTH ≤ length room.old }
    requires short { head.now.parties.now.len ≤ MAX_PARTIES_LENGTH }
    ensures text { take result room.new ≡ take at room.old ++ spelled_head head.now }
    ensures most { result ≤ at + MAX_HEAD_LENGTH }
    ensures range { head.now.number < 2 ^ 64 }
    ensures size { length room.new ≡ length room.old }
{
    let parties = put_kind(room, at, head);
    let rest = put_parties(room, parties, head.parties);
    put_orig_time(room, rest, head)
}

/// MsgType to the last field.
fn put_body<B: Body>(room: &mut [u8], at: usize, head: &SpelledHead<'_>, body: &B) -> usize
    requires within { at + FIELD_ROOM * length (B.fields body.now) + MAX_HEAD_LENGTH ≤ length room.old }
    requires short { head.now.parties.now.len ≤ MAX_PARTIES_LENGTH }
    ensures text { take result room.new
        ≡ take at room.old ++ spelled_body head.now (B.fields body.now) }
    ensures end { result ≡ at + length (spelled_body head.now (B.fields body.now)) }
    ensures most { result ≤ at + FIELD_ROOM * length (B.fields body.now) + MAX_HEAD_LENGTH }
    ensures size { length room.new ≡ length room.old }
    ensures range { head.now.number < 2 ^ 64 }
    ensures values { AllByRecursion FitsValueOf (B.fields body.now) }
{
    let rest = put_head(room, at, head);
    body.put(room, rest)
}

/// The greatest length of BeginString and BodyLength.
const MAX_BEGIN_LENGTH: usize = 33;

/// BeginString, and the BodyLength of a body of that length.
fn put_begin(room: &mut [u8], at: usize, body_length: usize) -> usize
    requires within { at + MAX_BEGIN_LENGTH ≤ length room.old }
    ensures text { take result room.new
        ≡ take at room.old ++ (begin_text ++ (decimal body_length ++ SOH ∷ [])) }
    ensures most { result ≤ at + MAX_BEGIN_LENGTH }
    ensures size { length room.new ≡ length room.old }
{
    let length = put(room, at, &BEGIN_TEXT);
    let end = put_number(room, length, body_length as u64);
    put_byte(room, end, SOH)
}

/// Three digits of a number, in place of the three bytes that stand there.
fn set_three(room: &mut [u8], at: usize, number: usize)
    requires three { number < 1000 }
    requires within { at + 3 ≤ length room.old }
    ensures { room.new ≡
        set (set (set room.old at (DIGIT_ZERO + number / 100)) (at + 1) (DIGIT_ZERO + number / 10 % 10))
        (at + 2) (DIGIT_ZERO + number % 10) }
{
    room[at] = b'0' + (number / 100) as u8;
    room[at + 1] = b'0' + (number / 10 % 10) as u8;
    room[at + 2] = b'0' + (number % 10) as u8;
}

/// BeginString to the last field. Most bodies have a length of three digits, so three are left open and set once the body is
/// written. A body of another length is written again, behind its length.
pub(crate) fn put_summed<B: Body>(
    room: &mut [u8],
    start: usize,
    head: &SpelledHead<'_>,
    body: &B,
) -> usize
    requires within { start + FIELD_ROOM * length (B.fields body.now) + MAX_HEAD_LENGTH + MAX_BEGIN_LENGTH ≤ length room.old }
    requires short { head.now.parties.now.len ≤ MAX_PARTIES_LENGTH }
    ensures text { take result room.new
        ≡ take start room.old ++ summed_text (spelled_body head.now (B.fields body.now)) }
    ensures least { start ≤ result }
    ensures most { result ≤ start + FIELD_ROOM * length (B.fields body.now) + MAX_HEAD_LENGTH + MAX_BEGIN_LENGTH }
    ensures size { length room.new ≡ length room.old }
    ensures body { length (spelled_body head.now (B.fields body.now))
        ≤ FIELD_ROOM * length (B.fields body.now) + MAX_HEAD_LENGTH }
    ensures range { head.now.number < 2 ^ 64 }
    ensures values { AllByRecursion FitsValueOf (B.fields body.now) }
{
    let first = put(room, start, b"8=FIX.4.2\x019=000\x01");
    let end = put_body(room, first, head, body);
    let count = end - first;
    if 100 <= count && count < 1_000 {
        set_three(room, start + BEGIN_BYTES, count);
        return end;
    }
    let second = put_begin(room, start, count);
    put_body(room, second, head, body)
}

/// How many bytes CheckSum is summed of at a time.
const SUM_BLOCK: usize = 32;

/// The CheckSum of all bytes from one place to the other. Zeros are put behind them, so that whole blocks are summed: a sum
/// of what is left of a block, byte by byte, would take a good part of the time of them all.
pub(crate) fn put_checksum(room: &mut [u8], start: usize, end: usize) -> usize
    requires start { start ≤ end }
    requires within { end + SUM_BLOCK ≤ length room.old }
    ensures text { take result room.new
        ≡ take end room.old ++ checksum_field (sum (drop start (take end room.old)) % 256) }
    ensures end { result ≡ end + CHECKSUM_BYTES }
    ensures size { length room.new ≡ length room.old }
{
    let _ = put(room, end, &[0; SUM_BLOCK]);
    let whole = (end - start + SUM_BLOCK - 1) / SUM_BLOCK * SUM_BLOCK;
    let sum = checksum(&room[start..start + whole]);
    put(room, end, &checksum_digits(sum))
}
