//! What stands at the front of a text.
ghost use Rattle.std.specs.Prelude.{◌≡◌, ℕ, ◌+◌, ◌%◌, ◌≤◌, ◌<◌, length, take, drop, sum, option_map, is_some, Some, true, IfSome, nat_eq, ◌&&◌};
ghost use Rattle.std.specs.List.{position_or_len, starts_with};
ghost use Rattle.std.specs.Str.{bytes_eq};
ghost use Rattle.memchr.specs.Find.{is_byte};
ghost use Rattle.fix_wire_frames.specs.Frames.{begin_text, header, body_at, is_intact, checksum_field, frame_length};
ghost use Rattle.fix_wire_frames.specs.code.Frames.{header_after, is_body};
ghost use Rattle.fix_wire_frames.specs.Fields.{field_of_text};
ghost use Rattle.fix_wire_frames.specs.Held.{from_first_start};
ghost use Rattle.fix_wire_frames.specs.code.Marked.{IsMarked};
ghost use Rattle.fix_wire_frames.specs.code.Tabled.{IsTable, IsTableOf};
ghost use Rattle.fix_wire_frames.specs.declared.frame.Scan.TheVariants.{Frame};
ghost use Rattle.std.specs.Bool.{OnTrue};
ghost use Rattle.fix_wire_frames.specs.code.Scans.{scan_front, first_field, leading_field_view, tag_view, is_header_open, header_read};

use crate::marks::{Marks, next_soh};
use crate::table::{FieldTable, FrameTable, are_fields};
use fix_wire_values::limited_digits;
use memchr::memchr;
use spread_rules_ids::bytes::SOH;
use spread_rules_ids::limits::{MAX_BODY_LENGTH, MIN_BODY_LENGTH};

/// How many bytes BeginString and the tag of BodyLength have.
pub const BEGIN_BYTES: usize = 12;

/// How many bytes CheckSum has: its tag, three digits and SOH.
pub const CHECKSUM_BYTES: usize = 7;

/// BodyLength has 1 to so many digits.
pub const MAX_LENGTH_DIGITS: usize = 8;

/// What the bytes of `000` make as hundreds, tens and units: each is 48.
const THREE_ZEROS: usize = 5328;

/// A tag has 1 to so many digits.
pub const MAX_TAG_DIGITS: usize = 9;

/// BeginString and the tag of BodyLength, which each frame begins with.
pub const BEGIN_TEXT: [u8; BEGIN_BYTES] = *b"8=FIX.4.2\x019=";

/// The header of a frame: where its body starts, and how long it is.
#[derive(Clone, Copy)]
pub struct FrameHeader {
    pub body_start: usize,
    pub body_length: usize,
}

/// What stands at the front of a text.
#[derive(Clone, Copy)]
pub enum Scan {
    /// a lawful frame of that length
    Frame(usize),
    /// no frame, but what may still begin one
    Incomplete,
    /// no lawful frame, and nothing that may begin one
    Garbled,
}

/// A tag, and how many digits spell it.
#[derive(Clone, Copy)]
struct Tag {
    number: u32,
    digits: usize,
}

/// Where the first field of a text stands: its value is from start to end, where its SOH is.
#[derive(Clone, Copy)]
pub struct LeadingField {
    pub tag: u32,
    pub start: usize,
    pub end: usize,
}

/// The place of the first such byte, or the length where there is none.
fn place_of(byte: u8, text: &[u8]) -> usize
    ensures { result ≡ position_or_len (is_byte byte) text.now }
{
    match memchr(byte, text) {
        Some(at) => at,
        None => text.len(),
    }
}

/// Whether the text begins with that word. A word of known length is compared without a loop or a call.
#[inline(always)]
fn has_front(text: &[u8], word: &[u8]) -> bool
    ensures { result ≡ starts_with nat_eq text.now word.now }
{
    if text.len() < word.len() {
        return false;
    }
    for i in 0..word.len() {
        if text[i] != word[i] {
            return false;
        }
    }
    true
}

/// The header whose BodyLength says that number in so many digits.
fn header_read(digits: usize, number: usize) -> Option<FrameHeader>
    requires { digits ≤ MAX_LENGTH_DIGITS }
    ensures { result ≡ header_read digits number }
{
    if 1 <= digits && MIN_BODY_LENGTH <= number && number <= MAX_BODY_LENGTH {
        Some(FrameHeader {
            body_start: digits + BEGIN_BYTES + 1,
            body_length: number,
        })
    } else {
        None
    }
}

/// The header of a text that begins as a frame does, from BodyLength on: byte by byte. It is apart from the lengths of
/// three digits, which come more often.
#[cold]
#[inline(never)]
fn header_by_byte(rest: &[u8]) -> Option<FrameHeader>
    ensures { result ≡ header_after rest.now }
{
    let mut number: usize = 0;
    for i in 0..rest.len() {
        if rest[i] == SOH {
            return header_read(i, number);
        }
        if i == MAX_LENGTH_DIGITS || !rest[i].is_ascii_digit() {
            return None;
        }
        number = number * 10 + usize::from(rest[i] - b'0');
    }
    None
}

/// The BodyLength of three digits that the text begins with, if it does. That the first of them is a digit is seen by
/// the sum of all three, which has to be in range in any case.
#[inline(always)]
fn short_length(rest: &[u8]) -> Option<usize>
    ensures { IfSome result (λ n. header_read 3 n ≡ header_after rest.now) }
{
    if rest.len() < 4 || rest[3] != SOH || !rest[1].is_ascii_digit() || !rest[2].is_ascii_digit() {
        return None;
    }
    let sum = usize::from(rest[0]) * 100 + usize::from(rest[1]) * 10 + usize::from(rest[2]);
    if sum < THREE_ZEROS + MIN_BODY_LENGTH || sum > THREE_ZEROS + 999 {
        return None;
    }
    Some(sum - THREE_ZEROS)
}

/// The header of a text that begins as a frame does, from BodyLength on. Most lengths have three digits, and those are
/// read without a loop.
#[inline(always)]
fn header_after(rest: &[u8]) -> Option<FrameHeader>
    ensures { result ≡ header_after rest.now }
{
    match short_length(rest) {
        Some(number) => header_read(3, number),
        None => header_by_byte(rest),
    }
}

/// The header of a text that begins as each frame does. BeginString is not looked at again.
#[inline(always)]
pub fn header_of_begun(text: &[u8]) -> Option<FrameHeader>
    requires { starts_with nat_eq text.now begin_text ≡ true }
    ensures { result ≡ header text.now }
{
    header_after(&text[BEGIN_BYTES..])
}

/// The header of a text, where it has one. A call of its own: within `scan_front` it would take registers from the look
/// at the fields.
#[inline(never)]
pub fn header_of(text: &[u8]) -> Option<FrameHeader>
    ensures { result ≡ header text.now }
{
    if has_front(text, &BEGIN_TEXT) {
        header_of_begun(text)
    } else {
        None
    }
}

/// Whether a text without a header may still begin a frame.
fn is_header_open(text: &[u8]) -> bool
    ensures { result ≡ is_header_open text.now }
{
    if text.starts_with(&BEGIN_TEXT) {
        text.len() <= BEGIN_BYTES + MAX_LENGTH_DIGITS
            && limited_digits(&text[BEGIN_BYTES..]).is_some()
    } else {
        text.len() < BEGIN_BYTES && BEGIN_TEXT.starts_with(text)
    }
}

/// The next place at which a frame may begin, once none begins at the first: where its `8` stands, or the end.
pub fn next_begin(text: &[u8]) -> usize
    requires { 0 < length text.now }
    ensures past { 0 < result }
    ensures within { result ≤ length text.now }
    ensures skipped { from_first_start (drop result text.now) ≡ from_first_start (drop 1 text.now) }
{
    1 + place_of(b'8', &text[1..])
}

/// The tag that the text of a field begins with, and how many digits spell it: byte by byte.
#[inline(always)]
fn any_tag(text: &[u8]) -> Option<Tag>
    ensures field { option_map (tag_view text.now) result ≡ field_of_text text.now }
    ensures within { IfSome result (λ t. t.digits < length text.now) }
{
    let mut number: u64 = 0;
    for i in 0..text.len() {
        if text[i] == b'=' {
            if i == 0 || text[0] == b'0' {
                return None;
            }
            return Some(Tag {
                number: number as u32,
                digits: i,
            });
        }
        if i == MAX_TAG_DIGITS || !text[i].is_ascii_digit() {
            return None;
        }
        number = number * 10 + u64::from(text[i] - b'0');
    }
    None
}

/// The tag of two digits that the text of a field begins with, if it does. What a byte that is no digit adds is seen by
/// the number, which is looked at once: a branch for each digit would be most of the work of a field.
#[inline(always)]
fn short_tag(text: &[u8]) -> Option<Tag>
    ensures field { IfSome result (λ t. Some (tag_view text.now t) ≡ field_of_text text.now) }
    ensures within { IfSome result (λ t. t.digits < length text.now) }
{
    if text.len() < 3 || text[2] != b'=' {
        return None;
    }
    let tens = u32::from(text[0].wrapping_sub(b'0'));
    let units = u32::from(text[1].wrapping_sub(b'0'));
    let number = tens * 10 + units;
    if units > 9 || number < 10 || number > 99 {
        return None;
    }
    Some(Tag { number, digits: 2 })
}

/// The tag that the text of a field begins with. Most have two digits, and those are read without a loop.
#[inline(always)]
fn leading_tag(text: &[u8]) -> Option<Tag>
    ensures field { option_map (tag_view text.now) result ≡ field_of_text text.now }
    ensures within { IfSome result (λ t. t.digits < length text.now) }
{
    match short_tag(text) {
        Some(tag) => Some(tag),
        None => any_tag(text),
    }
}

/// The field of a body from a place on, which the marks are those from. The body is the first bytes of the text, of that
/// number.
#[inline(always)]
pub(crate) fn next_field(
    text: &[u8],
    count: usize,
    from: usize,
    marks: &mut Marks,
) -> Option<LeadingField>
    requires within { count ≤ length text.now }
    requires from { from < count }
    requires marks { IsMarked text.now from marks.old }
    ensures field { option_map (leading_field_view (take count text.now)) result
        ≡ first_field (drop from (take count text.now)) }
    ensures order { IfSome result (λ p. p.start ≤ p.end) }
    ensures start { IfSome result (λ p. 0 < p.start) }
    ensures past { IfSome result (λ p. from ≤ p.end) }
    ensures within { IfSome result (λ p. p.end < count) }
    ensures marks { IfSome result (λ p. IsMarked text.now (p.end + 1) marks.new) }
{
    let end = next_soh(text, from, marks);
    if end >= count {
        return None;
    }
    let tag = leading_tag(&text[from..end])?;
    Some(LeadingField {
        tag: tag.number,
        start: from + tag.digits + 1,
        end,
    })
}

/// Whether the first bytes of a text, of that number, are a body, and if so, its table.
#[inline(always)]
fn is_body(text: &[u8], count: usize, table: &mut FieldTable) -> bool
    requires count { count ≤ MAX_BODY_LENGTH }
    requires within { count ≤ length text.now }
    ensures body { result ≡ is_body (take count text.now) }
    ensures table { OnTrue result (IsTable (take count text.now) table.new) }
{
    let body = &text[..count];
    has_front(body, b"35=") && are_fields(text, count, table)
}

/// The sum of bytes, modulo 256.
pub fn checksum(text: &[u8]) -> u8
    ensures { result ≡ sum text.now % 256 }
{
    let mut sum: u8 = 0;
    for b in text {
        sum = sum.wrapping_add(*b);
    }
    sum
}

/// The CheckSum field of that sum.
pub fn checksum_digits(sum: u8) -> [u8; CHECKSUM_BYTES]
    ensures { result ≡ checksum_field sum }
{
    [
        b'1',
        b'0',
        b'=',
        b'0' + sum / 100,
        b'0' + sum / 10 % 10,
        b'0' + sum % 10,
        SOH,
    ]
}

/// Whether the last bytes are the CheckSum field.
#[inline(always)]
fn is_trailer(tail: &[u8], sum: u8) -> bool
    requires { length tail.now ≡ CHECKSUM_BYTES }
    ensures { result ≡ bytes_eq tail.now (checksum_field sum) }
{
    has_front(tail, &checksum_digits(sum))
}

/// Whether the text has what its header announces, and if so, the table of its body.
fn is_intact(text: &[u8], header: FrameHeader, table: &mut FieldTable) -> bool
    requires start { header.body_start ≤ BEGIN_BYTES + MAX_LENGTH_DIGITS + 1 }
    requires size { header.body_length ≤ MAX_BODY_LENGTH }
    requires whole { frame_length header ≤ length text.now }
    ensures intact { result ≡ is_intact text.now header }
    ensures table { OnTrue result (IsTable (body_at text.now header) table.new) }
{
    let end = header.body_start + header.body_length;
    is_trailer(&text[end..end + CHECKSUM_BYTES], checksum(&text[..end]))
        && is_body(&text[header.body_start..], header.body_length, table)
}

/// What stands at the front of a text, and the table of a frame that does.
pub fn scan_front(text: &[u8], table: &mut FrameTable) -> Scan
    ensures front { result ≡ scan_front text.now }
    ensures table { (n : ℕ) → result ≡ Frame n → IsTableOf text.now table.new }
{
    match header_of(text) {
        Some(header) => {
            let whole = header.body_start + header.body_length + CHECKSUM_BYTES;
            if text.len() < whole {
                Scan::Incomplete
            } else if is_intact(text, header, &mut table.fields) {
                table.header = header;
                Scan::Frame(whole)
            } else {
                Scan::Garbled
            }
        }
        None if is_header_open(text) => Scan::Incomplete,
        None => Scan::Garbled,
    }
}
