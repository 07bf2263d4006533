//! Where the first field of each tag that a session reads stands in a body, so that it is found without a walk.
ghost use Rattle.std.specs.Prelude.{◌≡◌, ◌≤◌, ◌<◌, ◌^◌, length, take, ◌+◌, is_some, true, unwrap_or, [], IfSome};
ghost use Rattle.std.specs.Bool.{OnTrue};
ghost use Rattle.std.specs.Option.{option_copied};
ghost use Rattle.fix_wire_frames.specs.Fields.{fields_of_body};
ghost use Rattle.fix_wire_frames.specs.code.Frames.{is_body};
ghost use Rattle.fix_wire_frames.specs.code.Messages.{first_value};
ghost use Rattle.fix_wire_frames.specs.code.Scans.{value_of};
ghost use Rattle.fix_wire_frames.specs.code.Tabled.{IsTable, index_of, with_field};

use crate::frame::{FrameHeader, LeadingField, next_field};
use crate::marks::NO_MARKS;
use crate::tags;
use spread_rules_ids::limits::MAX_BODY_LENGTH;

/// Where the value of a field of a body stands: from start to end, where its SOH is.
#[derive(Clone, Copy)]
pub struct FieldPlace {
    pub start: u16,
    pub end: u16,
}

/// How many tags a table has a place for: those that a session reads.
pub const TABLED_TAGS: usize = 23;

/// How many places a table has: one more, for all other tags.
pub const PLACES: usize = 24;

/// A tag that is not tabled, above all that are.
const LAST_TAG: u32 = 127;

/// The index of each tag up to the last: from 0 in order of the tags, and 23 where the tag is not tabled.
static TAG_INDEXES: [u8; 128] = [
    23, 23, 23, 23, 23, 23, 23, 0, 23, 23, 23, 1, 23, 23, 23, 23, 2, 23, 23, 23, 23, 3, 23, 23, 23,
    23, 23, 23, 23, 23, 23, 23, 23, 23, 4, 5, 6, 23, 7, 23, 8, 9, 23, 10, 11, 23, 23, 23, 23, 12,
    23, 23, 13, 23, 14, 15, 16, 23, 23, 17, 18, 23, 23, 23, 23, 23, 23, 23, 23, 23, 23, 23, 23, 23,
    23, 23, 23, 23, 23, 23, 23, 23, 23, 23, 23, 23, 23, 23, 23, 23, 23, 23, 23, 23, 23, 23, 23, 23,
    19, 23, 23, 23, 23, 23, 23, 23, 23, 23, 20, 23, 23, 23, 21, 23, 23, 23, 23, 23, 23, 23, 23, 23,
    23, 22, 23, 23, 23, 23,
];

/// The places of the first fields of a body with the tabled tags.
#[derive(Clone, Copy)]
pub struct FieldTable {
    pub places: [FieldPlace; PLACES],
    /// Bit i is set where the tag with index i has a place.
    pub present: u64,
}

impl FieldTable {
    /// A table of no field, to be filled.
    fn empty() -> FieldTable
        ensures { result.present ≡ 0 }
    {
        FieldTable {
            places: [FieldPlace { start: 0, end: 0 }; PLACES],
            present: 0,
        }
    }
}

/// The header of a frame, and the table of its body.
#[derive(Clone, Copy)]
pub struct FrameTable {
    pub header: FrameHeader,
    pub fields: FieldTable,
}

impl FrameTable {
    /// That of no frame, to be filled.
    pub fn empty() -> FrameTable
        ensures { result.fields.present ≡ 0 }
    {
        FrameTable {
            header: FrameHeader {
                body_start: 0,
                body_length: 0,
            },
            fields: FieldTable::empty(),
        }
    }
}

/// Notes a field of a body, unless one with its tag was noted before, and tells which tags have a place then.
#[inline(always)]
fn with_place(places: &mut [FieldPlace; PLACES], present: u64, field: LeadingField) -> u64
    requires start { field.start < 2 ^ 16 }
    requires end { field.end < 2 ^ 16 }
    ensures { (record { places = places.new; present = result })
        ≡ with_field (record { places = places.old; present = present }) field }
{
    let i = index_of(field.tag);
    if (present >> i) & 1 != 0 {
        return present;
    }
    places[i] = FieldPlace {
        start: field.start as u16,
        end: field.end as u16,
    };
    present | (1 << i)
}

/// The index of a tag in a table.
#[inline(always)]
fn index_of(tag: u32) -> usize
    ensures index { result ≡ index_of tag }
    ensures within { result ≤ TABLED_TAGS }
{
    usize::from(TAG_INDEXES[tag.min(LAST_TAG) as usize])
}

/// Whether the first bytes of a text, of that number, are a row of fields, and if so, their table.
#[inline(always)]
pub(crate) fn are_fields(text: &[u8], count: usize, table: &mut FieldTable) -> bool
    requires count { count ≤ MAX_BODY_LENGTH }
    requires within { count ≤ length text.now }
    ensures row { result ≡ is_some (fields_of_body (take count text.now)) }
    ensures table { OnTrue result (IsTable (take count text.now) table.new) }
{
    let mut marks = NO_MARKS;
    let mut present = 0;
    let mut rest = 0;
    while rest < count {
        let Some(field) = next_field(text, count, rest, &mut marks) else {
            return false;
        };
        present = with_place(&mut table.places, present, field);
        rest = field.end + 1;
    }
    table.present = present;
    true
}

/// MsgType: the value of the first field of a body.
#[inline(always)]
pub(crate) fn first_value<'a>(body: &'a [u8], table: Option<&FieldTable>) -> &'a [u8]
    requires body { is_body body.now ≡ true }
    requires table { IfSome table (λ t. IsTable body.now t.now) }
    ensures { result.now ≡ first_value (unwrap_or (fields_of_body body.now) []) }
{
    match value_of(body, table, tags::MSG_TYPE) {
        Some(text) => text,
        None => &[],
    }
}

/// The value of the first field of a body with that tag, found by the body's table where there is one.
#[inline(always)]
pub(crate) fn value_of<'a>(body: &'a [u8], table: Option<&FieldTable>, tag: u32) -> Option<&'a [u8]>
    requires row { is_some (fields_of_body body.now) ≡ true }
    requires table { IfSome table (λ t. IsTable body.now t.now) }
    ensures { option_copied result ≡ value_of tag body.now }
{
    let Some(table) = table else {
        return value_in(body, tag);
    };
    let i = index_of(tag);
    if i == TABLED_TAGS {
        return value_in(body, tag);
    }
    if (table.present >> i) & 1 == 0 {
        return None;
    }
    let place = table.places[i];
    Some(&body[place.start as usize..place.end as usize])
}

/// Looks for a tag field by field, without a table.
#[tactic(auto, unfolding(crate::specs::Fields::fields_of_body))]
fn value_in(text: &[u8], tag: u32) -> Option<&[u8]>
    requires { is_some (fields_of_body text.now) ≡ true }
    ensures { option_copied result ≡ value_of tag text.now }
{
    let mut marks = NO_MARKS;
    let mut rest = 0;
    while rest < text.len() {
        let field = next_field(text, text.len(), rest, &mut marks)?;
        if field.tag == tag {
            return Some(&text[field.start..field.end]);
        }
        rest = field.end + 1;
    }
    None
}
