//! A message, which is a lawful frame.
ghost use Rattle.std.specs.Prelude.{◌≡◌, IsSome, IfSome, ◌↔◌, Some, option_map};
ghost use Rattle.std.specs.Option.{option_copied};
ghost use Rattle.fix_wire_frames.specs.Frames.{IsFrame, header, body_at};
ghost use Rattle.fix_wire_frames.specs.code.Tabled.{IsTable, IsTableOf};
ghost use Rattle.fix_wire_frames.specs.Messages.{kind, get, number};
ghost use Rattle.std.proofs.Props.{props};

use crate::frame::{FrameHeader, Scan, scan_front};
use crate::table::{FieldTable, FrameTable, first_value, value_of};
use crate::tags;
use fix_wire_values::read_number;

/// The length of the longest frame: `8=FIX.4.2|9=`, eight digits, SOH, 4,096 bytes of body and seven of CheckSum.
pub const MAX_FRAME_BYTES: usize = 4_124;

/// A message borrows its whole frame.
#[derive(Clone, Copy)]
pub struct Message<'a> {
    frame: &'a [u8],
    body: &'a [u8],
    // Where the fields of its body stand. Without it each field is looked for from the front.
    table: Option<&'a FieldTable>,
    pub ghost lawful: { IsFrame frame.now },
    pub ghost framed: { option_map (body_at frame.now) (header frame.now) ≡ Some body.now },
    pub ghost tabled: { IfSome table (λ t. IsTable body.now t.now) } by { Prim.hlevel props },
}

/// The body of a frame whose header that is.
#[inline(always)]
fn body_of(frame: &[u8], at: FrameHeader) -> &[u8]
    requires lawful { IsFrame frame.now }
    requires header { header frame.now ≡ Some at }
    ensures { result.now ≡ body_at frame.now at }
{
    &frame[at.body_start..at.body_start + at.body_length]
}

impl<'a> Message<'a> {
    /// The message whose frame the bytes are, if they are one lawful frame. No table of its fields is kept: each field
    /// is looked for from the front.
    pub fn whole(bytes: &'a [u8]) -> Option<Message<'a>>
        ensures only { IsSome result ↔ IsFrame bytes.now }
        ensures same { IfSome result (λ m. m.frame.now ≡ bytes.now) }
    {
        if bytes.len() > MAX_FRAME_BYTES {
            return None;
        }
        let mut table = FrameTable::empty();
        match scan_front(bytes, &mut table) {
            Scan::Frame(n) if n == bytes.len() => Some(Message {
                frame: bytes,
                body: body_of(bytes, table.header),
                table: None,
            }),
            _ => None,
        }
    }

    /// Its whole frame.
    pub fn bytes(&self) -> &'a [u8]
        ensures same { result.now ≡ self.now.frame.now }
        ensures frame { IsFrame self.now.frame.now }
    {
        self.frame
    }

    /// The value of its first field.
    #[tactic(auto, unfolding(crate::specs::Messages::fields))]
    pub fn kind(&self) -> &'a [u8]
        ensures { result.now ≡ kind self.now.frame.now }
    {
        first_value(self.body, self.table)
    }

    /// The value of the first field with that tag.
    #[tactic(auto, unfolding(crate::specs::Messages::fields))]
    pub fn get(&self, tag: u32) -> Option<&'a [u8]>
        ensures { option_copied result ≡ get tag self.now.frame.now }
    {
        value_of(self.body, self.table, tag)
    }

    /// Its number, where it can be read and is at least 1.
    pub fn number(&self) -> Option<u32>
        ensures { result ≡ number self.now.frame.now }
    {
        match read_number(self.get(tags::MSG_SEQ_NUM)?) {
            Ok(number) if 1 <= number => Some(number),
            _ => None,
        }
    }

    /// The message of a lawful frame, whose table is known.
    #[inline(always)]
    pub fn of_frame(frame: &'a [u8], table: &'a FrameTable) -> Message<'a>
        requires lawful { IsFrame frame.now }
        requires tabled { IsTableOf frame.now table.now }
        ensures { result.frame.now ≡ frame.now }
    {
        Message {
            frame,
            body: body_of(frame, table.header),
            table: Some(&table.fields),
        }
    }
}
