//! The fields behind a message's head, and how they write themselves.
ghost use Rattle.std.specs.Prelude.{◌≡◌, ◌++◌, ◌≤◌, ◌*◌, ◌+◌, List, length, take};
ghost use Rattle.std.specs.List.{flat_map, AllByRecursion};
ghost use Rattle.fix_wire.specs.declared.writer.Field as given;
ghost use Rattle.fix_wire.specs.Layout.{field_text, FitsValueOf};

use crate::spelling::put_fields;
use crate::writer::Field;

/// The greatest length of a field.
pub const MAX_FIELD_LENGTH: usize = 63;

/// Room for a field, whatever it holds.
pub const FIELD_ROOM: usize = 64;

/// The fields of a message. What knows its tags writes them faster than a list of fields does.
pub trait Body {
    ghost fields: { Self → List given.Field };

    /// How many fields they are.
    fn count(&self) -> usize
        ensures { result ≡ length (fields self.now) };

    /// Writes them into the room from that place on, and tells where they end.
    fn put(&self, room: &mut [u8], at: usize) -> usize
        requires within { at + FIELD_ROOM * length (fields self.now) ≤ length room.old }
        ensures text { take result room.new
            ≡ take at room.old ++ flat_map field_text (fields self.now) }
        ensures most { result ≤ at + FIELD_ROOM * length (fields self.now) }
        ensures values { AllByRecursion FitsValueOf (fields self.now) }
        ensures size { length room.new ≡ length room.old };
}

/// Any fields, one after the other.
#[derive(Clone, Copy)]
pub struct FieldList<'a> {
    pub fields: &'a [Field],
}

impl<'a> Body for FieldList<'a> {
    ghost fields = { λ l. l.fields.now };

    fn count(&self) -> usize {
        self.fields.len()
    }

    fn put(&self, room: &mut [u8], at: usize) -> usize {
        put_fields(room, at, self.fields)
    }
}
