//! A row of whole frames taken apart.
ghost use Rattle.std.specs.Prelude.{◌≡◌, ◌<◌, [], ◌∷◌, length, IfSome, IfNone};
ghost use Rattle.fix_wire_frames.specs.Frames.{frames, IsFrameRow};

use fix_wire_frames::{CHECKSUM_BYTES, header_of_begun};

/// The first frame of a row of whole frames, and the row after it. Its header says how long it is, and none of its other
/// bytes is looked at.
pub fn first_of_row(row: &[u8]) -> Option<(&[u8], &[u8])>
    requires { IsFrameRow row.now }
    ensures found { IfSome result (λ r. frames row.now ≡ r.0.now ∷ frames r.1.now) }
    ensures row { IfSome result (λ r. IsFrameRow r.1.now) }
    ensures less { IfSome result (λ r. length r.1.now < length row.now) }
    ensures none { IfNone result (frames row.now ≡ []) }
{
    if row.is_empty() {
        return None;
    }
    let header = header_of_begun(row)?;
    Some(row.split_at(header.body_start + header.body_length + CHECKSUM_BYTES))
}
