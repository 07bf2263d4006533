//! Laws: the frames of a stream are the same however it is cut; what is written is read back.
ghost use Rattle.std.specs.Prelude.{◌≡◌, List, ℕ, ◌∷◌, ◌++◌, Some, None, false, ◌+◌, ◌<◌, length, drop};
ghost use Rattle.fix_wire_frames.specs.Frames.{IsFrame, frame_at, may_begin, frames};
ghost use Rattle.fix_wire_frames.specs.Held.{first_frame, from_first_start, after_first_frame};
ghost use Rattle.fix_wire_frames.specs.Messages.{fields};
ghost use Rattle.fix_wire.specs.Layout.{FitsMessage, all_fields, message_text};
ghost use Rattle.fix_wire.specs.declared.writer.Head.{Head};
ghost use Rattle.fix_wire.specs.declared.writer.Field.{Field};

pub use fix_wire_frames::laws::{frame_by_frame, msg_types, tags};

/// The bytes that `next` lets go have no part in any frame, whatever follows; and what `pass` takes away is the first
/// frame and nothing else.
pub fn scan()
    // Before the bytes that stay, no frame stands or may still begin at any place.
    ensures skipped { (held : List ℕ) (k : ℕ) → k + length (from_first_start held) < length held →
        (frame_at (drop k held) ≡ None) × (may_begin (drop k held) ≡ false) }
    ensures rest { (held : List ℕ) (k : ℕ) → k + length (from_first_start held) ≡ length held →
        from_first_start held ≡ drop k held }
    // Asked again, it finds the same.
    ensures again { (held : List ℕ) → frames (from_first_start held) ≡ frames held }
    ensures kept { (held more : List ℕ) →
        frames (from_first_start held ++ more) ≡ frames (held ++ more) }
    ensures passed { (held more frame : List ℕ) → first_frame (frames held) ≡ Some frame →
        frames (held ++ more) ≡ frame ∷ frames (after_first_frame held ++ more) }
{}

/// A written message is a lawful frame with exactly its fields, and before any further bytes it is read first, alone and
/// whole.
pub fn read_back()
    ensures lawful { (h : Head) (fs : List Field) → FitsMessage h fs → IsFrame (message_text h fs) }
    ensures same { (h : Head) (fs : List Field) → FitsMessage h fs →
        fields (message_text h fs) ≡ all_fields h fs }
    ensures first { (h : Head) (fs : List Field) (more : List ℕ) → FitsMessage h fs →
        frames (message_text h fs ++ more) ≡ message_text h fs ∷ frames more }
{}
