//! Laws: the journal of day lines is what each session's whole stream says.
ghost use Rattle.std.specs.Prelude.{◌≡◌, ◌≤◌, List, ℕ, [], ◌∷◌, ◌++◌, cond, length};
ghost use Rattle.spread_rules_ids.specs.declared.limits.TheConstants.{MAX_JOURNAL_ENTRIES};
ghost use Rattle.spread_rules.specs.declared.codes.close_reason.TheConstants.{STREAM_ENDED};
ghost use Rattle.spread_rules.specs.declared.event.Event.TheVariants.{Close};
ghost use Rattle.fix_wire_frames.specs.Frames.{frames};
ghost use Rattle.fix_wire_framer.specs.Pieces.{SplitsInto};
ghost use Rattle.fix_session_judging.specs.Reading.{ReaderState, new_reader, IsBehind};
ghost use Rattle.fix_session_judging.specs.Steps.{events_said, events_at_end};
ghost use Rattle.fix_session_judging.specs.Streams.{events, stays_open};
ghost use Rattle.spread_rules.specs.Journal.{restricted, IsLawful};
ghost use Rattle.intake_lines.specs.LineText.{DayLine};
ghost use Rattle.intake_lines.specs.DayLines.{journal_of_lines};
ghost use Rattle.intake_lines.specs.code.DayLines.{new_events, read_on};
ghost use Rattle.intake_lines.specs.JournalParts.{AreOfSessions, part_of};

use fix_session_judging::laws::{closed_after, judged, said_after};

/// A reader of which a line completes frames says the new events of its stream, and has read the stream with that line; and at
/// the end it says Close 5 where no place of its stream closes.
pub fn day_lines()
    ensures starts { IsBehind [] new_reader }
    ensures says { (stream : List ℕ) (r : ReaderState) (line : List ℕ) → IsBehind stream r →
        events_said r.session (frames (r.held ++ line)) ≡ new_events stream line }
    ensures goes_on { (stream : List ℕ) (r : ReaderState) (line left : List ℕ) → IsBehind stream r →
        SplitsInto (r.held ++ line) (frames (r.held ++ line)) left →
        IsBehind (stream ++ line) (read_on r (frames (r.held ++ line)) left) }
    ensures ends { (stream : List ℕ) (r : ReaderState) → IsBehind stream r →
        events_at_end r.session ≡ cond (stays_open stream) (Close STREAM_ENDED ∷ []) [] }
{
    judged();
    said_after();
    closed_after();
}

/// The journal of day lines has of each session exactly what its whole stream says: each accepted event once, in sent order,
/// and a Close 5 where nothing closed it; nothing of a session without a line. More text only adds events behind those of
/// a stream. A journal of at most 1,000,000 entries is lawful: every entry is in range, and each session's part in order.
pub fn day_journal()
    ensures part { (session : ℕ) (lines : List DayLine) → AreOfSessions lines →
        restricted session (journal_of_lines lines) ≡ part_of session lines }
    ensures grows { (stream text : List ℕ) →
        events (stream ++ text) ≡ events stream ++ new_events stream text }
    ensures lawful { (lines : List DayLine) → AreOfSessions lines →
        length (journal_of_lines lines) ≤ MAX_JOURNAL_ENTRIES → IsLawful (journal_of_lines lines) }
{}
