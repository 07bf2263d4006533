//! Day lines that come in pieces, to their journal.
//!
//! A line that stands whole in a piece is taken where it stands. What stands behind the last line feed of a piece is
//! kept until the line's end comes.
ghost use Rattle.std.specs.Prelude.{◌≡◌, ◌≢◌, ℕ, ◌+◌, ◌-◌, ◌^◌, ◌<◌, ◌≤◌, List, [], ◌∷◌, ◌++◌, length, None, IfOk, IfErr, OnOk};
ghost use Rattle.spread_rules_ids.specs.declared.bytes.TheConstants.{LINE_FEED};
ghost use Rattle.spread_rules_ids.specs.Cut.{Lacks};
ghost use Rattle.fix_wire_frames.specs.Texts.{with_soh};
ghost use Rattle.spread_rules.specs.Journal.{IsLawful};
ghost use Rattle.intake_lines.specs.Reading.{IsJournalOf};
ghost use Rattle.intake_lines.specs.code.Reading.{HasParts, IsLinesFault};
ghost use Rattle.intake_lines.specs.code.LineSessions.{IsFed, TakesLine};
ghost use Rattle.intake_lines.specs.code.PiecesRead.{HasRead, IsReading, ReadsOn};

use crate::laws::day_journal;
use crate::line_sessions::SessionReaders;
use crate::lines::{LinesFault, put_field_ends};
use spread_rules::Entry;
use spread_rules_ids::cut_at;
use spread_rules_ids::limits::MAX_JOURNAL_ENTRIES;
use std::alloc::{AllocError, Allocator};

/// What stands between the pieces of day lines.
#[derive(Drop)]
pub struct DayReader<A: Allocator> {
    line_sessions: SessionReaders<A>,
    // What stands behind the last line feed.
    rest: Vec<u8, A>,
    // The number of the line that has not ended, counted from 1.
    number: u64,
    // The number of the first bad line. Nothing behind it is looked at.
    bad: Option<u64>,
}

/// Takes a line whose beginning is kept and which ends so; false where it is a bad line. Then nothing is kept.
fn take_end<A: Allocator + Copy>(
    line_sessions: &mut SessionReaders<A>,
    rest: &mut Vec<u8, A>,
    end: &[u8],
) -> Result<bool, AllocError>
    requires { IsFed line_sessions.old }
    ensures line { IfOk result
        (λ is_good. TakesLine is_good (rest.old.items ++ end.now) line_sessions.old line_sessions.new) }
    ensures emptied { OnOk result (rest.new.items ≡ []) }
{
    if rest.is_empty() {
        return line_sessions.take_line(end);
    }
    rest.extend_from_slice(end)?;
    let is_good = line_sessions.take_line(rest)?;
    rest.clear();
    Ok(is_good)
}

impl<A: Allocator + Copy> DayReader<A> {
    /// Before the first piece.
    pub fn new(alloc: A) -> Result<DayReader<A>, AllocError>
        ensures read { IfOk result (HasRead []) }
        ensures number { IfOk result (λ reader. reader.number ≡ 1) }
    {
        Ok(DayReader {
            line_sessions: SessionReaders::new(alloc)?,
            rest: Vec::new(alloc),
            number: 1,
            bad: None,
        })
    }

    /// Takes the end of a line, up to its line feed.
    fn end_line(&mut self, end: &[u8]) -> Result<(), AllocError>
        requires reading { IsReading self.old }
        requires going { self.old.bad ≡ None }
        requires one_line { Lacks LINE_FEED end.now }
        requires room { self.old.number + 1 < 2 ^ 64 }
        ensures reads { OnOk result (ReadsOn (end.now ++ LINE_FEED ∷ []) self.old self.new) }
        ensures number { OnOk result (self.new.number ≡ self.old.number + 1) }
    {
        let is_good = take_end(&mut self.line_sessions, &mut self.rest, end)?;
        self.bad = (!is_good).then_some(self.number);
        self.number += 1;
        Ok(())
    }

    /// Takes a text in which SOH stands already for each `|`.
    fn take_text(&mut self, text: &[u8]) -> Result<(), AllocError>
        requires reading { IsReading self.old }
        requires room { self.old.number + length text.now < 2 ^ 64 }
        ensures reads { OnOk result (ReadsOn text.now self.old self.new) }
        ensures number { OnOk result (self.new.number ≤ self.old.number + length text.now) }
    {
        let mut left = text;
        // The label names the loop for its proof.
        'lines: while self.bad.is_none() {
            let Some((line, after)) = cut_at(left, b'\n') else {
                self.rest.extend_from_slice(left)?;
                return Ok(());
            };
            self.end_line(line)?;
            left = after;
        }
        Ok(())
    }

    /// Takes the next piece, which is used up: SOH stands where a `|` stood. After a fault nothing is known of the
    /// reader, and it can take no further piece.
    pub fn take_piece(&mut self, piece: &mut [u8]) -> Result<(), AllocError>
        requires reading { IsReading self.old }
        requires room { self.old.number + length piece.old < 2 ^ 64 }
        ensures reads { OnOk result (ReadsOn (with_soh piece.old) self.old self.new) }
        ensures number { OnOk result (self.new.number ≤ self.old.number + length piece.old) }
    {
        put_field_ends(piece);
        self.take_text(piece)
    }

    /// The journal of all that was taken. Answers the first that applies: BadLine, or JournalFull; NoMemory may stand
    /// anywhere between.
    pub fn into_journal(self) -> Result<Vec<Entry, A>, LinesFault>
        requires { IsReading self }
        ensures journal { IfOk result (λ journal. (input : List ℕ) → HasRead (with_soh input) self
            → IsJournalOf input journal.items) }
        ensures parts { IfOk result (λ journal. (input : List ℕ) → HasRead (with_soh input) self
            → HasParts input journal.items) }
        ensures lawful { IfOk result (λ journal. IsLawful journal.items) }
        ensures fault { IfErr result (λ f. (input : List ℕ) → HasRead (with_soh input) self
            → IsLinesFault input f) }
        ensures was_read { IfErr result (λ f. f ≢ LinesFault.Read) }
    {
        day_journal();
        let DayReader {
            line_sessions,
            rest,
            number,
            bad,
        } = self;
        if let Some(line) = bad {
            return Err(LinesFault::BadLine(line));
        }
        let mut line_sessions = line_sessions;
        let is_good = line_sessions.take_line(&rest)?;
        if !is_good {
            return Err(LinesFault::BadLine(number));
        }
        let journal = line_sessions.into_journal()?;
        if journal.len() > MAX_JOURNAL_ENTRIES {
            return Err(LinesFault::JournalFull);
        }
        Ok(journal)
    }
}
