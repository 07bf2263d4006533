//! A source of day lines, read to its end, to its journal.
ghost use Rattle.std.specs.Prelude.{◌≡◌, ◌≢◌, ◌⊎◌, ◌+◌, ◌<◌, ◌≤◌, length, take, [], true, false, IfOk, IfErr, OnOk, OnErr, IfSome, IfNone, IsErrOf};
ghost use Rattle.std.specs.Io.KnownBytes.{Consumes, IsAtEnd, Keeps};
ghost use Rattle.spread_rules_ids.specs.declared.limits.TheConstants.{MAX_INPUT_BYTES};
ghost use Rattle.spread_rules_ends.specs.Ends.{TakesAtMost};
ghost use Rattle.fix_wire_frames.specs.Texts.{with_soh};
ghost use Rattle.spread_rules.specs.Journal.{IsLawful};
ghost use Rattle.intake_lines.specs.Reading.{IsJournalOf};
ghost use Rattle.intake_lines.specs.code.Reading.{HasParts, IsLinesFault};
ghost use Rattle.intake_lines.specs.code.PiecesRead.{HasRead, IsReading};

use crate::day_reader::DayReader;
use crate::lines::LinesFault;
use spread_rules::Entry;
use spread_rules_ends::{Failed, Source};
use spread_rules_ids::limits::MAX_INPUT_BYTES;
use std::alloc::Allocator;

/// How many bytes one read takes at most.
pub const CHUNK_BYTES: usize = 65_536;

/// One read of a source: how many bytes of the piece it gave, none at the end.
fn read_piece<S: Source>(source: &mut S, piece: &mut [u8]) -> Result<Option<usize>, LinesFault>
    requires failed { S.has_failed source.old ≡ false }
    requires room { 0 < length piece.old }
    ensures more { IfOk result (λ given. IfSome given (λ count. 0 < count)) }
    ensures bound { IfOk result (λ given. IfSome given (λ count. count ≤ length piece.new)) }
    ensures bytes { IfOk result (λ given. IfSome given (λ count.
        Consumes (S.left source.old) (S.left source.new) (take count piece.new))) }
    ensures end { IfOk result (λ given. IfNone given (IsAtEnd (S.left source.new))) }
    ensures nothing { IfOk result (λ given. IfNone given
        (Consumes (S.left source.old) (S.left source.new) [])) }
    ensures not_failed { OnOk result (S.has_failed source.new ≡ false) }
    ensures fault { IfErr result (λ f. f ≡ LinesFault.Read) }
    ensures read { OnErr result (S.has_failed source.new ≡ true) }
    ensures kept { OnErr result (Keeps (S.left source.old) (S.left source.new)) }
{
    match source.read(piece) {
        Ok(0) => Ok(None),
        Ok(count) => Ok(Some(count)),
        Err(Failed) => Err(LinesFault::Read),
    }
}

/// How many bytes were taken with a piece of so many. Where an input may not hold as many, the fault is Read.
fn with_piece(taken: usize, count: usize) -> Result<usize, LinesFault>
    requires { taken ≤ MAX_INPUT_BYTES }
    ensures sum { IfOk result (λ all. all ≡ taken + count) }
    ensures bound { OnOk result (taken + count ≤ MAX_INPUT_BYTES) }
    ensures fault { IfErr result (λ f. f ≡ LinesFault.Read) }
    ensures over { OnErr result (MAX_INPUT_BYTES < taken + count) }
{
    if count > MAX_INPUT_BYTES - taken {
        return Err(LinesFault::Read);
    }
    Ok(taken + count)
}

/// Reads a source to its end, past a bad line too.
fn read_pieces<S: Source, A: Allocator + Copy>(
    alloc: A,
    source: &mut S,
) -> Result<DayReader<A>, LinesFault>
    requires { S.has_failed source.old ≡ false }
    ensures whole { IfOk result (λ reader.
        IfSome (S.left source.old) (λ input. HasRead (with_soh input) reader)) }
    ensures reading { IfOk result IsReading }
    ensures end { OnOk result (IsAtEnd (S.left source.new)) }
    ensures not_failed { OnOk result (S.has_failed source.new ≡ false) }
    ensures bound { OnOk result
        (IfSome (S.left source.old) (λ input. length input ≤ MAX_INPUT_BYTES)) }
    ensures read { IsErrOf result LinesFault.Read → (S.has_failed source.new ≡ true)
        ⊎ IfSome (S.left source.old) (λ input. MAX_INPUT_BYTES < length input) }
    // One read more than the limit, and no further.
    ensures taken { TakesAtMost (S.left source.old) (S.left source.new)
        (MAX_INPUT_BYTES + CHUNK_BYTES) }
    ensures fault { IfErr result (λ f. (f ≡ LinesFault.Read) ⊎ (f ≡ LinesFault.NoMemory)) }
{
    let mut reader = DayReader::new(alloc)?;
    let mut piece = [0u8; CHUNK_BYTES];
    let mut taken = 0;
    while let Some(count) = read_piece(source, &mut piece)? {
        taken = with_piece(taken, count)?;
        reader.take_piece(&mut piece[..count])?;
    }
    Ok(reader)
}

/// The journal of the day lines that a source gives, read a piece at a time. At most 16,777,216 bytes are taken, and
/// one read more. Answers, the first that applies: Read, where the source failed or gave more; BadLine, naming the
/// first bad line; JournalFull, above 1,000,000 entries. The last two come of a source that was read to its end.
/// NoMemory may stand anywhere between.
pub fn read_day_lines<S: Source, A: Allocator + Copy>(
    alloc: A,
    source: &mut S,
) -> Result<Vec<Entry, A>, LinesFault>
    requires { S.has_failed source.old ≡ false }
    ensures journal { IfOk result (λ journal.
        IfSome (S.left source.old) (λ input. IsJournalOf input journal.items)) }
    ensures parts { IfOk result (λ journal.
        IfSome (S.left source.old) (λ input. HasParts input journal.items)) }
    ensures lawful { IfOk result (λ journal. IsLawful journal.items) }
    ensures end { OnOk result (IsAtEnd (S.left source.new)) }
    ensures not_failed { OnOk result (S.has_failed source.new ≡ false) }
    ensures read { IsErrOf result LinesFault.Read → (S.has_failed source.new ≡ true)
        ⊎ IfSome (S.left source.old) (λ input. MAX_INPUT_BYTES < length input) }
    ensures taken { TakesAtMost (S.left source.old) (S.left source.new)
        (MAX_INPUT_BYTES + CHUNK_BYTES) }
    // What is too long has no journal and no bad line.
    ensures bound { IfSome (S.left source.old) (λ input. MAX_INPUT_BYTES < length input
        → IsErrOf result LinesFault.Read ⊎ IsErrOf result LinesFault.NoMemory) }
    ensures fault { IfErr result (λ f.
        IfSome (S.left source.old) (λ input. IsLinesFault input f)) }
    // A bad line does not end the reading.
    ensures read_on { IfErr result (λ f. f ≢ LinesFault.Read → f ≢ LinesFault.NoMemory →
        IsAtEnd (S.left source.new) × (S.has_failed source.new ≡ false)) }
{
    let reader = read_pieces(alloc, source)?;
    reader.into_journal()
}
