//! A recorded day in one thread: day lines in, the day's text out.
ghost use Rattle.std.specs.Io.KnownBytes.{Appends, IsAtEnd};
ghost use Rattle.std.specs.Prelude.{All, ◌≡◌, ◌<◌, ◌⊎◌, ◌+◌, ◌≢◌, IfOk, IfErr, IfSome, OnOk, IsErrOf, length, true, false};
ghost use Rattle.spread_rules_ids.specs.declared.limits.TheConstants.{MAX_INPUT_BYTES};
ghost use Rattle.spread_rules_ends.specs.Ends.{TakesAtMost};
ghost use Rattle.intake_lines.specs.declared.reading.TheConstants.{CHUNK_BYTES};
ghost use Rattle.spread_journal_lines.specs.JournalText.{HasByteIds};
ghost use Rattle.spread_host.specs.Headline.{IsJournalOfText, HasFills, HasOutgoing, BoughtIsSold, PaidIsReceived, IsAlwaysQuiet, IsDayOf};
ghost use Rattle.spread_host.specs.Days.{IsBehindReading, IsReplayFault, IsPartOut, text_of_day};
ghost use Rattle.spread_host_faults.specs.declared.fault.HostFault.{HostFault};

use crate::day::{day_of, write_day};
use intake_lines::read_day_lines;
use spread_host_faults::HostFault;
use spread_rules::Rulebook;
use spread_rules_ends::{Sink, Source};
use spread_rules_ids::Id;
use std::alloc::Allocator;
use text_day::Day;

/// Reads day lines to their end, applies their journal, and writes the day's text, or the journal text alone, and nothing else.
///
/// Faults, the first that applies: Read, where the source failed or gave more than 16,777,216 bytes; DayLine, naming the
/// first bad line, lines counted from 1; JournalFull, above 1,000,000 entries; NumbersSpent; Write, after which a prefix
/// of the text is out. NoMemory may stand anywhere between. After every fault but Write nothing was written.
pub fn replay<S: Source, K: Sink, A: Allocator + Copy>(
    alloc: A,
    rulebook: &Rulebook,
    stamp: Id,
    source: &mut S,
    sink: &mut K,
    journal_only: bool,
) -> Result<Day<A>, HostFault>
    requires source_works { S.has_failed source.old ≡ false }
    requires sink_works { K.has_failed sink.old ≡ false }

    // All was read, and the reader did not fail.
    ensures read_whole { OnOk result
        (IsAtEnd (S.left source.new) × (S.has_failed source.new ≡ false)) }

    // The headline, over the journal of the bytes read.
    ensures journal { IfOk result (λ day. IfSome (S.left source.old) (λ input.
        IsJournalOfText input day.journal.items)) }
    ensures fills { IfOk result (λ day. HasFills rulebook.now day.journal.items day.fills.items) }
    ensures outgoing { IfOk result (λ day.
        HasOutgoing rulebook.now stamp day.journal.items day.out.items) }
    ensures bought_is_sold { IfOk result (λ day. BoughtIsSold day.fills.items) }
    ensures paid_is_received { IfOk result (λ day. PaidIsReceived day.fills.items) }
    ensures quiet { IfOk result (λ day. IsAlwaysQuiet rulebook.now day.journal.items) }

    // What else is true of the day.
    ensures day { IfOk result (λ day.
        IsDayOf rulebook.now stamp day.journal.items day.fills.items) }
    // Ids are of bytes: so the journal has a text that is read again, law `read_back` of spread_journal.
    ensures byte_ids { IfOk result (λ day. All (λ e. HasByteIds e.event) day.journal.items) }

    // What was written, and nothing else.
    ensures written { IfOk result (λ day. (K.has_failed sink.new ≡ false)
        × Appends (K.written sink.old) (K.written sink.new)
        (text_of_day journal_only rulebook.now stamp day.journal.items)) }

    // When each fault comes, and what is out then.
    ensures read { IsErrOf result HostFault.Read → (S.has_failed source.new ≡ true)
        ⊎ IfSome (S.left source.old) (λ input. MAX_INPUT_BYTES < length input) }
    ensures taken { TakesAtMost (S.left source.old) (S.left source.new)
        (MAX_INPUT_BYTES + CHUNK_BYTES) }
    ensures bound { IfSome (S.left source.old) (λ input. MAX_INPUT_BYTES < length input
        → IsErrOf result HostFault.Read ⊎ IsErrOf result (HostFault.NoMemory 0)) }
    ensures read_on { IfErr result (λ f. IsBehindReading f →
        IsAtEnd (S.left source.new) × (S.has_failed source.new ≡ false)) }
    ensures write { IsErrOf result HostFault.Write → (K.has_failed sink.new ≡ true)
        × IfSome (S.left source.old) (λ input. IsPartOut journal_only rulebook.now stamp input
        (K.written sink.old) (K.written sink.new)) }
    ensures nothing_written { IfErr result (λ f. f ≢ HostFault.Write → sink.new ≡ sink.old) }
    ensures fault { IfErr result (IsReplayFault rulebook.now (S.left source.old)) }
{
    let journal = read_day_lines(alloc, source)?;
    let day = day_of(alloc, rulebook, stamp, journal)?;
    write_day(alloc, rulebook, &day, journal_only, sink)?;
    Ok(day)
}
