//! What a caller reads off the contract of `replay`, fact by fact: this call is the call itself.
ghost use Rattle.std.specs.Io.KnownBytes.{Appends, IsAtEnd};
ghost use Rattle.std.specs.Prelude.{◌≡◌, ℕ, ◌<◌, ◌≤◌, ◌⊎◌, ◌≢◌, Contains, IfOk, IfErr, IfSome, OnOk, IsErrOf, length, take, true, false, Ok};
ghost use Rattle.spread_rules_ids.specs.declared.limits.TheConstants.{MAX_INPUT_BYTES, SESSIONS};
ghost use Rattle.spread_rules.specs.Journal.{IsLawful};
ghost use Rattle.spread_rules.specs.code.Legs.{bought, sold, paid, received};
ghost use Rattle.spread_rules.specs.Meaning.{filled};
ghost use Rattle.spread_rules.specs.Quiet.{IsQuiet};
ghost use Rattle.spread_rules_rulebook.specs.Rulebook.{implied};
ghost use Rattle.spread_rules.specs.declared.fill.Fill.{Fill};
ghost use Rattle.spread_match.specs.Sound.{KeepsOrder};
ghost use Rattle.std.specs.List.{flat_map};
ghost use Rattle.spread_report.specs.Outgoing.{AppliedEntry};
ghost use Rattle.spread_report_outbound.specs.Rows.{IsRow};
ghost use Rattle.spread_report.specs.Messages.{messages_to};
ghost use Rattle.spread_report_outbound.specs.Sessions.{bytes_of};
ghost use Rattle.spread_journal.specs.JournalReading.{ReadsJournal};
ghost use Rattle.spread_journal_lines.specs.JournalText.{journal_text};
ghost use Rattle.apply_desk.specs.Applied.{outgoing_bytes, applied_entries, applied_journal};
ghost use Rattle.intake_lines.specs.Reading.{IsJournalOf};
ghost use Rattle.intake_lines.specs.code.Reading.{HasParts};
ghost use Rattle.spread_host.specs.Days.{IsReplayFault, IsPartOut, text_of_day};
ghost use Rattle.spread_host_faults.specs.declared.fault.HostFault.{HostFault};

use spread_host::{HostFault, replay};
use spread_journal::laws::read_back;
use spread_rules::{Rulebook, Sink, Source};
use spread_rules_ids::Id;
use std::alloc::Allocator;
use text_day::Day;

/// A day of day lines.
pub fn day_of_lines<S: Source, K: Sink, A: Allocator + Copy>(
    alloc: A,
    rulebook: &Rulebook,
    stamp: Id,
    source: &mut S,
    sink: &mut K,
    journal_only: bool,
) -> Result<Day<A>, HostFault>
    requires source_works { S.has_failed source.old ≡ false }
    requires sink_works { K.has_failed sink.old ≡ false }
    ensures read_whole { OnOk result (IsAtEnd (S.left source.new)) }
    ensures read_sound { OnOk result (S.has_failed source.new ≡ false) }
    ensures journal { IfOk result (λ day.
        IfSome (S.left source.old) (λ input. IsJournalOf input day.journal.items)) }
    ensures parts { IfOk result (λ day.
        IfSome (S.left source.old) (λ input. HasParts input day.journal.items)) }
    ensures lawful { IfOk result (λ day. IsLawful day.journal.items) }
    ensures read_again { IfOk result (λ day.
        ReadsJournal (journal_text day.journal.items) (Ok day.journal.items)) }
    ensures fills { IfOk result (λ day.
        day.fills.items ≡ flat_map (λ (w : AppliedEntry). w.fills)
        (applied_entries rulebook.now day.journal.items)) }
    ensures outgoing { IfOk result (λ day. (s : ℕ) → s < SESSIONS
        → bytes_of day.out.items s ≡ outgoing_bytes rulebook.now stamp day.journal.items s) }
    ensures whole_frames { IfOk result (λ day. (s : ℕ) → s < SESSIONS
        → IsRow (messages_to rulebook.now stamp
        (applied_entries rulebook.now day.journal.items) s) (bytes_of day.out.items s)) }
    ensures lists { IfOk result (λ day. length day.out.items ≡ SESSIONS) }
    ensures bought_is_sold { IfOk result (λ day.
        (month : ℕ) → bought month day.fills.items ≡ sold month day.fills.items) }
    ensures paid_is_received { IfOk result (λ day.
        (month : ℕ) → paid month day.fills.items ≡ received month day.fills.items) }
    ensures quiet { IfOk result (λ day. (n : ℕ)
        → IsQuiet (implied rulebook.now)
        (applied_journal rulebook.now (take n day.journal.items)).orders) }
    ensures limits { IfOk result (λ day.
        (f : Fill) → Contains day.fills.items f → KeepsOrder day.journal.items f) }
    ensures totals { IfOk result (λ day.
        (f : Fill) → Contains day.fills.items f → filled f.order day.fills.items ≤ f.total) }
    ensures written { IfOk result (λ day.
        Appends (K.written sink.old) (K.written sink.new)
        (text_of_day journal_only rulebook.now stamp day.journal.items)) }
    ensures write_sound { OnOk result (K.has_failed sink.new ≡ false) }
    ensures read { IsErrOf result HostFault.Read
        → (S.has_failed source.new ≡ true)
        ⊎ IfSome (S.left source.old) (λ input. MAX_INPUT_BYTES < length input) }
    ensures write { IsErrOf result HostFault.Write
        → (K.has_failed sink.new ≡ true) × IfSome (S.left source.old) (λ input. IsPartOut
        journal_only rulebook.now stamp input (K.written sink.old) (K.written sink.new)) }
    ensures nothing_written { IfErr result (λ f. f ≢ HostFault.Write → sink.new ≡ sink.old) }
    ensures fault { IfErr result (IsReplayFault rulebook.now (S.left source.old)) }
{
    // Cites that a journal's text is read back.
    read_back();
    replay(alloc, rulebook, stamp, source, sink, journal_only)
}
