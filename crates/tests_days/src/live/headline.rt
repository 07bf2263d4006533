//! What a caller reads off the contract of `run_day`, fact by fact: this call is the call itself.
ghost use Rattle.std.specs.Prelude.{◌≡◌, ℕ, ◌<◌, ◌≤◌, Contains, IfOk, IfErr, IsErrOf, length, take, [], All};
ghost use Rattle.spread_rules_ids.specs.declared.limits.TheConstants.{SESSIONS};
ghost use Rattle.fix_wire_frames.specs.Frames.{IsFrameRow};
ghost use Rattle.spread_rules.specs.Journal.{IsLawful, restricted};
ghost use Rattle.spread_rules.specs.code.Legs.{bought, sold, paid, received};
ghost use Rattle.spread_rules.specs.Meaning.{filled};
ghost use Rattle.spread_rules.specs.Quiet.{IsQuiet};
ghost use Rattle.spread_rules_rulebook.specs.Rulebook.{implied};
ghost use Rattle.spread_rules.specs.declared.fill.Fill.{Fill};
ghost use Rattle.spread_match.specs.Sound.{KeepsOrder};
ghost use Rattle.std.specs.List.{flat_map};
ghost use Rattle.spread_report.specs.Outgoing.{AppliedEntry};
ghost use Rattle.spread_report_outbound.specs.Rows.{IsRow};
ghost use Rattle.spread_report.specs.Messages.{messages_to};
ghost use Rattle.spread_report_outbound.specs.Sessions.{bytes_of};
ghost use Rattle.apply_desk.specs.Applied.{outgoing_bytes, applied_entries, applied_journal};
ghost use Rattle.text_day.specs.DayText.{AreShown};
ghost use Rattle.text_messages.specs.Messages.{texts_of};
ghost use Rattle.live_sessions.specs.Streams.{whole_at, all_events};
ghost use Rattle.spread_host.specs.Days.{texts_below};
ghost use Rattle.spread_host.specs.LiveDays.{IsRunDayFault};
ghost use Rattle.spread_host_faults.specs.declared.fault.HostFault.{HostFault};

use spread_host::{Caps, Gate, HostFault, run_day};
use spread_rules::Rulebook;
use spread_rules_ids::Id;
use std::alloc::Allocator;
use std::sync::Wait;
use std::thread::Threads;
use text_day::Day;

/// A day in threads.
pub fn day_of_streams<R: Threads + Wait + Sync, G: Gate, A: Allocator + Copy + Send>(
    rt: &R,
    alloc: A,
    rulebook: &Rulebook,
    stamp: Id,
    streams: Vec<Vec<u8, A>, A>,
    gate: &G,
    caps: Caps,
) -> Result<Day<A>, HostFault>
    ensures journal { IfOk result (λ day.
        (s : ℕ) → restricted s day.journal.items ≡ whole_at streams.items s) }
    ensures size { IfOk result (λ day. length day.journal.items ≤ caps.journal) }
    ensures lawful { IfOk result (λ day. IsLawful day.journal.items) }
    ensures fills { IfOk result (λ day.
        day.fills.items ≡ flat_map (λ (w : AppliedEntry). w.fills)
        (applied_entries rulebook.now day.journal.items)) }
    ensures outgoing { IfOk result (λ day. (s : ℕ) → s < SESSIONS
        → bytes_of day.out.items s ≡ outgoing_bytes rulebook.now stamp day.journal.items s) }
    ensures whole_frames { IfOk result (λ day. (s : ℕ) → s < SESSIONS
        → IsRow (messages_to rulebook.now stamp
        (applied_entries rulebook.now day.journal.items) s) (bytes_of day.out.items s)) }
    ensures no_stream { IfOk result (λ day.
        (s : ℕ) → s < SESSIONS → length streams.items ≤ s → bytes_of day.out.items s ≡ []) }
    ensures lists { IfOk result (λ day. length day.out.items ≡ SESSIONS) }
    ensures texts { IfOk result (λ day.
        texts_of day.out.items ≡ texts_below SESSIONS rulebook.now stamp day.journal.items) }
    ensures rows { IfOk result (λ day. All IsFrameRow (texts_of day.out.items)) }
    ensures shown { IfOk result (λ day. AreShown rulebook.now day.fills.items) }
    ensures bought_is_sold { IfOk result (λ day.
        (month : ℕ) → bought month day.fills.items ≡ sold month day.fills.items) }
    ensures paid_is_received { IfOk result (λ day.
        (month : ℕ) → paid month day.fills.items ≡ received month day.fills.items) }
    ensures quiet { IfOk result (λ day. (n : ℕ)
        → IsQuiet (implied rulebook.now)
        (applied_journal rulebook.now (take n day.journal.items)).orders) }
    ensures limits { IfOk result (λ day.
        (f : Fill) → Contains day.fills.items f → KeepsOrder day.journal.items f) }
    ensures totals { IfOk result (λ day.
        (f : Fill) → Contains day.fills.items f → filled f.order day.fills.items ≤ f.total) }
    ensures journal_full { IsErrOf result HostFault.JournalFull
        → caps.journal < all_events streams.items }
    ensures fault { IfErr result
        (λ f. IsRunDayFault rulebook.now streams.items caps.ring caps.journal f) }
{
    run_day(rt, alloc, rulebook, stamp, streams, gate, caps)
}
