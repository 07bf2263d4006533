//! The day of a journal, and the writing of its text.
ghost use Rattle.std.specs.Prelude.{◌≡◌, ◌≤◌, ◌+◌, ◌⊎◌, IfOk, IfErr, OnOk, IsErrOf, ◌≢◌, All, length, true, false};
ghost use Rattle.std.specs.Io.KnownBytes.{Appends};
ghost use Rattle.spread_rules_ends.specs.Ends.{AppendsPrefix};
ghost use Rattle.spread_rules_ids.specs.declared.limits.TheConstants.{SESSIONS};
ghost use Rattle.spread_rules.specs.Journal.{IsLawful};
ghost use Rattle.spread_rules_rulebook.specs.Rulebook.{IsListed};
ghost use Rattle.spread_journal_lines.specs.JournalText.{HasByteIds};
ghost use Rattle.fix_wire_frames.specs.Frames.{IsFrameRow};
ghost use Rattle.apply_desk.specs.code.Applied.{IsApplyFault};
ghost use Rattle.text_day.specs.DayText.{AreShown};
ghost use Rattle.text_day.specs.code.DayText.{day_text, fills_text};
ghost use Rattle.text_messages.specs.Messages.{texts_of};
ghost use Rattle.text_fills.specs.Totals.{IsSummable};
ghost use Rattle.spread_host.specs.Headline.{HasFills, HasOutgoing, BoughtIsSold, PaidIsReceived, IsAlwaysQuiet, IsDayOf};
ghost use Rattle.spread_host_faults.specs.declared.fault.HostFault.{HostFault};

use apply_desk::apply_journal;
use apply_market::ApplyFault;
use spread_host_faults::HostFault;
use spread_match::laws::ranges;
use spread_rules::{Entry, Fill, Rulebook};
use spread_rules_ends::Sink;
use spread_rules_ids::Id;
use std::alloc::Allocator;
use text_day::{Day, TextFault};
use text_messages::TakesBlocks;

/// The day of a journal: its entries are applied in order.
pub fn day_of<A: Allocator + Copy>(
    alloc: A,
    rulebook: &Rulebook,
    stamp: Id,
    journal: Vec<Entry, A>,
) -> Result<Day<A>, ApplyFault>
    requires { IsLawful journal.items }
    ensures journal { IfOk result (λ day. day.journal.items ≡ journal.items) }
    ensures fills { IfOk result (λ day. HasFills rulebook.now day.journal.items day.fills.items) }
    ensures outgoing { IfOk result (λ day.
        HasOutgoing rulebook.now stamp day.journal.items day.out.items) }
    ensures bought_is_sold { IfOk result (λ day. BoughtIsSold day.fills.items) }
    ensures paid_is_received { IfOk result (λ day. PaidIsReceived day.fills.items) }
    ensures quiet { IfOk result (λ day. IsAlwaysQuiet rulebook.now day.journal.items) }
    ensures day { IfOk result (λ day.
        IsDayOf rulebook.now stamp day.journal.items day.fills.items) }
    ensures fault { IfErr result (IsApplyFault rulebook.now journal.items) }
{
    // Cites the ranges of a journal's fills, and that a rulebook is lawful.
    ranges();
    rulebook.months();
    let applied = apply_journal(alloc, rulebook, stamp, &journal)?;
    Ok(Day {
        journal,
        fills: applied.fills,
        out: applied.out,
    })
}

/// Writes the text of a day, or of its journal alone, and nothing else. The ids written are of bytes. Its fills are of the
/// rulebook's instruments and in range, and its lists at most sixteen, each of whole frames, or empty. Answers NoMemory,
/// its place one more than the journal's length, with nothing written, or Write, with a prefix of the text written.
pub fn write_day<K: TakesBlocks<A>, A: Allocator + Copy>(
    alloc: A,
    rulebook: &Rulebook,
    day: &Day<A>,
    journal_only: bool,
    sink: &mut K,
) -> Result<(), HostFault>
    requires not_failed { K.has_failed sink.old ≡ false }
    requires lists { length day.now.out.items ≤ SESSIONS }
    requires rows { All IsFrameRow (texts_of day.now.out.items) }
    requires shown { AreShown rulebook.now day.now.fills.items }
    ensures ok { OnOk result (Appends (K.written sink.old) (K.written sink.new)
        (day_text journal_only rulebook.now day.now.journal.items day.now.fills.items
        (texts_of day.now.out.items))) }
    ensures not_failed { OnOk result (K.has_failed sink.new ≡ false) }
    ensures bytes { OnOk result (All (λ e. HasByteIds e.event) day.now.journal.items) }
    ensures memory { IfErr result (λ f. f ≢ HostFault.Write
        → (f ≡ HostFault.NoMemory (length day.now.journal.items + 1)) × (sink.new ≡ sink.old)) }
    ensures write { IsErrOf result HostFault.Write → (K.has_failed sink.new ≡ true)
        × AppendsPrefix (K.written sink.old) (K.written sink.new)
        (day_text journal_only rulebook.now day.now.journal.items day.now.fills.items
        (texts_of day.now.out.items)) }
{
    match text_day::write_day(alloc, rulebook, day, journal_only, sink) {
        Ok(()) => Ok(()),
        Err(TextFault::Write) => Err(HostFault::Write),
        Err(TextFault::NoMemory) => Err(HostFault::NoMemory(day.journal.len() as u64 + 1)),
    }
}

/// Writes the lines of fills, and of months, and nothing else. Each fill's instrument is the rulebook's, its quantity is
/// at most 999,999, and its price and leg prices are within 2,000,000,000 either way. Answers NoMemory(0), with nothing
/// written, or Write, with a prefix of the text written. For who has fills at hand; `check` writes those of a journal.
pub fn write_fills<K: Sink, A: Allocator>(
    alloc: A,
    rulebook: &Rulebook,
    fills: &[Fill],
    sink: &mut K,
) -> Result<(), HostFault>
    requires not_failed { K.has_failed sink.old ≡ false }
    requires listed { All (λ f. IsListed rulebook.now f.instrument) fills.now }
    requires summable { All IsSummable fills.now }
    ensures ok { OnOk result
        (Appends (K.written sink.old) (K.written sink.new) (fills_text rulebook.now fills.now)) }
    ensures not_failed { OnOk result (K.has_failed sink.new ≡ false) }
    ensures no_memory { IsErrOf result (HostFault.NoMemory 0) → sink.new ≡ sink.old }
    ensures write { IsErrOf result HostFault.Write → (K.has_failed sink.new ≡ true)
        × AppendsPrefix (K.written sink.old) (K.written sink.new)
        (fills_text rulebook.now fills.now) }
    ensures only { IfErr result (λ f. (f ≡ HostFault.NoMemory 0) ⊎ (f ≡ HostFault.Write)) }
{
    text_day::write_fills(alloc, rulebook, fills, sink)?;
    Ok(())
}
