//! A journal text drawn: read again, applied again, its picture written.
ghost use Rattle.std.specs.Prelude.{◌≡◌, ◌≢◌, All, IfErr, OnOk, IsErrOf, true, false};
ghost use Rattle.spread_rules_ends.specs.Ends.{AppendsSome};
ghost use Rattle.draw_day.specs.Drawn.{IsRead, IsDrawFault};
ghost use Rattle.draw_day.specs.declared.fault.DrawFault.{DrawFault};
ghost use Rattle.spread_rules.specs.Journal.{FitsEntry};

use crate::fault::DrawFault;
use crate::watch::courses_of;
use draw_page::page_of;
use spread_journal::{JournalFault, read_journal};
use spread_rules::{Entry, Rulebook};
use spread_rules_ends::{Failed, Sink, write_all};
use std::alloc::{AllocError, Allocator};

/// The picture of a journal's day.
fn picture<A: Allocator + Copy>(
    alloc: A,
    rulebook: &Rulebook,
    journal: &[Entry],
) -> Result<String<A>, AllocError>
    requires { All FitsEntry journal.now }
{
    let courses = courses_of(alloc, rulebook, journal)?;
    page_of(alloc, rulebook, &courses, journal.len() as u64)
}

/// Reads a journal text, applies its entries, and writes one SVG file: a panel for each month that traded and below them
/// one for each spread, with the best buy and sell price over the places of the journal, and the trades, direct and
/// implied.
///
/// Faults: Journal, with the first fault of the text from the top, and nothing written; NoMemory, with nothing written;
/// Write, with a prefix written.
pub fn draw<K: Sink, A: Allocator + Copy>(
    alloc: A,
    rulebook: &Rulebook,
    text: &[u8],
    sink: &mut K,
) -> Result<(), DrawFault>
    requires { K.has_failed sink.old ≡ false }
    ensures read { OnOk result (IsRead text.now) }
    ensures drawn { OnOk result (AppendsSome (K.written sink.old) (K.written sink.new)) }
    ensures not_failed { OnOk result (K.has_failed sink.new ≡ false) }
    ensures write { IsErrOf result DrawFault.Write → (K.has_failed sink.new ≡ true)
        × IsRead text.now × AppendsSome (K.written sink.old) (K.written sink.new) }
    ensures nothing_written { IfErr result (λ f. f ≢ DrawFault.Write → sink.new ≡ sink.old) }
    ensures fault { IfErr result (IsDrawFault text.now) }
{
    let journal = match read_journal(alloc, text) {
        Ok(journal) => journal,
        Err(JournalFault::NoMemory) => return Err(DrawFault::NoMemory),
        Err(fault) => return Err(DrawFault::Journal(fault)),
    };
    let picture = match picture(alloc, rulebook, &journal) {
        Ok(picture) => picture,
        Err(_) => return Err(DrawFault::NoMemory),
    };
    match write_all(sink, picture.as_bytes()) {
        Ok(()) => Ok(()),
        Err(Failed) => Err(DrawFault::Write),
    }
}
