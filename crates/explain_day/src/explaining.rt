//! The entry of a place, explained in words.
ghost use Rattle.std.specs.Prelude.{◌≡◌, ◌≢◌, IfErr, IsErrOf, OnOk, true, false};
ghost use Rattle.spread_rules_ends.specs.Ends.{AppendsSome};
ghost use Rattle.explain_day.specs.Faults.{HasEntryAt, IsExplainFault};
ghost use Rattle.explain_day.specs.declared.fault.ExplainFault.{ExplainFault};

use crate::entry::words_of_entry;
use crate::fault::ExplainFault;
use spread_journal::{JournalFault, read_journal};
use spread_rules::Rulebook;
use spread_rules_ends::{Sink, write_all};
use std::alloc::Allocator;

/// Reads a journal text, and writes in words what the entry of that place, from 1, meant: each turn with the candidate
/// that was taken and those that ranked next, what the limit did not allow, and what came of it.
///
/// Faults: Journal, with the first fault of the text from the top; Place, where the journal has no such entry; NoMemory;
/// Write, with a prefix written. After any other fault nothing was written.
pub fn explain<K: Sink, A: Allocator + Copy>(
    alloc: A,
    rulebook: &Rulebook,
    text: &[u8],
    place: u64,
    sink: &mut K,
) -> Result<(), ExplainFault>
    requires { K.has_failed sink.old ≡ false }
    ensures explained { OnOk result (HasEntryAt text.now place) }
    ensures said { OnOk result (AppendsSome (K.written sink.old) (K.written sink.new)) }
    ensures not_failed { OnOk result (K.has_failed sink.new ≡ false) }
    ensures write { IsErrOf result ExplainFault.Write → (K.has_failed sink.new ≡ true)
        × HasEntryAt text.now place × AppendsSome (K.written sink.old) (K.written sink.new) }
    ensures nothing_written { IfErr result (λ f. f ≢ ExplainFault.Write → sink.new ≡ sink.old) }
    ensures fault { IfErr result (IsExplainFault text.now place) }
{
    let journal = match read_journal(alloc, text) {
        Ok(journal) => journal,
        Err(JournalFault::NoMemory) => return Err(ExplainFault::NoMemory),
        Err(fault) => return Err(ExplainFault::Journal(fault)),
    };
    if place == 0 || place > journal.len() as u64 {
        return Err(ExplainFault::Place);
    }
    let Ok(words) = words_of_entry(alloc, rulebook, &journal, place as usize - 1) else {
        return Err(ExplainFault::NoMemory);
    };
    match write_all(sink, &words) {
        Ok(()) => Ok(()),
        Err(_) => Err(ExplainFault::Write),
    }
}
