//! Days: the calls of `spread_host`, and the rooms that they go through.
ghost use Rattle.spread_rules.specs.Journal.{IsLawful};

use spread_journal::read_journal;
use spread_rules::Entry;
use std::alloc::Global;
use std::process::Abort;

mod applied;
mod audit;
mod check;
mod day;
mod faults;
mod no_memory;
mod replaces;
mod replay;
mod reported;

/// The journal of a text.
fn read_again(rt: &impl Abort, alloc: Global, text: &[u8]) -> Vec<Entry>
    ensures { IsLawful result.items }
{
    read_journal(alloc, text).expect(rt, "a journal")
}
