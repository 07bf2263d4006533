//! An entry explained: what it says, how its order was traded, and what came of it.
ghost use Rattle.std.specs.Prelude.{◌<◌, All, length};
ghost use Rattle.spread_rules.specs.Journal.{FitsEntry};

use crate::outcome_words::{put_loses_place, put_outcome};
use crate::turn_words::put_turns;
use explain_entries::{Words, explain_entry, put_entry};
use spread_rules::{Entry, Rulebook};
use spread_rules_ends::NoMemory;
use std::alloc::Allocator;

/// The words of the n-th entry from 0.
pub fn words_of_entry<A: Allocator + Copy>(
    alloc: A,
    rulebook: &Rulebook,
    journal: &[Entry],
    n: usize,
) -> Result<Vec<u8, A>, NoMemory>
    requires fits { All FitsEntry journal.now }
    requires within { n < length journal.now }
{
    let before = &journal[..n];
    let entry = &journal[n];
    let told = explain_entry(alloc, rulebook, before, entry)?;
    let mut words = Words::new(alloc, rulebook);
    put_entry(&mut words, n as u64 + 1, entry);
    put_loses_place(&mut words, &told);
    if let Some(traded) = &told.traded {
        put_turns(&mut words, traded);
    }
    put_outcome(&mut words, before, entry, &told);
    words.finish()
}
