//! One entry is applied, and what it sends is given to the writers.
ghost use Rattle.std.specs.Prelude.{◌≡◌, List};
ghost use Rattle.spread_rules.specs.declared.event.Entry.{Entry};
ghost use Rattle.apply_desk.specs.Sending.{sending_rules, stamp_of};
ghost use Rattle.live_matching.specs.code.Posting.{CanPost, HasPosted, SamePosters, StepEnds};

use crate::posting::{PostedEntries, post_each};
use apply_market::ApplyFault;
use gate_link_stages::fits_entry;
use spread_rules::Entry;
use std::alloc::Allocator;
use std::sync::Wait;
use std::sync::atomic::AtomicBool;

/// How an entry's application ended, or that of all entries in the matching thread.
#[derive(Clone, Copy)]
pub enum MatchEnd {
    /// The entry was applied, and what it sends given to the writers; of the thread: every entry was, and the end mark taken.
    Whole,
    /// The flag was set, or an entry was none that a session sends.
    Stopped,
    /// The last entry that was taken could not be applied.
    Fault(ApplyFault),
}

/// Applies one entry, where it is one that a session sends, and gives each session's bytes to its writer.
pub fn match_one<R: Wait, A: Allocator + Copy>(
    rt: &R,
    stop: &AtomicBool,
    posted: &mut PostedEntries<'_, A>,
    entry: &Entry,
) -> MatchEnd
    requires posted { (entries : List Entry) × HasPosted entries posted.old }
    requires rings { CanPost posted.old }
    ensures rings { CanPost posted.new }
    ensures writers { SamePosters posted.old.posters.items posted.new.posters.items }
    ensures rules { sending_rules posted.new.reported ≡ sending_rules posted.old.reported }
    ensures stamp { stamp_of posted.new.reported ≡ stamp_of posted.old.reported }
    ensures step { StepEnds result entry.now posted.old posted.new }
{
    if !fits_entry(entry) || posted.reported.count() == u64::MAX {
        return MatchEnd::Stopped;
    }
    let PostedEntries { reported, posters } = posted;
    if let Err(fault) = reported.apply(entry) {
        return MatchEnd::Fault(fault);
    }
    if !post_each(rt, stop, reported, posters.as_mut_slice()) {
        return MatchEnd::Stopped;
    }
    MatchEnd::Whole
}
