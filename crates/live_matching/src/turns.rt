//! The entries of a journal taken from a ring as they come, applied, and what they send given to the writers.
ghost use Rattle.std.specs.Prelude.{◌≡◌};
ghost use Rattle.apply_desk.specs.Sending.{sending_rules, stamp_of};
ghost use Rattle.live_matching.specs.code.Matching.{HasWorked, MatchEnds};
ghost use Rattle.live_matching.specs.code.Posting.{IsUnfed, SamePosters};
ghost use Rattle.gate_link_stages.specs.Feeding.{SameMatcher, taken};

use crate::posting::{PostedEntries, end_each};
use crate::step::{MatchEnd, match_one};
use gate_link_stages::{Lent, Matcher};
use live_shared::{Gate, found, rest};
use std::alloc::Allocator;
use std::sync::Wait;
use std::sync::atomic::{AtomicBool, Ordering};

/// What the matching thread hands back.
#[derive(Drop)]
pub struct Matched<'r, A: Allocator + Copy> {
    pub matcher: Matcher<A>,
    pub posted: PostedEntries<'r, A>,
    /// How many entries were applied and given to the writers.
    pub worked: u64,
    pub end: MatchEnd,
}

/// Applies the entries as they come, and gives what each of them sends to the writers before it takes the next, until
/// the end mark is taken, the flag is set, or one cannot be applied: then it sets the flag. Answers how many were
/// applied and given to the writers, and how it ended.
pub fn match_all<R: Wait, G: Gate, A: Allocator + Copy>(
    rt: &R,
    gate: &G,
    stop: &AtomicBool,
    matcher: &mut Matcher<A>,
    posted: &mut PostedEntries<'_, A>,
) -> (u64, MatchEnd)
    requires { IsUnfed matcher.old posted.old }
    ensures ring { SameMatcher matcher.old matcher.new }
    ensures writers { SamePosters posted.old.posters.items posted.new.posters.items }
    ensures rules { sending_rules posted.new.reported ≡ sending_rules posted.old.reported }
    ensures stamp { stamp_of posted.new.reported ≡ stamp_of posted.old.reported }
    ensures worked { HasWorked result.1 result.0 (taken matcher.new) }
    ensures ends { MatchEnds result.1 (taken matcher.new) posted.new }
{
    let mut worked = 0u64;
    let mut looks = 0u32;
    for _ in rt.forever() {
        if stop.load(Ordering::SeqCst) {
            return (worked, MatchEnd::Stopped);
        }
        match matcher.lend() {
            Lent::Entry(entry) => match match_one(rt, stop, posted, entry) {
                MatchEnd::Whole => {
                    looks = found(looks);
                    worked = posted.reported.count();
                    gate.matched(worked);
                }
                end => {
                    stop.store(true, Ordering::SeqCst);
                    return (worked, end);
                }
            },
            Lent::Empty => looks = rest(rt, looks),
            Lent::Ended => {
                end_each(rt, stop, posted.posters.as_mut_slice());
                return (worked, MatchEnd::Whole);
            }
        }
    }
    unreachable!()
}
