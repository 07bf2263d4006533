//! What was sent is taken back where an entry is refused.
ghost use Rattle.std.specs.Prelude.{◌≡◌, ℕ, ◌<◌, List, length, take, slice_index_or};
ghost use Rattle.spread_rules_ids.specs.declared.limits.TheConstants.{SESSIONS};
ghost use Rattle.spread_report_outbound.specs.Sessions.{bytes_of};
ghost use Rattle.spread_report_outbound.specs.code.Sessions.{OutboundState, texts_of, session_text};

use crate::outbox::Outbox;
use crate::parties::spell_parties;
use crate::session::CompIds;
use spread_rules_ids::limits::SESSIONS;
use std::alloc::Allocator;

/// How sessions and lists stood: the length of each list, the next number of each session, and the CompIDs of one.
#[derive(Drop)]
pub struct Mark {
    lengths: [usize; SESSIONS],
    numbers: [u64; SESSIONS],
    session: u8,
    comp_ids: Option<CompIds>,
    ghost in_range: { session < SESSIONS },
    ghost counted: { length numbers ≡ SESSIONS },
}

impl<A: Allocator> Outbox<'_, A> {
    ghost use Rattle.spread_report_outbound.specs.code.Sending.{StaysLent};
    ghost use Rattle.spread_report_outbound.specs.code.TakingBack.{IsMark, SentSince};

    /// Notes how the sessions and their lists stand before this session's entry, which alone may bring other CompIDs.
    pub fn mark(&self, session: u8) -> Mark
        requires { session < SESSIONS }
        ensures { IsMark result session self.now.outbound.now (texts_of self.now.lists.now) }
    {
        let outbound = &*self.outbound;
        let mut mark = Mark {
            lengths: [0; SESSIONS],
            numbers: outbound.numbers,
            session,
            comp_ids: outbound.comp_ids[session as usize],
        };
        note_lengths(self.lists, &mut mark.lengths);
        mark
    }

    /// Takes back what was sent since the mark: the sessions and all lists are as they were then. It is called only where an
    /// entry is refused, and stands apart from the code of the others.
    #[cold]
    #[inline(never)]
    pub fn take_back(&mut self, mark: &Mark)
        ensures lent { StaysLent self.old self.new }
        ensures sessions { (session : ℕ) (before : OutboundState) (texts : List (List ℕ)) →
            IsMark mark.now session before texts →
            SentSince session before self.old.outbound.now texts (texts_of self.old.lists.now) →
            self.new.outbound.now ≡ before }
        ensures lists { (session : ℕ) (before : OutboundState) (texts : List (List ℕ)) →
            IsMark mark.now session before texts →
            SentSince session before self.old.outbound.now texts (texts_of self.old.lists.now) →
            (s : ℕ) → s < SESSIONS → bytes_of self.new.lists.now s ≡ session_text texts s }
        ensures stamp { self.new.outbound.now.stamp ≡ self.old.outbound.now.stamp }
    {
        let outbound = &mut *self.outbound;
        outbound.numbers = mark.numbers;
        outbound.comp_ids[mark.session as usize] = mark.comp_ids;
        spell_parties(&mut outbound.parties, &outbound.comp_ids, &outbound.stamp);
        cut_back(self.lists, &mark.lengths);
    }
}

/// Cuts each list to its length.
fn cut_back<A: Allocator>(lists: &mut [Vec<u8, A>], lengths: &[usize; SESSIONS])
    requires lists { length lists.old ≡ SESSIONS }
    ensures size { length lists.new ≡ SESSIONS }
    ensures rows { (s : ℕ) → s < SESSIONS → bytes_of lists.new s
        ≡ take (slice_index_or lengths.now s 0) (bytes_of lists.old s) }
{
    for s in 0..SESSIONS {
        let length = lengths[s];
        lists[s].truncate(length);
    }
}

/// Notes how long each list is. It is not inlined: a mark is made before each entry, and beside other code the compiler reads
/// all sixteen lengths before it writes one, and has no registers for so many.
#[inline(never)]
fn note_lengths<A: Allocator>(lists: &[Vec<u8, A>], lengths: &mut [usize; SESSIONS])
    requires { length lists.now ≡ SESSIONS }
    ensures { (s : ℕ) → s < SESSIONS → slice_index_or lengths.new s 0 ≡ length (bytes_of lists.now s) }
{
    for s in 0..SESSIONS {
        let count = lists[s].len();
        lengths[s] = count;
    }
}
