//! What the threads of a day work with, made before any of them is started.
ghost use Rattle.std.specs.Prelude.{◌≡◌, ◌⊎◌, ℕ, [], length, IfOk, IfErr, OnOk, vec_len};
ghost use Rattle.apply_desk.specs.Sending.{sending_rules, stamp_of};
ghost use Rattle.gate_link_stages.specs.Faults.{IsRingRefusal, IsRingSize};
ghost use Rattle.live_day.specs.Limits.{IsWithinLimits};
ghost use Rattle.live_day.specs.Streams.{IsLink};
ghost use Rattle.live_day.specs.code.Making.{IsMade, IsStagesFault};
ghost use Rattle.live_matching.specs.code.Posting.{NoneEnded, posted_at};
ghost use Rattle.live_writers.specs.code.Writing.{ArePostPairs};

use crate::fault::{ThreadsFault, of_apply};
use apply_desk::ReportedEntries;
use gate_link::{
    Feeder, Gateway, LinkFault, Matcher, Poster, Sequencer, Writer, feed_ring, link, post_ring,
};
use live_matching::PostedEntries;
use spread_rules::Rulebook;
use spread_rules_ids::Id;
use std::alloc::Allocator;

/// How many events each ring takes, 1 to 4,096, and how many entries the journal, at most 1,000,000.
#[derive(Clone, Copy, PartialEq, Eq)]
pub struct Caps {
    pub ring: usize,
    pub journal: usize,
}

/// For so many entries at most there is room for ids and statuses before the first one: a journal may have room for far
/// more than come.
const EARLY_ENTRIES: usize = 100_000;

/// The rulebook of a day, and the SendingTime (tag 52) of all its messages.
#[derive(Clone, Copy)]
pub struct DaySettings<'r> {
    pub rulebook: &'r Rulebook,
    pub stamp: Id,
}

/// What the threads of a day work with: the sessions' gateways and their sequencer, the ring that gives the journal on,
/// what applies it, and the writers of what the sessions are sent.
#[derive(Drop)]
pub struct Stages<'r, A: Allocator + Copy> {
    pub gateways: Vec<Gateway<A>, A>,
    pub sequencer: Sequencer<A>,
    pub feeder: Feeder<A>,
    pub matcher: Matcher<A>,
    pub posted: PostedEntries<'r, A>,
    pub writers: Vec<Writer<A>, A>,
    /// How many entries the journal has room for.
    pub room: usize,
}

/// The two ends of each session's ring to its writer.
#[derive(Drop)]
struct WriterRings<A: Allocator> {
    posters: Vec<Poster<A>, A>,
    writers: Vec<Writer<A>, A>,
}

/// A ring to a writer for each session.
fn writer_rings<A: Allocator + Copy>(
    alloc: A,
    sessions: usize,
    ring: usize,
) -> Result<WriterRings<A>, LinkFault>
    requires { IsRingSize ring }
    ensures count { IfOk result (λ r.
        (vec_len r.posters ≡ sessions) × (vec_len r.writers ≡ sessions)) }
    ensures pairs { IfOk result (λ r. ArePostPairs r.posters.items r.writers.items) }
    ensures none { IfOk result (λ r. (s : ℕ) → posted_at r.posters.items s ≡ []) }
    ensures open { IfOk result (λ r. NoneEnded r.posters.items) }
    ensures refusal { IfErr result (λ f. IsRingRefusal f ring) }
{
    let Ok(posters) = Vec::with_capacity(alloc, sessions) else {
        return Err(LinkFault::NoMemory);
    };
    let Ok(writers) = Vec::with_capacity(alloc, sessions) else {
        return Err(LinkFault::NoMemory);
    };
    let mut posters = posters;
    let mut writers = writers;
    for s in 0..sessions {
        let (poster, writer) = match post_ring(alloc, ring) {
            Ok(made) => made,
            Err(fault) => return Err(fault),
        };
        posters.push_reserved(poster);
        writers.push_reserved(writer);
    }
    Ok(WriterRings { posters, writers })
}

/// The stages of a day that has not begun.
pub fn stages_of<'r, A: Allocator + Copy>(
    alloc: A,
    rules: &DaySettings<'r>,
    sessions: usize,
    caps: Caps,
) -> Result<Stages<'r, A>, ThreadsFault>
    ensures limits { OnOk result (IsWithinLimits sessions caps.ring caps.journal) }
    ensures count { IfOk result (λ s. length s.gateways.items ≡ sessions) }
    ensures ready { IfOk result (λ s. IsMade caps.ring s) }
    ensures room { IfOk result (λ s. s.room ≡ caps.journal) }
    ensures rules { IfOk result (λ s. sending_rules s.posted.reported ≡ rules.now.rulebook.now) }
    ensures stamp { IfOk result (λ s. stamp_of s.posted.reported ≡ rules.now.stamp) }
    ensures within { IfErr result (λ f.
        IsLink f ⊎ IsWithinLimits sessions caps.ring caps.journal) }
    ensures fault { IfErr result (IsStagesFault sessions caps.ring caps.journal) }
{
    let (gateways, sequencer) = match link(alloc, sessions, caps.ring, caps.journal) {
        Ok(made) => made,
        Err(fault) => return Err(ThreadsFault::Link(fault)),
    };
    let (feeder, matcher) = match feed_ring(alloc, caps.ring) {
        Ok(made) => made,
        Err(fault) => return Err(ThreadsFault::Link(fault)),
    };
    let WriterRings { posters, writers } = match writer_rings(alloc, sessions, caps.ring) {
        Ok(made) => made,
        Err(fault) => return Err(ThreadsFault::Link(fault)),
    };
    let early = caps.journal.min(EARLY_ENTRIES);
    let reported = match ReportedEntries::with_capacity(alloc, rules.rulebook, rules.stamp, early) {
        Ok(reported) => reported,
        Err(fault) => return Err(of_apply(fault)),
    };
    Ok(Stages {
        gateways,
        sequencer,
        feeder,
        matcher,
        posted: PostedEntries { reported, posters },
        writers,
        room: caps.journal,
    })
}
