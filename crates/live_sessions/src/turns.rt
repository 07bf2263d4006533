//! The sequencer's turns over all sessions, and what joins the journal given on to the matching thread.
ghost use Rattle.std.specs.Prelude.{◌≡◌, true};
ghost use mathlib.Core.List.{IsPrefix};
ghost use Rattle.gate_link.specs.Links.{SameLink, journal_of};
ghost use Rattle.gate_link_stages.specs.Feeding.{given, SameFeeder};
ghost use Rattle.gate_link_stages.specs.declared.feed.Give.TheVariants.{Level};
ghost use Rattle.live_sessions.specs.code.Turning.{EndsTurns, RoundEnds};

use gate_link::{Feeder, Give, Sequencer, Takes};
use live_shared::{found, rest};
use spread_rules::Entry;
use std::alloc::Allocator;
use std::sync::Wait;
use std::sync::atomic::{AtomicBool, Ordering};

/// How many events of a session are taken in one turn at most. They stand one behind the other in the journal, and most
/// of what they send goes to the session's own writer: the 64 of a slice may send it more than half of what a ring of
/// 256 pieces takes.
const MAX_TURN_EVENTS: u32 = 8;

/// What a turn of each session came to.
#[derive(Clone, Copy)]
pub enum Round {
    /// The close of each session was taken.
    AllDone,
    /// Some event was taken.
    Took,
    /// No event was seen.
    Idle,
    /// The journal has its stated size, and a session is not done.
    Full,
}

/// How the turns ended.
#[derive(Clone, Copy)]
pub enum TurnsEnd {
    /// The close of each session was taken.
    AllDone,
    /// The journal has its stated size, and a session is not done.
    Full,
    /// The flag was set.
    Stopped,
}

/// A turn of each session.
fn turn_each<A: Allocator>(sequencer: &mut Sequencer<A>) -> Round
    ensures link { SameLink sequencer.old sequencer.new }
    ensures round { RoundEnds result sequencer.new }
    ensures grown { IsPrefix (journal_of sequencer.old) (journal_of sequencer.new) }
{
    let mut done = true;
    let mut took = false;
    for s in 0..sequencer.sessions() {
        match sequencer.turn_many(s as u8, MAX_TURN_EVENTS) {
            Takes::Done => {}
            Takes::JournalFull => return Round::Full,
            Takes::Took(_) => {
                done = false;
                took = true;
            }
            Takes::Empty => done = false,
        }
    }
    if done {
        return Round::AllDone;
    }
    if took { Round::Took } else { Round::Idle }
}

/// Takes turns until each session is done, the journal has its stated size, or the flag is set. What joins the journal
/// is given on.
pub fn take_turns<R: Wait, A: Allocator>(
    rt: &R,
    stop: &AtomicBool,
    sequencer: &mut Sequencer<A>,
    feeder: &mut Feeder<A>,
) -> TurnsEnd
    requires { IsPrefix (given feeder.old) (journal_of sequencer.old) }
    ensures link { SameLink sequencer.old sequencer.new }
    ensures turns { EndsTurns result sequencer.new }
    ensures ring { SameFeeder feeder.old feeder.new }
    ensures prefix { IsPrefix (given feeder.new) (journal_of sequencer.new) }
{
    let mut looks = 0u32;
    for _ in rt.forever() {
        if stop.load(Ordering::SeqCst) {
            return TurnsEnd::Stopped;
        }
        match turn_each(sequencer) {
            Round::Took => looks = found(looks),
            Round::Idle => looks = rest(rt, looks),
            Round::AllDone => return TurnsEnd::AllDone,
            Round::Full => return TurnsEnd::Full,
        }
        feeder.give(sequencer.journal());
    }
    unreachable!()
}

/// Gives what it can of the journal, and behind its last entry the end mark: Level where that was
/// pushed.
fn feed<A: Allocator>(feeder: &mut Feeder<A>, journal: &[Entry]) -> Give
    requires { IsPrefix (given feeder.old) journal.now }
    ensures ring { SameFeeder feeder.old feeder.new }
    ensures prefix { IsPrefix (given feeder.new) journal.now }
    ensures whole { result ≡ Level → given feeder.new ≡ journal.now }
{
    match feeder.give(journal) {
        Give::Level => match feeder.end() {
            Give::Gave(_) => Give::Level,
            end => end,
        },
        gave => gave,
    }
}

/// Gives all that is left of the journal, and the end mark, unless the flag is set: says whether it did.
pub fn feed_rest<R: Wait, A: Allocator>(
    rt: &R,
    stop: &AtomicBool,
    feeder: &mut Feeder<A>,
    journal: &[Entry],
) -> bool
    requires { IsPrefix (given feeder.old) journal.now }
    ensures ring { SameFeeder feeder.old feeder.new }
    ensures prefix { IsPrefix (given feeder.new) journal.now }
    ensures whole { result ≡ true → given feeder.new ≡ journal.now }
{
    let mut looks = 0u32;
    for _ in rt.forever() {
        if stop.load(Ordering::SeqCst) {
            return false;
        }
        match feed(feeder, journal) {
            Give::Gave(_) => looks = found(looks),
            Give::Full => looks = rest(rt, looks),
            Give::Level => return true,
            Give::Ended => return false,
        }
    }
    unreachable!()
}
