//! Judges the first messages that are held while they are still held, so that their events can be sent together.
ghost use Rattle.std.specs.Prelude.{◌≡◌, ◌≤◌, ◌<◌, length, drop, min, MatchBool, []};
ghost use Rattle.fix_wire_frames.specs.Frames.{frames};
ghost use Rattle.fix_session_judging.specs.Ahead.{IsAhead};
ghost use Rattle.fix_session_judging.specs.code.Judged.{JudgesOne};

use crate::session::{Session, Verdict};
use fix_wire_framer::Framer;
use fix_wire_frames::FrameTable;
use spread_rules::Entry;

/// How far a reader has judged ahead.
#[derive(Clone, Copy)]
pub struct Ahead {
    /// How many messages were judged.
    pub messages: usize,
    /// How many events they have.
    pub events: usize,
    /// Where what follows them begins among the held bytes.
    pub place: usize,
    /// The session after them.
    pub session: Session,
}

/// Judges the next message that is held, if one stands, and puts its event behind the others.
#[inline(always)]
fn judge_next(
    framer: &Framer,
    number: u8,
    table: &mut FrameTable,
    ahead: &mut Ahead,
    entries: &mut [Entry],
) -> bool
    requires place { ahead.old.place ≤ length framer.now }
    requires room { ahead.old.events < length entries.old }
    requires few { ahead.old.messages < length entries.old }
    ensures size { length entries.new ≡ length entries.old }
    ensures judged { MatchBool result
        (JudgesOne number framer.now entries.old ahead.old entries.new ahead.new)
        ((frames (drop ahead.old.place framer.now) ≡ []) × (ahead.new ≡ ahead.old)
        × (entries.new ≡ entries.old)) }
{
    let Some(place) = framer.find(ahead.place, table) else {
        return false;
    };
    let message = framer.message(place, table);
    let mut verdict = Verdict::Nothing;
    let change = ahead.session.judge_into(&message, &mut verdict);
    ahead.session.change(&verdict, change);
    ahead.place = place.end;
    ahead.messages += 1;
    match verdict {
        Verdict::Event(event) => {
            let session = number;
            entries[ahead.events] = Entry { session, event };
            ahead.events += 1;
            true
        }
        Verdict::Nothing => true,
    }
}

/// Judges the first messages that are held, at most so many, none past one that closes the session.
pub fn judge_ahead(
    framer: &Framer,
    session: Session,
    number: u8,
    most: usize,
    entries: &mut [Entry],
) -> Ahead
    requires { most ≤ length entries.old }
    ensures size { length entries.new ≡ length entries.old }
    ensures ahead { IsAhead number most (record { held = framer.now; session = session })
        entries.new result }
{
    let mut ahead = Ahead {
        messages: 0,
        events: 0,
        place: 0,
        session,
    };
    let mut table = FrameTable::empty();
    for _ in 0..most {
        if ahead.session.is_closed() {
            return ahead;
        }
        if !judge_next(framer, number, &mut table, &mut ahead, entries) {
            return ahead;
        }
    }
    ahead
}

/// How many messages are held, or `most` where they are more.
pub fn count_messages(framer: &Framer, most: usize) -> usize
    ensures { result ≡ min most (length (frames framer.now)) }
{
    let mut place = 0;
    let mut table = FrameTable::empty();
    for count in 0..most {
        match framer.find(place, &mut table) {
            Some(found) => place = found.end,
            None => return count,
        }
    }
    most
}
