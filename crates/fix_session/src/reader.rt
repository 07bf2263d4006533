//! Reads one session's stream: it looks at a message, judges it and passes it.
ghost use Rattle.std.specs.Prelude.{◌≡◌, ◌-◌, ◌<◌, ◌≤◌, length, take, drop, min, is_some, option_map, IfOk, OnOk};
ghost use Rattle.std.specs.Bool.{OnTrue, OnFalse};
ghost use Rattle.fix_wire_framer.specs.declared.framer.TheConstants.{BUFFER_BYTES};
ghost use Rattle.fix_wire_frames.specs.Frames.{frames};
ghost use Rattle.fix_wire_frames.specs.Held.{first_frame, from_first_start};
ghost use Rattle.fix_wire_framer.specs.Pieces.{IsDrained};
ghost use Rattle.fix_session_judging.specs.Steps.{judge, ended, is_closed};
ghost use Rattle.fix_session_judging.specs.Reading.{ReaderState, new_reader, with_more, first_message, first_verdict, after_skipping, after_passing, Fed};
ghost use Rattle.fix_wire_framer.specs.FramePlaces.{FollowsFrames};
ghost use Rattle.fix_session_judging.specs.Ahead.{IsAhead, after_ahead};
ghost use Rattle.fix_session_judging.specs.code.Changes.{judgement_with};
ghost use Rattle.fix_session.specs.code.ReaderFields.{IsKept};

use fix_session_judging::{Ahead, Change, Session, Verdict, count_messages, judge_ahead};
use fix_wire_framer::{Framer, Next};
use spread_rules::Entry;
use std::alloc::{AllocError, Allocator};
use std::marker::Model;

/// The bytes of one session that are put and not passed, and the session as the passed messages left it.
#[derive(Drop)]
pub struct Reader {
    framer: Framer,
    session: Session,
    // What the first message says, once that message was looked at.
    verdict: Verdict,
    // What it changes in the session, once it was looked at.
    due: Option<Change>,
}

impl Model for Reader {
    ghost use Rattle.fix_session_judging.specs.Reading.{ReaderState};
    ghost use Rattle.fix_session.specs.code.ReaderFields.{state_of, IsKept};

    ghost Value = { ReaderState };

    ghost view = { state_of };

    ghost invariant = { IsKept };
}

/// Sets what the first message says, if one stands, and tells what it changes in the session. Bytes at which no frame stands
/// are skipped.
#[inline(never)]
fn judge_first(framer: &mut Framer, session: &Session, verdict: &mut Verdict) -> Option<Change>
    ensures verdict { option_map (judgement_with session.now verdict.new) result
        ≡ option_map (judge session.now) (first_frame (frames framer.old)) }
    ensures held { framer.new ≡ from_first_start framer.old }
{
    match framer.next() {
        Next::Message(message) => Some(session.judge_into(&message, verdict)),
        Next::Need => None,
    }
}

/// Finds what the first message says, unless it was found before: a message is judged once, however often it is asked for.
#[inline(always)]
fn find_due(framer: &mut Framer, session: &Session, verdict: &mut Verdict, due: &mut Option<Change>)
    requires kept { IsKept (record {
      framer = framer.old;
      session = session.now;
      verdict = verdict.old;
      due = due.old;
    }) }
    ensures found { option_map (judgement_with session.now verdict.new) due.new
        ≡ option_map (judge session.now) (first_frame (frames framer.old)) }
    ensures held { framer.new ≡ from_first_start framer.old }
{
    if due.is_none() {
        *due = judge_first(framer, session, verdict);
    }
}

/// The bytes from a place on.
fn from(bytes: &[u8], place: usize) -> &[u8]
    requires { place ≤ length bytes.now }
    ensures { result.now ≡ drop place bytes.now }
{
    &bytes[place..]
}

impl Reader {
    /// A reader that holds no byte, before its session's Logon.
    pub fn new() -> Reader
        ensures { result ≡ new_reader }
    {
        Reader {
            framer: Framer::new(),
            session: Session::new(),
            verdict: Verdict::Nothing,
            due: None,
        }
    }

    /// Takes as much of the piece as there is room for, and says how many bytes.
    pub fn put(&mut self, piece: &[u8]) -> usize
        ensures count { result ≡ min (length piece.now) (BUFFER_BYTES - length self.old.held) }
        ensures appended { self.new ≡ with_more self.old (take result piece.now) }
    {
        self.framer.put(piece)
    }

    /// Whether the session is over.
    pub fn is_closed(&self) -> bool
        ensures { result ≡ is_closed self.now.session }
    {
        self.session.is_closed()
    }

    /// What the first message says, if one stands. Bytes at which no frame stands are skipped, and nothing else changes.
    #[inline(always)]
    pub fn look(&mut self) -> Option<Verdict>
        ensures says { result ≡ first_verdict self.old }
        ensures skipped { self.new ≡ after_skipping self.old }
    {
        find_due(
            &mut self.framer,
            &self.session,
            &mut self.verdict,
            &mut self.due,
        );
        match self.due {
            Some(_) => Some(self.verdict),
            None => None,
        }
    }

    /// Goes past the first message, which the session judges; false where none stands.
    #[inline(always)]
    pub fn pass(&mut self) -> bool
        ensures stands { result ≡ is_some (first_message self.old) }
        ensures passed { self.new ≡ after_passing self.old }
    {
        find_due(
            &mut self.framer,
            &self.session,
            &mut self.verdict,
            &mut self.due,
        );
        let Some(change) = self.due else {
            return false;
        };
        self.session.change(&self.verdict, change);
        self.framer.pass();
        self.due = None;
        true
    }

    /// How many messages are held, or `most` where they are more.
    pub fn standing(&self, most: usize) -> usize
        ensures { result ≡ min most (length (frames self.now.held)) }
    {
        count_messages(&self.framer, most)
    }

    /// Judges the first messages that are held, at most so many, none past one that closes the session. Their events
    /// become the first of the entries, as those of the session with this number. Nothing is passed.
    #[inline(always)]
    pub fn judge_ahead(&self, number: u8, most: usize, entries: &mut [Entry]) -> Ahead
        requires { most ≤ length entries.old }
        ensures size { length entries.new ≡ length entries.old }
        ensures ahead { IsAhead number most self.now entries.new result }
    {
        judge_ahead(&self.framer, self.session, number, most, entries)
    }

    /// Goes past the messages that were judged ahead, of which there is at least one.
    pub fn pass_ahead(&mut self, ahead: &Ahead)
        requires { FollowsFrames self.old.held ahead.now.place }
        ensures { self.new ≡ after_ahead self.old ahead.now }
    {
        self.framer.pass_to(ahead.place);
        self.session = ahead.session;
        self.due = None;
    }

    /// What the session says if its stream ends here: Close 5 unless it is closed.
    pub fn at_end(&self) -> Verdict
        ensures { result ≡ (ended self.now.session).0 }
    {
        let (verdict, _) = self.session.end();
        verdict
    }

    /// The stream ends here: what the session says to that. It is closed from then on.
    pub fn end(&mut self) -> Verdict
        ensures says { result ≡ (ended self.old.session).0 }
        ensures ended { self.new ≡ record self.old { session = (ended self.old.session).1 } }
    {
        let (verdict, after) = self.session.end();
        self.session = after;
        self.due = None;
        verdict
    }

    /// Judges and passes the first message, whose event joins the entries; false where none stands.
    fn read_first<A: Allocator>(
        &mut self,
        number: u8,
        out: &mut Vec<Entry, A>,
    ) -> Result<bool, AllocError>
        ensures fed { IfOk result (λ b. Fed number out.old.items self.old out.new.items self.new) }
        ensures less { IfOk result (λ b. OnTrue b (length self.new.held < length self.old.held)) }
        ensures none { IfOk result (λ b. OnFalse b (IsDrained self.new.held)) }
    {
        let Some(verdict) = self.look() else {
            return Ok(false);
        };
        if let Verdict::Event(event) = verdict {
            let session = number;
            out.push(Entry { session, event })?;
        }
        self.pass();
        Ok(true)
    }

    /// Judges and passes every message that stands.
    fn read_all<A: Allocator>(
        &mut self,
        number: u8,
        out: &mut Vec<Entry, A>,
    ) -> Result<(), AllocError>
        ensures fed { OnOk result (Fed number out.old.items self.old out.new.items self.new) }
        ensures drained { OnOk result (IsDrained self.new.held) }
    {
        while self.read_first(number, out)? {}
        Ok(())
    }

    /// Puts all bytes, and appends what each message says that they complete, as entries of the session with this number.
    pub fn read<A: Allocator>(
        &mut self,
        number: u8,
        bytes: &[u8],
        out: &mut Vec<Entry, A>,
    ) -> Result<(), AllocError>
        requires { IsDrained self.old.held }
        ensures fed { OnOk result
            (Fed number out.old.items (with_more self.old bytes.now) out.new.items self.new) }
        ensures drained { OnOk result (IsDrained self.new.held) }
    {
        let mut rest = bytes;
        while !rest.is_empty() {
            let taken = self.put(rest);
            rest = from(rest, taken);
            self.read_all(number, out)?;
        }
        Ok(())
    }
}
