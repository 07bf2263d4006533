//! The sending end of a session: it judges the session's bytes and pushes its events into a ring.
ghost use Rattle.std.specs.List.{list_any};
ghost use Rattle.rtrb.specs.Ring.{sent};
ghost use Rattle.spread_rules.specs.Journal.{is_close};
ghost use Rattle.fix_session_judging.specs.Steps.{is_closed};
ghost use Rattle.fix_wire_framer.specs.declared.framer.TheConstants.{BUFFER_BYTES};
ghost use Rattle.fix_wire_frames.specs.Frames.{frames};
ghost use Rattle.gate_link_sessions.specs.Rows.{entry_events};
ghost use Rattle.std.specs.Prelude.{◌≡◌, ◌-◌, ℕ, List, ◌++◌, length, take, min, true, if◌then◌else◌, is_some};

use fix_session::{Reader, Verdict};
use fix_session_judging::Ahead;
use rtrb::Producer;
use spread_rules::{Entry, Event};
use std::alloc::Allocator;

/// How many messages a gateway steps over at once, and how many events a sequencer takes at once, at most.
pub const MAX_SLICE: usize = 64;

/// An entry of no meaning, in whose place others are put.
pub const NO_ENTRY: Entry = Entry {
    session: 0,
    event: Event::Close { reason: 0 },
};

/// Judges the bytes of one session and sends its events. It may move to another thread.
#[derive(Drop)]
pub struct Gateway<A: Allocator> {
    session: u8,
    pub(crate) producer: Producer<Entry, A>,
    reader: Reader,
    // The events of messages that are stepped over together, before they are sent.
    slice: [Entry; MAX_SLICE],
    // It is closed exactly where its close was sent.
    ghost close_sent: { is_closed reader.session ≡ list_any is_close (entry_events (sent producer)) },
}

/// What one step of a gateway did.
#[derive(Clone, Copy, PartialEq, Eq)]
pub enum Step {
    /// One event was pushed.
    Sent,
    /// One message was passed that has no event.
    Skipped,
    /// No message stands.
    Need,
    /// The ring gave no room for the event that is due.
    Full,
    /// The session was closed before.
    Closed,
}

/// What a gateway did with several messages at once.
#[derive(Clone, Copy, PartialEq, Eq)]
pub enum Burst {
    /// How many events were pushed as one slice; their messages were passed.
    Sent(u32),
    /// Messages were passed, and none of them has an event.
    Skipped,
    /// No message stands.
    Need,
    /// The ring gave no room for the events of all messages; nothing was passed.
    Full,
    /// The session was closed before.
    Closed,
}

impl<A: Allocator> Gateway<A> {
    ghost use Rattle.fix_session_judging.specs.Steps.{new_session};
    ghost use Rattle.gate_link_sessions.specs.Gateways.{session_number, events_sent, free_slots, session_state, bytes_held, pending_events, is_over, SameGateway, OnlySkipped, Stepped, Ended};
    ghost use Rattle.gate_link_sessions.specs.Owed.{Stands};
    ghost use Rattle.gate_link_sessions.specs.Bursts.{held_messages, HasJudged, SteppedMany};
    ghost use Rattle.gate_link_sessions.specs.declared.gateway.Burst.{Burst};
    ghost use Rattle.std.specs.Prelude.{◌≤◌, ◌<◌};
    ghost use Rattle.std.specs.Prelude.{[], ◌⊎◌, false, MatchBool};

    pub(crate) fn new(session: u8, producer: Producer<Entry, A>) -> Gateway<A>
        requires { sent producer ≡ [] }
        ensures parts { (session_number result ≡ session) × (result.producer ≡ producer) }
        ensures state { (session_state result ≡ new_session) × (bytes_held result ≡ []) }
    {
        Gateway {
            session,
            producer,
            reader: Reader::new(),
            slice: [NO_ENTRY; MAX_SLICE],
        }
    }

    /// The number of its session, from 0.
    pub fn session(&self) -> u8
        ensures { result ≡ session_number self.now }
    {
        self.session
    }

    /// Whether its session is over: its close was sent.
    pub fn is_closed(&self) -> bool
        ensures { result ≡ is_over self.now }
    {
        self.reader.is_closed()
    }

    /// Takes as much of the piece as there is room for, and says how many bytes. Once closed it takes the whole piece and
    /// keeps nothing of it.
    pub fn put(&mut self, piece: &[u8]) -> usize
        ensures count { result ≡ (if is_over self.old then length piece.now
            else min (length piece.now) (BUFFER_BYTES - length (bytes_held self.old))) }
        ensures gate { SameGateway self.old self.new }
        ensures sent { events_sent self.new ≡ events_sent self.old }
        ensures room { free_slots self.new ≡ free_slots self.old }
        ensures state { session_state self.new ≡ session_state self.old }
        ensures held { bytes_held self.new ≡ (if is_over self.old then bytes_held self.old
            else bytes_held self.old ++ take result piece.now) }
        ensures pending { (more : List ℕ) →
            pending_events self.new more ≡ pending_events self.old (take result piece.now ++ more) }
    {
        if self.reader.is_closed() {
            return piece.len();
        }
        self.reader.put(piece)
    }

    /// Whether a message stands that `step` would judge. For who steps one by one; the host asks `judge_many`.
    pub fn stands(&mut self) -> bool
        ensures gate { SameGateway self.old self.new }
        ensures skipped { is_over self.old ≡ false → OnlySkipped self.old self.new }
        ensures same { is_over self.old ≡ true → self.new ≡ self.old }
        ensures room { free_slots self.new ≡ free_slots self.old }
        ensures stands { MatchBool result
            ((is_over self.old ≡ false) × ((m : List ℕ) × Stands m (bytes_held self.old)))
            ((is_over self.old ≡ true) ⊎ (frames (bytes_held self.old) ≡ [])) }
    {
        if self.reader.is_closed() {
            return false;
        }
        self.reader.look().is_some()
    }

    /// Judges the first message that is held, and sends its event.
    pub fn step(&mut self) -> Step
        ensures gate { SameGateway self.old self.new }
        ensures step { Stepped result self.old self.new }
    {
        if self.reader.is_closed() {
            return Step::Closed;
        }
        let Some(verdict) = self.reader.look() else {
            return Step::Need;
        };
        let Verdict::Event(event) = verdict else {
            self.reader.pass();
            return Step::Skipped;
        };
        let entry = Entry {
            session: self.session,
            event,
        };
        let Ok(()) = self.producer.push(entry) else {
            return Step::Full;
        };
        self.reader.pass();
        Step::Sent
    }

    /// How many messages are held, or `most` where they are more; 0 once the session is closed. Nothing changes. For who
    /// slices by itself; the host asks `judge_many`.
    pub fn standing(&mut self, most: u32) -> u32
        ensures count { result ≡ held_messages most self.old }
        ensures same { self.new ≡ self.old }
    {
        if self.reader.is_closed() {
            return 0;
        }
        self.reader.standing(most as usize) as u32
    }

    /// Judges the first messages that are held, at most so many, none past a close, and keeps their events, which
    /// `send_judged` sends. Nothing is passed.
    pub fn judge_many(&mut self, frames: u32) -> Ahead
        requires { frames ≤ MAX_SLICE }
        ensures judged { HasJudged frames self.new result }
        ensures gate { SameGateway self.old self.new }
        ensures sent { events_sent self.new ≡ events_sent self.old }
        ensures room { free_slots self.new ≡ free_slots self.old }
        ensures state { session_state self.new ≡ session_state self.old }
        ensures held { bytes_held self.new ≡ bytes_held self.old }
    {
        self.reader
            .judge_ahead(self.session, frames as usize, &mut self.slice)
    }

    /// Sends the events of messages that were judged, at most so many and at least one, as one slice: all of them or
    /// none. Then the messages are passed; at Full nothing changes, and they stay judged.
    pub fn send_judged(&mut self, frames: u32, ahead: &Ahead) -> Burst
        requires judged { HasJudged frames self.old ahead.now }
        requires some { 0 < ahead.now.messages }
        ensures gate { SameGateway self.old self.new }
        ensures step { SteppedMany frames result self.old self.new }
        ensures kept { result ≡ Burst.Full → HasJudged frames self.new ahead.now }
    {
        if ahead.events == 0 {
            self.reader.pass_ahead(ahead);
            return Burst::Skipped;
        }
        let Ok(()) = self.producer.push_entire_slice(&self.slice[..ahead.events]) else {
            return Burst::Full;
        };
        self.reader.pass_ahead(ahead);
        Burst::Sent(ahead.events as u32)
    }

    /// Judges the first messages that are held, at most so many, none past a close, and sends their events as one slice:
    /// all of them or none. At Full nothing changes, at Need nothing but bytes at which no frame stands. The host takes it in
    /// two calls, `judge_many` and `send_judged`, between which the gate is called.
    pub fn step_many(&mut self, frames: u32) -> Burst
        requires { (1 ≤ frames) × (frames ≤ MAX_SLICE) }
        ensures gate { SameGateway self.old self.new }
        ensures step { SteppedMany frames result self.old self.new }
    {
        if self.reader.is_closed() {
            return Burst::Closed;
        }
        let ahead = self.judge_many(frames);
        if ahead.messages == 0 {
            self.reader.look();
            return Burst::Need;
        }
        self.send_judged(frames, &ahead)
    }

    /// After the last byte was put: steps, and where no message stands sends the close at the end of a stream.
    pub fn end(&mut self) -> Step
        ensures gate { SameGateway self.old self.new }
        ensures step { Ended result self.old self.new }
    {
        match self.step() {
            Step::Need => {}
            step => return step,
        }
        let Verdict::Event(event) = self.reader.at_end() else {
            unreachable!()
        };
        let close = Entry {
            session: self.session,
            event,
        };
        let Ok(()) = self.producer.push(close) else {
            return Step::Full;
        };
        self.reader.end();
        Step::Sent
    }
}
