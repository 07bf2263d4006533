//! A session, message by message: which number is due, and what each message says.
ghost use Rattle.std.specs.Prelude.{◌≡◌, ◌≤◌, ◌+◌, ◌&&◌, Option, Some, false, bytes_eq, codes, [], ◌∷◌};
ghost use Rattle.fix_wire_frames.specs.Messages.{get, kind, number};
ghost use Rattle.fix_wire_frames.specs.code.Messages.{given_number};
ghost use Rattle.fix_wire_frames.specs.declared.msg_types.TheConstants as msg_types;
ghost use Rattle.fix_wire_frames.specs.declared.tags.TheConstants as tags;
ghost use Rattle.fix_session_kinds.specs.Table.{meaning_of_message};
ghost use Rattle.fix_session_judging.specs.View.{logon_of, event_of_accepted, due_after_accepted};
ghost use Rattle.fix_session_judging.specs.code.View.{is_same_text, view_with};
ghost use Rattle.fix_session_judging.specs.code.Openings.{given_id, is_opening};
ghost use Rattle.fix_session_judging.specs.declared.session.Session.{Session};
ghost use Rattle.fix_session_judging.specs.declared.session.Running.{Running};
ghost use Rattle.fix_session_judging.specs.code.Changes.{changed, judgement_in, judgement_of};
ghost use Rattle.fix_session_judging.specs.Steps.{new_session, running, closes, opens, step_below, step_above, step_due, step_running, verdict_of, judge, ended, is_closed};

use fix_session_kinds::{Meaning, meaning_of_message, order_texts, ticket_of};
use fix_wire_frames::{Message, msg_types, tags};
use fix_wire_values::read_number;
use spread_rules::Event;
use spread_rules::codes::close_reason;
use spread_rules_ids::Id;
use spread_rules_ids::limits::{FIRST_MSG_SEQ_NUM, MAX_MSG_SEQ_NUM};

/// What a session says to a message.
#[derive(Clone, Copy, PartialEq, Eq)]
pub enum Verdict {
    Event(Event),
    Nothing,
}

/// What a lawful Logon says.
#[derive(Clone, Copy)]
struct Logon {
    client: Id,
    host: Id,
    /// HeartBtInt, in seconds.
    beat: u32,
}

/// A session after its Logon.
#[derive(Clone, Copy)]
pub struct Running {
    client: Id,
    host: Id,
    /// The number of the next message that is accepted: one more than the greatest number at most.
    due: u32,
    /// Whether the missing messages from `due` on were asked for.
    gap_asked: bool,
}

#[derive(Clone, Copy)]
pub enum State {
    Before,
    Running(Running),
    Closed,
}

/// What the messages so far have made of a session.
#[derive(Clone, Copy)]
pub struct Session {
    state: State,
}

/// What a message changes in a session.
#[derive(Clone, Copy)]
pub enum Change {
    Nothing,
    /// The session opens, between the CompIDs of the Logon that the verdict says.
    Opens,
    /// This number is due, and whether the missing messages from it on were asked for.
    Due { number: u32, gap_asked: bool },
    Closes,
}

impl Session {
    /// A session before its Logon.
    pub fn new() -> Session
        ensures { result ≡ new_session }
    {
        Session {
            state: State::Before,
        }
    }

    /// What the session says to a message, and the session after it. A message whose number can't be read changes nothing.
    /// For tests and laws; the host asks `judge_into`, which copies no verdict.
    pub fn judge(&self, message: &Message) -> (Verdict, Session)
        ensures { result ≡ judge self.now message.now.frame.now }
    {
        let mut verdict = Verdict::Nothing;
        let change = self.judge_into(message, &mut verdict);
        let mut after = *self;
        after.change(&verdict, change);
        (verdict, after)
    }

    /// Judges a message as `judge` does, but into a verdict of the caller's, and tells what the message changes in place of
    /// the session after it: so no verdict is copied.
    #[inline(always)]
    pub fn judge_into(&self, message: &Message, verdict: &mut Verdict) -> Change
        ensures { judgement_of self.now (verdict.new, result) ≡ judge self.now message.now.frame.now }
    {
        let Some(number) = message.number() else {
            *verdict = Verdict::Nothing;
            return Change::Nothing;
        };
        match &self.state {
            State::Closed => {
                *verdict = Verdict::Nothing;
                Change::Nothing
            }
            State::Before => match logon_of(message, number) {
                Some(logon) => opened(logon, verdict),
                None => closes(close_reason::NO_LOGON, verdict),
            },
            State::Running(running) => judge_running(running, message, number, verdict),
        }
    }

    /// Applies a change that `judge_into` answered together with this verdict.
    #[inline(always)]
    pub fn change(&mut self, verdict: &Verdict, change: Change)
        ensures { self.new ≡ changed self.old verdict.now change }
    {
        match change {
            Change::Nothing => {}
            Change::Opens => {
                if let Verdict::Event(Event::Logon { client, host, .. }) = *verdict {
                    self.state = State::Running(begun(client, host));
                }
            }
            Change::Due { number, gap_asked } => {
                if let State::Running(running) = &mut self.state {
                    running.due = number;
                    running.gap_asked = gap_asked;
                }
            }
            Change::Closes => self.state = State::Closed,
        }
    }

    /// What the session says where its stream ends: Close 5 unless it is closed. And the session after it.
    pub fn end(&self) -> (Verdict, Session)
        ensures { result ≡ ended self.now }
    {
        let reason = close_reason::STREAM_ENDED;
        match self.state {
            State::Closed => (Verdict::Nothing, *self),
            _ => (
                Verdict::Event(Event::Close { reason }),
                Session {
                    state: State::Closed,
                },
            ),
        }
    }

    /// Whether the session is over.
    pub fn is_closed(&self) -> bool
        ensures { result ≡ is_closed self.now }
    {
        matches!(self.state, State::Closed)
    }
}

fn given_id(message: &Message, tag: u32) -> Option<Id>
    ensures { result ≡ given_id tag message.now.frame.now }
{
    Id::new(message.get(tag)?)
}

fn given_number(message: &Message, tag: u32) -> Option<u32>
    ensures { result ≡ given_number tag message.now.frame.now }
{
    match read_number(message.get(tag)?) {
        Ok(number) => Some(number),
        Err(_) => None,
    }
}

/// Whether the message is a Logon with the first number and a SendingTime, and asks for no encryption. Rule S3.
fn is_opening(message: &Message, number: u32) -> bool
    ensures { result ≡ is_opening message.now.frame.now number }
{
    let stamped = match message.get(tags::SENDING_TIME) {
        Some(text) => !text.is_empty(),
        None => false,
    };
    let plain = match message.get(tags::ENCRYPT_METHOD) {
        Some(text) => text == b"0".as_slice(),
        None => false,
    };
    message.kind() == [msg_types::LOGON].as_slice()
        && number == FIRST_MSG_SEQ_NUM
        && stamped
        && plain
}

/// The Logon that opens a session, where the message is one.
#[tactic(auto, unfolding(crate::specs::code::Openings::logon_by_parts))]
fn logon_of(message: &Message, number: u32) -> Option<Logon>
    ensures { result ≡ logon_of message.now.frame.now number }
{
    if !is_opening(message, number) {
        return None;
    }
    let client = given_id(message, tags::SENDER_COMP_ID)?;
    let host = given_id(message, tags::TARGET_COMP_ID)?;
    let beat = given_number(message, tags::HEART_BT_INT)?;
    Some(Logon { client, host, beat })
}

/// The session is over.
fn closes(reason: u8, verdict: &mut Verdict) -> Change
    ensures { (s : Session) → judgement_of s (verdict.new, result) ≡ closes reason }
{
    *verdict = Verdict::Event(Event::Close { reason });
    Change::Closes
}

/// A session right after its Logon.
fn begun(client: Id, host: Id) -> Running
    ensures { result
        ≡ record { client = client; host = host; due = FIRST_MSG_SEQ_NUM + 1; gap_asked = false } }
{
    Running {
        client,
        host,
        due: FIRST_MSG_SEQ_NUM + 1,
        gap_asked: false,
    }
}

fn opened(logon: Logon, verdict: &mut Verdict) -> Change
    ensures { (s : Session) → judgement_of s (verdict.new, result)
        ≡ opens (FIRST_MSG_SEQ_NUM + 1) (Some logon) }
{
    let Logon { client, host, beat } = logon;
    *verdict = Verdict::Event(Event::Logon { client, host, beat });
    Change::Opens
}

/// Whether a message has the CompIDs of the Logon. Rule S4.
fn has_comp_ids(running: &Running, message: &Message) -> bool
    ensures { result
        ≡ (is_same_text (get tags.SENDER_COMP_ID message.now.frame.now) running.now.client
        && is_same_text (get tags.TARGET_COMP_ID message.now.frame.now) running.now.host) }
{
    match message.get(tags::SENDER_COMP_ID) {
        None => false,
        Some(client) => match message.get(tags::TARGET_COMP_ID) {
            None => false,
            Some(host) => client == running.client.bytes() && host == running.host.bytes(),
        },
    }
}

/// PossDupFlag: whether the message may be a duplicate.
fn is_duplicate(message: &Message) -> bool
    ensures { result ≡ is_same_text (get tags.POSS_DUP_FLAG message.now.frame.now) (codes "Y") }
{
    match message.get(tags::POSS_DUP_FLAG) {
        Some(text) => text == b"Y".as_slice(),
        None => false,
    }
}

fn is_logout(message: &Message) -> bool
    ensures { result ≡ bytes_eq (kind message.now.frame.now) (msg_types.LOGOUT ∷ []) }
{
    matches!(message.kind(), [msg_types::LOGOUT])
}

/// A message after the Logon.
#[inline(always)]
fn judge_running(running: &Running, message: &Message, number: u32, verdict: &mut Verdict) -> Change
    requires { number ≤ MAX_MSG_SEQ_NUM }
    ensures { judgement_in running.now (verdict.new, result)
        ≡ step_running running.now (view_with message.now.frame.now number) }
{
    if !has_comp_ids(running, message) {
        return closes(close_reason::COMP_ID, verdict);
    }
    if number < running.due {
        return judge_below(message, verdict);
    }
    if running.due < number {
        return judge_above(running, verdict);
    }
    judge_due(message, number, verdict)
}

/// A number below the due one: a duplicate is dropped. Rule S5.
fn judge_below(message: &Message, verdict: &mut Verdict) -> Change
    ensures { (r : Running) → judgement_in r (verdict.new, result)
        ≡ step_below r (is_same_text (get tags.POSS_DUP_FLAG message.now.frame.now) (codes "Y")) }
{
    if is_duplicate(message) {
        *verdict = Verdict::Nothing;
        return Change::Nothing;
    }
    closes(close_reason::MSG_SEQ_NUM_TOO_LOW, verdict)
}

/// A number above the due one: the message is discarded, and the missing ones are asked for once. Rule S6.
fn judge_above(running: &Running, verdict: &mut Verdict) -> Change
    ensures { judgement_in running.now (verdict.new, result) ≡ step_above running.now }
{
    if running.gap_asked {
        *verdict = Verdict::Nothing;
        return Change::Nothing;
    }
    let first = running.due;
    *verdict = Verdict::Event(Event::Gap { first });
    Change::Due {
        number: first,
        gap_asked: true,
    }
}

/// The due number: the message is accepted. Rule S7.
#[inline(always)]
fn judge_due(message: &Message, number: u32, verdict: &mut Verdict) -> Change
    requires { number ≤ MAX_MSG_SEQ_NUM }
    ensures { (r : Running) → judgement_in r (verdict.new, result)
        ≡ step_due r (view_with message.now.frame.now number) }
{
    if is_logout(message) {
        return closes(close_reason::LOGOUT, verdict);
    }
    let due = accepted(message, number, verdict);
    Change::Due {
        number: due,
        gap_asked: false,
    }
}

/// What an accepted message gives, and the number due after it. A message that is rejected uses up its number.
#[inline(always)]
fn accepted(message: &Message, number: u32, verdict: &mut Verdict) -> u32
    requires { number ≤ MAX_MSG_SEQ_NUM }
    ensures verdict { verdict.new
        ≡ verdict_of (event_of_accepted number (meaning_of_message message.now.frame.now number)) }
    ensures due { result
        ≡ due_after_accepted number (meaning_of_message message.now.frame.now number) }
{
    if let [msg_types::NEW_ORDER_SINGLE] = message.kind() {
        match order_texts(message) {
            Ok(texts) => *verdict = Verdict::Event(Event::New(ticket_of(&texts))),
            Err(reason) => *verdict = Verdict::Event(Event::Reject { number, reason }),
        }
        return number + 1;
    }
    accepted_other(message, number, verdict)
}

/// What an accepted message of any kind means. Orders are most of the messages, and are not copied so often.
fn accepted_other(message: &Message, number: u32, verdict: &mut Verdict) -> u32
    requires { number ≤ MAX_MSG_SEQ_NUM }
    ensures verdict { verdict.new
        ≡ verdict_of (event_of_accepted number (meaning_of_message message.now.frame.now number)) }
    ensures due { result
        ≡ due_after_accepted number (meaning_of_message message.now.frame.now number) }
{
    *verdict = Verdict::Nothing;
    match meaning_of_message(message, number) {
        Ok(Meaning::Nothing) => {}
        Ok(Meaning::Says(event)) => *verdict = Verdict::Event(event),
        Ok(Meaning::GapFill(next)) => return next,
        Err(reason) => *verdict = Verdict::Event(Event::Reject { number, reason }),
    }
    number + 1
}
