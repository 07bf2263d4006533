//! The frames of a stream that comes in pieces.
ghost use Rattle.std.specs.Prelude.{◌≡◌, ℕ, ◌+◌, ◌-◌, ◌<◌, ◌≤◌, ◌++◌, List, [], length, take, drop, min, ⊤, IfSome, Some, None, is_some, slice_range, option_map};
ghost use Rattle.std.specs.Bool.{OnTrue, OnFalse};
ghost use Rattle.std.specs.Borrow.{sem};
ghost use Rattle.fix_wire_frames.specs.Frames.{frames, frame_at};
ghost use Rattle.fix_wire_frames.specs.Held.{first_frame, from_first_start, after_first_frame};
ghost use Rattle.fix_wire_framer.specs.Next.{frame_in};
ghost use Rattle.fix_wire_framer.specs.FramePlaces.{frame_from, place_after, frame_of, IsFramePlace, EndsFirst, FollowsFrames};
ghost use Rattle.fix_wire_frames.specs.code.Tabled.{IsTableOf};
ghost use denote.Follow.{follows_so};
ghost use mathlib.Core.Option.{none};
ghost use Rattle.fix_wire_framer.specs.contracts.framer.Framer.{the_row};

use fix_wire_frames::{FrameTable, MAX_FRAME_BYTES, Message, Scan, next_begin, scan_front};
use std::marker::Model;

/// How many bytes a framer holds at most.
pub const BUFFER_BYTES: usize = 8_192;

/// The bytes of a stream that are put and not passed.
#[derive(Drop)]
pub struct Framer {
    buffer: [u8; BUFFER_BYTES],
    start: usize,
    end: usize,
    // The length of the frame at the front, once it is found; else 0.
    front_length: usize,
    // Its table, once it is found.
    table: FrameTable,
}

impl Model for Framer {
    ghost use Rattle.std.specs.Prelude.{ℕ, List};
    ghost use Rattle.fix_wire_framer.specs.code.FramerFields.{held_of, IsKept};

    ghost Value = { List ℕ };

    ghost view = { held_of };

    ghost invariant = { IsKept };
}

/// What a framer answers: its first message, or that it needs more bytes.
#[derive(Clone, Copy)]
pub enum Next<'a> {
    Message(Message<'a>),
    Need,
}

/// What a framer answers of a place: the first message from there on, with the place after it, or that none stands.
#[derive(Clone, Copy)]
pub enum Look<'a> {
    Message(Message<'a>, usize),
    Need,
}

/// Where a frame stands among the bytes that are held: from start to end.
#[derive(Clone, Copy)]
pub struct FramePlace {
    pub start: usize,
    pub end: usize,
}

impl Framer {
    /// A framer that holds nothing.
    pub fn new() -> Framer
        ensures { result ≡ [] }
    {
        Framer {
            buffer: [0; BUFFER_BYTES],
            start: 0,
            end: 0,
            front_length: 0,
            table: FrameTable::empty(),
        }
    }

    /// How many bytes are held.
    pub fn held(&self) -> usize
        ensures count { result ≡ length self.now }
        ensures bound { result ≤ BUFFER_BYTES }
    {
        self.end - self.start
    }

    /// Takes as much of the piece as there is room for, and says how many bytes.
    pub fn put(&mut self, piece: &[u8]) -> usize
        ensures count { result ≡ min (length piece.now) (BUFFER_BYTES - length self.old) }
        ensures appended { self.new ≡ self.old ++ take result piece.now }
    {
        let held = self.end - self.start;
        let taken = piece.len().min(BUFFER_BYTES - held);
        if taken > BUFFER_BYTES - self.end {
            slide(&mut self.buffer, self.start, self.end);
            self.start = 0;
            self.end = held;
        }
        append(&mut self.buffer, self.start, self.end, &piece[..taken]);
        self.end += taken;
        taken
    }

    /// How many bytes stand before the first place at which a frame stands or may still begin, and the length of the
    /// frame that stands there.
    fn find_front(&self) -> (usize, Option<usize>)
        ensures within { result.0 ≤ length self.now }
        ensures kept { drop result.0 self.now ≡ from_first_start self.now }
        ensures found { result.1 ≡ frame_at (from_first_start self.now) }
        ensures fits { IfSome result.1 (λ n. result.0 + n ≤ length self.now) }
    {
        if self.front_length > 0 {
            (0, Some(self.front_length))
        } else {
            first_start(&self.buffer[self.start..self.end], &mut FrameTable::empty())
        }
    }

    /// Lets the bytes at the front go at which no frame stands or may still begin, and finds the frame that stands there,
    /// unless it was found before.
    fn skip_garbled(&mut self) -> Option<usize>
        ensures kept { self.new ≡ from_first_start self.old }
        ensures found { result ≡ frame_at (from_first_start self.old) }
    {
        if self.front_length > 0 {
            return Some(self.front_length);
        }
        let (skip, front_length) = first_start_in(
            &self.buffer,
            self.start,
            self.end,
            &mut self.table,
        );
        self.start += skip;
        if let Some(length) = front_length {
            self.front_length = length;
        }
        front_length
    }

    /// The message at the front, of that length where there is one. Its fields are read again unless they were found.
    fn peek(&self, front_length: Option<usize>) -> Next<'_>
        requires settled { from_first_start self.now ≡ self.now }
        requires front { front_length ≡ frame_at self.now }
        ensures { frame_in result ≡ first_frame (frames self.now) }
    {
        let Some(length) = front_length else {
            return Next::Need;
        };
        let frame = &self.buffer[self.start..self.start + length];
        if self.front_length > 0 {
            return Next::Message(Message::of_frame(frame, &self.table));
        }
        match Message::whole(frame) {
            Some(message) => Next::Message(message),
            None => Next::Need,
        }
    }

    /// The first message, which is still held.
    #[inline(always)]
    pub fn next(&mut self) -> Next<'_>
        ensures* after { sem 𝓛 (follows_so the_row the_row self.entry.ghost_name none (λ _ _. ⊤)
            (λ v. v ≡ from_first_start self.old)) }
        ensures first { frame_in result ≡ first_frame (frames self.old) }
        // Need leaves room for more.
        ensures room { frame_in result ≡ None →
            length (from_first_start self.old) < MAX_FRAME_BYTES }
    {
        let front_length = self.skip_garbled();
        self.peek(front_length)
    }

    /// Where the first frame from a place of the held bytes on stands. Its fields become the table's; nothing else
    /// changes.
    pub fn find(&self, at: usize, table: &mut FrameTable) -> Option<FramePlace>
        requires { at ≤ length self.now }
        ensures first { option_map (frame_of self.now) result ≡ first_frame (frames (drop at self.now)) }
        ensures after { IfSome result (λ p. EndsFirst self.now at p.end) }
        ensures place { IfSome result (λ p. IsFramePlace self.now p table.new) }
    {
        let (skip, length) = first_start(&self.buffer[self.start + at..self.end], table);
        match length {
            Some(length) => {
                let start = at + skip;
                Some(FramePlace {
                    start,
                    end: start + length,
                })
            }
            None => None,
        }
    }

    /// The first message from a place of the held bytes on, and the place after it. Nothing changes. Its frame is
    /// tested twice, and no table of its fields is kept: who asks for many messages calls `find` and `message`.
    pub fn look(&self, at: usize) -> Look<'_>
        requires { at ≤ length self.now }
        ensures first { frame_from result ≡ first_frame (frames (drop at self.now)) }
        ensures after { (n : ℕ) → place_after result ≡ Some n → EndsFirst self.now at n }
    {
        let mut table = FrameTable::empty();
        let Some(place) = self.find(at, &mut table) else {
            return Look::Need;
        };
        match Message::whole(&self.buffer[self.start + place.start..self.start + place.end]) {
            Some(message) => Look::Message(message, place.end),
            None => Look::Need,
        }
    }

    /// The message whose frame stands at that place, where it was found with that table.
    #[inline(always)]
    pub fn message<'a>(&'a self, place: FramePlace, table: &'a FrameTable) -> Message<'a>
        requires { IsFramePlace self.now place table.now }
        ensures { result.frame.now ≡ frame_of self.now place }
    {
        let frame = &self.buffer[self.start + place.start..self.start + place.end];
        Message::of_frame(frame, table)
    }

    /// Goes past all bytes before a place, which stands just after one of the held frames.
    pub fn pass_to(&mut self, at: usize)
        requires { FollowsFrames self.old at }
        ensures { self.new ≡ drop at self.old }
    {
        self.start += at;
        self.front_length = 0;
    }

    /// Goes past the message that `next` would answer.
    pub fn pass(&mut self) -> bool
        ensures stands { result ≡ is_some (first_frame (frames self.old)) }
        ensures passed { OnTrue result (self.new ≡ after_first_frame self.old) }
        ensures same { OnFalse result (self.new ≡ self.old) }
    {
        let (skip, front_length) = self.find_front();
        match front_length {
            Some(length) => {
                self.start += skip + length;
                self.front_length = 0;
                true
            }
            None => false,
        }
    }
}

/// Moves the bytes from start to end to the front.
fn slide(buffer: &mut [u8], start: usize, end: usize)
    requires order { start ≤ end }
    requires fits { end ≤ length buffer.old }
    ensures { slice_range buffer.new 0 (end - start) ≡ slice_range buffer.old start end }
{
    buffer.copy_within(start..end, 0);
}

/// Writes the piece after the bytes from start to end.
fn append(buffer: &mut [u8], start: usize, end: usize, piece: &[u8])
    requires order { start ≤ end }
    requires fits { end + length piece.now ≤ length buffer.old }
    ensures { slice_range buffer.new start (end + length piece.now)
        ≡ slice_range buffer.old start end ++ piece.now }
{
    buffer[end..end + piece.len()].copy_from_slice(piece);
}

/// Finds the first start of a frame in the bytes of a buffer from `start` to `end`.
#[inline(always)]
fn first_start_in(
    buffer: &[u8; BUFFER_BYTES],
    start: usize,
    end: usize,
    table: &mut FrameTable,
) -> (usize, Option<usize>)
    requires order { start ≤ end }
    requires fits { end ≤ BUFFER_BYTES }
    ensures within { result.0 ≤ length (slice_range buffer.now start end) }
    ensures kept { drop result.0 (slice_range buffer.now start end)
        ≡ from_first_start (slice_range buffer.now start end) }
    ensures found { result.1 ≡ frame_at (from_first_start (slice_range buffer.now start end)) }
    ensures table { (n : ℕ) → result.1 ≡ Some n
        → IsTableOf (from_first_start (slice_range buffer.now start end)) table.new }
{
    first_start(&buffer[start..end], table)
}

/// The first place at which a frame stands or may still begin, and the length and the table of the frame that stands there.
fn first_start(held: &[u8], table: &mut FrameTable) -> (usize, Option<usize>)
    requires { length held.now ≤ BUFFER_BYTES }
    ensures within { result.0 ≤ length held.now }
    ensures kept { drop result.0 held.now ≡ from_first_start held.now }
    ensures found { result.1 ≡ frame_at (from_first_start held.now) }
    ensures fits { IfSome result.1 (λ n. result.0 + n ≤ length held.now) }
    ensures table { (n : ℕ) → result.1 ≡ Some n → IsTableOf (from_first_start held.now) table.new }
{
    let mut at = 0;
    while at < held.len() {
        match scan_front(&held[at..], table) {
            Scan::Frame(len) => return (at, Some(len)),
            Scan::Incomplete => return (at, None),
            Scan::Garbled => at += next_begin(&held[at..]),
        }
    }
    (at, None)
}
