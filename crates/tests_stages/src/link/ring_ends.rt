//! The rings behind the sequencer: to the thread that matches, and to a session's writer.
ghost use mathlib.Core.List.{IsPrefix};
ghost use Rattle.gate_link_stages.specs.Feeding.{AreFeedPair, SameMatcher, given};
ghost use Rattle.gate_link_stages.specs.Posting.{ArePostPair};

use crate::expect::{holds, holds_for};
use gate_link::{
    Feeder, Give, LinkFault, Matcher, Post, Poster, Taken, Writer, Wrote, agree, feed_ring,
    finished, post_ring,
};
use gate_link_stages::Lent;
use spread_rules::{Entry, Event, NoMemory};
use std::alloc::Allocator;
use std::process::Abort;
use tests_shared::Refusing;

/// An entry that differs from those of other numbers.
fn entry(number: u32) -> Entry {
    Entry {
        session: 0,
        event: Event::Gap { first: number },
    }
}

/// The entries with the numbers from 1 to that one.
fn entries_to<A: Allocator>(rt: &impl Abort, alloc: A, last: u32) -> Vec<Entry, A> {
    let mut entries = Vec::new(alloc);
    for number in 1..=last {
        entries.push(entry(number)).expect(rt, "memory");
    }
    entries
}

// ---- entries, to the thread that matches

/// What is done with a ring of entries, and what comes of it.
#[derive(Clone, Copy)]
enum EntryAct {
    /// The journal is given.
    Give(Give),
    /// The feeder ends.
    End(Give),
    /// The entries from this number to that one are taken, one by one.
    Take(u32, u32),
    /// None is there to be taken.
    TakeNone,
    /// The end mark is taken.
    TakeEnd,
    /// The entries from this number to that one are lent, one by one.
    Lend(u32, u32),
    /// None is there to be lent.
    LendNone,
    /// The end mark is taken, by who would be lent an entry.
    LendEnd,
    /// Whether all that was given was taken.
    Agree(bool),
}

/// A journal of so many entries, and a ring with room for so many.
struct EntryCase {
    shows: &'static str,
    entries: u32,
    ring: usize,
    acts: &'static [EntryAct],
}

static ENTRY_CASES: [EntryCase; 5] = [
    EntryCase {
        shows: "entries are given in slices",
        entries: 3,
        ring: 2,
        acts: &[
            EntryAct::Give(Give::Gave(2)),
            EntryAct::Give(Give::Full),
            EntryAct::Take(1, 1),
            EntryAct::Give(Give::Gave(1)),
            EntryAct::Give(Give::Level),
            EntryAct::Take(2, 3),
            EntryAct::TakeNone,
        ],
    },
    EntryCase {
        shows: "what is taken from the ring at once is handed out one by one, and the ring has room meanwhile",
        entries: 5,
        ring: 2,
        acts: &[
            EntryAct::Give(Give::Gave(2)),
            EntryAct::Take(1, 1),
            EntryAct::Give(Give::Gave(2)),
            EntryAct::Take(2, 3),
            EntryAct::Give(Give::Gave(1)),
            EntryAct::Agree(false),
            EntryAct::Give(Give::Level),
            EntryAct::Take(4, 5),
            EntryAct::TakeNone,
        ],
    },
    EntryCase {
        shows: "more entries than are taken at once, and the mark behind them",
        entries: 40,
        ring: 64,
        acts: &[
            EntryAct::Give(Give::Gave(40)),
            EntryAct::End(Give::Gave(0)),
            EntryAct::Take(1, 40),
            EntryAct::TakeEnd,
        ],
    },
    EntryCase {
        shows: "entries are lent in their order, before and behind others that are taken",
        entries: 4,
        ring: 3,
        acts: &[
            EntryAct::LendNone,
            EntryAct::Give(Give::Gave(3)),
            EntryAct::Lend(1, 1),
            EntryAct::Take(2, 2),
            EntryAct::Give(Give::Gave(1)),
            EntryAct::End(Give::Gave(0)),
            EntryAct::Lend(3, 4),
            EntryAct::LendEnd,
            EntryAct::LendEnd,
            EntryAct::TakeEnd,
            EntryAct::Agree(true),
        ],
    },
    EntryCase {
        shows: "what was taken is what was given where the end mark was taken, and only there",
        entries: 1,
        ring: 1,
        acts: &[
            EntryAct::Give(Give::Gave(1)),
            EntryAct::End(Give::Full),
            EntryAct::Take(1, 1),
            EntryAct::End(Give::Gave(0)),
            EntryAct::End(Give::Ended),
            EntryAct::Give(Give::Ended),
            EntryAct::Agree(false),
            EntryAct::TakeEnd,
            EntryAct::TakeEnd,
            EntryAct::Agree(true),
        ],
    },
];

/// Whether the entries from this number to that one are taken.
fn are_taken<A: Allocator>(matcher: &mut Matcher<A>, first: u32, last: u32) -> bool
    ensures { SameMatcher matcher.old matcher.new }
{
    for number in first..=last {
        if matcher.take() != Taken::Entry(entry(number)) {
            return false;
        }
    }
    true
}

/// Whether the entries from this number to that one are lent.
fn are_lent<A: Allocator>(matcher: &mut Matcher<A>, first: u32, last: u32) -> bool
    ensures { SameMatcher matcher.old matcher.new }
{
    for number in first..=last {
        let same = match matcher.lend() {
            Lent::Entry(lent) => *lent == entry(number),
            Lent::Empty | Lent::Ended => false,
        };
        if !same {
            return false;
        }
    }
    true
}

/// Whether an act comes to what it should.
fn entry_act_holds<A: Allocator>(
    feeder: &mut Feeder<A>,
    matcher: &mut Matcher<A>,
    journal: &[Entry],
    act: EntryAct,
) -> bool
    requires prefix { IsPrefix (given feeder.old) journal.now }
    requires pair { AreFeedPair feeder.old matcher.old }
    ensures prefix { IsPrefix (given feeder.new) journal.now }
    ensures pair { AreFeedPair feeder.new matcher.new }
{
    match act {
        EntryAct::Give(want) => feeder.give(journal) == want,
        EntryAct::End(want) => feeder.end() == want,
        EntryAct::Take(first, last) => are_taken(matcher, first, last),
        EntryAct::TakeNone => matcher.take() == Taken::Empty,
        EntryAct::TakeEnd => matcher.take() == Taken::Ended,
        EntryAct::Lend(first, last) => are_lent(matcher, first, last),
        EntryAct::LendNone => matches!(matcher.lend(), Lent::Empty),
        EntryAct::LendEnd => matches!(matcher.lend(), Lent::Ended),
        EntryAct::Agree(want) => agree(feeder, matcher) == want,
    }
}

fn expect_entry_acts<A: Allocator>(
    rt: &impl Abort,
    feeder: &mut Feeder<A>,
    matcher: &mut Matcher<A>,
    journal: &[Entry],
    case: &EntryCase,
)
    requires prefix { IsPrefix (given feeder.old) journal.now }
    requires pair { AreFeedPair feeder.old matcher.old }
{
    for act in case.acts {
        let held = entry_act_holds(feeder, matcher, journal, *act);
        holds_for(rt, held, case.shows);
    }
}

fn expect_entry_case<A: Allocator + Copy>(rt: &impl Abort, alloc: A, case: &EntryCase) {
    let journal = entries_to(rt, alloc, case.entries);
    let (mut feeder, mut matcher) = feed_ring(alloc, case.ring).expect(rt, "a ring");
    expect_entry_acts(rt, &mut feeder, &mut matcher, &journal, case);
}

#[test]
fn entries_through_a_ring(rt: HostRuntime) {
    for case in &ENTRY_CASES {
        expect_entry_case(&rt, rt.alloc(), case);
    }
}

// ---- bytes, to a session's writer

/// Where bytes of the text begin and end.
#[derive(Clone, Copy)]
struct Part(usize, usize);

/// What is done with a ring of bytes, and what comes of it.
#[derive(Clone, Copy)]
enum ByteAct {
    /// A part of the text is posted, one piece at most.
    Post(Part, Post),
    /// The same, several pieces at most.
    PostMany(Part, Post),
    /// The poster ends.
    End(Post),
    /// A piece is taken.
    Take(Wrote),
    /// Whether all that was posted was taken.
    Finished(bool),
}

/// A ring with room for so many pieces, and how many bytes of the text have been taken at the end.
struct ByteCase {
    shows: &'static str,
    ring: usize,
    acts: &'static [ByteAct],
    taken: usize,
}

static BYTE_CASES: [ByteCase; 4] = [
    ByteCase {
        shows: "at most 63 bytes are posted as one piece, and a ring of 1 has room for one",
        ring: 1,
        acts: &[
            ByteAct::Post(Part(0, 0), Post::Posted(0)),
            ByteAct::Post(Part(0, 100), Post::Posted(63)),
            ByteAct::Post(Part(63, 100), Post::Full),
            ByteAct::Take(Wrote::Bytes(63)),
            ByteAct::Finished(false),
            ByteAct::Post(Part(63, 100), Post::Posted(37)),
            ByteAct::End(Post::Full),
            ByteAct::Take(Wrote::Bytes(37)),
            ByteAct::Take(Wrote::Empty),
        ],
        taken: 100,
    },
    ByteCase {
        shows: "several pieces of 254 bytes are posted at once, or none, and no more than a ring of 2 holds",
        ring: 2,
        acts: &[
            ByteAct::PostMany(Part(0, 0), Post::Posted(0)),
            ByteAct::PostMany(Part(0, 512), Post::Posted(508)),
            ByteAct::Take(Wrote::Bytes(254)),
            ByteAct::PostMany(Part(0, 512), Post::Full),
            ByteAct::PostMany(Part(508, 512), Post::Posted(4)),
            ByteAct::End(Post::Full),
            ByteAct::Take(Wrote::Bytes(254)),
            ByteAct::End(Post::Posted(0)),
            ByteAct::PostMany(Part(0, 512), Post::Ended),
            ByteAct::Take(Wrote::Bytes(4)),
        ],
        taken: 512,
    },
    ByteCase {
        shows: "sixteen pieces at most, and no more than a ring of 32 holds",
        ring: 32,
        acts: &[
            ByteAct::PostMany(Part(0, 4100), Post::Posted(4064)),
            ByteAct::PostMany(Part(0, 4100), Post::Posted(4064)),
            ByteAct::PostMany(Part(0, 4100), Post::Full),
            ByteAct::Take(Wrote::Bytes(254)),
        ],
        taken: 254,
    },
    ByteCase {
        shows: "what is written is what was posted where the end mark was taken, and only there",
        ring: 2,
        acts: &[
            ByteAct::Post(Part(0, 5), Post::Posted(5)),
            ByteAct::End(Post::Posted(0)),
            ByteAct::End(Post::Ended),
            ByteAct::Post(Part(0, 5), Post::Ended),
            ByteAct::Take(Wrote::Bytes(5)),
            ByteAct::Finished(false),
            ByteAct::Take(Wrote::Ended),
            ByteAct::Take(Wrote::Ended),
            ByteAct::Finished(true),
        ],
        taken: 5,
    },
];

/// A text in which no piece is like the one before it.
fn text() -> [u8; 4100] {
    let mut text = [0; 4100];
    for n in 0..4100 {
        text[n] = (n % 251) as u8;
    }
    text
}

/// Those bytes of a text; none, where it has not so many.
fn part_of(text: &[u8], part: Part) -> &[u8] {
    text.get(part.0..part.1).unwrap_or(b"")
}

/// Whether an act comes to what it should.
fn byte_act_holds<A: Allocator>(
    poster: &mut Poster<A>,
    writer: &mut Writer<A>,
    text: &[u8],
    act: ByteAct,
) -> bool
    requires { ArePostPair poster.old writer.old }
    ensures { ArePostPair poster.new writer.new }
{
    match act {
        ByteAct::Post(part, want) => poster.post(part_of(text, part)) == want,
        ByteAct::PostMany(part, want) => poster.post_many(part_of(text, part)) == want,
        ByteAct::End(want) => poster.end() == want,
        ByteAct::Take(want) => writer.take() == Ok(want),
        ByteAct::Finished(want) => finished(poster, writer) == want,
    }
}

fn expect_byte_acts<A: Allocator>(
    rt: &impl Abort,
    poster: &mut Poster<A>,
    writer: &mut Writer<A>,
    text: &[u8],
    case: &ByteCase,
)
    requires { ArePostPair poster.old writer.old }
{
    for act in case.acts {
        let held = byte_act_holds(poster, writer, text, *act);
        holds_for(rt, held, case.shows);
    }
}

fn expect_byte_case<A: Allocator + Copy>(rt: &impl Abort, alloc: A, case: &ByteCase) {
    let text = text();
    let (mut poster, mut writer) = post_ring(alloc, case.ring).expect(rt, "a ring");
    expect_byte_acts(rt, &mut poster, &mut writer, &text, case);
    let taken = part_of(&text, Part(0, case.taken));
    holds_for(rt, writer.bytes() == taken, case.shows);
    holds_for(rt, writer.into_bytes().as_slice() == taken, case.shows);
}

#[test]
fn bytes_through_a_ring(rt: HostRuntime) {
    for case in &BYTE_CASES {
        expect_byte_case(&rt, rt.alloc(), case);
    }
}

/// The writer finds no memory, has taken nothing, and takes the same piece afterwards.
fn expect_taken_again<A: Allocator>(
    rt: &impl Abort,
    poster: &mut Poster<A>,
    writer: &mut Writer<A>,
) {
    holds(rt, poster.post(b"8=FIX") == Post::Posted(5));
    holds(rt, writer.take() == Err(NoMemory));
    holds(rt, writer.bytes().is_empty());
    holds(rt, writer.take() == Ok(Wrote::Bytes(5)));
}

/// Says whether a ring was had, and the first request behind it is refused.
fn is_refused_behind<A: Allocator>(rt: &impl Abort, heap: &Refusing<A>) -> bool {
    let Ok((mut poster, mut writer)) = post_ring(heap, 2) else {
        return false;
    };
    expect_taken_again(rt, &mut poster, &mut writer);
    true
}

/// The rings come first, then the writer's bytes.
#[test]
fn writer_with_memory_refused(rt: HostRuntime) {
    for number in 1..10u64 {
        let heap = Refusing::new(rt.alloc(), number);
        if is_refused_behind(&rt, &heap) {
            return;
        }
    }
    holds_for(&rt, false, "no request was refused");
}

fn expect_no_feed<A: Allocator + Copy>(rt: &impl Abort, alloc: A, ring: usize, want: LinkFault) {
    holds(rt, feed_ring(alloc, ring).err() == Some(want));
}

fn expect_no_post<A: Allocator + Copy>(rt: &impl Abort, alloc: A, ring: usize, want: LinkFault) {
    holds(rt, post_ring(alloc, ring).err() == Some(want));
}

#[test]
fn refused_rings(rt: HostRuntime) {
    expect_no_feed(&rt, rt.alloc(), 0, LinkFault::Ring);
    expect_no_feed(&rt, rt.alloc(), 4_097, LinkFault::Ring);
    expect_no_post(&rt, rt.alloc(), 0, LinkFault::Ring);
    expect_no_post(&rt, rt.alloc(), 4_097, LinkFault::Ring);
    let heap = Refusing::new(rt.alloc(), 1);
    expect_no_feed(&rt, &heap, 8, LinkFault::NoMemory);
    let heap = Refusing::new(rt.alloc(), 1);
    expect_no_post(&rt, &heap, 8, LinkFault::NoMemory);
}
