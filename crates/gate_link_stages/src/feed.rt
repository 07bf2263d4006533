//! The ring to the thread that matches: its items are the journal's entries, and one mark that ends them.
ghost use Rattle.std.specs.Prelude.{◌≡◌, ◌-◌, ◌<◌, ◌≤◌, ◌++◌, [], length, take, true, ⊤};
ghost use Rattle.std.specs.Bool.{OnFalse};
ghost use Rattle.rtrb.specs.Ring.{sent, received, known_free, ProducerLooked};
ghost use Rattle.gate_link_stages.specs.Marks.{ends};
ghost use Rattle.gate_link_stages.specs.Feeds.{entries, is_end, first_items, held_items};
ghost use Rattle.gate_link_stages.specs.declared.feed.TheConstants.{HELD_ITEMS};

use rtrb::{Consumer, Producer};
use spread_rules::Entry;
use std::alloc::Allocator;

/// How many entries are given at once at most.
pub const MAX_SLICE_ITEMS: usize = 64;

/// How many items are taken from the ring at once at most.
pub const HELD_ITEMS: usize = 32;

/// An item of the ring.
#[derive(Clone, Copy)]
pub(crate) enum Fed {
    Entry(Entry),
    End,
}

impl Fed {
    fn is_end(&self) -> bool
        ensures { result ≡ is_end self.now }
    {
        matches!(self, Fed::End)
    }
}

/// The end that gives entries. It may move to another thread.
#[derive(Drop)]
pub struct Feeder<A: Allocator> {
    pub(crate) producer: Producer<Fed, A>,
    count: usize,
    ended: bool,
    // The mark comes last, and only where it is ended.
    ghost shape: { ends is_end (sent producer) ended ≡ true },
    ghost counted: { count ≡ length (entries (sent producer)) },
}

/// The end that takes entries. It may move to another thread.
#[derive(Drop)]
pub struct Matcher<A: Allocator> {
    pub(crate) consumer: Consumer<Fed, A>,
    /// Items taken from the ring: those from `next` to `filled` were not handed out yet.
    items: [Fed; HELD_ITEMS],
    next: usize,
    filled: usize,
    pub(crate) ended: bool,
    ghost room: { length items ≡ HELD_ITEMS },
    ghost range: { (next ≤ filled) × (filled ≤ length items) },
    ghost held: { received consumer ≡ first_items (received consumer) (filled - next)
        ++ held_items items next filled },
    // The mark comes last, and only where it is ended.
    ghost shape: { ends is_end (first_items (received consumer) (filled - next)) ended ≡ true },
}

/// What giving did.
#[derive(Clone, Copy, PartialEq, Eq)]
pub enum Give {
    /// How many entries were pushed as one slice.
    Gave(usize),
    /// The ring had no room for them.
    Full,
    /// Nothing is left of the journal.
    Level,
    /// The end mark was pushed before.
    Ended,
}

/// What taking did.
#[derive(Clone, Copy, PartialEq, Eq)]
pub enum Taken {
    Entry(Entry),
    /// No item is there yet.
    Empty,
    /// The end mark was taken.
    Ended,
}

/// What taking did, where the entry stays where it is held.
#[derive(Clone, Copy)]
pub enum Lent<'a> {
    Entry(&'a Entry),
    /// No item is there yet.
    Empty,
    /// The end mark was taken.
    Ended,
}

/// Whether the ring is known to have room for so many items, or is found to have it.
fn has_room<A: Allocator>(producer: &mut Producer<Fed, A>, items: usize) -> bool
    ensures looked { ProducerLooked producer.old producer.new }
    ensures room { OnFalse result (known_free producer.new < items) }
{
    if items <= producer.cached_slots() {
        return true;
    }
    items <= producer.slots()
}

impl<A: Allocator> Feeder<A> {
    ghost use Rattle.std.specs.Prelude.{false};
    ghost use mathlib.Core.List.{IsPrefix};
    ghost use Rattle.gate_link_stages.specs.Feeding.{given, SameFeeder, Gives, EndGives};

    pub(crate) fn new(producer: Producer<Fed, A>) -> Feeder<A>
        requires { sent producer ≡ [] }
        ensures { (result.producer ≡ producer) × (result.ended ≡ false) }
    {
        Feeder {
            producer,
            count: 0,
            ended: false,
        }
    }

    /// Gives the next entries of a journal, of which a beginning was given: as many as the ring, 64 and what is left
    /// allow, all or none.
    pub fn give(&mut self, journal: &[Entry]) -> Give
        requires { IsPrefix (given self.old) journal.now }
        ensures ring { SameFeeder self.old self.new }
        ensures give { Gives result journal.now self.old self.new }
        ensures prefix { IsPrefix (given self.new) journal.now }
    {
        if self.ended {
            return Give::Ended;
        }
        if self.count == journal.len() {
            return Give::Level;
        }
        let rest = &journal[self.count..];
        let most = rest
            .len()
            .min(MAX_SLICE_ITEMS)
            .min(self.producer.capacity());
        if !has_room(&mut self.producer, most) {
            return Give::Full;
        }
        let mut items = [Fed::End; MAX_SLICE_ITEMS];
        for i in 0..most {
            items[i] = Fed::Entry(rest[i]);
        }
        let Ok(()) = self.producer.push_entire_slice(&items[..most]) else {
            return Give::Full;
        };
        self.count += most;
        Give::Gave(most)
    }

    /// Pushes the end mark, once: Gave(0), Full or Ended.
    pub fn end(&mut self) -> Give
        ensures ring { SameFeeder self.old self.new }
        ensures end { EndGives result self.old self.new }
    {
        if self.ended {
            return Give::Ended;
        }
        let Ok(()) = self.producer.push(Fed::End) else {
            return Give::Full;
        };
        self.ended = true;
        Give::Gave(0)
    }
}

impl<A: Allocator> Matcher<A> {
    ghost use Rattle.std.specs.Prelude.{false};
    ghost use Rattle.std.specs.Bool.{OnTrue};
    ghost use Rattle.std.specs.Borrow.{sem};
    ghost use mathlib.Core.Option.{none};
    ghost use denote.Follow.{follows_so};
    ghost use Rattle.gate_link_stages.specs.contracts.feed.Matcher.{the_row};
    ghost use Rattle.gate_link_stages.specs.Feeding.{handed, take_ended, SameMatcher, Takes, taken_of};

    pub(crate) fn new(consumer: Consumer<Fed, A>) -> Matcher<A>
        requires { received consumer ≡ [] }
        ensures { (result.consumer ≡ consumer) × (result.ended ≡ false) }
    {
        Matcher {
            consumer,
            items: [Fed::End; HELD_ITEMS],
            next: 0,
            filled: 0,
            ended: false,
        }
    }

    /// Takes items from the ring, as many as are there, where none is held: says whether one is held now.
    fn fill(&mut self) -> bool
        ensures ring { SameMatcher self.old self.new }
        ensures handed { handed self.new ≡ handed self.old }
        ensures ended { take_ended self.new ≡ take_ended self.old }
        ensures held { OnTrue result (self.new.next < self.new.filled) }
    {
        if self.next < self.filled {
            return true;
        }
        self.filled = self.consumer.pop_partial_slice(&mut self.items);
        self.next = 0;
        0 < self.filled
    }

    /// Takes the next entry, if one is there, and lends it where it is held.
    pub fn lend(&mut self) -> Lent<'_>
        ensures* after { sem 𝓛 (follows_so (the_row A.row A.Allocator) (the_row A.row A.Allocator)
            self.entry.ghost_name none (λ _ _. ⊤)
            (λ n. SameMatcher self.old n × Takes (taken_of result) self.old n)) }
    {
        if self.ended {
            return Lent::Ended;
        }
        if !self.fill() {
            return Lent::Empty;
        }
        let at = self.next;
        let items = &self.items;
        let is_end = items[at].is_end();
        self.next += 1;
        self.ended = is_end;
        let held = &*self;
        match &held.items[at] {
            Fed::Entry(entry) => Lent::Entry(entry),
            Fed::End => Lent::Ended,
        }
    }

    /// Takes the next entry, if one is there. For who wants it as its own; the host asks `lend`, which copies none.
    pub fn take(&mut self) -> Taken
        ensures ring { SameMatcher self.old self.new }
        ensures take { Takes result self.old self.new }
    {
        match self.lend() {
            Lent::Entry(entry) => Taken::Entry(*entry),
            Lent::Empty => Taken::Empty,
            Lent::Ended => Taken::Ended,
        }
    }
}
