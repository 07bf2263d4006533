//! A gate that sees a day, and holds its threads.
use spread_host::Gate;
use std::sync::atomic::{AtomicU32, AtomicU64, Ordering};
use std::{array, thread};

/// A point of a day.
#[derive(Clone, Copy)]
pub enum Point {
    /// Before this message of this session is stepped on.
    Message(u8, u32),
    /// After the entry of this place was matched.
    Matched(u64),
    /// After a writer took its first piece.
    Written,
}

/// Two points of a day.
#[derive(Clone, Copy)]
pub enum Meeting {
    Nowhere,
    /// The first waits until the second has come.
    Held(Point, Point),
    /// Each waits until the other has come.
    Both(Point, Point),
}

/// What has come of one session: how many messages, and the last total of its writer's bytes.
#[derive(Drop)]
struct Seen {
    messages: AtomicU32,
    bytes: AtomicU64,
}

/// Holds threads at a meeting, and counts what comes of each session, and the entries that were matched. So many messages
/// are stepped on together.
#[derive(Drop)]
pub struct Watch {
    most: u32,
    meeting: Meeting,
    first: AtomicU32,
    second: AtomicU32,
    late: AtomicU32,
    sessions: [Seen; 16],
    messages_at_first: AtomicU32,
    entries: AtomicU64,
    wrong: AtomicU32,
}

/// Waits until the flag is set, and says whether it came within ten million turns.
fn comes(flag: &AtomicU32) -> bool {
    for _ in 0..10_000_000 {
        if flag.load(Ordering::SeqCst) == 1 {
            return true;
        }
        thread::yield_now();
    }
    false
}

fn is_same(a: Point, b: Point) -> bool {
    match (a, b) {
        (Point::Message(session, message), Point::Message(other_session, other_message)) => {
            session == other_session && message == other_message
        }
        (Point::Matched(place), Point::Matched(other_place)) => place == other_place,
        (Point::Written, Point::Written) => true,
        _ => false,
    }
}

impl Watch {
    pub fn new(most: u32, meeting: Meeting) -> Watch {
        Watch {
            most,
            meeting,
            first: AtomicU32::new(0),
            second: AtomicU32::new(0),
            late: AtomicU32::new(0),
            sessions: array::from_fn(|_| Seen {
                messages: AtomicU32::new(0),
                bytes: AtomicU64::new(0),
            }),
            messages_at_first: AtomicU32::new(0),
            entries: AtomicU64::new(0),
            wrong: AtomicU32::new(0),
        }
    }

    /// A point has come, of which the flag is this; where it comes first it waits for the other flag.
    fn comes_and_waits(&self, mine: &AtomicU32, other: &AtomicU32, waits: bool) {
        if mine.swap(1, Ordering::SeqCst) == 0 && waits && !comes(other) {
            self.late.store(1, Ordering::SeqCst);
        }
    }

    fn come(&self, point: Point) {
        let (first, second, both) = match self.meeting {
            Meeting::Nowhere => return,
            Meeting::Held(first, second) => (first, second, false),
            Meeting::Both(first, second) => (first, second, true),
        };
        if is_same(point, first) {
            self.comes_and_waits(&self.first, &self.second, true);
        }
        if is_same(point, second) {
            self.comes_and_waits(&self.second, &self.first, both);
        }
    }

    /// Whether no point waited in vain.
    pub fn in_time(&self) -> bool {
        self.late.load(Ordering::SeqCst) == 0
    }

    /// Whether of each session each message came once, in order, and each total of bytes was more than the one before, and
    /// of the entries the places came as 1, 2, 3 and so on.
    pub fn in_turn(&self) -> bool {
        self.wrong.load(Ordering::SeqCst) == 0
    }

    /// How many messages of that session have come.
    pub fn messages(&self, session: u8) -> u32 {
        match self.sessions.get(usize::from(session)) {
            Some(seen) => seen.messages.load(Ordering::SeqCst),
            None => 0,
        }
    }

    /// How many of session 0 had come when the first entry was matched.
    pub fn messages_at_first(&self) -> u32 {
        self.messages_at_first.load(Ordering::SeqCst)
    }

    /// The last total of the bytes of that session's writer.
    pub fn bytes(&self, session: u8) -> u64 {
        match self.sessions.get(usize::from(session)) {
            Some(seen) => seen.bytes.load(Ordering::SeqCst),
            None => 0,
        }
    }

    /// The place of the last entry that was matched.
    pub fn entries(&self) -> u64 {
        self.entries.load(Ordering::SeqCst)
    }

    /// Notes whether it came in turn.
    fn note(&self, in_turn: bool) {
        if !in_turn {
            self.wrong.store(1, Ordering::SeqCst);
        }
    }
}

impl Gate for Watch {
    fn before(&self, session: u8, message: u32) {
        match self.sessions.get(usize::from(session)) {
            Some(seen) => self.note(message == seen.messages.fetch_add(1, Ordering::SeqCst)),
            None => self.note(false),
        }
        self.come(Point::Message(session, message));
    }

    fn most(&self) -> u32 {
        self.most
    }

    fn matched(&self, place: u64) {
        let before = self.entries.swap(place, Ordering::SeqCst);
        self.note(place == before.wrapping_add(1));
        if place == 1 {
            let come = self.messages(0);
            self.messages_at_first.store(come, Ordering::SeqCst);
        }
        self.come(Point::Matched(place));
    }

    fn written(&self, session: u8, total: u64) {
        match self.sessions.get(usize::from(session)) {
            Some(seen) => self.note(total > seen.bytes.swap(total, Ordering::SeqCst)),
            None => self.note(false),
        }
        self.come(Point::Written);
    }
}
