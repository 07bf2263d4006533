//! Tests by subject, and what they share.
use crate::expect::holds_for;
use crate::rules::three_months;
use crate::said::{Said, entry_of};
use spread_report::{Desk, DeskFault, fit_fills, fits_outcome};
use spread_rules::{Entry, Event, Fill, Instrument, Order, Outcome, Rulebook, Side};
use std::alloc::{Allocator, Global};
use std::process::Abort;
use tests_shared::{id, stamp};

mod admin_messages;
mod definitions;
mod memory_refused;
mod numbering;
mod outbound;
mod refusals_and_cancels;
mod replaces;
mod reports;

const H6: Instrument = Instrument::Outright(0);

const M6: Instrument = Instrument::Outright(1);

const H6_M6: Instrument = Instrument::Spread(0, 1);

// ---- cases

/// An order as its fills show it.
#[derive(Clone, Copy)]
struct Filled {
    order: u64,
    session: u8,
    name: &'static [u8],
    instrument: Instrument,
    side: Side,
    total: u32,
}

/// A fill of an order: so much of it is filled, so much is left then, and the price.
type Part = (Filled, u32, u32, i64);

/// An order of session 0, with a limit of 100.00, that a request has ended or put in the place of another.
#[derive(Clone, Copy)]
struct Ordered {
    place: u64,
    name: &'static [u8],
    instrument: Instrument,
    side: Side,
    quantity: u32,
    leaves: u32,
}

/// What came of an entry.
#[derive(Clone, Copy)]
enum Came {
    Rested,
    Filled,
    /// Nothing rests, and so much is left.
    Ended(u32),
    Cancelled(Ordered),
    Replaced(Ordered),
    /// Refused for this reason.
    Refused(u8),
    /// A cancel or a replace is refused for this reason; the order's place and its status.
    CancelRefused(u8, u64, u8),
}

/// What happens next in a case.
enum Step {
    /// The next entry is a session's own message, and is answered.
    Session(u8, Said),
    /// The next entry is a request of an order, and is answered: what came of it, and its fills.
    Request(u8, Said, Came, &'static [Part]),
    /// The same two, where the numbers are spent.
    SessionSpent(u8, Said),
    RequestSpent(u8, Said, Came, &'static [Part]),
    /// The next entry has this place.
    Place(u64),
    /// A session has been sent this so far, byte 1 shown as `|`.
    Sent(usize, &'static [u8]),
}

/// The desk of a case.
enum Start {
    /// With the usual stamp, its numbers from 1 on.
    Usual,
    /// With this stamp.
    Stamp(&'static [u8]),
    /// With the numbers from this one on.
    Number(u32),
}

/// What a case shows, its desk, and what happens.
struct Case {
    shows: &'static str,
    start: Start,
    steps: &'static [Step],
}

fn order_of(ordered: &Ordered) -> Order {
    Order {
        place: ordered.place,
        session: 0,
        id: id(ordered.name),
        instrument: ordered.instrument,
        side: ordered.side,
        price: 10000,
        quantity: ordered.quantity,
        leaves: ordered.leaves,
    }
}

fn outcome_of(came: &Came) -> Outcome {
    match *came {
        Came::Rested => Outcome::Rested,
        Came::Filled => Outcome::Filled,
        Came::Ended(left) => Outcome::Ended { left },
        Came::Cancelled(ordered) => Outcome::Cancelled(order_of(&ordered)),
        Came::Replaced(ordered) => Outcome::Replaced(order_of(&ordered)),
        Came::Refused(reason) => Outcome::Refused(reason),
        Came::CancelRefused(reason, place, status) => Outcome::CancelRefused {
            reason,
            place,
            status,
        },
    }
}

fn fill_of(part: &Part) -> Fill {
    let (of, quantity, leaves, price) = *part;
    Fill {
        at: 0,
        order: of.order,
        session: of.session,
        id: id(of.name),
        instrument: of.instrument,
        side: of.side,
        quantity,
        price,
        near: 10000,
        far: 9800,
        total: of.total,
        leaves,
    }
}

fn fills_of(rt: &impl Abort, alloc: Global, parts: &[Part]) -> Vec<Fill> {
    let mut fills = Vec::new(alloc);
    for part in parts {
        fills.push(fill_of(part)).expect(rt, "memory");
    }
    fills
}

fn desk_of(rt: &impl Abort, start: &Start) -> Desk {
    match *start {
        Start::Usual => Desk::new(stamp()),
        Start::Stamp(text) => Desk::new(id(text)),
        Start::Number(number) => Desk::starting(stamp(), number).expect(rt, "a desk"),
    }
}

// ---- a run

/// A desk, what it has sent, and the place of the next entry.
#[derive(Drop)]
struct Run<A: Allocator + Copy> {
    rules: Rulebook,
    desk: Desk,
    lists: Vec<Vec<u8, A>>,
    place: u64,
}

/// A run of such a desk, whose lists take their memory from the heap.
fn run_of<A: Allocator + Copy>(rt: &impl Abort, alloc: Global, heap: A, start: &Start) -> Run<A> {
    let mut lists = Vec::new(alloc);
    for _ in 0..16 {
        lists.push(Vec::new(heap)).expect(rt, "memory");
    }
    Run {
        rules: three_months(rt),
        desk: desk_of(rt, start),
        lists,
        place: 1,
    }
}

impl<A: Allocator + Copy> Run<A> {
    /// The desk's answer to an entry at the next place. After an error the next place stays.
    fn answer(
        &mut self,
        rt: &impl Abort,
        entry: &Entry,
        outcome: &Outcome,
        fills: &[Fill],
    ) -> Result<(), DeskFault> {
        if self.lists.len() != 16
            || entry.session >= 16
            || !fits_outcome(&self.rules, &entry.event, outcome)
            || !fit_fills(&self.rules, fills)
        {
            rt.panic("the desk asks for more");
        }
        let place = self.place;
        let lists = self.lists.as_mut_slice();
        let answer = self
            .desk
            .outgoing(&self.rules, place, entry, outcome, fills, lists);
        if answer.is_ok() && place < 1000 {
            self.place = place + 1;
        }
        answer
    }

    /// How many bytes a session was sent.
    fn length_sent(&self, session: usize) -> usize {
        match self.lists.get(session) {
            Some(sent) => sent.len(),
            None => 0,
        }
    }

    /// Whether a session was sent this, byte 1 shown as `|`.
    fn was_sent(&self, session: usize, want: &[u8]) -> bool {
        if session >= self.lists.len() {
            return false;
        }
        let sent = self.lists[session].as_slice();
        if sent.len() != want.len() {
            return false;
        }
        for n in 0..want.len() {
            if sent[n] != (if want[n] == b'|' { 1 } else { want[n] }) {
                return false;
            }
        }
        true
    }
}

/// Whether a session's own message has this answer.
fn answers_session(
    rt: &impl Abort,
    run: &mut Run<Global>,
    session: u8,
    said: &Said,
    want: &Result<(), DeskFault>,
) -> bool {
    run.answer(rt, &entry_of(session, said), &Outcome::Session, &[]) == *want
}

/// Whether a request of an order has this answer, where that came of it, with these fills.
fn answers_request(
    rt: &impl Abort,
    alloc: Global,
    run: &mut Run<Global>,
    asked: (u8, &Said, &Came, &[Part]),
    want: &Result<(), DeskFault>,
) -> bool {
    let (session, said, came, parts) = asked;
    let fills = fills_of(rt, alloc, parts);
    run.answer(rt, &entry_of(session, said), &outcome_of(came), &fills) == *want
}

const SPENT: Result<(), DeskFault> = Err(DeskFault::NumbersSpent);

fn take_step(rt: &impl Abort, alloc: Global, run: &mut Run<Global>, step: &Step) -> bool {
    match step {
        Step::Session(session, said) => answers_session(rt, run, *session, said, &Ok(())),
        Step::Request(session, said, came, parts) => {
            answers_request(rt, alloc, run, (*session, said, came, parts), &Ok(()))
        }
        Step::SessionSpent(session, said) => answers_session(rt, run, *session, said, &SPENT),
        Step::RequestSpent(session, said, came, parts) => {
            answers_request(rt, alloc, run, (*session, said, came, parts), &SPENT)
        }
        Step::Place(place) => {
            run.place = *place;
            true
        }
        Step::Sent(session, want) => run.was_sent(*session, want),
    }
}

/// Each step of a case is as the case says.
fn expect_case(rt: &impl Abort, alloc: Global, case: &Case) {
    let mut run = run_of(rt, alloc, alloc, &case.start);
    for step in case.steps {
        holds_for(rt, take_step(rt, alloc, &mut run, step), case.shows);
    }
}

fn expect_cases(rt: &impl Abort, alloc: Global, cases: &[Case]) {
    for case in cases {
        expect_case(rt, alloc, case);
    }
}
