//! Each request for memory refused in turn.
use super::check::{DIRECT_BEFORE_IMPLIED, DIRECT_BEFORE_IMPLIED_TEXT};
use crate::expect::holds;
use crate::rules::three_months;
use spread_host::{HostFault, check, replay};
use spread_rules::{Rulebook, TestSink, TestSource};
use std::alloc::{Allocator, Global};
use std::process::Abort;
use tests_shared::{FIRST_TRADE_LINES, FIRST_TRADE_TEXT, Refusing, stamp};

const THREE_LOGONS: &[u8] =
    b"0:8=FIX.4.2|9=57|35=A|34=1|49=C1|52=20260105-14:30:00|56=HOST|98=0|108=30|10=220|\n\
1:8=FIX.4.2|9=57|35=A|34=1|49=C1|52=20260105-14:30:00|56=HOST|98=0|108=30|10=220|\n\
2:8=FIX.4.2|9=57|35=A|34=1|49=C1|52=20260105-14:30:00|56=HOST|98=0|108=30|10=220|\n";

/// What a replay of them writes: each is answered, and closed at the end of its bytes.
const THREE_LOGONS_TEXT: &[u8] = b"JOURNAL 2\n\
0 logon 4331 484f5354 30\n\
1 logon 4331 484f5354 30\n\
2 logon 4331 484f5354 30\n\
0 close 5\n\
1 close 5\n\
2 close 5\n\
END 6\n\
O 0:8=FIX.4.2|9=57|35=A|34=1|49=HOST|52=20260105-14:30:00|56=C1|98=0|108=30|10=220|\n\
O 1:8=FIX.4.2|9=57|35=A|34=1|49=HOST|52=20260105-14:30:00|56=C1|98=0|108=30|10=220|\n\
O 2:8=FIX.4.2|9=57|35=A|34=1|49=HOST|52=20260105-14:30:00|56=C1|98=0|108=30|10=220|\n\
M H6 0 0 0 0\n\
M M6 0 0 0 0\n\
M U6 0 0 0 0\n";

/// The places that refusals have named: that of the first entry not worked through, 0 where none was begun, one more than
/// the journal's length where all were.
#[derive(Drop)]
pub struct Places {
    last: u64,
    seen: [bool; 16],
}

impl Places {
    pub fn new() -> Places {
        Places {
            last: 0,
            seen: [false; 16],
        }
    }

    /// Notes a place. False where it lies below an earlier one, though the refused request came later.
    pub fn note(&mut self, place: u64) -> bool {
        if place < self.last || place > 15 {
            return false;
        }
        self.last = place;
        self.seen[place as usize] = true;
        true
    }

    /// Whether these places were named, and no others.
    pub fn are(&self, places: &[usize]) -> bool {
        (0..16).all(|place| self.seen[place] == places.contains(&place))
    }
}

/// A replay of these lines in which all memory is the heap's: it writes this text, or nothing where it has no answer.
fn replay_over<A: Allocator + Copy>(
    rt: &impl Abort,
    alloc: Global,
    heap: A,
    rules: &Rulebook,
    lines: &[u8],
    text: &[u8],
) -> Option<HostFault> {
    let mut sink = TestSink::new(alloc, 4096, 0).expect(rt, "memory");
    let lines = Vec::from_slice(alloc, lines).expect(rt, "memory");
    let mut source = TestSource::new(lines, 0);
    let fault = replay(heap, rules, stamp(), &mut source, &mut sink, false).err();
    let written = if fault.is_none() { text } else { b"" };
    holds(rt, sink.bytes() == written);
    fault
}

/// A check of a journal in which all memory is the heap's: nothing is written where it has no answer.
fn check_over<A: Allocator + Copy>(
    rt: &impl Abort,
    alloc: Global,
    heap: A,
    rules: &Rulebook,
) -> Option<HostFault> {
    let mut sink = TestSink::new(alloc, 1000, 0).expect(rt, "memory");
    let fault = check(heap, rules, DIRECT_BEFORE_IMPLIED, &mut sink).err();
    let written = if fault.is_none() {
        DIRECT_BEFORE_IMPLIED_TEXT
    } else {
        b""
    };
    holds(rt, sink.bytes() == written);
    fault
}

/// Notes the place where a request was refused. Without a refusal there is an answer.
fn note_fault(rt: &impl Abort, places: &mut Places, has_refused: bool, fault: Option<HostFault>) {
    match fault {
        None => {}
        Some(HostFault::NoMemory(place)) => {
            holds(rt, has_refused && places.note(place));
        }
        Some(_) => rt.panic("another fault"),
    }
}

/// The entries are three Logons, each answered in a list of its own, and three ends of streams, which send nothing. The
/// last of the numbers names no request.
#[test]
fn replay_refused_memory(rt: HostRuntime) {
    let rules = three_months(&rt);
    let mut places = Places::new();
    let mut last_refused = true;
    for number in 1..250u64 {
        let heap = Refusing::new(rt.alloc(), number);
        let (lines, text) = (THREE_LOGONS, THREE_LOGONS_TEXT);
        let fault = replay_over(&rt, rt.alloc(), &heap, &rules, lines, text);
        last_refused = heap.has_refused();
        holds(&rt, fault.is_some() == last_refused);
        note_fault(&rt, &mut places, last_refused, fault);
    }
    holds(&rt, !last_refused);
    holds(&rt, places.are(&[0, 1, 2, 3, 7]));
}

/// Of the first trade's four entries the first, the Logon, is answered in a list that grows for it; behind the last one
/// the text is written. The last of the numbers names no request.
#[test]
fn first_trade_refused_memory(rt: HostRuntime) {
    let rules = three_months(&rt);
    let mut places = Places::new();
    let mut last_refused = true;
    for number in 1..250u64 {
        let heap = Refusing::new(rt.alloc(), number);
        // A guess of a row that finds no memory is left out, and the answer is the same.
        let (lines, text) = (FIRST_TRADE_LINES, FIRST_TRADE_TEXT);
        let fault = replay_over(&rt, rt.alloc(), &heap, &rules, lines, text);
        last_refused = heap.has_refused();
        note_fault(&rt, &mut places, last_refused, fault);
    }
    holds(&rt, !last_refused);
    holds(&rt, places.seen[0] && places.seen[1]);
    holds(&rt, places.seen[5] && places.last == 5);
}

/// The places that a check of the five entries names. The first order is the second entry, and room for it was made before
/// the first. Each later order sends the one before it into the tables of a queue of its own. Then the text is made.
pub const CHECKED_PLACES: [usize; 5] = [0, 3, 4, 5, 6];

/// The last of the numbers names no request.
#[test]
fn check_refused_memory(rt: HostRuntime) {
    let rules = three_months(&rt);
    let mut places = Places::new();
    let mut last_refused = true;
    for number in 1..250u64 {
        let heap = Refusing::new(rt.alloc(), number);
        // A guess of a row that finds no memory is left out, and the answer is the same.
        let fault = check_over(&rt, rt.alloc(), &heap, &rules);
        last_refused = heap.has_refused();
        note_fault(&rt, &mut places, last_refused, fault);
    }
    holds(&rt, !last_refused);
    holds(&rt, places.are(&CHECKED_PLACES));
}
