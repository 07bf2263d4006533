//! Each request for memory refused in turn.
use crate::expect::holds;
use crate::live::days::{TWO_TRADES, expect_months, expect_trades, streams_of};
use crate::live::watch::{Meeting, Watch};
use crate::rules::three_months;
use gate_link::LinkFault;
use spread_host::{Caps, HostFault, run_day};
use spread_rules::Rulebook;
use std::alloc::{Allocator, Global};
use std::process::Abort;
use std::sync::Wait;
use std::thread::Threads;
use tests_shared::{FIRST_TRADE, Refusing, stamp};

/// What a day is run with.
#[derive(Clone, Copy)]
struct DayParts<'d> {
    rulebook: &'d Rulebook,
    watch: &'d Watch,
    caps: Caps,
}

/// The fault of a day of two streams of the first trade in which all memory is the heap's. Where it has none, it has all
/// entries and fills.
fn day_fault<R: Threads + Wait + Sync + Abort, A: Allocator + Copy + Send>(
    rt: &R,
    alloc: Global,
    heap: A,
    parts: &DayParts<'_>,
    streams: Vec<Vec<u8, A>, A>,
) -> Option<HostFault> {
    let DayParts {
        rulebook,
        watch,
        caps,
    } = *parts;
    match run_day(rt, heap, rulebook, stamp(), streams, watch, caps) {
        Ok(day) => {
            expect_trades(rt, alloc, &day.journal, 2);
            expect_months(rt, alloc, rulebook, &day.fills, TWO_TRADES);
            None
        }
        Err(fault) => Some(fault),
    }
}

/// What refused requests came to: whether to no link, and the places that were named, of eight entries 0 to 9.
#[derive(Drop)]
struct Seen {
    link: bool,
    places: [bool; 10],
}

/// Notes a fault, which comes of a refused request alone. Nothing is applied where no place is named, or place 0; else the
/// place is one more than the entries that were matched. Links are made before all else.
fn note(rt: &impl Abort, seen: &mut Seen, fault: HostFault, has_refused: bool, watch: &Watch) {
    holds(rt, has_refused && watch.in_turn());
    match fault {
        HostFault::NoMemory(place) if place < 10 => {
            holds(rt, watch.entries() == place.saturating_sub(1));
            seen.places[place as usize] = true;
        }
        _ => {
            holds(rt, fault == HostFault::Link(LinkFault::NoMemory));
            holds(rt, !seen.places.contains(&true));
            holds(rt, watch.entries() == 0);
            seen.link = true;
        }
    }
}

/// Runs a day of which this request of `run_day` is refused, and says whether it came. The first one is for a link.
fn is_refused<R: Threads + Wait + Sync + Abort>(
    rt: &R,
    alloc: Global,
    ring: usize,
    number: u64,
    seen: &mut Seen,
) -> bool {
    let heap = Refusing::idle(alloc);
    let streams = streams_of(&heap, 2, FIRST_TRADE).expect(rt, "memory");
    let watch = Watch::new(64, Meeting::Nowhere);
    let parts = DayParts {
        rulebook: &three_months(rt),
        watch: &watch,
        caps: Caps {
            ring,
            journal: 100_000,
        },
    };
    heap.refuse(number);
    let fault = day_fault(rt, alloc, &heap, &parts, streams);
    if let Some(fault) = fault {
        note(rt, seen, fault, heap.has_refused(), &watch);
    }
    holds(rt, number > 1 || seen.link);
    heap.has_refused()
}

/// Each request is refused in turn, over rings of this size. The threads' requests come in any order. The last of the
/// numbers names no request.
fn expect_refusals<R: Threads + Wait + Sync + Abort>(rt: &R, alloc: Global, ring: usize) {
    let mut seen = Seen {
        link: false,
        places: [false; 10],
    };
    let mut last_refused = true;
    for number in 1..250u64 {
        last_refused = is_refused(rt, alloc, ring, number, &mut seen);
    }
    holds(rt, !last_refused);
    holds(rt, seen.places[0] && seen.places[1..].contains(&true));
}

/// Over rings that take all that comes.
#[test]
fn run_day_refused_memory(rt: HostRuntime) {
    expect_refusals(&rt, rt.alloc(), 256);
}

/// Where memory is refused while a ring is full, no thread waits for one that has ended.
#[test]
fn run_day_refused_memory_over_full_rings(rt: HostRuntime) {
    expect_refusals(&rt, rt.alloc(), 1);
}
