//! Each request for memory refused in turn.
use super::{Filled, H6, H6_M6, M6, Part, Run, Start, fills_of, run_of};
use crate::expect::holds;
use crate::said::{DayOrder, Said, entry_of};
use spread_report::DeskFault;
use spread_rules::{Entry, Fill, Outcome, Side};
use std::alloc::{Allocator, Global};
use std::process::Abort;
use tests_shared::Refusing;

const SOLD_A: Filled = Filled {
    order: 2,
    session: 0,
    name: b"a",
    instrument: H6,
    side: Side::Sell,
    total: 2,
};

const SPREAD_B: Filled = Filled {
    order: 3,
    session: 0,
    name: b"b",
    instrument: H6_M6,
    side: Side::Sell,
    total: 3,
};

const SOLD_C: Filled = Filled {
    order: 4,
    session: 0,
    name: b"c",
    instrument: M6,
    side: Side::Sell,
    total: 4,
};

const BOUGHT_D: Filled = Filled {
    order: 5,
    session: 0,
    name: b"d",
    instrument: H6,
    side: Side::Buy,
    total: 6,
};

const SENT: &[u8] =
    b"8=FIX.4.2|9=57|35=A|34=1|49=HOST|52=20260105-14:30:00|56=C1|98=0|108=30|10=220|8=FIX.4.2|9=109|35=8|34=2|49=HOST|52=20260105-14:30:00|56=C1|37=2|11=a|17=2-1|20=0|150=0|39=0|55=H6|54=2|38=2|151=2|14=0|6=0|10=000|8=FIX.4.2|9=112|35=8|34=3|49=HOST|52=20260105-14:30:00|56=C1|37=3|11=b|17=3-1|20=0|150=0|39=0|55=H6-M6|54=2|38=3|151=3|14=0|6=0|10=176|8=FIX.4.2|9=109|35=8|34=4|49=HOST|52=20260105-14:30:00|56=C1|37=4|11=c|17=4-1|20=0|150=0|39=0|55=M6|54=2|38=4|151=4|14=0|6=0|10=017|8=FIX.4.2|9=109|35=8|34=5|49=HOST|52=20260105-14:30:00|56=C1|37=5|11=d|17=5-1|20=0|150=0|39=0|55=H6|54=1|38=6|151=6|14=0|6=0|10=019|8=FIX.4.2|9=130|35=8|34=6|49=HOST|52=20260105-14:30:00|56=C1|37=5|11=d|17=5-2|20=0|150=1|39=1|55=H6|54=1|38=6|32=2|31=100.00|151=4|14=2|6=0|442=1|10=176|8=FIX.4.2|9=130|35=8|34=7|49=HOST|52=20260105-14:30:00|56=C1|37=2|11=a|17=5-3|20=0|150=2|39=2|55=H6|54=2|38=2|32=2|31=100.00|151=0|14=2|6=0|442=1|10=167|8=FIX.4.2|9=130|35=8|34=8|49=HOST|52=20260105-14:30:00|56=C1|37=5|11=d|17=5-4|20=0|150=1|39=1|55=H6|54=1|38=6|32=3|31=100.00|151=1|14=5|6=0|442=1|10=181|8=FIX.4.2|9=131|35=8|34=9|49=HOST|52=20260105-14:30:00|56=C1|37=3|11=b|17=5-5|20=0|150=2|39=2|55=H6-M6|54=2|38=3|32=3|31=2.00|151=0|14=3|6=0|442=3|10=004|8=FIX.4.2|9=131|35=8|34=10|49=HOST|52=20260105-14:30:00|56=C1|37=3|11=b|17=5-6|20=0|150=2|39=2|55=H6|54=2|38=3|32=3|31=100.00|151=0|14=3|6=0|442=2|10=219|8=FIX.4.2|9=130|35=8|34=11|49=HOST|52=20260105-14:30:00|56=C1|37=3|11=b|17=5-7|20=0|150=2|39=2|55=M6|54=1|38=3|32=3|31=98.00|151=0|14=3|6=0|442=2|10=192|8=FIX.4.2|9=130|35=8|34=12|49=HOST|52=20260105-14:30:00|56=C1|37=4|11=c|17=5-8|20=0|150=1|39=1|55=M6|54=2|38=4|32=3|31=98.00|151=1|14=3|6=0|442=1|10=196|";

/// What session 0 says, and the fills.
static ENTRIES: [(Said, &[Part]); 5] = [
    (Said::Logon(b"C1"), &[]),
    (Said::New(DayOrder(b"a", b"H6", Side::Sell, 2, 10000)), &[]),
    (Said::New(DayOrder(b"b", b"H6-M6", Side::Sell, 3, 200)), &[]),
    (Said::New(DayOrder(b"c", b"M6", Side::Sell, 4, 9800)), &[]),
    (
        Said::New(DayOrder(b"d", b"H6", Side::Buy, 6, 10000)),
        &[
            (BOUGHT_D, 2, 4, 10000),
            (SOLD_A, 2, 0, 10000),
            (BOUGHT_D, 3, 1, 10000),
            (SPREAD_B, 3, 0, 200),
            (SOLD_C, 3, 1, 9800),
        ],
    ),
];

/// Whether session 0 was sent so many bytes of all, and the others nothing.
fn is_sent_up_to<A: Allocator + Copy>(run: &Run<A>, length: usize) -> bool {
    length <= SENT.len()
        && run.was_sent(0, &SENT[..length])
        && (1..16).all(|session| run.was_sent(session, b""))
}

/// Works an entry, and again where a request was refused in it: then nothing was sent.
fn work<A: Allocator + Copy>(
    rt: &impl Abort,
    run: &mut Run<A>,
    heap: &Refusing<Global>,
    entry: &Entry,
    outcome: &Outcome,
    fills: &[Fill],
) {
    let refused_before = heap.has_refused();
    let length = run.length_sent(0);
    let answer = run.answer(rt, entry, outcome, fills);
    if answer.is_err() {
        holds(rt, answer == Err(DeskFault::NoMemory));
        holds(rt, !refused_before && heap.has_refused());
        holds(rt, is_sent_up_to(run, length));
        run.answer(rt, entry, outcome, fills).expect(rt, "memory");
    }
}

/// Works the entries. What is sent is the same.
fn work_all<A: Allocator + Copy>(
    rt: &impl Abort,
    alloc: Global,
    run: &mut Run<A>,
    heap: &Refusing<Global>,
) {
    for (said, parts) in &ENTRIES {
        let outcome = match said {
            Said::Logon(_) => Outcome::Session,
            _ => Outcome::Rested,
        };
        let fills = fills_of(rt, alloc, parts);
        work(rt, run, heap, &entry_of(0, said), &outcome, &fills);
    }
    holds(rt, is_sent_up_to(run, SENT.len()));
}

/// Whether the request of that number came.
fn was_refused(rt: &impl Abort, alloc: Global, number: u64) -> bool {
    let heap = Refusing::new(alloc, number);
    let mut run = run_of(rt, alloc, &heap, &Start::Usual);
    work_all(rt, alloc, &mut run, &heap);
    heap.has_refused()
}

/// The first of the numbers names a request, and the last names none.
#[test]
fn each_request_refused_in_turn(rt: HostRuntime) {
    holds(&rt, was_refused(&rt, rt.alloc(), 1));
    let mut last_refused = true;
    for number in 2..500u64 {
        last_refused = was_refused(&rt, rt.alloc(), number);
    }
    holds(&rt, !last_refused);
}
