use crate::expect::holds;
use tests_shared::{FIRST_TRADE, FIRST_TRADE_LINES, Refusing, THREE_MONTHS, id, stamp};

#[test]
fn one_is_refused(rt: HostRuntime) {
    let heap = Refusing::new(rt.alloc(), 2);
    let mut first = Vec::new(&heap);
    holds(&rt, first.push(1u8).is_ok());
    holds(&rt, !heap.has_refused());
    let mut second = Vec::new(&heap);
    holds(&rt, second.push(2u8).is_err());
    holds(&rt, heap.has_refused());
    holds(&rt, second.push(2u8).is_ok());
    holds(&rt, second.as_slice() == [2u8].as_slice());
}

#[test]
fn samples(rt: HostRuntime) {
    holds(&rt, id(b"C1").bytes() == b"C1".as_slice());
    holds(&rt, stamp().bytes() == b"20260105-14:30:00".as_slice());
    holds(&rt, FIRST_TRADE.len() == 400);
    // A session's number and a colon before each of four lines, and a line end behind it.
    holds(&rt, FIRST_TRADE_LINES.len() == 400 + 4 * 3);
    holds(&rt, THREE_MONTHS.starts_with(b"tick 1\n"));
}
