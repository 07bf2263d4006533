//! New orders that are refused, and cancels.
use super::{Case, TICK_5, expect_all};

const JOURNAL: &[u8] =
    b"JOURNAL 2\n0 logon 4331 484f5354 30\n0 new 61 4836 1 1 100 day\n0 new 61 4836 1 1 100 day\n0 new 62 5858 1 1 100 day\n0 new 63 4836 1 0 100 day\n0 new 64 4836 1 1 101 day\n0 cancel 65 61\n0 cancel 66 61\n0 cancel 67 70\n0 cancel 68 64\n0 new 69 4836 1 1000000 100 day\nEND 11\n";

const CASES: &[Case] = &[
    Case {
        shows: "an id used before",
        rules: TICK_5,
        journal: JOURNAL,
        place: 3,
        words: b"entry 3, session 0: new order 61, buy 1 H6 at 100, day\noutcome: refused, reason 6: the session used this id before, in entry 2\n",
    },
    Case {
        shows: "a symbol of no instrument",
        rules: TICK_5,
        journal: JOURNAL,
        place: 4,
        words: b"entry 4, session 0: new order 62, buy 1 5858 at 100, day\noutcome: refused, reason 1: symbol 5858 names no instrument\n",
    },
    Case {
        shows: "no lots",
        rules: TICK_5,
        journal: JOURNAL,
        place: 5,
        words: b"entry 5, session 0: new order 63, buy 0 H6 at 100, day\noutcome: refused, reason 3: quantity 0 is not from 1 to 999999\n",
    },
    Case {
        shows: "a lot too many",
        rules: TICK_5,
        journal: JOURNAL,
        place: 11,
        words: b"entry 11, session 0: new order 69, buy 1000000 H6 at 100, day\noutcome: refused, reason 3: quantity 1000000 is not from 1 to 999999\n",
    },
    Case {
        shows: "no multiple of the tick",
        rules: TICK_5,
        journal: JOURNAL,
        place: 6,
        words: b"entry 6, session 0: new order 64, buy 1 H6 at 101, day\noutcome: refused, reason 0: price 101 is no multiple of the tick 5\n",
    },
    Case {
        shows: "a cancel",
        rules: TICK_5,
        journal: JOURNAL,
        place: 7,
        words: b"entry 7, session 0: cancel 65 of order 61\noutcome: ends the order of place 2, session 0: buy H6 at 100, 1 left\n",
    },
    Case {
        shows: "a second cancel",
        rules: TICK_5,
        journal: JOURNAL,
        place: 8,
        words: b"entry 8, session 0: cancel 66 of order 61\noutcome: refused, reason 0: the order of place 2 is cancelled\n",
    },
    Case {
        shows: "a cancel of an unknown order",
        rules: TICK_5,
        journal: JOURNAL,
        place: 9,
        words: b"entry 9, session 0: cancel 67 of order 70\noutcome: refused, reason 1: the session entered no order with this id\n",
    },
    Case {
        shows: "a cancel of a refused order",
        rules: TICK_5,
        journal: JOURNAL,
        place: 10,
        words: b"entry 10, session 0: cancel 68 of order 64\noutcome: refused, reason 0: the order of place 6 was refused\n",
    },
];

#[test]
fn refusals_and_cancels(rt: HostRuntime) {
    expect_all(&rt, rt.alloc(), CASES);
}
