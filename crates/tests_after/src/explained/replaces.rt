//! Replaces: an order keeps its place, loses it, or stays as it is.
use super::{Case, TICK_5, expect_all};

/// Two of five lots that are sold are filled; then the order of place 2 is to be replaced, and then the one that stands
/// for it at place 13.
const JOURNAL: &[u8] =
    b"JOURNAL 2\n0 logon 4331 484f5354 30\n0 new 61 4836 2 5 10000 day\n0 new 62 4836 1 2 10000 day\n0 new 63 4836 1 1 9900 day\n0 replace 61 64 4836 2 4 10000 day\n0 replace 64 65 4836 2 2 10000 day\n0 replace 64 65 4836 2 4 10000 day\n0 replace 64 66 4d36 2 4 10000 day\n0 replace 64 67 4836 1 4 10000 day\n0 replace 64 68 4836 2 0 10000 day\n0 replace 64 69 4836 2 4 10001 day\n0 replace 64 6a 4836 2 4 10000 ioc\n0 replace 64 6b 4836 2 6 9900 day\n0 replace 64 6c 4836 2 6 9900 day\n0 cancel 6d 62\n0 replace 99 6e 4836 2 6 9900 day\n0 replace 6b 6f 4836 2 1000000 9900 day\n0 new 70 4836 1 5 9890 day\n0 replace 6b 71 4836 2 6 9890 day\nEND 19\n";

const CASES: &[Case] = &[
    Case {
        shows: "the place is kept",
        rules: TICK_5,
        journal: JOURNAL,
        place: 5,
        words: b"entry 5, session 0: replace 64 of order 61, sell 4 H6 at 10000, day\noutcome: keeps its place 2 with 2 left\n",
    },
    Case {
        shows: "the place is lost",
        rules: TICK_5,
        journal: JOURNAL,
        place: 13,
        words: b"entry 13, session 0: replace 6b of order 64, sell 6 H6 at 9900, day\nloses its place: place 2, session 0: sell H6 at 10000, 2 left\nturn 1: 4 left, 1 traded\n  taken: price 9900, direct, place 4\n    place 4, session 0: buy H6 at 9900, 1 left\nbeyond the limit: none\noutcome: rests with 3 left\n",
    },
    Case {
        shows: "the place is lost, and nothing rests",
        rules: TICK_5,
        journal: JOURNAL,
        place: 19,
        words: b"entry 19, session 0: replace 71 of order 6b, sell 6 H6 at 9890, day\nloses its place: place 13, session 0: sell H6 at 9900, 3 left\nturn 1: 3 left, 3 traded\n  taken: price 9890, direct, place 18\n    place 18, session 0: buy H6 at 9890, 5 left\noutcome: filled\n",
    },
    Case {
        shows: "no more than is filled",
        rules: TICK_5,
        journal: JOURNAL,
        place: 6,
        words: b"entry 6, session 0: replace 65 of order 64, sell 2 H6 at 10000, day\noutcome: refused, reason 0: quantity 2 is no more than the 2 filled of the order of place 2\n",
    },
    Case {
        shows: "an id used before",
        rules: TICK_5,
        journal: JOURNAL,
        place: 7,
        words: b"entry 7, session 0: replace 65 of order 64, sell 4 H6 at 10000, day\noutcome: refused, reason 2: the session used this id before, in entry 6\n",
    },
    Case {
        shows: "another symbol",
        rules: TICK_5,
        journal: JOURNAL,
        place: 8,
        words: b"entry 8, session 0: replace 66 of order 64, sell 4 M6 at 10000, day\noutcome: refused, reason 2: symbol is not that of the order of place 2\n",
    },
    Case {
        shows: "another side",
        rules: TICK_5,
        journal: JOURNAL,
        place: 9,
        words: b"entry 9, session 0: replace 67 of order 64, buy 4 H6 at 10000, day\noutcome: refused, reason 2: side is not that of the order of place 2\n",
    },
    Case {
        shows: "no lots",
        rules: TICK_5,
        journal: JOURNAL,
        place: 10,
        words: b"entry 10, session 0: replace 68 of order 64, sell 0 H6 at 10000, day\noutcome: refused, reason 2: quantity 0 is not from 1 to 999999\n",
    },
    Case {
        shows: "a lot too many",
        rules: TICK_5,
        journal: JOURNAL,
        place: 17,
        words: b"entry 17, session 0: replace 6f of order 6b, sell 1000000 H6 at 9900, day\noutcome: refused, reason 2: quantity 1000000 is not from 1 to 999999\n",
    },
    Case {
        shows: "no multiple of the tick",
        rules: TICK_5,
        journal: JOURNAL,
        place: 11,
        words: b"entry 11, session 0: replace 69 of order 64, sell 4 H6 at 10001, day\noutcome: refused, reason 2: price 10001 is no multiple of the tick 5\n",
    },
    Case {
        shows: "an immediate one",
        rules: TICK_5,
        journal: JOURNAL,
        place: 12,
        words: b"entry 12, session 0: replace 6a of order 64, sell 4 H6 at 10000, ioc\noutcome: refused, reason 2: it is immediate\n",
    },
    Case {
        shows: "a replace of a replaced order",
        rules: TICK_5,
        journal: JOURNAL,
        place: 14,
        words: b"entry 14, session 0: replace 6c of order 64, sell 6 H6 at 9900, day\noutcome: refused, reason 0: the order of place 2 is replaced\n",
    },
    Case {
        shows: "a cancel of a filled order",
        rules: TICK_5,
        journal: JOURNAL,
        place: 15,
        words: b"entry 15, session 0: cancel 6d of order 62\noutcome: refused, reason 0: the order of place 3 is filled\n",
    },
    Case {
        shows: "a replace of an unknown order",
        rules: TICK_5,
        journal: JOURNAL,
        place: 16,
        words: b"entry 16, session 0: replace 6e of order 99, sell 6 H6 at 9900, day\noutcome: refused, reason 1: the session entered no order with this id\n",
    },
];

#[test]
fn replaces(rt: HostRuntime) {
    expect_all(&rt, rt.alloc(), CASES);
}
