//! New orders: whom they traded with, and who ranked next.
use super::{Case, TICK_5, expect_all};
use tests_shared::{FIRST_TRADE_JOURNAL, THREE_MONTHS};

/// A sell order, a sell spread and a sell order of the far month, against an order to buy six lots.
const DIRECT_BEFORE_IMPLIED: &[u8] =
    b"JOURNAL 1\n0 logon 4331 484f5354 30\n0 new 61 4836 2 2 10000 day\n0 new 62 48362d4d36 2 3 200 day\n0 new 63 4d36 2 4 9800 day\n0 new 64 4836 1 6 10000 day\nEND 5\n";

const DIRECT_BEFORE_IMPLIED_WORDS: &[u8] =
    b"entry 5, session 0: new order 64, buy 6 H6 at 10000, day\n\
turn 1: 6 left, 2 traded\n  taken: price 10000, direct, place 2\n    place 2, session 0: sell H6 at 10000, 2 left\n  next: price 10000, implied, other month M6, places 3 and 4, behind by direct before implied\n\
turn 2: 4 left, 3 traded\n  taken: price 10000, implied, other month M6, places 3 and 4\n    place 3, session 0: sell H6-M6 at 200, 3 left\n    place 4, session 0: sell M6 at 9800, 4 left\n    legs: H6 at 10000, M6 at 9800\n\
beyond the limit: none\noutcome: rests with 1 left\n";

const PAIR_OFF: &[u8] = b"tick 1\nmonth H6 10000\nmonth M6 9800\nmonth U6 9500\npair H6 M6 off\n";

const PAIR_OFF_WORDS: &[u8] = b"entry 5, session 0: new order 64, buy 6 H6 at 10000, day\n\
turn 1: 6 left, 2 traded\n  taken: price 10000, direct, place 2\n    place 2, session 0: sell H6 at 10000, 2 left\n\
beyond the limit: none\noutcome: rests with 4 left\n";

const FIRST_TRADE_WORDS: &[u8] = b"entry 3, session 0: new order 62, buy 5 H6 at 10000, day\n\
turn 1: 5 left, 5 traded\n  taken: price 10000, direct, place 2\n    place 2, session 0: sell H6 at 10000, 5 left\n\
outcome: filled\n";

const NOTHING_RESTED_WORDS: &[u8] = b"entry 2, session 0: new order 61, sell 5 H6 at 10000, day\n\
beyond the limit: none\noutcome: rests with 5 left\n";

/// Three orders to sell, the last beyond the limit of the immediate one that buys, and one that sells beyond all.
const LIMITS: &[u8] =
    b"JOURNAL 2\n0 logon 4331 484f5354 30\n0 new 61 4836 2 1 100 day\n0 new 62 4836 2 1 105 day\n0 new 63 4836 2 1 120 day\n0 new 64 4836 1 3 110 ioc\n0 new 65 4836 1 1 115 day\n0 new 66 4836 2 1 200 day\nEND 7\n";

const BY_TWO_TICKS_WORDS: &[u8] = b"entry 5, session 0: new order 64, buy 3 H6 at 110, ioc\n\
turn 1: 3 left, 1 traded\n  taken: price 100, direct, place 2\n    place 2, session 0: sell H6 at 100, 1 left\n  next: price 105, direct, place 3, behind by price\n\
turn 2: 2 left, 1 traded\n  taken: price 105, direct, place 3\n    place 3, session 0: sell H6 at 105, 1 left\n\
beyond the limit: price 120, direct, place 4, by 2 ticks\noutcome: ended with 1 left\n";

const BY_ONE_TICK_WORDS: &[u8] = b"entry 6, session 0: new order 65, buy 1 H6 at 115, day\n\
beyond the limit: price 120, direct, place 4, by 1 tick\noutcome: rests with 1 left\n";

const SELL_BEYOND_WORDS: &[u8] = b"entry 7, session 0: new order 66, sell 1 H6 at 200, day\n\
beyond the limit: price 115, direct, place 6, by 17 ticks\noutcome: rests with 1 left\n";

/// Two spreads and two orders of their far month at the same prices, and a spread to a later month.
const SAME_PRICES: &[u8] =
    b"JOURNAL 2\n0 logon 4331 484f5354 30\n0 new 61 48362d4d36 2 1 200 day\n0 new 62 48362d4d36 2 1 200 day\n0 new 63 4d36 2 1 9800 day\n0 new 64 4d36 2 1 9800 day\n0 new 65 48362d5536 2 1 500 day\n0 new 66 5536 2 1 9500 day\n0 new 67 4836 1 1 10000 day\nEND 8\n";

const SAME_PRICES_WORDS: &[u8] = b"entry 8, session 0: new order 67, buy 1 H6 at 10000, day\n\
turn 1: 1 left, 1 traded\n  taken: price 10000, implied, other month M6, places 2 and 4\n    place 2, session 0: sell H6-M6 at 200, 1 left\n    place 4, session 0: sell M6 at 9800, 1 left\n    legs: H6 at 10000, M6 at 9800\n  next: price 10000, implied, other month M6, places 2 and 5, behind by the earlier place of the second member\n  next: price 10000, implied, other month M6, places 3 and 4, behind by the earlier place of the first member\n  next: price 10000, implied, other month M6, places 3 and 5, behind by the earlier place of the first member\n  next: price 10000, implied, other month U6, places 6 and 7, behind by the earlier other month\n\
outcome: filled\n";

/// Seven orders to buy, each a hundredth lower than the one before it.
const SEVEN: &[u8] =
    b"JOURNAL 2\n0 logon 4331 484f5354 30\n0 new 61 4836 1 1 107 day\n0 new 62 4836 1 1 106 day\n0 new 63 4836 1 1 105 day\n0 new 64 4836 1 1 104 day\n0 new 65 4836 1 1 103 day\n0 new 66 4836 1 1 102 day\n0 new 67 4836 1 1 101 day\n0 new 68 4836 2 1 50 day\nEND 9\n";

const SEVEN_WORDS: &[u8] = b"entry 9, session 0: new order 68, sell 1 H6 at 50, day\n\
turn 1: 1 left, 1 traded\n  taken: price 107, direct, place 2\n    place 2, session 0: buy H6 at 107, 1 left\n  next: price 106, direct, place 3, behind by price\n  next: price 105, direct, place 4, behind by price\n  next: price 104, direct, place 5, behind by price\n  next: price 103, direct, place 6, behind by price\n  next: price 102, direct, place 7, behind by price\n\
outcome: filled\n";

/// A spread that is sold against two outrights, and then against a spread.
const SPREAD: &[u8] =
    b"JOURNAL 2\n0 logon 4331 484f5354 30\n0 new 61 4836 1 2 10000 day\n0 new 62 4d36 2 2 9800 day\n1 logon 4332 484f5354 30\n1 new 61 48362d4d36 1 1 190 day\n0 new 63 48362d4d36 2 4 190 day\nEND 6\n";

const SPREAD_WORDS: &[u8] = b"entry 6, session 0: new order 63, sell 4 H6-M6 at 190, day\n\
turn 1: 4 left, 2 traded\n  taken: price 200, implied, places 2 and 3\n    place 2, session 0: buy H6 at 10000, 2 left\n    place 3, session 0: sell M6 at 9800, 2 left\n    legs: H6 at 10000, M6 at 9800\n  next: price 190, direct, place 5, behind by price\n\
turn 2: 2 left, 1 traded\n  taken: price 190, direct, place 5\n    place 5, session 1: buy H6-M6 at 190, 1 left\n    legs: H6 at 10000, M6 at 9810\n\
beyond the limit: none\noutcome: rests with 1 left\n";

/// An order for a far month, against a spread that is bought and an order that sells its near month.
const FAR: &[u8] =
    b"JOURNAL 2\n0 logon 4331 484f5354 30\n0 new 61 48362d4d36 1 1 200 day\n0 new 62 4836 2 1 10000 day\n0 new 63 4d36 1 1 9800 day\nEND 4\n";

const FAR_WORDS: &[u8] = b"entry 4, session 0: new order 63, buy 1 M6 at 9800, day\n\
turn 1: 1 left, 1 traded\n  taken: price 9800, implied, other month H6, places 2 and 3\n    place 2, session 0: buy H6-M6 at 200, 1 left\n    place 3, session 0: sell H6 at 10000, 1 left\n    legs: H6 at 10000, M6 at 9800\n\
outcome: filled\n";

const CASES: &[Case] = &[
    Case {
        shows: "direct before implied at one price",
        rules: THREE_MONTHS,
        journal: DIRECT_BEFORE_IMPLIED,
        place: 5,
        words: DIRECT_BEFORE_IMPLIED_WORDS,
    },
    Case {
        shows: "a pair that is off is no candidate",
        rules: PAIR_OFF,
        journal: DIRECT_BEFORE_IMPLIED,
        place: 5,
        words: PAIR_OFF_WORDS,
    },
    Case {
        shows: "a first trade",
        rules: THREE_MONTHS,
        journal: FIRST_TRADE_JOURNAL,
        place: 3,
        words: FIRST_TRADE_WORDS,
    },
    Case {
        shows: "nothing rested",
        rules: THREE_MONTHS,
        journal: FIRST_TRADE_JOURNAL,
        place: 2,
        words: NOTHING_RESTED_WORDS,
    },
    Case {
        shows: "two ticks beyond the limit",
        rules: TICK_5,
        journal: LIMITS,
        place: 5,
        words: BY_TWO_TICKS_WORDS,
    },
    Case {
        shows: "one tick beyond the limit",
        rules: TICK_5,
        journal: LIMITS,
        place: 6,
        words: BY_ONE_TICK_WORDS,
    },
    Case {
        shows: "an order to sell beyond all that are bought",
        rules: TICK_5,
        journal: LIMITS,
        place: 7,
        words: SELL_BEYOND_WORDS,
    },
    Case {
        shows: "other months and places at one price",
        rules: THREE_MONTHS,
        journal: SAME_PRICES,
        place: 8,
        words: SAME_PRICES_WORDS,
    },
    Case {
        shows: "five that rank next at most",
        rules: THREE_MONTHS,
        journal: SEVEN,
        place: 9,
        words: SEVEN_WORDS,
    },
    Case {
        shows: "a spread that is sold",
        rules: THREE_MONTHS,
        journal: SPREAD,
        place: 6,
        words: SPREAD_WORDS,
    },
    Case {
        shows: "a far month",
        rules: THREE_MONTHS,
        journal: FAR,
        place: 4,
        words: FAR_WORDS,
    },
];

#[test]
fn new_orders(rt: HostRuntime) {
    expect_all(&rt, rt.alloc(), CASES);
}
