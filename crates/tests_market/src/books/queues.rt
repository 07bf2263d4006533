//! What every kind of book answers.
use super::rows::Step::{
    Add, Amend, At, Count, Found, Front, NoFront, NoneAt, NotAmend, NotFound, Reduce, Remove,
};
use super::rows::{Lot, Name, Row, expect_over_each};
use spread_rules::Instrument;
use spread_rules::Side::{Buy, Sell};

const FIRST_MONTH: Instrument = Instrument::Outright(0);

const LAST_SPREAD: Instrument = Instrument::Spread(1, 24);

const A: Name = Name(b'a', 0);

const A_0: Name = Name(b'a', 1);

const A_0_0: Name = Name(b'a', 2);

const B: Name = Name(b'b', 0);

const C: Name = Name(b'c', 0);

const D: Name = Name(b'd', 0);

const L: Name = Name(b'l', 0);

static ROWS: &[Row] = &[
    // The front is lessened, and stays; then it leaves, and the one behind it is the front.
    Row {
        name: "three sellers of one month, the second and the third at the better price",
        steps: &[
            Count(0),
            Add(Lot(2, 1, A, FIRST_MONTH, Sell, 10000, 5, 5)),
            Add(Lot(3, 1, B, FIRST_MONTH, Sell, 9900, 5, 5)),
            Add(Lot(5, 1, C, FIRST_MONTH, Sell, 9900, 5, 5)),
            Count(3),
            Front(Lot(3, 1, B, FIRST_MONTH, Sell, 9900, 5, 5)),
            NoFront(FIRST_MONTH, Buy),
            NoFront(Instrument::Outright(1), Sell),
            Found(Lot(5, 1, C, FIRST_MONTH, Sell, 9900, 5, 5)),
            NotFound(0, C),
            At(0, Lot(2, 1, A, FIRST_MONTH, Sell, 10000, 5, 5)),
            At(2, Lot(5, 1, C, FIRST_MONTH, Sell, 9900, 5, 5)),
            NoneAt(3),
            Reduce(1, 2),
            Front(Lot(3, 1, B, FIRST_MONTH, Sell, 9900, 5, 3)),
            Remove(1),
            Front(Lot(5, 1, C, FIRST_MONTH, Sell, 9900, 5, 5)),
            Count(2),
        ],
    },
    Row {
        name: "buyers queue by the highest price, the least one at the end",
        steps: &[
            Add(Lot(1, 1, L, FIRST_MONTH, Buy, i64::MIN, 5, 5)),
            Front(Lot(1, 1, L, FIRST_MONTH, Buy, i64::MIN, 5, 5)),
            Add(Lot(2, 1, A, FIRST_MONTH, Buy, -300, 5, 5)),
            Front(Lot(2, 1, A, FIRST_MONTH, Buy, -300, 5, 5)),
            Add(Lot(3, 1, B, FIRST_MONTH, Buy, -200, 5, 5)),
            Front(Lot(3, 1, B, FIRST_MONTH, Buy, -200, 5, 5)),
        ],
    },
    // An id that ends in a byte 0 is another id. Of two orders with one id the earlier is found.
    Row {
        name: "a month, and spreads of every two numbers of a kind, stand in queues of their own",
        steps: &[
            Add(Lot(1, 1, A, Instrument::Spread(0, 3), Sell, 5, 5, 5)),
            Add(Lot(2, 1, A, Instrument::Spread(3, 0), Sell, 4, 5, 5)),
            Add(Lot(3, 1, A_0, Instrument::Outright(255), Sell, 3, 5, 5)),
            Add(Lot(4, 1, A, Instrument::Spread(255, 255), Sell, i64::MAX, 5, 5)),
            Front(Lot(1, 1, A, Instrument::Spread(0, 3), Sell, 5, 5, 5)),
            NoFront(Instrument::Spread(0, 3), Buy),
            Front(Lot(2, 1, A, Instrument::Spread(3, 0), Sell, 4, 5, 5)),
            NoFront(Instrument::Spread(3, 0), Buy),
            Front(Lot(3, 1, A_0, Instrument::Outright(255), Sell, 3, 5, 5)),
            NoFront(Instrument::Outright(255), Buy),
            Front(Lot(4, 1, A, Instrument::Spread(255, 255), Sell, i64::MAX, 5, 5)),
            NoFront(Instrument::Spread(255, 255), Buy),
            NoFront(Instrument::Spread(0, 0), Sell),
            NoFront(Instrument::Outright(3), Sell),
            Found(Lot(1, 1, A, Instrument::Spread(0, 3), Sell, 5, 5, 5)),
            Found(Lot(3, 1, A_0, Instrument::Outright(255), Sell, 3, 5, 5)),
            NotFound(1, A_0_0),
        ],
    },
    // The worse one behind the front leaves, then the front, then the one behind it.
    Row {
        name: "an order that leaves behind the front leaves it there; a worse and a later one do not go ahead of it",
        steps: &[
            Add(Lot(1, 1, A, FIRST_MONTH, Sell, 9900, 5, 5)),
            Add(Lot(2, 1, B, FIRST_MONTH, Sell, 10000, 5, 5)),
            Add(Lot(3, 1, C, FIRST_MONTH, Sell, 9900, 5, 5)),
            Front(Lot(1, 1, A, FIRST_MONTH, Sell, 9900, 5, 5)),
            Remove(1),
            Front(Lot(1, 1, A, FIRST_MONTH, Sell, 9900, 5, 5)),
            Remove(0),
            Front(Lot(3, 1, C, FIRST_MONTH, Sell, 9900, 5, 5)),
            NotFound(1, A),
            Remove(0),
            NoFront(FIRST_MONTH, Sell),
            Count(0),
        ],
    },
    Row {
        name: "the last order of a month is the front, is lessened, and leaves: the one before it is the front again",
        steps: &[
            Add(Lot(1, 1, A, FIRST_MONTH, Sell, 10000, 5, 5)),
            Add(Lot(2, 1, B, FIRST_MONTH, Sell, 9900, 5, 5)),
            Front(Lot(2, 1, B, FIRST_MONTH, Sell, 9900, 5, 5)),
            Found(Lot(2, 1, B, FIRST_MONTH, Sell, 9900, 5, 5)),
            At(0, Lot(1, 1, A, FIRST_MONTH, Sell, 10000, 5, 5)),
            At(1, Lot(2, 1, B, FIRST_MONTH, Sell, 9900, 5, 5)),
            NoneAt(2),
            Reduce(1, 3),
            Front(Lot(2, 1, B, FIRST_MONTH, Sell, 9900, 5, 2)),
            At(1, Lot(2, 1, B, FIRST_MONTH, Sell, 9900, 5, 2)),
            Remove(1),
            Front(Lot(1, 1, A, FIRST_MONTH, Sell, 10000, 5, 5)),
            NotFound(1, B),
            NoneAt(1),
            Count(1),
        ],
    },
    // It is the front once they have left too.
    Row {
        name: "after the last order of a month has left, one more comes behind those before it",
        steps: &[
            Add(Lot(1, 1, A, FIRST_MONTH, Sell, 10000, 5, 5)),
            Add(Lot(2, 1, B, FIRST_MONTH, Sell, 9900, 5, 5)),
            Remove(1),
            Add(Lot(3, 1, B, FIRST_MONTH, Sell, 10000, 5, 5)),
            Front(Lot(1, 1, A, FIRST_MONTH, Sell, 10000, 5, 5)),
            Found(Lot(3, 1, B, FIRST_MONTH, Sell, 10000, 5, 5)),
            At(0, Lot(1, 1, A, FIRST_MONTH, Sell, 10000, 5, 5)),
            At(1, Lot(3, 1, B, FIRST_MONTH, Sell, 10000, 5, 5)),
            Count(2),
            Remove(0),
            Front(Lot(3, 1, B, FIRST_MONTH, Sell, 10000, 5, 5)),
            NoFront(FIRST_MONTH, Buy),
            At(0, Lot(3, 1, B, FIRST_MONTH, Sell, 10000, 5, 5)),
        ],
    },
    Row {
        name: "the last order of a spread is the front, is lessened, and leaves: the one before it is the front again",
        steps: &[
            Add(Lot(1, 1, A, LAST_SPREAD, Sell, 10000, 5, 5)),
            Add(Lot(2, 1, B, LAST_SPREAD, Sell, 9900, 5, 5)),
            Front(Lot(2, 1, B, LAST_SPREAD, Sell, 9900, 5, 5)),
            Found(Lot(2, 1, B, LAST_SPREAD, Sell, 9900, 5, 5)),
            At(0, Lot(1, 1, A, LAST_SPREAD, Sell, 10000, 5, 5)),
            At(1, Lot(2, 1, B, LAST_SPREAD, Sell, 9900, 5, 5)),
            NoneAt(2),
            Reduce(1, 3),
            Front(Lot(2, 1, B, LAST_SPREAD, Sell, 9900, 5, 2)),
            At(1, Lot(2, 1, B, LAST_SPREAD, Sell, 9900, 5, 2)),
            Remove(1),
            Front(Lot(1, 1, A, LAST_SPREAD, Sell, 10000, 5, 5)),
            NotFound(1, B),
            NoneAt(1),
            Count(1),
        ],
    },
    // It is the front once they have left too.
    Row {
        name: "after the last order of a spread has left, one more comes behind those before it",
        steps: &[
            Add(Lot(1, 1, A, LAST_SPREAD, Sell, 10000, 5, 5)),
            Add(Lot(2, 1, B, LAST_SPREAD, Sell, 9900, 5, 5)),
            Remove(1),
            Add(Lot(3, 1, B, LAST_SPREAD, Sell, 10000, 5, 5)),
            Front(Lot(1, 1, A, LAST_SPREAD, Sell, 10000, 5, 5)),
            Found(Lot(3, 1, B, LAST_SPREAD, Sell, 10000, 5, 5)),
            At(0, Lot(1, 1, A, LAST_SPREAD, Sell, 10000, 5, 5)),
            At(1, Lot(3, 1, B, LAST_SPREAD, Sell, 10000, 5, 5)),
            Count(2),
            Remove(0),
            Front(Lot(3, 1, B, LAST_SPREAD, Sell, 10000, 5, 5)),
            NoFront(LAST_SPREAD, Buy),
            At(0, Lot(3, 1, B, LAST_SPREAD, Sell, 10000, 5, 5)),
        ],
    },
    // Two sellers, as at places 2 and 3 of the worked journal with two replace requests.
    // The first takes an id and a smaller quantity, and stays the front. Two of its lots are filled, so that it cannot
    // take a quantity of two; it is amended again. Then the second one takes the id that the first one had.
    Row {
        name: "orders are amended in place",
        steps: &[
            Add(Lot(2, 0, A, FIRST_MONTH, Sell, 10000, 5, 5)),
            Add(Lot(3, 0, B, FIRST_MONTH, Sell, 10000, 5, 5)),
            Amend(0, C, 3),
            Count(2),
            At(0, Lot(2, 0, C, FIRST_MONTH, Sell, 10000, 3, 3)),
            At(1, Lot(3, 0, B, FIRST_MONTH, Sell, 10000, 5, 5)),
            Found(Lot(2, 0, C, FIRST_MONTH, Sell, 10000, 3, 3)),
            Found(Lot(3, 0, B, FIRST_MONTH, Sell, 10000, 5, 5)),
            NotFound(0, A),
            Front(Lot(2, 0, C, FIRST_MONTH, Sell, 10000, 3, 3)),
            Reduce(0, 2),
            NotAmend(0, D, 2),
            NotAmend(0, B, 3),
            Amend(0, D, 7),
            Count(2),
            At(0, Lot(2, 0, D, FIRST_MONTH, Sell, 10000, 7, 5)),
            At(1, Lot(3, 0, B, FIRST_MONTH, Sell, 10000, 5, 5)),
            Found(Lot(2, 0, D, FIRST_MONTH, Sell, 10000, 7, 5)),
            Found(Lot(3, 0, B, FIRST_MONTH, Sell, 10000, 5, 5)),
            NotFound(0, C),
            Front(Lot(2, 0, D, FIRST_MONTH, Sell, 10000, 7, 5)),
            Amend(1, A, 4),
            Count(2),
            At(0, Lot(2, 0, D, FIRST_MONTH, Sell, 10000, 7, 5)),
            At(1, Lot(3, 0, A, FIRST_MONTH, Sell, 10000, 4, 4)),
            Found(Lot(2, 0, D, FIRST_MONTH, Sell, 10000, 7, 5)),
            Found(Lot(3, 0, A, FIRST_MONTH, Sell, 10000, 4, 4)),
            NotFound(0, B),
            Front(Lot(2, 0, D, FIRST_MONTH, Sell, 10000, 7, 5)),
        ],
    },
];

#[test]
fn every_kind_of_book(rt: HostRuntime) {
    expect_over_each(&rt, rt.alloc(), ROWS)
}
