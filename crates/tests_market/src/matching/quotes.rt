//! Implied quotes of a market's book.
ghost use Rattle.std.specs.Prelude.{◌≡◌, [], Some};
ghost use Rattle.spread_books.specs.Quotes.{AreQuotable, IsQuote};
ghost use Rattle.spread_match_state.specs.State.{empty_state};
ghost use Rattle.spread_rules_rulebook.specs.Rulebook.{Rules, implied};

use super::cases::Came::{Cancelled, Rested, Session};
use super::cases::Sent::{Buy, Cancel, Logon, Sell};
use super::cases::{Case, Kept, expect_case, expect_over_list, order_of};
use super::pairs::H6_U6_OFF;
use super::{H6, H6_M6, H6_U6, M6, M6_U6, U6, rulebook};
use crate::books::checked::{add, remove};
use crate::books::listed::are_listed;
use crate::expect::holds;
use spread_books::{Book, IndexBook};
use spread_match::Market;
use spread_rules::{Choice, Fill, Instrument, Members, Rulebook, Side};
use spread_rules_ids::limits::MAX_MONTHS;
use std::alloc::Global;
use std::process::Abort;
use tests_shared::THREE_MONTHS;

/// A case, and what a buyer would get at its end by an implied quote: of each instrument the price, the place of the
/// first order and that of the second one. Each quote is of one lot.
pub(super) struct QuoteCase {
    pub(super) case: Case,
    pub(super) quotes: &'static [(Instrument, Option<(i64, u64, u64)>)],
}

/// Orders that come to a book, and what a buyer would get by an implied quote of one instrument, of one lot: before the
/// first of the orders leaves, and then.
struct LeavingCase {
    orders: &'static [Kept],
    quoted: Instrument,
    before: Option<(i64, u64, u64)>,
    after: Option<(i64, u64, u64)>,
}

/// A book that has implied quotes: a function that has a market over any such book is cheaper than one that has a market
/// over the index book.
trait Quoting: Book {
    /// The quote against an order of that instrument and side, under the rulebook by which the market's book quotes.
    fn quote_of(
        market: &Market<'_, Self, Global>,
        instrument: Instrument,
        side: Side,
    ) -> Option<Choice>
        ensures { (rules : Rules) → market.now.state.quotes_by ≡ Some rules
            → IsQuote (implied rules) market.now.state.orders instrument side result };

    /// The quote of that queue in the book alone.
    fn own_quote(&self, instrument: Instrument, side: Side) -> Option<Choice>
        requires { AreQuotable (Self.orders self.now) };
}

impl Quoting for IndexBook<'_, Global> {
    fn quote_of(
        market: &Market<'_, Self, Global>,
        instrument: Instrument,
        side: Side,
    ) -> Option<Choice> {
        let book = market.book();
        book.quote(instrument, side)
    }

    fn own_quote(&self, instrument: Instrument, side: Side) -> Option<Choice> {
        self.quote(instrument, side)
    }
}

fn choice_of(wanted: Option<(i64, u64, u64)>) -> Option<Choice> {
    match wanted {
        None => None,
        Some((price, first, second)) => Some(Choice {
            price,
            quantity: 1,
            members: Members::Implied(first, second),
        }),
    }
}

fn expect_quotes_of<B: Quoting>(
    rt: &impl Abort,
    market: &Market<'_, B, Global>,
    quotes: &[(Instrument, Option<(i64, u64, u64)>)],
) {
    for (instrument, wanted) in quotes {
        holds(
            rt,
            B::quote_of(market, *instrument, Side::Buy) == choice_of(*wanted),
        );
    }
}

/// A buyer's quote of that instrument in the book.
fn buyers_quote<B: Quoting>(rt: &impl Abort, book: &B, instrument: Instrument) -> Option<Choice> {
    holds(rt, are_listed(book, MAX_MONTHS));
    book.own_quote(instrument, Side::Buy)
}

/// The orders come to a book without any, and the first one leaves.
fn expect_leaving<B: Quoting>(rt: &impl Abort, book: &mut B, case: &LeavingCase) {
    for kept in case.orders {
        holds(rt, add(book, order_of(kept)) == Ok(true));
    }
    holds(
        rt,
        buyers_quote(rt, book, case.quoted) == choice_of(case.before),
    );
    holds(rt, remove(book, 0));
    holds(
        rt,
        buyers_quote(rt, book, case.quoted) == choice_of(case.after),
    );
}

/// What is done in a market over the index book.
#[derive(Clone, Copy)]
enum Course<'c> {
    /// What must come of the case comes of it, and the book has the quotes at the end.
    Quoted(&'c QuoteCase),
    /// The case of a pair at hand, which is not at hand under these rules without it.
    AtHand(&'c Rulebook),
}

/// Takes that course in a market before its first entry.
fn take<B: Quoting>(
    rt: &impl Abort,
    market: &mut Market<'_, B, Global>,
    rules: &Rulebook,
    course: Course<'_>,
    fills: &mut Vec<Fill>,
)
    requires { market.old.state ≡ empty_state market.old.state.quotes_by }
{
    match course {
        Course::Quoted(quoted) => {
            expect_case(rt, market, &quoted.case, fills);
            expect_quotes_of(rt, market, quoted.quotes);
        }
        Course::AtHand(without) => {
            expect_case(rt, market, &AT_HAND, fills);
            holds(rt, at_hand(market, rules) == Some(Some((9500, 0))));
            holds(rt, at_hand(market, without) == None);
        }
    }
}

/// What is done with an index book. One function has all of these books, as each that has one is dear.
#[derive(Clone, Copy)]
enum Trial<'c> {
    /// The first order leaves the book.
    Leaving(&'c LeavingCase),
    /// The course is taken in a market over the book.
    Market(Course<'c>),
}

/// Tries that with a book without orders.
fn try_with<B: Quoting + Drop>(
    rt: &impl Abort,
    alloc: Global,
    rules: &Rulebook,
    book: B,
    trial: Trial<'_>,
)
    requires { B.orders book ≡ [] }
{
    match trial {
        Trial::Leaving(case) => {
            let mut book = book;
            expect_leaving(rt, &mut book, case)
        }
        Trial::Market(course) => {
            let mut market = Market::new(alloc, rules, book);
            take(rt, &mut market, rules, course, &mut Vec::new(alloc))
        }
    }
}

/// The same with an index book.
fn try_with_index(rt: &impl Abort, alloc: Global, rules: &Rulebook, trial: Trial<'_>) {
    let book = IndexBook::new(alloc, rules).expect(rt, "memory");
    try_with(rt, alloc, rules, book, trial)
}

/// The cases over the list book, and with their quotes over the index book.
pub(super) fn expect_quotes(rt: &impl Abort, alloc: Global, cases: &[QuoteCase]) {
    for quoted in cases {
        let rules = rulebook(rt, quoted.case.rulebook, quoted.case.name);
        expect_over_list(rt, alloc, &quoted.case, &mut Vec::new(alloc));
        let course = Course::Quoted(quoted);
        try_with_index(rt, alloc, &rules, Trial::Market(course));
    }
}

static QUOTES: &[QuoteCase] = &[
    QuoteCase {
        case: Case {
            name: "a quote of a spread",
            rulebook: THREE_MONTHS,
            journal: &[
                (0, Logon, Session),
                (0, Sell(b'a', H6, 1, 10000), Rested),
                (0, Buy(b'b', M6, 1, 9800), Rested),
            ],
            fills: &[],
            resting: &[(2, 1), (3, 1)],
        },
        quotes: &[(H6_M6, Some((200, 2, 3)))],
    },
    QuoteCase {
        case: Case {
            name: "no quote of a spread that lost an order",
            rulebook: THREE_MONTHS,
            journal: &[
                (0, Logon, Session),
                (0, Sell(b'a', H6, 1, 10000), Rested),
                (0, Buy(b'b', M6, 1, 9800), Rested),
                (
                    0,
                    Cancel(b'c', b'a'),
                    Cancelled(Kept(2, b'a', H6, Side::Sell, 10000, 1, 1)),
                ),
            ],
            fills: &[],
            resting: &[(3, 1)],
        },
        quotes: &[(H6_M6, None)],
    },
    QuoteCase {
        case: Case {
            name: "a quote of the earlier month, where both other months imply the same price",
            rulebook: THREE_MONTHS,
            journal: &[
                (0, Logon, Session),
                (0, Sell(b'a', H6, 1, 10000), Rested),
                (0, Buy(b'b', H6_U6, 1, 500), Rested),
                (0, Sell(b'c', M6, 1, 9800), Rested),
                (0, Buy(b'd', M6_U6, 1, 300), Rested),
            ],
            fills: &[],
            resting: &[(2, 1), (3, 1), (4, 1), (5, 1)],
        },
        quotes: &[(U6, Some((9500, 3, 2)))],
    },
    QuoteCase {
        case: Case {
            name: "a quote of the month that is left",
            rulebook: THREE_MONTHS,
            journal: &[
                (0, Logon, Session),
                (0, Sell(b'a', H6, 1, 10000), Rested),
                (0, Buy(b'b', H6_U6, 1, 500), Rested),
                (0, Sell(b'c', M6, 1, 9800), Rested),
                (0, Buy(b'd', M6_U6, 1, 300), Rested),
                (
                    0,
                    Cancel(b'e', b'a'),
                    Cancelled(Kept(2, b'a', H6, Side::Sell, 10000, 1, 1)),
                ),
            ],
            fills: &[],
            resting: &[(3, 1), (4, 1), (5, 1)],
        },
        quotes: &[(U6, Some((9500, 5, 4)))],
    },
];

#[test]
fn of_a_buyer(rt: HostRuntime) {
    expect_quotes(&rt, rt.alloc(), QUOTES)
}

static LEAVING: &[LeavingCase] = &[
    // A spread loses one of its two months.
    LeavingCase {
        orders: &[
            Kept(2, b'a', H6, Side::Sell, 10000, 1, 1),
            Kept(3, b'b', M6, Side::Buy, 9800, 1, 1),
        ],
        quoted: H6_M6,
        before: Some((200, 2, 3)),
        after: None,
    },
    // A month loses the earlier of two other months that imply the same price.
    LeavingCase {
        orders: &[
            Kept(2, b'a', H6, Side::Sell, 10000, 1, 1),
            Kept(3, b'b', H6_U6, Side::Buy, 500, 1, 1),
            Kept(4, b'c', M6, Side::Sell, 9800, 1, 1),
            Kept(5, b'd', M6_U6, Side::Buy, 300, 1, 1),
        ],
        quoted: U6,
        before: Some((9500, 3, 2)),
        after: Some((9500, 5, 4)),
    },
];

/// An order that leaves the book takes its quotes with it.
#[test]
fn of_an_order_that_leaves(rt: HostRuntime) {
    let rules = rulebook(&rt, THREE_MONTHS, "a rulebook");
    for case in LEAVING {
        try_with_index(&rt, rt.alloc(), &rules, Trial::Leaving(case));
    }
}

/// Two pairs offer a buyer of U6 the same price. The newest order has no part in them.
static AT_HAND: Case = Case {
    name: "the pair of the earlier month is at hand",
    rulebook: THREE_MONTHS,
    journal: &[
        (0, Logon, Session),
        (0, Sell(b'a', H6, 1, 10000), Rested),
        (0, Buy(b'b', H6_U6, 1, 500), Rested),
        (0, Sell(b'c', M6, 1, 9800), Rested),
        (0, Buy(b'd', M6_U6, 1, 300), Rested),
        (0, Buy(b'e', H6, 1, 9000), Rested),
    ],
    fills: &[],
    resting: &[(2, 1), (3, 1), (4, 1), (5, 1), (6, 1)],
};

/// What a buyer of U6 pays the least, and by which other month, where the book has it at hand.
fn at_hand<B: Book>(
    market: &Market<'_, B, Global>,
    rules: &Rulebook,
) -> Option<Option<(i64, u64)>> {
    let least = market.book().pair_at_hand(rules, Side::Buy, 2)?;
    match least {
        None => Some(None),
        Some(pair) => Some(Some((pair.cost, pair.other_month))),
    }
}

/// The pair of H6 is at hand. Under the rules without it it has to be searched for.
#[test]
fn pair_at_hand(rt: HostRuntime) {
    let rules = rulebook(&rt, THREE_MONTHS, "a rulebook");
    let without = rulebook(&rt, H6_U6_OFF, "a rulebook");
    let course = Course::AtHand(&without);
    try_with_index(&rt, rt.alloc(), &rules, Trial::Market(course));
}
