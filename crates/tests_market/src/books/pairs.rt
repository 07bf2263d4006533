//! The pair of fronts that costs the least: kept in a table, and searched for.
use super::checked::add;
use super::listed::{are_listed, is_in_months};
use crate::expect::holds;
use spread_books::{Book, ListBook};
use spread_books_plain::PairCost;
use spread_books_quotes::{Change, FrontCosts, QuoteTable, is_all_on};
use spread_books_search::{MonthPairs, cheapest_pair, front_cost, is_pair_on, spreads_with};
use spread_rules::Side::{Buy, Sell};
use spread_rules::{Instrument, Order, Rulebook, Side};
use std::alloc::Global;
use std::process::Abort;
use tests_shared::{THREE_MONTHS, id};

/// Whether the pair costs that, with that other month.
fn is_pair(pair: Option<PairCost>, cost: i64, other_month: u64) -> bool {
    match pair {
        None => false,
        Some(pair) => pair.cost == cost && pair.other_month == other_month,
    }
}

/// Five lots at that place and price.
fn sell(place: u64, instrument: Instrument, price: i64) -> Order {
    Order {
        place,
        session: 1,
        id: id(b"a"),
        instrument,
        side: Sell,
        price,
        quantity: 5,
        leaves: 5,
    }
}

/// What fronts of three months cost, and their cheapest pairs.
#[derive(Drop)]
struct Tables {
    fronts: FrontCosts<Global>,
    cheapest: QuoteTable<Global>,
}

/// The order comes to the book, and both tables are told.
fn come(
    rt: &impl Abort,
    rules: &Rulebook,
    book: &mut ListBook<Global>,
    tables: &mut Tables,
    order: Order,
) {
    let pairs = MonthPairs { rules, months: 3 };
    holds(rt, add(book, order).is_ok());
    holds(rt, are_listed(book, 3) && is_in_months(3, order.instrument));
    tables.fronts.note(book, &pairs, &order);
    tables
        .cheapest
        .renew(&tables.fronts, 3, &order, Change::Came);
}

/// Tables of a book in which no order rests.
fn empty_tables(rt: &impl Abort, alloc: Global) -> Tables {
    Tables {
        fronts: FrontCosts::new(alloc, 3).expect(rt, "memory"),
        cheapest: QuoteTable::new(alloc, 3).expect(rt, "memory"),
    }
}

/// The same costs in their rows, by the other month, and among all cells of spreads.
fn expect_rows(rt: &impl Abort, fronts: &FrontCosts<Global>) {
    let spreads = fronts.spread_row(Buy, 0, 3);
    holds(rt, spreads.len() == 3 && spreads.get(1) == Some(&100));
    let outrights = fronts.outright_row(Buy, 3);
    holds(rt, outrights.len() == 3 && outrights.get(1) == Some(&9900));
    holds(rt, fronts.spread_cells().contains(&100));
}

/// Who buys the first month by way of the second pays 100 for the spread and 9900 for the second.
fn expect_costs(rt: &impl Abort, rules: &Rulebook, book: &ListBook<Global>, tables: &Tables) {
    holds(rt, are_listed(book, 3));
    let cost = front_cost(book, Instrument::Outright(1), Sell);
    holds(rt, cost == Some(9900));
    holds(rt, tables.fronts.spread_cell(Buy, 0, 1) == 100);
    holds(rt, tables.fronts.outright_cell(Buy, 1) == 9900);
    expect_rows(rt, &tables.fronts);
    let pair = tables.cheapest.known_pair(Buy, 0).expect(rt, "a month");
    holds(rt, is_pair(pair, 10000, 1));
    let pairs = MonthPairs { rules, months: 3 };
    holds(rt, is_pair(cheapest_pair(book, &pairs, Buy, 0), 10000, 1));
}

#[test]
fn costs_of_fronts_and_their_cheapest_pair(rt: HostRuntime) {
    let rules = Rulebook::read(THREE_MONTHS).expect(&rt, "a rulebook");
    let mut book = ListBook::new(rt.alloc());
    let mut tables = empty_tables(&rt, rt.alloc());
    let spread = sell(1, Instrument::Spread(0, 1), 100);
    come(&rt, &rules, &mut book, &mut tables, spread);
    let second = sell(2, Instrument::Outright(1), 9900);
    come(&rt, &rules, &mut book, &mut tables, second);
    expect_costs(&rt, &rules, &book, &tables);
    holds(&rt, is_all_on(&rules));
}

fn is_queue(side: Side, month: u8, other_month: u8, instrument: Instrument, of: Side) -> bool {
    let queue = spreads_with(side, month, other_month);
    queue.instrument == instrument && queue.side == of
}

// Who buys a month meets who sells its spread with a later month, and who buys that with an earlier one.
#[test]
fn spreads_of_a_month(rt: HostRuntime) {
    let rules = Rulebook::read(THREE_MONTHS).expect(&rt, "a rulebook");
    holds(&rt, is_queue(Buy, 1, 2, Instrument::Spread(1, 2), Sell));
    holds(&rt, is_queue(Buy, 1, 0, Instrument::Spread(0, 1), Buy));
    holds(&rt, is_pair_on(&rules, 1, 0) && is_pair_on(&rules, 0, 1));
}
