//! What is told of an entry, in values.
use crate::expect::holds;
use crate::rules::three_months;
use explain_entries::explain_entry;
use spread_journal::read_journal;
use spread_rules::Outcome;
use tests_shared::FIRST_TRADE_JOURNAL;

/// The second order names no other, and is filled by one turn.
#[test]
fn second_order_of_the_first_trade(rt: HostRuntime) {
    let rules = three_months(&rt);
    let read = read_journal(rt.alloc(), FIRST_TRADE_JOURNAL);
    let journal = read.ok().expect(&rt, "a journal");
    holds(&rt, journal.len() == 4);
    let told = explain_entry(rt.alloc(), &rules, &journal[..2], &journal[2]).expect(&rt, "memory");
    holds(
        &rt,
        matches!(told.outcome, Outcome::Filled) && told.named.is_none(),
    );
    let traded = told.traded.as_ref().expect(&rt, "a trade");
    holds(&rt, traded.new.place == 3 && traded.explanation.left == 0);
    holds(&rt, traded.explanation.turns.len() == 1);
}
