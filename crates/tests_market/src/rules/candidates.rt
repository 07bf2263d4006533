//! Candidates and their rank.
ghost use Rattle.spread_rules.specs.code.Candidates.{HasOrderPrice};

use super::{H6, M6, THREE_MONTHS, order};
use crate::expect::{holds, holds_for};
use spread_rules::{
    Candidate, Choice, Counterparty, Instrument, Level, Members, Order, Rank, Rulebook, Side,
    better, candidate_for, chosen, is_within, leg_prices, levels_meet, plain_candidate, price_at,
    quantity_with, ranking,
};
use std::test::Fail;

/// A buyer of H6.
fn buyer() -> Order
    ensures { HasOrderPrice result }
{
    order(5, H6, Side::Buy, 6, 10000)
}

/// A seller of H6.
fn seller() -> Order
    ensures { HasOrderPrice result }
{
    order(2, H6, Side::Sell, 2, 10000)
}

/// A seller of the spread from H6 to M6.
fn spread_seller() -> Order
    ensures { HasOrderPrice result }
{
    order(3, Instrument::Spread(0, 1), Side::Sell, 3, 200)
}

/// A seller of M6.
fn far_seller() -> Order
    ensures { HasOrderPrice result }
{
    order(4, M6, Side::Sell, 4, 9700)
}

#[test]
fn levels_that_meet(rt: HostRuntime) {
    let spread_level = Level {
        instrument: Instrument::Spread(0, 1),
        side: Side::Sell,
        price: 200,
    };
    holds(&rt, spread_seller().level() == spread_level);
    let far_level = far_seller().level();
    holds(&rt, levels_meet(&buyer(), &spread_level, &far_level));
    holds(
        &rt,
        !levels_meet(&order(5, H6, Side::Buy, 6, 9899), &spread_level, &far_level),
    );
}

#[test]
fn price_of_a_pair(rt: HostRuntime) {
    let pair = Counterparty::Implied(spread_seller(), far_seller());
    holds(&rt, price_at(&buyer(), &pair) == Some(9900));
    holds(&rt, is_within(&buyer(), 10000));
    holds(&rt, !is_within(&buyer(), 10001));
}

/// The least left of the buyer's six lots, the seller's two, the spread's three and the other month's four.
#[test]
fn lots_that_trade(rt: HostRuntime) {
    let direct = Counterparty::Direct(seller());
    holds(&rt, quantity_with(&buyer(), &direct) == 2);
    let pair = Counterparty::Implied(spread_seller(), far_seller());
    holds(&rt, quantity_with(&buyer(), &pair) == 3);
    holds(
        &rt,
        Side::Buy.opposite() == Side::Sell && Side::Sell.opposite() == Side::Buy,
    );
}

#[test]
fn candidates_ranked(rt: HostRuntime) {
    let buy = buyer();
    let direct = candidate_for(&buy, Counterparty::Direct(seller()));
    let pair = Counterparty::Implied(spread_seller(), far_seller());
    match better(&buy, direct, candidate_for(&buy, pair)) {
        None => holds_for(&rt, false, "no candidate"),
        Some(best) => {
            let rank = Rank {
                cost: 9900,
                implied: true,
                month: 1,
                first: 3,
                second: 4,
            };
            holds(&rt, ranking(&buy, &best) == rank);
            let choice = Choice {
                price: 9900,
                quantity: 3,
                members: Members::Implied(3, 4),
            };
            holds(&rt, chosen(&buy, &best) == choice);
        }
    }
}

#[test]
fn plain_candidate_found(rt: HostRuntime) -> Result<(), Fail> {
    let rules = Rulebook::read(THREE_MONTHS)?;
    match plain_candidate(&rules, &[seller()], &buyer()) {
        None => holds_for(&rt, false, "no candidate"),
        Some(found) => holds(&rt, found.price == 10000),
    }
    Ok(())
}

/// The reference prices are 100.00, 98.00 and 95.00.
#[test]
fn legs_priced(rt: HostRuntime) -> Result<(), Fail> {
    let rules = Rulebook::read(THREE_MONTHS)?;
    let spread = Instrument::Spread(0, 1);
    let buy = order(5, spread, Side::Buy, 6, 150);
    let direct = Candidate {
        price: 150,
        counterparty: Counterparty::Direct(order(2, spread, Side::Sell, 2, 150)),
    };
    holds(&rt, leg_prices(&rules, &buy, &direct) == (10000, 9850));
    let outrights = Candidate {
        price: 150,
        counterparty: Counterparty::Implied(
            order(2, H6, Side::Sell, 2, 9990),
            order(3, M6, Side::Buy, 2, 9840),
        ),
    };
    holds(&rt, leg_prices(&rules, &buy, &outrights) == (9990, 9840));
    let sell = order(6, M6, Side::Sell, 6, 9700);
    let spread_and_outright = Candidate {
        price: 9790,
        counterparty: Counterparty::Implied(
            order(4, spread, Side::Sell, 1, 200),
            order(2, H6, Side::Buy, 2, 9990),
        ),
    };
    holds(
        &rt,
        leg_prices(&rules, &sell, &spread_and_outright) == (9990, 9790),
    );
    Ok(())
}
