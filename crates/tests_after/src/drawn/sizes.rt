//! Long days.
use super::pictures::count_of;
use crate::expect::holds;
use crate::rules::three_months;
use draw_day::draw;
use spread_rules::TestSink;
use std::alloc::{AllocError, Global};
use std::fmt::Write;
use tests_shared::Chance;

/// Symbols in hexadecimal, and a price near which each trades.
const SYMBOLS: [(&str, usize); 6] = [
    ("4836", 10_000),
    ("4d36", 9_800),
    ("5536", 9_500),
    ("48362d4d36", 200),
    ("4d362d5536", 300),
    ("48362d5536", 500),
];

/// The six digits of an id in hexadecimal, which a number shows: 12 is 303030303132.
fn id_of(serial: u64) -> u64 {
    let mut id = 0u64;
    for place in &[100_000, 10_000, 1_000, 100, 10, 1] {
        let digit = serial / (*place).max(1) % 10;
        id = id.wrapping_mul(100).wrapping_add(30).wrapping_add(digit);
    }
    id
}

/// A new order, its id of six digits.
fn put_order(out: &mut String, chance: &mut Chance, serial: u64) -> Result<(), AllocError> {
    let (symbol, near) = SYMBOLS[chance.below(6)];
    let side = chance.below(2).wrapping_add(1);
    let quantity = chance.below(20).wrapping_add(1);
    let price = near.wrapping_add(chance.below(21)).wrapping_sub(10);
    let id = id_of(serial);
    write!(out, "0 new {id} {symbol} {side} {quantity} {price} day\n")
}

/// A Logon, then so many orders.
fn long_journal(alloc: Global, orders: u64) -> Result<String, AllocError> {
    let mut out = String::new(alloc);
    let mut chance = Chance::new(7);
    out.push_str("JOURNAL 1\n0 logon 4331 484f5354 30\n")?;
    for serial in 0..orders {
        put_order(&mut out, &mut chance, serial)?;
    }
    let entries = orders.wrapping_add(1);
    write!(out, "END {entries}\n")?;
    Ok(out)
}

/// The picture of a day of 100,000 entries is below 2,000,000 bytes, for which the sink has room, and not many more.
#[test]
fn long_day(rt: HostRuntime) {
    let rules = three_months(&rt);
    let journal = long_journal(rt.alloc(), 99_999).expect(&rt, "memory");
    let mut sink = TestSink::new(rt.alloc(), 1_999_999, 0).expect(&rt, "memory");
    draw(rt.alloc(), &rules, journal.as_bytes(), &mut sink).expect(&rt, "a picture");
    holds(&rt, count_of(sink.bytes(), b"<svg class=\"panel\"") == 6);
    holds(&rt, sink.bytes().len() > 100_000);
}
