//! A number that may be below 0, as the texts of a journal and of fills have it.
use crate::expect::holds;
use spread_journal_lines::put_signed;
use std::process::Abort;

/// The number is written behind what stands before that place, and nothing else is.
fn expect(rt: &impl Abort, number: i64, digits: &[u8]) {
    let mut room = [b'.'; 32];
    let end = put_signed(&mut room, 1, number);
    holds(rt, &room[..1] == b".".as_slice());
    holds(rt, room[1..].starts_with(digits));
    holds(rt, end == digits.len().saturating_add(1));
}

#[test]
fn signed_numbers_are_their_digits(rt: HostRuntime) {
    expect(&rt, 0, b"0");
    expect(&rt, 9_800, b"9800");
    expect(&rt, -1, b"-1");
    expect(&rt, -2_000_000_000, b"-2000000000");
    expect(&rt, i64::MAX, b"9223372036854775807");
    expect(&rt, i64::MIN, b"-9223372036854775808");
}
