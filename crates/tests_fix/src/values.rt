//! Digits as they are written into room, and read up to the greatest price.
use crate::expect::holds;
use fix_wire_values::{limited_digits, put, put_byte, put_number, put_price};

#[test]
fn written_one_behind_the_other(rt: HostRuntime) {
    let mut room = [b'.'; 64];
    let word = put(&mut room, 1, b"AB");
    let byte = put_byte(&mut room, word, b'=');
    holds(&rt, (word, byte) == (3, 4));
    holds(&rt, &room[..5] == b".AB=.".as_slice());
}

const NUMBERS: &[(u64, &[u8])] = &[
    (0, b"0"),
    (9, b"9"),
    (10, b"10"),
    (999, b"999"),
    (1_000, b"1000"),
    (10_000, b"10000"),
    (99_999_999, b"99999999"),
    (100_000_000, b"100000000"),
    (u64::MAX, b"18446744073709551615"),
];

#[test]
fn written_numbers(rt: HostRuntime) {
    for (number, text) in NUMBERS {
        let mut room = [b'.'; 64];
        let end = put_number(&mut room, 2, *number);
        holds(&rt, &room[2..end] == *text);
    }
}

const PRICES: &[(i64, &[u8])] = &[
    (10_000, b"100.00"),
    (-5, b"-0.05"),
    (0, b"0.00"),
    (-1_000_000_000, b"-10000000.00"),
    (i64::MIN, b"-92233720368547758.08"),
];

#[test]
fn written_prices(rt: HostRuntime) {
    for (price, text) in PRICES {
        let mut room = [b'.'; 64];
        let end = put_price(&mut room, 1, *price);
        holds(&rt, &room[1..end] == *text);
    }
}

const DIGITS: &[(&[u8], Option<u64>)] = &[
    (b"", Some(0)),
    (b"007", Some(7)),
    (b"1000000000", Some(1_000_000_000)),
    (b"99999999999999999999999", Some(1_000_000_000)),
    (b"1.0", None),
];

#[test]
fn digits_up_to_the_greatest_price(rt: HostRuntime) {
    for (text, number) in DIGITS {
        holds(&rt, limited_digits(text) == *number);
    }
}
