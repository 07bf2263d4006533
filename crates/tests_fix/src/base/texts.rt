//! Texts cut, and numbers in their one spelling.
use crate::expect::holds;
use spread_rules_ids::{after, cut_at, read_decimal, read_plain};

const NUMBERS: &[(&[u8], Option<u64>)] = &[
    (b"0", Some(0)),
    (b"18446744073709551615", Some(u64::MAX)),
    (b"18446744073709551616", None),
    (b"01", None),
    (b"+1", None),
    (b"", None),
];

const SIGNED_NUMBERS: &[(&[u8], Option<i64>)] = &[
    (b"-1", Some(-1)),
    (b"0", Some(0)),
    (b"-0", None),
    (b"-01", None),
];

#[test]
fn texts(rt: HostRuntime) {
    holds(
        &rt,
        cut_at(b"a b c", b' ') == Some((&b"a"[..], &b"b c"[..])),
    );
    holds(&rt, cut_at(b"abc", b' ') == None);
    holds(&rt, after(b"tick 1", b"tick ") == Some(&b"1"[..]));
    holds(&rt, after(b"tic", b"tick ") == None);
}

#[test]
fn numbers(rt: HostRuntime) {
    for (text, number) in NUMBERS {
        holds(&rt, read_decimal(text) == *number);
    }
    for (text, number) in SIGNED_NUMBERS {
        holds(&rt, read_plain(text) == *number);
    }
}
