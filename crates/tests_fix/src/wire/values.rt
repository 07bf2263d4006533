//! Numbers, quantities and prices.
use crate::expect::holds;
use fix_wire::Unread::{Format, Range};
use fix_wire::{Unread, read_number, read_price, read_quantity};

const NUMBERS: &[(&[u8], Result<u32, Unread>)] = &[
    (b"0", Ok(0)),
    (b"007", Ok(7)),
    (b"999999999", Ok(999_999_999)),
    (b"000000999999999", Ok(999_999_999)),
    (b"1000000000", Err(Range)),
    (b"18446744073709551617", Err(Range)),
    (b"99999999999999999999999999999999999", Err(Range)),
    (b"", Err(Format)),
    (b"-1", Err(Format)),
    (b"+1", Err(Format)),
    (b"1.0", Err(Format)),
    (b"1 ", Err(Format)),
    (b"1e3", Err(Format)),
];

#[test]
fn numbers(rt: HostRuntime) {
    for (text, number) in NUMBERS {
        holds(&rt, read_number(text) == *number);
    }
}

const QUANTITIES: &[(&[u8], Result<u32, Unread>)] = &[
    (b"0", Ok(0)),
    (b"5.", Ok(5)),
    (b"05.000", Ok(5)),
    (b"999999", Ok(999_999)),
    (b"1000000", Ok(1_000_000)),
    (b"999999999.0", Ok(999_999_999)),
    (b"1000000000.0", Err(Range)),
    (b"", Err(Format)),
    (b".", Err(Format)),
    (b".0", Err(Format)),
    (b"5.1", Err(Format)),
    (b"1000000000.5", Err(Format)),
    (b"-5", Err(Format)),
    (b"+5", Err(Format)),
    (b"1e3", Err(Format)),
    (b"5..", Err(Format)),
    (b"5.0.0", Err(Format)),
];

#[test]
fn quantities(rt: HostRuntime) {
    for (text, quantity) in QUANTITIES {
        holds(&rt, read_quantity(text) == *quantity);
    }
}

const PRICES: &[(&[u8], Result<i64, Unread>)] = &[
    (b"100", Ok(10000)),
    (b"0012.340", Ok(1234)),
    (b"-0", Ok(0)),
    (b"-.5", Ok(-50)),
    (b".05", Ok(5)),
    (b"5.", Ok(500)),
    (b"0.000", Ok(0)),
    (b"-0.01", Ok(-1)),
    (b"10000000", Ok(1_000_000_000)),
    (b"10000000.000", Ok(1_000_000_000)),
    (b"-10000000.00", Ok(-1_000_000_000)),
    (b"9999999.99", Ok(999_999_999)),
    (b"-9999999.99", Ok(-999_999_999)),
    (b"12.345", Err(Range)),
    (b"10000000.01", Err(Range)),
    (b"-10000000.01", Err(Range)),
    (b"0.001", Err(Range)),
    (b"10000000.001", Err(Range)),
    (b"99999999999999999999", Err(Range)),
    (b"-12.005", Err(Range)),
    (b"", Err(Format)),
    (b"-", Err(Format)),
    (b".", Err(Format)),
    (b"-.", Err(Format)),
    (b"1..2", Err(Format)),
    (b"1.2.3", Err(Format)),
    (b"12.345x", Err(Format)),
    (b"+5", Err(Format)),
    (b"--5", Err(Format)),
    (b"1e3", Err(Format)),
    (b" 1", Err(Format)),
];

#[test]
fn prices(rt: HostRuntime) {
    for (text, price) in PRICES {
        holds(&rt, read_price(text) == *price);
    }
}
