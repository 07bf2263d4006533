//! The readers of values.
ghost use Rattle.std.specs.Prelude.{◌≡◌, ◌≤◌, ◌<◌, Option, Some, None, min, [], true};
ghost use Rattle.std.specs.Char.{is_ascii_digit};
ghost use Rattle.std.specs.List.{list_all, before_first, after_first};
ghost use Rattle.fix_wire_values.specs.code.Digits.{is_point, is_zero};
ghost use Rattle.fix_wire_values.specs.Values.{number_in, quantity_in, price_in, within, hundredths_in};
ghost use Rattle.fix_wire_values.specs.code.Values.{cents, limited_digits};

use memchr::memchr;
use spread_rules_ids::limits::MAX_NUMBER;

/// The greatest price that is read, either way from 0, in hundredths.
pub const MAX_HUNDREDTHS: u64 = 1_000_000_000;

/// Why a value isn't read: it has another form, or it is out of range.
#[derive(Clone, Copy, PartialEq, Eq)]
pub enum Unread {
    Format,
    Range,
}

/// The number that digits spell, or the greatest price where it is more.
pub fn limited_digits(text: &[u8]) -> Option<u64>
    ensures { result ≡ limited_digits text.now }
{
    let mut value: u64 = 0;
    for b in text {
        if !b.is_ascii_digit() {
            return None;
        }
        value = (value * 10 + u64::from(*b - b'0')).min(MAX_HUNDREDTHS);
    }
    Some(value)
}

fn within(most: u64, value: u64) -> Result<u32, Unread>
    requires { most ≤ MAX_HUNDREDTHS }
    ensures { result ≡ within most value }
{
    if value <= most {
        Ok(value as u32)
    } else {
        Err(Unread::Range)
    }
}

/// The number that one or more digits spell, up to 999,999,999.
pub fn read_number(text: &[u8]) -> Result<u32, Unread>
    ensures { result ≡ number_in text.now }
{
    if text.is_empty() {
        return Err(Unread::Format);
    }
    match limited_digits(text) {
        Some(value) => within(MAX_NUMBER as u64, value),
        None => Err(Unread::Format),
    }
}

/// What stands before the first point, and what after it.
fn at_point(text: &[u8]) -> (&[u8], &[u8])
    ensures whole { result.0.now ≡ before_first is_point text.now }
    ensures part { result.1.now ≡ after_first is_point text.now }
{
    match memchr(b'.', text) {
        Some(at) => (&text[..at], &text[at + 1..]),
        None => (text, &text[text.len()..]),
    }
}

fn all_zeros(text: &[u8]) -> bool
    ensures { result ≡ list_all is_zero text.now }
{
    for b in text {
        if *b != b'0' {
            return false;
        }
    }
    true
}

/// Digits, then nothing, or a point and any number of zeros; up to 999,999,999.
pub fn read_quantity(text: &[u8]) -> Result<u32, Unread>
    ensures { result ≡ quantity_in text.now }
{
    let (whole, part) = at_point(text);
    if whole.is_empty() || !all_zeros(part) {
        return Err(Unread::Format);
    }
    match limited_digits(whole) {
        Some(value) => within(MAX_NUMBER as u64, value),
        None => Err(Unread::Format),
    }
}

/// The hundredths that up to two digits after the point spell.
fn cents(part: &[u8]) -> u64
    requires { list_all is_ascii_digit part.now ≡ true }
    ensures value { result ≡ cents part.now }
    ensures bound { result < 100 }
{
    match part {
        [] => 0,
        [tens] => u64::from(*tens - b'0') * 10,
        [tens, ones, ..] => u64::from(*tens - b'0') * 10 + u64::from(*ones - b'0'),
    }
}

/// Hundredths without a sign.
fn read_hundredths(text: &[u8]) -> Result<u32, Unread>
    ensures { result ≡ hundredths_in text.now }
{
    let (whole, part) = at_point(text);
    if whole.is_empty() && part.is_empty() {
        return Err(Unread::Format);
    }
    let Some(units) = limited_digits(whole) else {
        return Err(Unread::Format);
    };
    if limited_digits(part).is_none() {
        return Err(Unread::Format);
    }
    if part.len() > 2 && !all_zeros(&part[2..]) {
        return Err(Unread::Range);
    }
    within(MAX_HUNDREDTHS, units * 100 + cents(part))
}

/// A price in hundredths.
pub fn read_price(text: &[u8]) -> Result<i64, Unread>
    ensures { result ≡ price_in text.now }
{
    match text {
        [b'-', rest @ ..] => match read_hundredths(rest) {
            Ok(n) => Ok(-i64::from(n)),
            Err(fault) => Err(fault),
        },
        _ => match read_hundredths(text) {
            Ok(n) => Ok(i64::from(n)),
            Err(fault) => Err(fault),
        },
    }
}
