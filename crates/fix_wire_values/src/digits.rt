//! Numbers and prices written as digits into room. A writer is told where to begin, and tells where it ended: so the
//! place stays in a register, which a list's own length would not.
ghost use Rattle.std.specs.Prelude.{◌≡◌, ◌++◌, ◌∷◌, [], ◌<◌, ◌≤◌, ◌+◌, take, length, decimal};
ghost use Rattle.fix_wire_values.specs.Digits.{two_digits};
ghost use Rattle.fix_wire_values.specs.Values.{price_text};

use itoa::Buffer;

/// Writes a text at that place, and tells where it ends.
#[inline(always)]
pub fn put(room: &mut [u8], at: usize, text: &[u8]) -> usize
    requires within { at + length text.now ≤ length room.old }
    ensures text { take result room.new ≡ take at room.old ++ text.now }
    ensures end { result ≡ at + length text.now }
    ensures size { length room.new ≡ length room.old }
{
    let end = at + text.len();
    room[at..end].copy_from_slice(text);
    end
}

/// Writes one byte at that place, and tells where it ends.
#[inline(always)]
pub fn put_byte(room: &mut [u8], at: usize, byte: u8) -> usize
    requires within { at < length room.old }
    ensures text { take result room.new ≡ take at room.old ++ byte ∷ [] }
    ensures end { result ≡ at + 1 }
    ensures size { length room.new ≡ length room.old }
{
    room[at] = byte;
    at + 1
}

/// The two digits of each number below 100.
static PAIRS: [u8; 200] =
    *b"00010203040506070809101112131415161718192021222324252627282930313233343536373839404142434445464748495051525354555657585960616263646566676869707172737475767778798081828384858687888990919293949596979899";

/// The last two digits of a number. Reading them costs less than dividing.
#[inline(always)]
fn put_two(room: &mut [u8], at: usize, number: u64) -> usize
    requires within { at + 2 ≤ length room.old }
    ensures text { take result room.new ≡ take at room.old ++ two_digits number }
    ensures end { result ≡ at + 2 }
    ensures size { length room.new ≡ length room.old }
{
    let pair = (number % 100) as usize * 2;
    let (tens, ones) = (PAIRS[pair], PAIRS[pair + 1]);
    let rest = put_byte(room, at, tens);
    put_byte(room, rest, ones)
}

/// A number of at most two digits. That there are two is added to the place in which the last one stands: a branch on it would
/// be guessed wrong as often as not.
#[inline(always)]
fn put_few(room: &mut [u8], at: usize, number: u64) -> usize
    requires few { number < 100 }
    requires within { at + 2 ≤ length room.old }
    ensures text { take result room.new ≡ take at room.old ++ decimal number }
    ensures most { result ≤ at + 2 }
    ensures size { length room.new ≡ length room.old }
{
    let pair = (number % 100) as usize * 2;
    let (tens, ones) = (PAIRS[pair], PAIRS[pair + 1]);
    let last = at + usize::from(9 < number);
    put_byte(room, at, tens);
    put_byte(room, last, ones)
}

/// A number of at most four digits.
#[inline(always)]
fn put_short(room: &mut [u8], at: usize, number: u64) -> usize
    requires short { number < 10000 }
    requires within { at + 4 ≤ length room.old }
    ensures text { take result room.new ≡ take at room.old ++ decimal number }
    ensures most { result ≤ at + 4 }
    ensures size { length room.new ≡ length room.old }
{
    if number < 100 {
        put_few(room, at, number)
    } else if number < 1_000 {
        let rest = put_byte(room, at, b'0' + (number / 100) as u8);
        put_two(room, rest, number)
    } else {
        let rest = put_two(room, at, number / 100);
        put_two(room, rest, number)
    }
}

/// Any number. It stays a call of its own, so that the shorter ones keep no room for its digits.
#[inline(never)]
fn put_any(room: &mut [u8], at: usize, number: u64) -> usize
    requires within { at + 20 ≤ length room.old }
    ensures text { take result room.new ≡ take at room.old ++ decimal number }
    ensures most { result ≤ at + 20 }
    ensures size { length room.new ≡ length room.old }
{
    put(room, at, Buffer::new().format(number).as_bytes())
}

/// What a number of five digits is multiplied by, so that its first digit stands over 2^32 and the others behind it: 2^32
/// by 10,000, and a little more.
const FIVE_DIGITS: u64 = 429_497;

/// A number of five digits: each multiplication by a hundred brings two more over 2^32, which costs less than dividing.
#[inline(always)]
fn put_five(room: &mut [u8], at: usize, number: u64) -> usize
    requires five { (10000 ≤ number) × (number < 100000) }
    requires within { at + 5 ≤ length room.old }
    ensures text { take result room.new ≡ take at room.old ++ decimal number }
    ensures most { result ≤ at + 5 }
    ensures size { length room.new ≡ length room.old }
{
    let first = number * FIVE_DIGITS;
    let second = first % 4_294_967_296 * 100;
    let third = second % 4_294_967_296 * 100;
    let tens = put_byte(room, at, b'0' + (first / 4_294_967_296) as u8);
    let ones = put_two(room, tens, second / 4_294_967_296);
    put_two(room, ones, third / 4_294_967_296)
}

/// A number of at least five digits.
fn put_long(room: &mut [u8], at: usize, number: u64) -> usize
    requires long { 10000 ≤ number }
    requires within { at + 20 ≤ length room.old }
    ensures text { take result room.new ≡ take at room.old ++ decimal number }
    ensures most { result ≤ at + 20 }
    ensures size { length room.new ≡ length room.old }
{
    if number < 100_000 {
        put_five(room, at, number)
    } else if number < 100_000_000 {
        let tens = put_short(room, at, number / 10_000);
        let ones = put_two(room, tens, number / 100);
        put_two(room, ones, number)
    } else {
        put_any(room, at, number)
    }
}

/// Writes a number at that place, and tells where it ends. Most have few digits, and those are written without a loop.
#[inline(always)]
pub fn put_number(room: &mut [u8], at: usize, number: u64) -> usize
    requires within { at + 20 ≤ length room.old }
    ensures text { take result room.new ≡ take at room.old ++ decimal number }
    ensures most { result ≤ at + 20 }
    ensures size { length room.new ≡ length room.old }
{
    if number < 10_000 {
        put_short(room, at, number)
    } else {
        put_long(room, at, number)
    }
}

/// Writes a price in hundredths at that place, and tells where it ends.
pub fn put_price(room: &mut [u8], at: usize, price: i64) -> usize
    requires within { at + 24 ≤ length room.old }
    ensures text { take result room.new ≡ take at room.old ++ price_text price }
    ensures most { result ≤ at + 24 }
    ensures size { length room.new ≡ length room.old }
{
    let size = price.unsigned_abs();
    let mut whole = at;
    if price < 0 {
        whole = put_byte(room, at, b'-');
    }
    let point = put_number(room, whole, size / 100);
    let part = put_byte(room, point, b'.');
    put_two(room, part, size % 100)
}
