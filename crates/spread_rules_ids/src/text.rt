//! Texts of lines and fields: cutting them, and numbers in their one spelling.
ghost use Rattle.std.specs.Prelude.{◌≡◌, ◌≢◌, ◌<◌, ◌^◌, ◌++◌, ◌∷◌, ℕ, ℤ, List, IfSome, IfNone, FitsSigned, decimal};
ghost use Rattle.std.specs.Int.{w64};
ghost use Rattle.std.specs.Fmt.{signed_decimal};
ghost use Rattle.spread_rules_ids.specs.Cut.{Lacks};

use itoa::Buffer;
use memchr::memchr;

/// What stands before the first such byte, and what stands after it.
pub fn cut_at(bytes: &[u8], at: u8) -> Option<(&[u8], &[u8])>
    ensures found { IfSome result (λ r. bytes.now ≡ r.0.now ++ at ∷ r.1.now) }
    ensures first { IfSome result (λ r. Lacks at r.0.now) }
    ensures none { IfNone result (Lacks at bytes.now) }
{
    let place = memchr(at, bytes)?;
    Some((&bytes[..place], &bytes[place + 1..]))
}

/// What stands after that front.
pub fn after<'a>(bytes: &'a [u8], front: &[u8]) -> Option<&'a [u8]>
    ensures found { IfSome result (λ rest. bytes.now ≡ front.now ++ rest.now) }
    ensures none { IfNone result ((rest : List ℕ) → bytes.now ≢ front.now ++ rest) }
{
    if bytes.len() < front.len() {
        return None;
    }
    let (begin, rest) = bytes.split_at(front.len());
    if begin == front { Some(rest) } else { None }
}

/// Reads a number and prints it again: only its one spelling comes back.
macro_rules! read_spelled {
    ($bytes:expr, $number:ty) => {{
        let text = match str::from_utf8($bytes) {
            Ok(text) => text,
            Err(_) => return None,
        };
        let number = match text.parse::<$number>() {
            Ok(number) => number,
            Err(_) => return None,
        };
        if Buffer::new().format(number).as_bytes() == $bytes {
            Some(number)
        } else {
            None
        }
    }};
}

/// The number whose one spelling these bytes are: digits without leading zeros.
pub fn read_decimal(bytes: &[u8]) -> Option<u64>
    ensures found { IfSome result (λ n. bytes.now ≡ decimal n) }
    ensures fits { IfSome result (λ n. n < 2 ^ 64) }
    ensures none { IfNone result ((n : ℕ) → n < 2 ^ 64 → bytes.now ≢ decimal n) }
{
    read_spelled!(bytes, u64)
}

/// The signed number whose one spelling these bytes are: `-` before a negative one.
pub fn read_plain(bytes: &[u8]) -> Option<i64>
    ensures found { IfSome result (λ z. bytes.now ≡ signed_decimal z) }
    ensures fits { IfSome result (λ z. FitsSigned w64 z) }
    ensures none { IfNone result ((z : ℤ) → FitsSigned w64 z → bytes.now ≢ signed_decimal z) }
{
    read_spelled!(bytes, i64)
}
