//! What stands at the front of a text, and its CheckSum.
use crate::expect::holds;
use fix_wire_frames::{
    BEGIN_TEXT, FrameHeader, FrameTable, Message, Scan, checksum, checksum_digits, header_of,
    header_of_begun, next_begin, scan_front,
};
use tests_shared::FIRST_SELL;

/// A lawful frame in front, what may begin one, and neither.
#[test]
fn fronts_of_texts(rt: HostRuntime) {
    let mut table = FrameTable::empty();
    let is_cut = matches!(scan_front(&FIRST_SELL[..20], &mut table), Scan::Incomplete);
    let is_begin = matches!(scan_front(&BEGIN_TEXT, &mut table), Scan::Incomplete);
    let is_garbled = matches!(scan_front(b"9=5", &mut table), Scan::Garbled);
    holds(&rt, is_cut & is_begin & is_garbled);
    match scan_front(FIRST_SELL, &mut table) {
        Scan::Frame(n) if n == FIRST_SELL.len() => {
            let sell = Message::of_frame(FIRST_SELL, &table);
            let is_order = sell.kind() == b"D".as_slice();
            holds(&rt, is_order & (sell.get(55) == Some(b"H6".as_slice())));
        }
        _ => holds(&rt, false),
    }
}

/// Whether a header was found, and says that the body starts there and is so long.
fn says(header: Option<FrameHeader>, start: usize, length: usize) -> bool {
    match header {
        Some(found) => (found.body_start == start) & (found.body_length == length),
        None => false,
    }
}

/// A header says where the body starts and how long it is. One that is cut, or has another byte among its digits, says
/// nothing.
#[test]
fn headers_of_texts(rt: HostRuntime) {
    holds(&rt, says(header_of(b"8=FIX.4.2\x019=57\x0135="), 15, 57));
    holds(&rt, says(header_of(b"8=FIX.4.2\x019=178\x01"), 16, 178));
    holds(&rt, says(header_of(b"8=FIX.4.2\x019=0178\x01"), 17, 178));
    holds(&rt, header_of(b"8=FIX.4.2\x019=57").is_none());
    holds(&rt, header_of(b"8=FIX.4.2\x019=1:8\x01").is_none());
}

/// The same of texts that begin as each frame does.
#[test]
fn headers_of_begun_texts(rt: HostRuntime) {
    let two = header_of_begun(b"8=FIX.4.2\x019=57\x0135=");
    let three = header_of_begun(b"8=FIX.4.2\x019=178\x01");
    holds(&rt, says(two, 15, 57) & says(three, 16, 178));
    holds(&rt, header_of_begun(b"8=FIX.4.2\x019=178").is_none());
}

/// Sums are taken modulo 256 and spelled in three digits.
#[test]
fn sums_of_texts(rt: HostRuntime) {
    holds(&rt, checksum(b"") == 0);
    holds(&rt, checksum(b"abc") == 38);
    holds(&rt, checksum_digits(38) == *b"10=038\x01");
    let (text, trailer) = FIRST_SELL.split_at(FIRST_SELL.len() - 7);
    holds(&rt, checksum_digits(checksum(text)).as_slice() == trailer);
}

/// The next place at which a frame may begin is that of the next `8` behind the first byte.
#[test]
fn next_places(rt: HostRuntime) {
    holds(&rt, next_begin(b"8=FIX.4.18=FIX") == 9);
    holds(&rt, next_begin(b"8=FIX") == 5);
}
