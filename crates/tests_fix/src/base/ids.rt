//! Ids and their keys.
use crate::expect::holds;
use spread_rules_ids::laws::{limits, one_key};
use spread_rules_ids::{Id, IdKey};
use std::process::Abort;

/// Six ids that differ.
const IDS: &[&[u8]] = &[
    b"C1",
    b"C1\0",
    b"12345678C",
    b"1234567812345678C",
    b"123456781234567812345678C",
    b"\0",
];

/// The keys of two ids of one session are equal where the ids are one, and those of two sessions are never.
fn expect_keys(rt: &impl Abort, one: &[u8], other: &[u8], are_one: bool) {
    let one = Id::new(one).expect(rt, "an id");
    let other = Id::new(other).expect(rt, "an id");
    holds(
        rt,
        (IdKey::new(1, &one) == IdKey::new(1, &other)) == are_one,
    );
    holds(rt, IdKey::new(1, &one) != IdKey::new(2, &other));
}

#[test]
fn keys_of_ids(rt: HostRuntime) {
    for i in 0..IDS.len() {
        for j in 0..IDS.len() {
            expect_keys(&rt, IDS[i], IDS[j], i == j);
        }
    }
    one_key();
    limits();
}

/// No byte, a byte 1, and 33 bytes, one too many.
const NO_IDS: &[&[u8]] = &[b"", b"a\x01b", &[b'x'; 33]];

const MOST: &[u8] = &[b'x'; 32];

#[test]
fn ids(rt: HostRuntime) {
    for bytes in NO_IDS {
        holds(&rt, Id::new(bytes).is_none() & !Id::fits(bytes));
    }
    let most = Id::new(MOST).expect(&rt, "an id of 32 bytes");
    let id = Id::new(b"C1").expect(&rt, "an id");
    holds(
        &rt,
        (most.bytes() == MOST) & (id.bytes() == b"C1".as_slice()),
    );
    holds(&rt, Id::fits(b"C1"));
    holds(&rt, Id::of(b"C1").is(&id) & id.is(&id) & !id.is(&most));
}
