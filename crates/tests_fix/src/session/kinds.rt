//! Messages of each kind, and the reasons of their Rejects.
use self::Change::{Empty, Is, Kept, Missing, TooLong};
use super::Says::{Cancel, New, Nothing, Reject, Replace, Resend, TestReply};
use super::{LOGON, Order, SELL, Says, is_said, judged};
use crate::expect::holds_for;
use fix_session::Session;
use spread_rules::Side;
use std::alloc::Allocator;
use std::process::Abort;

/// A field of a lawful message: its tag, how it begins, and its value.
type Field = (u32, &'static str, &'static str);

const HEARTBEAT: &[Field] = &[(52, "52=", "20260105-14:30:00")];

const TEST_REQUEST: &[Field] = &[(52, "52=", "20260105-14:30:00"), (112, "112=", "T")];

const RESEND_REQUEST: &[Field] = &[
    (52, "52=", "20260105-14:30:00"),
    (7, "7=", "2"),
    (16, "16=", "0"),
];

const SEQUENCE_RESET: &[Field] = &[
    (52, "52=", "20260105-14:30:00"),
    (36, "36=", "9"),
    (123, "123=", "Y"),
];

const ORDER: &[Field] = &[
    (52, "52=", "20260105-14:30:00"),
    (11, "11=", "a"),
    (21, "21=", "1"),
    (55, "55=", "H6"),
    (54, "54=", "2"),
    (60, "60=", "20260105-14:30:00"),
    (38, "38=", "5"),
    (40, "40=", "2"),
    (44, "44=", "100"),
    (59, "59=", "0"),
];

const CANCEL: &[Field] = &[
    (52, "52=", "20260105-14:30:00"),
    (41, "41=", "a"),
    (11, "11=", "b"),
    (55, "55=", "H6"),
    (54, "54=", "2"),
    (60, "60=", "20260105-14:30:00"),
];

const REPLACE: &[Field] = &[
    (52, "52=", "20260105-14:30:00"),
    (41, "41=", "a"),
    (11, "11=", "b"),
    (21, "21=", "1"),
    (55, "55=", "H6"),
    (54, "54=", "2"),
    (60, "60=", "20260105-14:30:00"),
    (38, "38=", "5"),
    (40, "40=", "2"),
    (44, "44=", "100"),
    (59, "59=", "0"),
];

/// The letter of a kind as a number and as a text, and the fields of a lawful message.
static KINDS: [(u8, &str, &[Field]); 8] = [
    (b'0', "0", HEARTBEAT),
    (b'1', "1", TEST_REQUEST),
    (b'2', "2", RESEND_REQUEST),
    (b'3', "3", HEARTBEAT),
    (b'4', "4", SEQUENCE_RESET),
    (b'D', "D", ORDER),
    (b'F', "F", CANCEL),
    (b'G', "G", REPLACE),
];

/// The kind of that letter as a text, and its fields.
fn kind_of(letter: u8) -> Option<(&'static str, &'static [Field])> {
    for (of, kind, fields) in &KINDS {
        if *of == letter {
            return Some((kind, fields));
        }
    }
    None
}

/// What becomes of one field of a lawful message. A row of a table with a text for each field is dear.
enum Change {
    /// It is left as it is.
    Kept,
    Missing,
    /// It has no value.
    Empty,
    /// It has this value.
    Is(&'static str),
    /// Its value is an id of 33 bytes.
    TooLong,
}

/// The value of a changed field, if there is one.
fn value_of<'v>(change: &'v Change, lawful: &'v str) -> Option<&'v str> {
    match change {
        Change::Kept => Some(lawful),
        Change::Missing => None,
        Change::Empty => Some(""),
        Change::Is(value) => Some(value),
        Change::TooLong => Some("123456789012345678901234567890123"),
    }
}

fn push_field<A: Allocator>(rt: &impl Abort, body: &mut String<A>, front: &str, value: &str) {
    body.push_str(front).expect(rt, "memory");
    body.push_str(value).expect(rt, "memory");
    body.push_str("|").expect(rt, "memory");
}

/// Message 2 of a kind, with these fields, of which one is changed.
fn changed<A: Allocator + Copy>(
    rt: &impl Abort,
    alloc: A,
    kind: &str,
    fields: &[Field],
    tag: u32,
    change: &Change,
) -> String<A> {
    let mut body = format!(in alloc; "35={kind}|34=2|49=C1|56=HOST|").expect(rt, "memory");
    for (name, front, lawful) in fields {
        let value = if *name == tag {
            value_of(change, lawful)
        } else {
            Some(*lawful)
        };
        if let Some(value) = value {
            push_field(rt, &mut body, front, value);
        }
    }
    body
}

/// What message 2 says after the Logon.
fn expect_second<A: Allocator + Copy>(rt: &impl Abort, alloc: A, body: &str, want: &Says) {
    let (_, session) = judged(rt, alloc, &Session::new(), LOGON);
    let (verdict, _) = judged(rt, alloc, &session, body);
    holds_for(rt, is_said(verdict, want), body);
}

/// What message 2 of that kind says, where the field of that tag is changed.
fn expect_changed<A: Allocator + Copy>(
    rt: &impl Abort,
    alloc: A,
    letter: u8,
    tag: u32,
    change: &Change,
    says: &Says,
) {
    let (kind, fields) = kind_of(letter).expect(rt, "a kind");
    let body = changed(rt, alloc, kind, fields, tag, change);
    expect_second(rt, alloc, body.as_str(), says);
}

/// What message 2 of each kind says, where the field of a tag is changed.
fn expect_cases<A: Allocator + Copy>(rt: &impl Abort, alloc: A, cases: &[(u8, u32, Change, Says)]) {
    for (letter, tag, change, says) in cases {
        expect_changed(rt, alloc, *letter, *tag, change, says);
    }
}

/// A kind, the tag of a field, what becomes of that, and the Reject.
static FAULTS: &[(u8, u32, Change, Says)] = &[
    (b'0', 52, Missing, Reject(2, 1)),
    (b'0', 52, Empty, Reject(2, 4)),
    (b'3', 52, Missing, Reject(2, 1)),
    (b'3', 52, Empty, Reject(2, 4)),
    (b'1', 52, Missing, Reject(2, 1)),
    (b'1', 52, Empty, Reject(2, 4)),
    (b'1', 112, Missing, Reject(2, 1)),
    (b'1', 112, Empty, Reject(2, 4)),
    (b'2', 52, Missing, Reject(2, 1)),
    (b'2', 52, Empty, Reject(2, 4)),
    (b'2', 7, Missing, Reject(2, 1)),
    (b'2', 7, Empty, Reject(2, 4)),
    (b'2', 7, Is("x"), Reject(2, 6)),
    (b'2', 7, Is("0"), Reject(2, 5)),
    (b'2', 7, Is("1000000000"), Reject(2, 5)),
    (b'2', 16, Missing, Reject(2, 1)),
    (b'2', 16, Empty, Reject(2, 4)),
    (b'2', 16, Is("-1"), Reject(2, 6)),
    (b'2', 16, Is("1"), Reject(2, 5)),
    (b'2', 16, Is("1000000000"), Reject(2, 5)),
    (b'4', 52, Missing, Reject(2, 1)),
    (b'4', 52, Empty, Reject(2, 4)),
    (b'4', 36, Missing, Reject(2, 1)),
    (b'4', 36, Empty, Reject(2, 4)),
    (b'4', 36, Is("x"), Reject(2, 6)),
    (b'4', 36, Is("2"), Reject(2, 5)),
    (b'4', 36, Is("1000000000"), Reject(2, 5)),
    (b'4', 123, Missing, Reject(2, 5)),
    (b'4', 123, Empty, Reject(2, 4)),
    (b'4', 123, Is("N"), Reject(2, 5)),
    (b'4', 123, Is("YY"), Reject(2, 5)),
    (b'D', 52, Missing, Reject(2, 1)),
    (b'D', 52, Empty, Reject(2, 4)),
    (b'D', 11, Missing, Reject(2, 1)),
    (b'D', 11, Empty, Reject(2, 4)),
    (b'D', 21, Missing, Reject(2, 1)),
    (b'D', 21, Empty, Reject(2, 4)),
    (b'D', 21, Is("4"), Reject(2, 5)),
    (b'D', 21, Is("11"), Reject(2, 5)),
    (b'D', 55, Missing, Reject(2, 1)),
    (b'D', 55, Empty, Reject(2, 4)),
    (b'D', 54, Missing, Reject(2, 1)),
    (b'D', 54, Empty, Reject(2, 4)),
    (b'D', 54, Is("3"), Reject(2, 5)),
    (b'D', 60, Missing, Reject(2, 1)),
    (b'D', 60, Empty, Reject(2, 4)),
    (b'D', 38, Missing, Reject(2, 1)),
    (b'D', 38, Empty, Reject(2, 4)),
    (b'D', 38, Is("x"), Reject(2, 6)),
    (b'D', 38, Is("5.1"), Reject(2, 6)),
    (b'D', 38, Is("1000000000"), Reject(2, 5)),
    (b'D', 40, Missing, Reject(2, 1)),
    (b'D', 40, Empty, Reject(2, 4)),
    (b'D', 40, Is("1"), Reject(2, 5)),
    (b'D', 44, Missing, Reject(2, 1)),
    (b'D', 44, Empty, Reject(2, 4)),
    (b'D', 44, Is("1.2.3"), Reject(2, 6)),
    (b'D', 44, Is("."), Reject(2, 6)),
    (b'D', 44, Is("12.345"), Reject(2, 5)),
    (b'D', 44, Is("10000000.01"), Reject(2, 5)),
    (b'D', 59, Empty, Reject(2, 4)),
    (b'D', 59, Is("1"), Reject(2, 5)),
    (b'D', 59, Is("33"), Reject(2, 5)),
    (b'F', 41, Missing, Reject(2, 1)),
    (b'F', 41, Empty, Reject(2, 4)),
    (b'F', 54, Missing, Reject(2, 1)),
    (b'F', 54, Empty, Reject(2, 4)),
    (b'F', 54, Is("0"), Reject(2, 5)),
    (b'F', 60, Missing, Reject(2, 1)),
    (b'F', 60, Empty, Reject(2, 4)),
    (b'G', 52, Missing, Reject(2, 1)),
    (b'G', 52, Empty, Reject(2, 4)),
    (b'G', 41, Missing, Reject(2, 1)),
    (b'G', 41, Empty, Reject(2, 4)),
    (b'G', 11, Missing, Reject(2, 1)),
    (b'G', 11, Empty, Reject(2, 4)),
    (b'G', 21, Missing, Reject(2, 1)),
    (b'G', 21, Empty, Reject(2, 4)),
    (b'G', 21, Is("4"), Reject(2, 5)),
    (b'G', 55, Missing, Reject(2, 1)),
    (b'G', 55, Empty, Reject(2, 4)),
    (b'G', 54, Missing, Reject(2, 1)),
    (b'G', 54, Empty, Reject(2, 4)),
    (b'G', 54, Is("3"), Reject(2, 5)),
    (b'G', 60, Missing, Reject(2, 1)),
    (b'G', 60, Empty, Reject(2, 4)),
    (b'G', 38, Missing, Reject(2, 1)),
    (b'G', 38, Empty, Reject(2, 4)),
    (b'G', 38, Is("x"), Reject(2, 6)),
    (b'G', 38, Is("1000000000"), Reject(2, 5)),
    (b'G', 40, Missing, Reject(2, 1)),
    (b'G', 40, Empty, Reject(2, 4)),
    (b'G', 40, Is("1"), Reject(2, 5)),
    (b'G', 44, Missing, Reject(2, 1)),
    (b'G', 44, Empty, Reject(2, 4)),
    (b'G', 44, Is("."), Reject(2, 6)),
    (b'G', 44, Is("12.345"), Reject(2, 5)),
    (b'G', 59, Empty, Reject(2, 4)),
    (b'G', 59, Is("1"), Reject(2, 5)),
    // An id of 33 bytes is too long.
    (b'1', 112, TooLong, Reject(2, 5)),
    (b'D', 11, TooLong, Reject(2, 5)),
    (b'D', 55, TooLong, Reject(2, 5)),
    (b'F', 41, TooLong, Reject(2, 5)),
    (b'F', 11, TooLong, Reject(2, 5)),
    (b'F', 55, TooLong, Reject(2, 5)),
    (b'G', 41, TooLong, Reject(2, 5)),
    (b'G', 11, TooLong, Reject(2, 5)),
    (b'G', 55, TooLong, Reject(2, 5)),
];

/// Kinds that are none, and the Reject.
static NO_KINDS: [(&str, Says); 8] = [
    ("", Reject(2, 4)),
    ("E", Reject(2, 11)),
    ("H", Reject(2, 11)),
    ("GG", Reject(2, 11)),
    ("A", Reject(2, 11)),
    ("DD", Reject(2, 11)),
    ("8", Reject(2, 11)),
    ("d", Reject(2, 11)),
];

#[test]
fn each_reason_of_each_kind(rt: HostRuntime) {
    expect_cases(&rt, rt.alloc(), FAULTS);
}

/// They have the fields of an order.
#[test]
fn kinds_that_are_none(rt: HostRuntime) {
    for (kind, says) in &NO_KINDS {
        let body = changed(&rt, rt.alloc(), kind, ORDER, 0, &Kept);
        expect_second(&rt, rt.alloc(), body.as_str(), says);
    }
}

/// Message 2, a replace: one of its fields is missing, those behind it are empty, the others are
/// lawful.
const FIRST_FAULTS: &[&str] = &[
    "35=G|34=2|49=C1|56=HOST|41=|11=|21=|55=|54=|60=|38=|40=|44=|59=|",
    "35=G|34=2|49=C1|56=HOST|52=S|11=|21=|55=|54=|60=|38=|40=|44=|59=|",
    "35=G|34=2|49=C1|56=HOST|52=S|41=a|21=|55=|54=|60=|38=|40=|44=|59=|",
    "35=G|34=2|49=C1|56=HOST|52=S|41=a|11=b|55=|54=|60=|38=|40=|44=|59=|",
    "35=G|34=2|49=C1|56=HOST|52=S|41=a|11=b|21=1|54=|60=|38=|40=|44=|59=|",
    "35=G|34=2|49=C1|56=HOST|52=S|41=a|11=b|21=1|55=H6|60=|38=|40=|44=|59=|",
    "35=G|34=2|49=C1|56=HOST|52=S|41=a|11=b|21=1|55=H6|54=2|38=|40=|44=|59=|",
    "35=G|34=2|49=C1|56=HOST|52=S|41=a|11=b|21=1|55=H6|54=2|60=T|40=|44=|59=|",
    "35=G|34=2|49=C1|56=HOST|52=S|41=a|11=b|21=1|55=H6|54=2|60=T|38=5|44=|59=|",
    "35=G|34=2|49=C1|56=HOST|52=S|41=a|11=b|21=1|55=H6|54=2|60=T|38=5|40=2|59=|",
];

/// The last one, TimeInForce, may be missing.
const WITHOUT_TIME_IN_FORCE: &str =
    "35=G|34=2|49=C1|56=HOST|52=S|41=a|11=b|21=1|55=H6|54=2|60=T|38=5|40=2|44=100|";

/// The fault of the first tag in the order of the table is told, here that it is missing.
#[test]
fn the_first_fault_of_a_replace(rt: HostRuntime) {
    for body in FIRST_FAULTS {
        expect_second(&rt, rt.alloc(), body, &Reject(2, 1));
    }
    expect_second(&rt, rt.alloc(), WITHOUT_TIME_IN_FORCE, &REPLACED);
}

/// What a lawful replace of order `a` by order `b` says.
const REPLACED: Says = Replace(
    b"a",
    Order {
        id: b"b",
        side: Side::Sell,
        quantity: 5,
        price: 10_000,
        immediate: false,
    },
);

const REPLACED_IMMEDIATE: Says = Replace(
    b"a",
    Order {
        id: b"b",
        side: Side::Sell,
        quantity: 5,
        price: 10_000,
        immediate: true,
    },
);

const SELL_IMMEDIATE: Says = New(Order {
    id: b"a",
    side: Side::Sell,
    quantity: 5,
    price: 10_000,
    immediate: true,
});

const SELL_WITH_LONGEST_ID: Says = New(Order {
    id: b"12345678901234567890123456789012",
    side: Side::Sell,
    quantity: 5,
    price: 10_000,
    immediate: false,
});

/// A kind, the tag of a field, what becomes of that, and what the session says.
static EVENTS: &[(u8, u32, Change, Says)] = &[
    (b'0', 0, Kept, Nothing),
    (b'3', 0, Kept, Nothing),
    (b'1', 0, Kept, TestReply(b"T")),
    (b'2', 0, Kept, Resend(2, 0)),
    (b'2', 16, Is("2"), Resend(2, 2)),
    (b'4', 0, Kept, Nothing),
    (b'D', 0, Kept, SELL),
    (b'D', 59, Missing, SELL),
    (b'D', 59, Is("3"), SELL_IMMEDIATE),
    (
        b'D',
        11,
        Is("12345678901234567890123456789012"),
        SELL_WITH_LONGEST_ID,
    ),
    (b'F', 0, Kept, Cancel(b"b", b"a")),
    (b'G', 0, Kept, REPLACED),
    (b'G', 59, Missing, REPLACED),
    (b'G', 59, Is("3"), REPLACED_IMMEDIATE),
];

#[test]
fn each_kind_says_its_event(rt: HostRuntime) {
    expect_cases(&rt, rt.alloc(), EVENTS);
}
