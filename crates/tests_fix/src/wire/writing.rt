//! Messages as they are written.
use crate::expect::{holds, holds_for};
use fix_wire::{
    Body, Field, FieldList, Head, Message, SpelledHead, SpelledParties, Value, put_field,
    put_text_field, read_price, write_body, write_message,
};
use spread_rules_ids::Id;
use std::alloc::Allocator;
use std::process::Abort;
use tests_shared::{Refusing, id, stamp};

const HEARTBEAT: &[u8] =
    b"8=FIX.4.2\x019=51\x0135=0\x0134=2\x0149=HOST\x0152=20260105-14:30:00\x0156=C1\x01112=T\x0110=211\x01";

const GAP_FILL: &[u8] =
    b"8=FIX.4.2\x019=83\x0135=4\x0134=2\x0143=Y\x0149=HOST\x0152=20260105-14:30:00\x0156=C1\x01122=20260105-14:30:00\x0136=6\x01123=Y\x0110=234\x01";

pub const REPORT: &[u8] =
    b"8=FIX.4.2\x019=130\x0135=8\x0134=4\x0149=HOST\x0152=20260105-14:30:00\x0156=C1\x0137=3\x0111=b\x0117=3-2\x0120=0\x01150=2\x0139=2\x0155=H6\x0154=1\x0138=5\x0132=5\x0131=100.00\x01151=0\x0114=5\x016=0\x01442=1\x0110=171\x01";

fn head(kind: u8, number: u64, duplicate: bool) -> Head {
    Head {
        kind,
        number,
        duplicate,
        sender: id(b"HOST"),
        target: id(b"C1"),
        stamp: id(b"20260105-14:30:00"),
    }
}

/// What a field holds.
enum Content {
    Text(&'static [u8]),
    Number(u64),
    Price(i64),
    Pair(u64, u64),
}

use Content::{Number, Pair, Price, Text};

fn field_of(tag: u32, content: &Content) -> Field {
    let value = match content {
        Text(text) => Value::Text(id(text)),
        Number(number) => Value::Number(*number),
        Price(price) => Value::Price(*price),
        Pair(first, second) => Value::Pair(*first, *second),
    };
    Field { tag, value }
}

fn fields_of<A: Allocator>(
    rt: &impl Abort,
    alloc: A,
    contents: &[(u32, Content)],
) -> Vec<Field, A> {
    let mut fields = Vec::new(alloc);
    for (tag, content) in contents {
        fields.push(field_of(*tag, content)).expect(rt, "memory");
    }
    fields
}

/// A message's kind, number and PossDupFlag, its fields by their tags, and what is written.
struct Case {
    name: &'static str,
    kind: u8,
    number: u64,
    duplicate: bool,
    fields: &'static [(u32, Content)],
    text: &'static [u8],
}

static MESSAGES: &[Case] = &[
    Case {
        name: "a Heartbeat",
        kind: b'0',
        number: 2,
        duplicate: false,
        fields: &[(112, Text(b"T"))],
        text: HEARTBEAT,
    },
    Case {
        name: "a gap fill",
        kind: b'4',
        number: 2,
        duplicate: true,
        fields: &[(36, Number(6)), (123, Text(b"Y"))],
        text: GAP_FILL,
    },
    Case {
        name: "a report",
        kind: b'8',
        number: 4,
        duplicate: false,
        fields: &[
            (37, Number(3)),
            (11, Text(b"b")),
            (17, Pair(3, 2)),
            (20, Number(0)),
            (150, Number(2)),
            (39, Number(2)),
            (55, Text(b"H6")),
            (54, Number(1)),
            (38, Number(5)),
            (32, Number(5)),
            (31, Price(10000)),
            (151, Number(0)),
            (14, Number(5)),
            (6, Number(0)),
            (442, Number(1)),
        ],
        text: REPORT,
    },
];

/// Each message is appended to those before it.
#[test]
fn written_messages(rt: HostRuntime) {
    let mut out = Vec::new(rt.alloc());
    let mut want = Vec::new(rt.alloc());
    for case in MESSAGES {
        let fields = fields_of(&rt, rt.alloc(), case.fields);
        let head = head(case.kind, case.number, case.duplicate);
        write_message(&mut out, &head, &fields).expect(&rt, "memory");
        want.extend_from_slice(case.text).expect(&rt, "memory");
        holds_for(&rt, out == want, case.name);
    }
}

/// Writes a Heartbeat, and says whether a request was refused: NoMemory comes only then, the list is as it was, and the
/// same call writes the message.
fn is_refused_first<A: Allocator>(rt: &impl Abort, heap: &Refusing<A>) -> bool {
    let reply = [field_of(112, &Text(b"T"))];
    let mut out = Vec::new(heap);
    let is_refused = write_message(&mut out, &head(b'0', 2, false), &reply).is_err();
    holds(rt, is_refused == heap.has_refused());
    if is_refused {
        holds(rt, out.is_empty());
        write_message(&mut out, &head(b'0', 2, false), &reply).expect(rt, "memory");
    }
    holds(rt, out.as_slice() == HEARTBEAT);
    is_refused
}

#[test]
fn writing_with_memory_refused(rt: HostRuntime) {
    for number in 1..20u64 {
        let heap = Refusing::new(rt.alloc(), number);
        if !is_refused_first(&rt, &heap) {
            holds(&rt, number > 1);
            return;
        }
    }
    holds(&rt, false);
}

const NUMBERS: &[(u64, &[u8])] = &[
    (0, b"38=0\x01"),
    (9, b"38=9\x01"),
    (10, b"38=10\x01"),
    (99, b"38=99\x01"),
    (100, b"38=100\x01"),
    (999, b"38=999\x01"),
    (1_000, b"38=1000\x01"),
    (9_999, b"38=9999\x01"),
    (10_007, b"38=10007\x01"),
    (99_999_999, b"38=99999999\x01"),
    (100_000_000, b"38=100000000\x01"),
    (18_446_744_073_709_551_615, b"38=18446744073709551615\x01"),
];

#[test]
fn written_numbers(rt: HostRuntime) {
    for (number, text) in NUMBERS {
        let mut room = [7; 80];
        let field = Field {
            tag: 38,
            value: Value::Number(*number),
        };
        let end = put_field(&mut room, 2, &field);
        holds(&rt, end == 2 + text.len());
        holds(&rt, room[2..].starts_with(text));
    }
}

#[test]
fn written_text(rt: HostRuntime) {
    let mut room = [7; 80];
    let end = put_text_field(&mut room, 2, 55, &id(b"H6-M6"));
    holds(&rt, end == 11);
    holds(&rt, room[2..].starts_with(b"55=H6-M6\x01"));
}

/// The number of fields and what the message begins with. The head has 45 bytes, each field 36.
const LENGTHS: &[(usize, &[u8])] = &[
    (0, b"8=FIX.4.2\x019=45\x0135=0\x01"),
    (1, b"8=FIX.4.2\x019=81\x0135=0\x01"),
    (2, b"8=FIX.4.2\x019=117\x0135=0\x01"),
    (26, b"8=FIX.4.2\x019=981\x0135=0\x01"),
    (27, b"8=FIX.4.2\x019=1017\x0135=0\x01"),
];

#[test]
fn written_lengths(rt: HostRuntime) {
    let fields = [field_of(11, &Text(b"ABCDEFGHIJKLMNOPQRSTUVWXYZ012345")); 30];
    let mut room = [7; 2000];
    let parties = SpelledParties::new(&id(b"HOST"), &id(b"C1"), &stamp());
    let head = SpelledHead {
        kind: b'0',
        number: 2,
        orig_time: None,
        parties: &parties,
    };
    for (count, begin) in LENGTHS {
        holds(&rt, *count <= 27);
        let list = FieldList {
            fields: &fields[..*count],
        };
        let mut out = Vec::new(rt.alloc());
        write_body(&mut room, &mut out, &head, &list).expect(&rt, "memory");
        holds(&rt, out.as_slice().starts_with(begin));
        holds(&rt, Message::whole(&out).is_some());
        holds(&rt, list.count() == *count);
        holds(&rt, list.put(&mut room, 20) == 20 + 36 * *count);
    }
}

#[test]
fn padded_ids(rt: HostRuntime) {
    let id = Id::new(b"C1").expect(&rt, "an id");
    let padded = id.padded();
    holds(
        &rt,
        padded.starts_with(b"C1\x00") && padded.ends_with(&[0; 30]),
    );
}

const PRICES: &[(i64, &[u8])] = &[
    (10000, b"100.00"),
    (-5, b"-0.05"),
    (0, b"0.00"),
    (-1_000_000_000, b"-10000000.00"),
    (99, b"0.99"),
    (100, b"1.00"),
];

#[test]
fn written_prices(rt: HostRuntime) {
    for (price, text) in PRICES {
        let mut out = Vec::new(rt.alloc());
        let field = Field {
            tag: 31,
            value: Value::Price(*price),
        };
        write_message(&mut out, &head(b'8', 1, false), &[field]).expect(&rt, "memory");
        let message = Message::whole(&out).expect(&rt, "a frame");
        holds(&rt, message.get(31) == Some(*text));
        holds(&rt, read_price(text) == Ok(*price));
    }
}
