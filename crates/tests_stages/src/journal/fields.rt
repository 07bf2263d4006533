//! The fields of a journal's line, one by one.
use crate::expect::holds;
use crate::said::{DayOrder, Said, entry_of};
use spread_journal_lines::{
    LATEST_VERSION, Stage, Version, id_field, may_follow, number_field, read_entry, read_id,
    read_number, read_price, read_time_in_force, side_byte, side_field, stage_after, version_field,
};
use spread_rules::{Event, Side, Ticket};
use tests_shared::id;

#[test]
fn ids_stand_in_hexadecimal(rt: HostRuntime) {
    holds(&rt, read_id(b"4331") == Some(id(b"C1")));
    holds(&rt, read_id(b"4F") == None);
    holds(&rt, read_id(b"01") == None);
    holds(
        &rt,
        id_field(b"61 rest") == Some((id(b"a"), b"rest".as_slice())),
    );
    holds(&rt, id_field(b"61") == None);
}

#[test]
fn numbers_have_nine_digits_at_most(rt: HostRuntime) {
    holds(&rt, read_number(b"999999999") == Some(999_999_999));
    holds(&rt, read_number(b"1000000000") == None);
    holds(&rt, read_number(b"05") == None);
    holds(&rt, number_field(b"30 x") == Some((30, b"x".as_slice())));
    holds(&rt, read_price(b"-1000000000") == Some(-1_000_000_000));
    holds(&rt, read_price(b"1000000001") == None);
}

/// Fields, the sides that they name, and what follows them.
static SIDES: [(&[u8], Option<(Side, &[u8])>); 3] = [
    (b"1 5", Some((Side::Buy, b"5"))),
    (b"2 5", Some((Side::Sell, b"5"))),
    (b"3 5", None),
];

/// Words, and whether an order with that time in force is immediate.
static TIMES: [(&[u8], Option<bool>); 3] = [
    (b"day", Some(false)),
    (b"ioc", Some(true)),
    (b"gtc", None),
];

#[test]
fn sides_are_one_and_two_and_times_in_force_words(rt: HostRuntime) {
    for (field, side) in &SIDES {
        holds(&rt, side_field(field) == *side);
    }
    holds(
        &rt,
        side_byte(Side::Buy) == b'1' && side_byte(Side::Sell) == b'2',
    );
    for (word, is_immediate) in &TIMES {
        holds(&rt, read_time_in_force(word) == *is_immediate);
    }
}

/// A session's entries are a logon and what comes behind it, and a close at their end, or a close alone.
#[test]
fn a_session_runs_from_its_logon_to_its_close(rt: HostRuntime) {
    let logon = Event::Logon {
        client: id(b"C1"),
        host: id(b"HOST"),
        beat: 30,
    };
    let close = Event::Close { reason: 1 };
    holds(
        &rt,
        may_follow(Stage::Empty, &logon) && may_follow(Stage::Empty, &close),
    );
    holds(&rt, stage_after(&logon) == Stage::Running);
    holds(
        &rt,
        may_follow(Stage::Running, &close) && !may_follow(Stage::Running, &logon),
    );
    holds(&rt, stage_after(&close) == Stage::Closed);
    holds(&rt, !may_follow(Stage::Closed, &close));
}

#[test]
fn the_first_version_has_no_word_for_a_replace(rt: HostRuntime) {
    let replace = Event::Replace {
        original: id(b"a"),
        ticket: Ticket {
            id: id(b"b"),
            symbol: id(b"H6"),
            side: Side::Buy,
            quantity: 5,
            price: 10_000,
            immediate: false,
        },
    };
    holds(&rt, !Version::First.knows(&replace));
    holds(&rt, Version::Latest.knows(&replace));
    holds(&rt, Version::First.knows(&Event::Close { reason: 1 }));
    holds(&rt, LATEST_VERSION == 2);
    holds(
        &rt,
        version_field(b"JOURNAL 2\nEND 0\n") == Some((Version::Latest, b"END 0\n".as_slice())),
    );
    holds(&rt, version_field(b"JOURNAL 3\nEND 0\n") == None);
}

/// Lines, each in its version, and the entry that they are.
static LINES: [(Version, &[u8], Option<(u8, Said)>); 5] = [
    (Version::First, b"15 close 1", Some((15, Said::Close(1)))),
    (Version::First, b"16 close 1", None),
    (
        Version::Latest,
        b"0 replace 61 63 4836 2 3 10000 day",
        Some((
            0,
            Said::Replace(b"a", DayOrder(b"c", b"H6", Side::Sell, 3, 10000)),
        )),
    ),
    (Version::First, b"0 replace 61 63 4836 2 3 10000 day", None),
    (Version::Latest, b"END 1", None),
];

/// A session is below 16, and only the latest version has a line for a replace.
#[test]
fn a_line_is_one_entry(rt: HostRuntime) {
    for (version, line, wanted) in &LINES {
        let entry = match wanted {
            None => None,
            Some((session, said)) => Some(entry_of(*session, said)),
        };
        holds(&rt, read_entry(*version, line) == entry);
    }
}
