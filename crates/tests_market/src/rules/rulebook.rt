//! A rulebook read, and its faults.
use super::THREE_MONTHS;
use crate::expect::holds;
use spread_rules::laws::{codes, least_in_rank, one_rulebook, quiet, twelve_months};
use spread_rules::{Instrument, RuleFault, Rulebook};
use std::process::Abort;
use std::test::Fail;

/// Each symbol, and the instrument that has it, where one has.
static SYMBOLS: &[(&[u8], Option<Instrument>)] = &[
    (b"H6", Some(Instrument::Outright(0))),
    (b"U6", Some(Instrument::Outright(2))),
    (b"H6-M6", Some(Instrument::Spread(0, 1))),
    (b"H6-U6", Some(Instrument::Spread(0, 2))),
    (b"M6-H6", None),
    (b"H6-H6", None),
    (b"H6-", None),
    (b"h6", None),
    (b"", None),
];

fn expect_found(rt: &impl Abort, rules: &Rulebook, symbols: &[(&[u8], Option<Instrument>)]) {
    for (symbol, instrument) in symbols {
        holds(rt, rules.find(symbol) == *instrument);
    }
}

/// The months of the rulebook, and its tick.
fn expect_three_months(rt: &impl Abort, rules: &Rulebook) {
    holds(rt, rules.months() == 3);
    holds(rt, rules.tick() == 1);
    for month in 0..rules.months() {
        let n = month as usize % 3;
        let name: &[u8] = [b"H6", b"M6", b"U6"][n];
        holds(rt, rules.name(month) == name);
        holds(rt, rules.name_id(month).bytes() == name);
        holds(rt, rules.reference(month) == [10000, 9800, 9500][n]);
    }
}

#[test]
fn rulebook_read(rt: HostRuntime) -> Result<(), Fail> {
    let rules = Rulebook::read(THREE_MONTHS)?;
    expect_three_months(&rt, &rules);
    expect_found(&rt, &rules, SYMBOLS);
    one_rulebook();
    quiet();
    least_in_rank();
    codes();
    twelve_months();
    Ok(())
}

/// Each text that is no rulebook, its fault and the number of that.
static FAULTS: &[(&[u8], RuleFault, u8)] = &[
    (b"", RuleFault::NoMonth, 2),
    (b"tick 1\n", RuleFault::NoMonth, 2),
    (b"tick 0", RuleFault::BadLine(1), 1),
    (b"tick 01", RuleFault::BadLine(1), 1),
    (b"month H6 1\n", RuleFault::BadLine(1), 1),
    (b"tick 5\nmonth H6 10001\n", RuleFault::BadLine(2), 1),
    (b"#\n\ntick 5\n\nmonth H6  5\n", RuleFault::BadLine(5), 1),
    (b"tick 5\nmonth H-6 5", RuleFault::BadLine(2), 1),
    (
        b"tick 5\nmonth ABCDEFGHIJKLMNOP 5",
        RuleFault::BadLine(2),
        1,
    ),
    (
        b"tick 1\nmonth H6 1\nmonth H6 -2\n",
        RuleFault::NamedTwice,
        4,
    ),
    (
        b"tick 1\nmonth a 1\nmonth b 1\nmonth c 1\nmonth d 1\nmonth e 1\nmonth f 1\nmonth g 1\nmonth h 1\nmonth i 1\nmonth j 1\nmonth k 1\nmonth l 1\nmonth m 1\nmonth n 1\nmonth o 1\nmonth p 1\nmonth q 1\nmonth r 1\nmonth s 1\nmonth t 1\nmonth u 1\nmonth v 1\nmonth w 1\nmonth x 1\nmonth a 1\n",
        RuleFault::TooManyMonths,
        3,
    ),
    (
        b"tick 1\nmonth H6 10000\nmonth M6 9800\nmonth U6 9500\npair M6 H6 on\n",
        RuleFault::BadLine(5),
        1,
    ),
    (
        b"tick 1\nmonth H6 10000\nmonth M6 9800\nmonth U6 9500\npair H6 X on\n",
        RuleFault::BadLine(5),
        1,
    ),
    (
        b"tick 1\nmonth H6 10000\nmonth M6 9800\nmonth U6 9500\npair H6 M6 On\n",
        RuleFault::BadLine(5),
        1,
    ),
    (
        b"tick 1\nmonth H6 10000\nmonth M6 9800\nmonth U6 9500\npair H6 M6 on\npair H6 M6 off\n",
        RuleFault::NamedTwice,
        4,
    ),
    (
        b"tick 1\nmonth H6 10000\npair H6 M6 on\nmonth M6 9800\n",
        RuleFault::BadLine(3),
        1,
    ),
    (
        b"tick 1\nmonth H6 10000\nmonth M6 9800\npair H6  M6 on\n",
        RuleFault::BadLine(4),
        1,
    ),
    (
        b"tick 1\nmonth H6 10000\nmonth M6 9800\npair H6 H6 on\n",
        RuleFault::BadLine(4),
        1,
    ),
    (b"pair H6 M6 on\ntick 1\n", RuleFault::BadLine(1), 1),
    (b"tick 1\nmonth H6 1000000001\n", RuleFault::BadLine(2), 1),
];

#[test]
fn rulebook_faults(rt: HostRuntime) {
    for (text, fault, number) in FAULTS {
        match Rulebook::read(text) {
            Ok(_) => assert!(rt; false, "no {fault}"),
            Err(found) => {
                holds(&rt, found == *fault);
                holds(&rt, found.number() == *number);
            }
        }
    }
}

#[test]
fn pairs_are_switched(rt: HostRuntime) -> Result<(), Fail> {
    let text =
        b"tick 1\nmonth pair 10\nmonth on 20\npair pair on off\nmonth off 30\npair on off on\n\n# a comment\n";
    let rules = Rulebook::read(text)?;
    holds(&rt, rules.months() == 3);
    holds(&rt, !rules.implied(0, 1));
    holds(&rt, rules.implied(0, 2));
    holds(&rt, rules.implied(1, 2));
    Ok(())
}

/// Symbols of months of one first and one last letter.
static ALIKE: &[(&[u8], Option<Instrument>)] = &[
    (b"JAN6", Some(Instrument::Outright(0))),
    (b"JUN6", Some(Instrument::Outright(1))),
    (b"JUL6", Some(Instrument::Outright(2))),
    (b"JAN6-JUL6", Some(Instrument::Spread(0, 2))),
    (b"JUL6-JAN6", None),
    (b"JXX6", None),
];

/// Months of one first and one last letter are told apart.
#[test]
fn names_alike(rt: HostRuntime) -> Result<(), Fail> {
    let rules = Rulebook::read(b"tick 1\nmonth JAN6 3\nmonth JUN6 2\nmonth JUL6 1\n")?;
    expect_found(&rt, &rules, ALIKE);
    Ok(())
}

#[test]
fn twenty_four_months(rt: HostRuntime) -> Result<(), Fail> {
    let text =
        b"tick 1\nmonth a 1\nmonth b 1\nmonth c 1\nmonth d 1\nmonth e 1\nmonth f 1\nmonth g 1\nmonth h 1\nmonth i 1\nmonth j 1\nmonth k 1\nmonth l 1\nmonth m 1\nmonth n 1\nmonth o 1\nmonth p 1\nmonth q 1\nmonth r 1\nmonth s 1\nmonth t 1\nmonth u 1\nmonth v 1\nmonth w 1\nmonth x 1\npair a x off\npair w x off\n";
    let rules = Rulebook::read(text)?;
    holds(&rt, rules.months() == 24);
    for far in 1..24u8 {
        for near in 0..far {
            let off = far == 23 && (near == 0 || near == 22);
            holds(&rt, rules.implied(near, far) == !off);
        }
    }
    let last = Instrument::Spread(22, 23);
    holds(&rt, rules.find(b"w-x") == Some(last));
    holds(&rt, last.far_month() == 23);
    Ok(())
}
