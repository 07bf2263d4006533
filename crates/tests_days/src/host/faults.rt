//! The numbers and texts of faults.
use crate::expect::holds_for;
use gate_link::LinkFault;
use spread_host::HostFault;
use spread_journal::JournalFault;
use spread_rules::RuleFault;

/// A fault, its number and its text.
static FAULTS: [(HostFault, u8, &str); 19] = [
    (HostFault::DayLine(3), 1, "day line 3"),
    (
        HostFault::Rule(RuleFault::BadLine(2)),
        2,
        "rules: bad line 2",
    ),
    (HostFault::Rule(RuleFault::NoMonth), 2, "rules: no month"),
    (
        HostFault::Rule(RuleFault::TooManyMonths),
        2,
        "rules: too many months",
    ),
    (
        HostFault::Rule(RuleFault::NamedTwice),
        2,
        "rules: named twice",
    ),
    (
        HostFault::Link(LinkFault::Sessions),
        3,
        "link: not 1 to 16 sessions",
    ),
    (
        HostFault::Link(LinkFault::Ring),
        3,
        "link: a ring of not 1 to 4,096 events",
    ),
    (HostFault::Link(LinkFault::NoMemory), 3, "link: no memory"),
    (
        HostFault::Link(LinkFault::Journal),
        3,
        "link: a journal of more than 1,000,000 entries",
    ),
    (HostFault::Spawn(4), 4, "thread 4"),
    (HostFault::JournalFull, 5, "journal full"),
    (HostFault::NoMemory(7), 6, "no memory"),
    (HostFault::Read, 7, "cannot read input"),
    (HostFault::Write, 8, "cannot write"),
    (HostFault::NumbersSpent(9), 9, "numbers spent"),
    (
        HostFault::Journal(JournalFault::Version),
        10,
        "journal version",
    ),
    (
        HostFault::Journal(JournalFault::Line(3)),
        10,
        "journal line 3",
    ),
    (
        HostFault::Journal(JournalFault::Order(4)),
        10,
        "journal order 4",
    ),
    (HostFault::Journal(JournalFault::Cut), 10, "journal cut"),
];

#[test]
fn fault_numbers(rt: HostRuntime) {
    for (fault, number, text) in &FAULTS {
        holds_for(&rt, fault.number() == *number, text);
        let written = fault.to_string(rt.alloc()).expect(&rt, "memory");
        holds_for(&rt, written.as_str() == *text, text);
    }
}
