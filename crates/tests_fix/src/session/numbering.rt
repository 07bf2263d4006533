//! Numbers of messages: gaps, duplicates, gap fills and what closes a session.
//! Rules S1 to S7 of docs/PROFILE.md.
use super::Says::{Close, Gap, Logon, Reject, TestReply};
use super::{LOGON, SELL, Says, expect_events, is_said, judged, push_event};
use crate::expect::holds;
use fix_session::{Session, Verdict};
use spread_rules::Event;
use std::alloc::Allocator;
use std::process::Abort;

/// The bodies of a session's messages, and what they and the end behind them say.
struct SessionCase {
    name: &'static str,
    bodies: &'static [&'static str],
    says: &'static [Says],
}

static SESSIONS: &[SessionCase] = &[
    // Gaps and low numbers.
    SessionCase {
        name: "gap and duplicates",
        bodies: &[
            LOGON,
            "35=1|34=2|49=C1|52=20260105-14:30:00|56=HOST|112=2|",
            "35=1|34=4|49=C1|52=20260105-14:30:00|56=HOST|112=4|",
            "35=1|34=5|49=C1|52=20260105-14:30:00|56=HOST|112=5|",
            "35=1|34=3|43=Y|49=C1|52=20260105-14:30:00|56=HOST|112=3|",
            "35=1|34=4|43=Y|49=C1|52=20260105-14:30:00|56=HOST|112=4|",
            "35=1|34=5|43=Y|49=C1|52=20260105-14:30:00|56=HOST|112=5|",
            "35=1|34=3|43=Y|49=C1|52=20260105-14:30:00|56=HOST|112=3|",
        ],
        says: &[
            Logon,
            TestReply(b"2"),
            Gap(3),
            TestReply(b"3"),
            TestReply(b"4"),
            TestReply(b"5"),
            Close(5),
        ],
    },
    SessionCase {
        name: "number too low",
        bodies: &[
            LOGON,
            "35=1|34=2|49=C1|52=20260105-14:30:00|56=HOST|112=2|",
            "35=1|34=2|49=C1|52=20260105-14:30:00|56=HOST|112=2|",
            "35=1|34=3|49=C1|52=20260105-14:30:00|56=HOST|112=3|",
        ],
        says: &[Logon, TestReply(b"2"), Close(2)],
    },
    SessionCase {
        name: "a number that can't be read",
        bodies: &[
            LOGON,
            "35=5|34=x|49=C1|56=HOST|",
            "35=1|34=2|49=C1|52=20260105-14:30:00|56=HOST|112=2|",
        ],
        says: &[Logon, TestReply(b"2"), Close(5)],
    },
    // Gap fills.
    SessionCase {
        name: "a gap fill",
        bodies: &[
            LOGON,
            "35=4|34=2|49=C1|52=20260105-14:30:00|56=HOST|36=9|123=Y|",
            "35=1|34=9|49=C1|52=20260105-14:30:00|56=HOST|112=9|",
        ],
        says: &[Logon, TestReply(b"9"), Close(5)],
    },
    SessionCase {
        name: "a rejected gap fill",
        bodies: &[
            LOGON,
            "35=4|34=2|49=C1|52=20260105-14:30:00|56=HOST|36=9|",
            "35=1|34=3|49=C1|52=20260105-14:30:00|56=HOST|112=3|",
        ],
        says: &[Logon, Reject(2, 5), TestReply(b"3"), Close(5)],
    },
    SessionCase {
        name: "a gap fill to its own number is rejected, and the next one is due",
        bodies: &[
            LOGON,
            "35=4|34=2|49=C1|52=20260105-14:30:00|56=HOST|36=2|123=Y|",
            "35=1|34=3|49=C1|52=20260105-14:30:00|56=HOST|112=3|",
        ],
        says: &[Logon, Reject(2, 5), TestReply(b"3"), Close(5)],
    },
    SessionCase {
        name: "the last number",
        bodies: &[
            LOGON,
            "35=4|34=2|49=C1|52=20260105-14:30:00|56=HOST|36=999999999|123=Y|",
            "35=1|34=999999999|49=C1|52=20260105-14:30:00|56=HOST|112=9|",
            "35=1|34=999999999|43=Y|49=C1|52=20260105-14:30:00|56=HOST|112=9|",
            "35=1|34=1000000000|49=C1|52=20260105-14:30:00|56=HOST|112=0|",
            "35=1|34=999999999|49=C1|52=20260105-14:30:00|56=HOST|112=9|",
        ],
        says: &[Logon, TestReply(b"9"), Close(2)],
    },
    // Logons and Logouts.
    SessionCase {
        name: "after a Logout",
        bodies: &[
            LOGON,
            "35=5|34=2|49=C1|56=HOST|",
            "35=1|34=3|49=C1|52=20260105-14:30:00|56=HOST|112=3|",
        ],
        says: &[Logon, Close(1)],
    },
    SessionCase {
        name: "a second Logon",
        bodies: &[
            LOGON,
            "35=A|34=2|49=C1|52=20260105-14:30:00|56=HOST|98=0|108=30|",
        ],
        says: &[Logon, Reject(2, 11), Close(5)],
    },
    SessionCase {
        name: "another client",
        bodies: &[LOGON, "35=1|34=2|49=C2|52=20260105-14:30:00|56=HOST|112=2|"],
        says: &[Logon, Close(4)],
    },
    SessionCase {
        name: "encryption asked for",
        bodies: &[
            "35=A|34=1|49=C1|52=20260105-14:30:00|56=HOST|98=1|108=30|",
            LOGON,
        ],
        says: &[Close(3)],
    },
    // The first trade's order to sell, with one field changed.
    SessionCase {
        name: "an order without an id",
        bodies: &[
            LOGON,
            "35=D|34=2|49=C1|52=20260105-14:30:00|56=HOST|11=|21=1|55=H6|54=2|60=20260105-14:30:00|38=5|40=2|44=100|",
        ],
        says: &[Logon, Reject(2, 4), Close(5)],
    },
    SessionCase {
        name: "an order of a quantity that is no number",
        bodies: &[
            LOGON,
            "35=D|34=2|49=C1|52=20260105-14:30:00|56=HOST|11=a|21=1|55=H6|54=2|60=20260105-14:30:00|38=x|40=2|44=100|",
        ],
        says: &[Logon, Reject(2, 6), Close(5)],
    },
];

/// The events of bodies, and of the end after them.
fn events_of<A: Allocator + Copy>(rt: &impl Abort, alloc: A, bodies: &[&str]) -> Vec<Event, A> {
    let mut events = Vec::new(alloc);
    let mut session = Session::new();
    for body in bodies {
        let (verdict, after) = judged(rt, alloc, &session, body);
        push_event(rt, &mut events, verdict);
        session = after;
    }
    push_event(rt, &mut events, session.end().0);
    events
}

#[test]
fn events_of_sessions(rt: HostRuntime) {
    for case in SESSIONS {
        let events = events_of(&rt, rt.alloc(), case.bodies);
        expect_events(&rt, case.name, &events, case.says);
    }
}

#[test]
fn a_session_opens_and_closes(rt: HostRuntime) {
    let session = Session::new();
    holds(&rt, !session.is_closed());
    let (verdict, running) = judged(&rt, rt.alloc(), &session, LOGON);
    holds(&rt, is_said(verdict, &Logon));
    holds(&rt, !running.is_closed());
    let (verdict, closed) = running.end();
    holds(&rt, is_said(verdict, &Close(5)));
    holds(&rt, closed.is_closed());
    holds(&rt, closed.end().0 == Verdict::Nothing);
}

/// The body of an order with this number.
fn order_body<A: Allocator>(rt: &impl Abort, alloc: A, number: u32) -> String<A> {
    format!(in alloc;
        "35=D|34={number}|49=C1|52=20260105-14:30:00|56=HOST|11=a|21=1|55=H6|54=2|60=20260105-14:30:00|38=5|40=2|44=100|"
    ).expect(rt, "memory")
}

/// A thousand orders above a gap are discarded, and one Gap is said until the due number comes.
#[test]
fn many_messages_above_a_gap(rt: HostRuntime) {
    let mut events = Vec::new(rt.alloc());
    let mut session = Session::new();
    for place in 0..1003u32 {
        let number = match place {
            1001 => 2,
            1002 => 1005,
            _ => place + 4,
        };
        let order = order_body(&rt, rt.alloc(), number);
        let body = if place == 0 { LOGON } else { order.as_str() };
        let (verdict, after) = judged(&rt, rt.alloc(), &session, body);
        push_event(&rt, &mut events, verdict);
        session = after;
    }
    push_event(&rt, &mut events, session.end().0);
    let want = &[Logon, Gap(2), SELL, Gap(3), Close(5)];
    expect_events(&rt, "many messages above a gap", &events, want);
}
