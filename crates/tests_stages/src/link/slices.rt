//! Several messages are stepped over, and several events taken, at once.
use super::Says;
use super::days::Act::{IsClosed, JudgesAndSends, Put, Standing, Steps, StepsOver, TurnsFor};
use super::days::{Day, expect_day};
use gate_link::{Burst, Step, Takes};
use tests_shared::{FIRST_LOGON, FIRST_TRADE};

/// The first trade's Logon, a Logout, and the rest of the first trade.
const A_LOGOUT_IN_THE_MIDDLE: &[u8] =
    b"8=FIX.4.2\x019=57\x0135=A\x0134=1\x0149=C1\x0152=20260105-14:30:00\x0156=HOST\x0198=0\x01108=30\x0110=220\x01\
8=FIX.4.2\x019=45\x0135=5\x0134=2\x0149=C1\x0152=20260105-14:30:00\x0156=HOST\x0110=181\x01\
8=FIX.4.2\x019=104\x0135=D\x0134=2\x0149=C1\x0152=20260105-14:30:00\x0156=HOST\x0111=a\x0121=1\x0155=H6\x0154=2\x0160=20260105-14:30:00\x0138=5\x0140=2\x0144=100\x0110=168\x01\
8=FIX.4.2\x019=104\x0135=D\x0134=3\x0149=C1\x0152=20260105-14:30:00\x0156=HOST\x0111=b\x0121=1\x0155=H6\x0154=1\x0160=20260105-14:30:00\x0138=5\x0140=2\x0144=100\x0110=169\x01\
8=FIX.4.2\x019=45\x0135=5\x0134=4\x0149=C1\x0152=20260105-14:30:00\x0156=HOST\x0110=183\x01";

/// The client's messages 2 and 3.
const TWO_HEARTBEATS: &[u8] =
    b"8=FIX.4.2\x019=45\x0135=0\x0134=2\x0149=C1\x0152=20260105-14:30:00\x0156=HOST\x0110=176\x01\
8=FIX.4.2\x019=45\x0135=0\x0134=3\x0149=C1\x0152=20260105-14:30:00\x0156=HOST\x0110=177\x01";

static DAYS: &[Day] = &[
    Day {
        name: "all four messages go as one slice, and are taken in two",
        ring: 4,
        journal: 10,
        acts: &[
            Put(FIRST_TRADE, 400),
            Standing(64, 4),
            Standing(3, 3),
            StepsOver(4, Burst::Sent(4)),
            IsClosed(true),
            Standing(64, 0),
            StepsOver(4, Burst::Closed),
            TurnsFor(3, Takes::Took(3)),
            TurnsFor(3, Takes::Took(1)),
            TurnsFor(3, Takes::Done),
        ],
        says: &[Says::Logon, Says::Sell, Says::Buy, Says::Close(1)],
    },
    Day {
        name: "a ring of two has no room for four events: none is sent, and then two are",
        ring: 2,
        journal: 10,
        acts: &[
            Put(FIRST_TRADE, 400),
            StepsOver(4, Burst::Full),
            TurnsFor(64, Takes::Empty),
            Standing(64, 4),
            StepsOver(2, Burst::Sent(2)),
            StepsOver(1, Burst::Full),
            TurnsFor(64, Takes::Took(2)),
            Steps(Step::Sent),
            StepsOver(64, Burst::Sent(1)),
            TurnsFor(64, Takes::Took(2)),
        ],
        says: &[Says::Logon, Says::Sell, Says::Buy, Says::Close(1)],
    },
    Day {
        name: "a Logout stands in the middle: no message behind it is judged",
        ring: 64,
        journal: 10,
        acts: &[
            Put(A_LOGOUT_IN_THE_MIDDLE, 467),
            Standing(64, 5),
            StepsOver(64, Burst::Sent(2)),
            IsClosed(true),
            StepsOver(64, Burst::Closed),
            TurnsFor(64, Takes::Took(2)),
            TurnsFor(64, Takes::Done),
        ],
        says: &[Says::Logon, Says::Close(1)],
    },
    Day {
        name: "Heartbeats have no event: they are passed, and nothing is sent",
        ring: 1,
        journal: 10,
        acts: &[
            StepsOver(64, Burst::Need),
            Put(FIRST_LOGON, 79),
            StepsOver(64, Burst::Sent(1)),
            Put(TWO_HEARTBEATS, 134),
            Standing(64, 2),
            StepsOver(64, Burst::Skipped),
            Standing(64, 0),
            StepsOver(64, Burst::Need),
            TurnsFor(64, Takes::Took(1)),
            TurnsFor(64, Takes::Empty),
        ],
        says: &[Says::Logon],
    },
    Day {
        name: "no message behind a Logout is judged",
        ring: 2,
        journal: 10,
        acts: &[
            Put(A_LOGOUT_IN_THE_MIDDLE, 467),
            JudgesAndSends(1, 1, Burst::Sent(1)),
            JudgesAndSends(64, 1, Burst::Sent(1)),
            IsClosed(true),
            TurnsFor(64, Takes::Took(2)),
        ],
        says: &[Says::Logon, Says::Close(1)],
    },
    Day {
        name: "four messages are judged, for which a ring of two has no room: all are still held",
        ring: 2,
        journal: 10,
        acts: &[
            Put(FIRST_TRADE, 400),
            JudgesAndSends(64, 4, Burst::Full),
            Standing(64, 4),
            JudgesAndSends(2, 2, Burst::Sent(2)),
            TurnsFor(64, Takes::Took(2)),
            JudgesAndSends(64, 2, Burst::Sent(2)),
            IsClosed(true),
            TurnsFor(64, Takes::Took(2)),
        ],
        says: &[Says::Logon, Says::Sell, Says::Buy, Says::Close(1)],
    },
    Day {
        name: "a journal with room for two takes two",
        ring: 4,
        journal: 2,
        acts: &[
            Put(FIRST_TRADE, 400),
            StepsOver(64, Burst::Sent(4)),
            TurnsFor(64, Takes::Took(2)),
            TurnsFor(64, Takes::JournalFull),
        ],
        says: &[Says::Logon, Says::Sell],
    },
];

#[test]
fn days_in_slices(rt: HostRuntime) {
    for day in DAYS {
        expect_day(&rt, rt.alloc(), day);
    }
}
