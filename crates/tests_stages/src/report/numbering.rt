//! The numbers that messages bear, and their end at 999,999,999.
use super::{Came, Case, Filled, H6, Start, Step, expect_cases};
use crate::expect::holds;
use crate::said::{DayOrder, Said};
use spread_report::Desk;
use spread_rules::Side;
use tests_shared::stamp;

#[test]
fn starts_within_1_and_999_999_999(rt: HostRuntime) {
    for (number, starts) in [
        (0, false),
        (1, true),
        (999_999_999, true),
        (1_000_000_000, false),
    ] {
        holds(&rt, Desk::starting(stamp(), number).is_some() == starts);
    }
}

const BOUGHT_C: Filled = Filled {
    order: 5,
    session: 0,
    name: b"c",
    instrument: H6,
    side: Side::Buy,
    total: 2,
};

const SOLD_A: Filled = Filled {
    order: 3,
    session: 1,
    name: b"a",
    side: Side::Sell,
    ..BOUGHT_C
};

static CASES: [Case; 2] = [
    Case {
        shows: "a gap fill uses no number, and so is sent where none is left",
        start: Start::Number(999_999_999),
        steps: &[
            Step::Session(0, Said::Logon(b"C1")),
            Step::SessionSpent(0, Said::TestReply),
            Step::Sent(
                0,
                b"8=FIX.4.2|9=65|35=A|34=999999999|49=HOST|52=20260105-14:30:00|56=C1|98=0|108=30|10=171|",
            ),
            Step::Session(0, Said::Resend(5, 0)),
            Step::SessionSpent(0, Said::TestReply),
            Step::Sent(
                0,
                b"8=FIX.4.2|9=65|35=A|34=999999999|49=HOST|52=20260105-14:30:00|56=C1|98=0|108=30|10=171|8=FIX.4.2|9=92|35=4|34=5|43=Y|49=HOST|52=20260105-14:30:00|56=C1|122=20260105-14:30:00|36=1000000000|123=Y|10=152|",
            ),
        ],
    },
    Case {
        shows: "an order's first report and its first fill still have numbers, the other session's fill has none",
        start: Start::Number(999_999_997),
        steps: &[
            Step::Session(0, Said::Logon(b"C1")),
            Step::Session(1, Said::Logon(b"C2")),
            Step::Request(
                1,
                Said::New(DayOrder(b"a", b"H6", Side::Sell, 2, 10000)),
                Came::Rested,
                &[],
            ),
            Step::Request(
                1,
                Said::New(DayOrder(b"b", b"H6", Side::Sell, 3, 10000)),
                Came::Rested,
                &[],
            ),
            Step::RequestSpent(
                0,
                Said::New(DayOrder(b"c", b"H6", Side::Buy, 2, 10000)),
                Came::Filled,
                &[(BOUGHT_C, 2, 0, 10000), (SOLD_A, 2, 0, 10000)],
            ),
            Step::Sent(
                0,
                b"8=FIX.4.2|9=65|35=A|34=999999997|49=HOST|52=20260105-14:30:00|56=C1|98=0|108=30|10=169|",
            ),
            Step::Sent(
                1,
                b"8=FIX.4.2|9=65|35=A|34=999999997|49=HOST|52=20260105-14:30:00|56=C2|98=0|108=30|10=170|8=FIX.4.2|9=117|35=8|34=999999998|49=HOST|52=20260105-14:30:00|56=C2|37=3|11=a|17=3-1|20=0|150=0|39=0|55=H6|54=2|38=2|151=2|14=0|6=0|10=208|8=FIX.4.2|9=117|35=8|34=999999999|49=HOST|52=20260105-14:30:00|56=C2|37=4|11=b|17=4-1|20=0|150=0|39=0|55=H6|54=2|38=3|151=3|14=0|6=0|10=214|",
            ),
            Step::Session(0, Said::TestReply),
            Step::Sent(
                0,
                b"8=FIX.4.2|9=65|35=A|34=999999997|49=HOST|52=20260105-14:30:00|56=C1|98=0|108=30|10=169|8=FIX.4.2|9=59|35=0|34=999999998|49=HOST|52=20260105-14:30:00|56=C1|112=T|10=169|",
            ),
        ],
    },
];

#[test]
fn numbers_spent(rt: HostRuntime) {
    expect_cases(&rt, rt.alloc(), &CASES);
}
