//! Replaced orders with their fills, and refused replaces.
use super::{Came, Case, Filled, H6, H6_M6, Ordered, Start, Step, expect_cases};
use crate::said::{DayOrder, Said};
use spread_rules::Side;

const BOUGHT_C: Filled = Filled {
    order: 4,
    session: 0,
    name: b"c",
    instrument: H6,
    side: Side::Buy,
    total: 6,
};

const SOLD_A: Filled = Filled {
    order: 2,
    name: b"a",
    side: Side::Sell,
    total: 5,
    ..BOUGHT_C
};

static CASES: [Case; 3] = [
    // Order c is put in the place of b, of which 2 were filled.
    Case {
        shows: "the replaced report has index 1 in ExecID, and the fills of the new order go on from 2",
        start: Start::Usual,
        steps: &[
            Step::Session(0, Said::Logon(b"C1")),
            Step::Place(4),
            Step::Request(
                0,
                Said::Replace(b"b", DayOrder(b"c", b"H6", Side::Buy, 6, 10000)),
                Came::Replaced(Ordered {
                    place: 4,
                    name: b"c",
                    instrument: H6,
                    side: Side::Buy,
                    quantity: 6,
                    leaves: 4,
                }),
                &[(BOUGHT_C, 4, 0, 10000), (SOLD_A, 4, 1, 10000)],
            ),
            Step::Sent(
                0,
                b"8=FIX.4.2|9=57|35=A|34=1|49=HOST|52=20260105-14:30:00|56=C1|98=0|108=30|10=220|8=FIX.4.2|9=114|35=8|34=2|49=HOST|52=20260105-14:30:00|56=C1|37=4|11=c|41=b|17=4-1|20=0|150=5|39=5|55=H6|54=1|38=6|151=4|14=2|6=0|10=024|8=FIX.4.2|9=130|35=8|34=3|49=HOST|52=20260105-14:30:00|56=C1|37=4|11=c|17=4-2|20=0|150=2|39=2|55=H6|54=1|38=6|32=4|31=100.00|151=0|14=6|6=0|442=1|10=174|8=FIX.4.2|9=130|35=8|34=4|49=HOST|52=20260105-14:30:00|56=C1|37=2|11=a|17=4-3|20=0|150=1|39=1|55=H6|54=2|38=5|32=4|31=100.00|151=1|14=4|6=0|442=1|10=169|",
            ),
        ],
    },
    Case {
        shows: "OrderID is the place that the order kept, and ExecID's the place of the replace",
        start: Start::Usual,
        steps: &[
            Step::Session(0, Said::Logon(b"C1")),
            Step::Place(5),
            Step::Request(
                0,
                Said::Replace(b"a", DayOrder(b"b", b"H6-M6", Side::Sell, 3, 10000)),
                Came::Replaced(Ordered {
                    place: 2,
                    name: b"b",
                    instrument: H6_M6,
                    side: Side::Sell,
                    quantity: 3,
                    leaves: 1,
                }),
                &[],
            ),
            Step::Sent(
                0,
                b"8=FIX.4.2|9=57|35=A|34=1|49=HOST|52=20260105-14:30:00|56=C1|98=0|108=30|10=220|8=FIX.4.2|9=117|35=8|34=2|49=HOST|52=20260105-14:30:00|56=C1|37=2|11=b|41=a|17=5-1|20=0|150=5|39=5|55=H6-M6|54=2|38=3|151=1|14=2|6=0|10=195|",
            ),
        ],
    },
    Case {
        shows: "CxlRejResponseTo is 2 for a refused replace, and 1 for a refused cancel",
        start: Start::Usual,
        steps: &[
            Step::Session(0, Said::Logon(b"C1")),
            Step::Request(
                0,
                Said::Replace(b"a", DayOrder(b"b", b"H6", Side::Buy, 1, 0)),
                Came::CancelRefused(2, 2, 1),
                &[],
            ),
            Step::Request(
                0,
                Said::Replace(b"a", DayOrder(b"c", b"H6", Side::Buy, 1, 0)),
                Came::CancelRefused(0, 2, 0),
                &[],
            ),
            Step::Request(
                0,
                Said::Replace(b"z", DayOrder(b"d", b"H6", Side::Buy, 1, 0)),
                Came::CancelRefused(1, 0, 8),
                &[],
            ),
            Step::Request(
                0,
                Said::Replace(b"x", DayOrder(b"e", b"H6", Side::Buy, 1, 0)),
                Came::CancelRefused(0, 7, 5),
                &[],
            ),
            Step::Request(
                0,
                Said::Cancel(b"f", b"a"),
                Came::CancelRefused(0, 2, 1),
                &[],
            ),
            Step::Sent(
                0,
                b"8=FIX.4.2|9=57|35=A|34=1|49=HOST|52=20260105-14:30:00|56=C1|98=0|108=30|10=220|8=FIX.4.2|9=77|35=9|34=2|49=HOST|52=20260105-14:30:00|56=C1|37=2|11=b|41=a|39=1|434=2|102=2|10=135|8=FIX.4.2|9=77|35=9|34=3|49=HOST|52=20260105-14:30:00|56=C1|37=2|11=c|41=a|39=0|434=2|102=0|10=134|8=FIX.4.2|9=80|35=9|34=4|49=HOST|52=20260105-14:30:00|56=C1|37=NONE|11=d|41=z|39=8|434=2|102=1|10=162|8=FIX.4.2|9=77|35=9|34=5|49=HOST|52=20260105-14:30:00|56=C1|37=7|11=e|41=x|39=5|434=2|102=0|10=171|8=FIX.4.2|9=77|35=9|34=6|49=HOST|52=20260105-14:30:00|56=C1|37=2|11=f|41=a|39=1|434=1|102=0|10=140|",
            ),
        ],
    },
];

#[test]
fn replaces(rt: HostRuntime) {
    expect_cases(&rt, rt.alloc(), &CASES);
}
