//! Refused orders, refused cancels, and a cancelled order.
use super::{Came, Case, H6, Ordered, Start, Step, expect_cases};
use crate::said::{DayOrder, Said};
use spread_rules::Side;

static CASES: [Case; 2] = [
    // A refused cancel has the place of the order, and reason 0; reason 1 and place 0 where none has the id.
    Case {
        shows: "refused orders and refused cancels",
        start: Start::Usual,
        steps: &[
            Step::Session(0, Said::Logon(b"C1")),
            Step::Request(
                0,
                Said::New(DayOrder(b"a", b"M6-H6", Side::Buy, 1, 0)),
                Came::Refused(1),
                &[],
            ),
            Step::Request(
                0,
                Said::Cancel(b"b", b"a"),
                Came::CancelRefused(0, 2, 8),
                &[],
            ),
            Step::Request(
                0,
                Said::Cancel(b"c", b"z"),
                Came::CancelRefused(1, 0, 8),
                &[],
            ),
            Step::Request(
                0,
                Said::New(DayOrder(b"a", b"H6", Side::Buy, 1, 0)),
                Came::Refused(6),
                &[],
            ),
            Step::Request(
                0,
                Said::New(DayOrder(b"d", b"H6", Side::Buy, 0, 0)),
                Came::Refused(3),
                &[],
            ),
            Step::Request(
                0,
                Said::Cancel(b"e", b"d"),
                Came::CancelRefused(0, 6, 8),
                &[],
            ),
            Step::Sent(
                0,
                b"8=FIX.4.2|9=57|35=A|34=1|49=HOST|52=20260105-14:30:00|56=C1|98=0|108=30|10=220|8=FIX.4.2|9=118|35=8|34=2|49=HOST|52=20260105-14:30:00|56=C1|37=2|11=a|17=2-1|20=0|150=8|39=8|103=1|55=M6-H6|54=1|38=1|151=0|14=0|6=0|10=191|8=FIX.4.2|9=77|35=9|34=3|49=HOST|52=20260105-14:30:00|56=C1|37=2|11=b|41=a|39=8|434=1|102=0|10=140|8=FIX.4.2|9=80|35=9|34=4|49=HOST|52=20260105-14:30:00|56=C1|37=NONE|11=c|41=z|39=8|434=1|102=1|10=160|8=FIX.4.2|9=115|35=8|34=5|49=HOST|52=20260105-14:30:00|56=C1|37=5|11=a|17=5-1|20=0|150=8|39=8|103=6|55=H6|54=1|38=1|151=0|14=0|6=0|10=026|8=FIX.4.2|9=115|35=8|34=6|49=HOST|52=20260105-14:30:00|56=C1|37=6|11=d|17=6-1|20=0|150=8|39=8|103=3|55=H6|54=1|38=0|151=0|14=0|6=0|10=028|8=FIX.4.2|9=77|35=9|34=7|49=HOST|52=20260105-14:30:00|56=C1|37=6|11=e|41=d|39=8|434=1|102=0|10=154|",
            ),
        ],
    },
    Case {
        shows: "a cancelled order",
        start: Start::Usual,
        steps: &[
            Step::Session(0, Said::Logon(b"C1")),
            Step::Request(
                0,
                Said::New(DayOrder(b"a", b"H6", Side::Sell, 5, 10000)),
                Came::Rested,
                &[],
            ),
            Step::Request(
                0,
                Said::Cancel(b"b", b"a"),
                Came::Cancelled(Ordered {
                    place: 2,
                    name: b"a",
                    instrument: H6,
                    side: Side::Sell,
                    quantity: 5,
                    leaves: 5,
                }),
                &[],
            ),
            Step::Session(0, Said::Close(1)),
            Step::Sent(
                0,
                b"8=FIX.4.2|9=57|35=A|34=1|49=HOST|52=20260105-14:30:00|56=C1|98=0|108=30|10=220|8=FIX.4.2|9=109|35=8|34=2|49=HOST|52=20260105-14:30:00|56=C1|37=2|11=a|17=2-1|20=0|150=0|39=0|55=H6|54=2|38=5|151=5|14=0|6=0|10=006|8=FIX.4.2|9=114|35=8|34=3|49=HOST|52=20260105-14:30:00|56=C1|37=2|11=b|41=a|17=3-1|20=0|150=4|39=4|55=H6|54=2|38=5|151=0|14=0|6=0|10=012|8=FIX.4.2|9=45|35=5|34=4|49=HOST|52=20260105-14:30:00|56=C1|10=183|",
            ),
        ],
    },
];

#[test]
fn refusals_and_cancels(rt: HostRuntime) {
    expect_cases(&rt, rt.alloc(), &CASES);
}
