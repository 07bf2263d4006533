//! Reports of orders and of their fills.
use super::{Came, Case, Filled, H6, H6_M6, M6, Start, Step, expect_cases};
use crate::said::{DayOrder, Said};
use spread_rules::Side;

const SOLD_A: Filled = Filled {
    order: 2,
    session: 0,
    name: b"a",
    instrument: H6,
    side: Side::Sell,
    total: 5,
};

const BOUGHT_B: Filled = Filled {
    order: 3,
    session: 0,
    name: b"b",
    instrument: H6,
    side: Side::Buy,
    total: 5,
};

const SPREAD_C: Filled = Filled {
    order: 5,
    session: 0,
    name: b"c",
    instrument: H6_M6,
    side: Side::Buy,
    total: 1,
};

static CASES: [Case; 3] = [
    Case {
        shows: "the first trade",
        start: Start::Usual,
        steps: &[
            Step::Session(0, Said::Logon(b"C1")),
            Step::Request(
                0,
                Said::New(DayOrder(b"a", b"H6", Side::Sell, 5, 10000)),
                Came::Rested,
                &[],
            ),
            Step::Request(
                0,
                Said::New(DayOrder(b"b", b"H6", Side::Buy, 5, 10000)),
                Came::Filled,
                &[(BOUGHT_B, 5, 0, 10000), (SOLD_A, 5, 0, 10000)],
            ),
            Step::Session(0, Said::Close(1)),
            Step::Sent(
                0,
                b"8=FIX.4.2|9=57|35=A|34=1|49=HOST|52=20260105-14:30:00|56=C1|98=0|108=30|10=220|8=FIX.4.2|9=109|35=8|34=2|49=HOST|52=20260105-14:30:00|56=C1|37=2|11=a|17=2-1|20=0|150=0|39=0|55=H6|54=2|38=5|151=5|14=0|6=0|10=006|8=FIX.4.2|9=109|35=8|34=3|49=HOST|52=20260105-14:30:00|56=C1|37=3|11=b|17=3-1|20=0|150=0|39=0|55=H6|54=1|38=5|151=5|14=0|6=0|10=009|8=FIX.4.2|9=130|35=8|34=4|49=HOST|52=20260105-14:30:00|56=C1|37=3|11=b|17=3-2|20=0|150=2|39=2|55=H6|54=1|38=5|32=5|31=100.00|151=0|14=5|6=0|442=1|10=171|8=FIX.4.2|9=130|35=8|34=5|49=HOST|52=20260105-14:30:00|56=C1|37=2|11=a|17=3-3|20=0|150=2|39=2|55=H6|54=2|38=5|32=5|31=100.00|151=0|14=5|6=0|442=1|10=172|8=FIX.4.2|9=45|35=5|34=6|49=HOST|52=20260105-14:30:00|56=C1|10=185|",
            ),
            Step::Sent(1, b""),
        ],
    },
    Case {
        shows: "an immediate order of which some is left",
        start: Start::Usual,
        steps: &[
            Step::Session(0, Said::Logon(b"C1")),
            Step::Place(3),
            Step::Request(
                0,
                Said::New(DayOrder(b"b", b"H6", Side::Buy, 10, 10000)),
                Came::Ended(6),
                &[
                    (
                        Filled {
                            total: 10,
                            ..BOUGHT_B
                        },
                        4,
                        6,
                        10000,
                    ),
                    (Filled { total: 4, ..SOLD_A }, 4, 0, 10000),
                ],
            ),
            Step::Sent(
                0,
                b"8=FIX.4.2|9=57|35=A|34=1|49=HOST|52=20260105-14:30:00|56=C1|98=0|108=30|10=220|8=FIX.4.2|9=111|35=8|34=2|49=HOST|52=20260105-14:30:00|56=C1|37=3|11=b|17=3-1|20=0|150=0|39=0|55=H6|54=1|38=10|151=10|14=0|6=0|10=089|8=FIX.4.2|9=131|35=8|34=3|49=HOST|52=20260105-14:30:00|56=C1|37=3|11=b|17=3-2|20=0|150=1|39=1|55=H6|54=1|38=10|32=4|31=100.00|151=6|14=4|6=0|442=1|10=217|8=FIX.4.2|9=130|35=8|34=4|49=HOST|52=20260105-14:30:00|56=C1|37=2|11=a|17=3-3|20=0|150=2|39=2|55=H6|54=2|38=4|32=4|31=100.00|151=0|14=4|6=0|442=1|10=168|8=FIX.4.2|9=110|35=8|34=5|49=HOST|52=20260105-14:30:00|56=C1|37=3|11=b|17=3-4|20=0|150=4|39=4|55=H6|54=1|38=10|151=0|14=4|6=0|10=057|",
            ),
        ],
    },
    Case {
        shows: "a spread and its legs; the session of order 3 has no Logon, and is sent nothing",
        start: Start::Usual,
        steps: &[
            Step::Session(0, Said::Logon(b"C1")),
            Step::Session(1, Said::Logon(b"C2")),
            Step::Place(5),
            Step::Request(
                0,
                Said::New(DayOrder(b"c", b"H6-M6", Side::Buy, 1, 200)),
                Came::Filled,
                &[
                    (SPREAD_C, 1, 0, 200),
                    (
                        Filled {
                            order: 3,
                            session: 5,
                            total: 1,
                            ..SOLD_A
                        },
                        1,
                        0,
                        10000,
                    ),
                    (
                        Filled {
                            order: 4,
                            session: 1,
                            instrument: M6,
                            total: 2,
                            ..BOUGHT_B
                        },
                        1,
                        1,
                        9800,
                    ),
                ],
            ),
            Step::Sent(
                0,
                b"8=FIX.4.2|9=57|35=A|34=1|49=HOST|52=20260105-14:30:00|56=C1|98=0|108=30|10=220|8=FIX.4.2|9=112|35=8|34=2|49=HOST|52=20260105-14:30:00|56=C1|37=5|11=c|17=5-1|20=0|150=0|39=0|55=H6-M6|54=1|38=1|151=1|14=0|6=0|10=175|8=FIX.4.2|9=131|35=8|34=3|49=HOST|52=20260105-14:30:00|56=C1|37=5|11=c|17=5-2|20=0|150=2|39=2|55=H6-M6|54=1|38=1|32=1|31=2.00|151=0|14=1|6=0|442=3|10=247|8=FIX.4.2|9=130|35=8|34=4|49=HOST|52=20260105-14:30:00|56=C1|37=5|11=c|17=5-3|20=0|150=2|39=2|55=H6|54=1|38=1|32=1|31=100.00|151=0|14=1|6=0|442=2|10=166|8=FIX.4.2|9=129|35=8|34=5|49=HOST|52=20260105-14:30:00|56=C1|37=5|11=c|17=5-4|20=0|150=2|39=2|55=M6|54=2|38=1|32=1|31=98.00|151=0|14=1|6=0|442=2|10=150|",
            ),
            Step::Sent(5, b""),
            Step::Sent(
                1,
                b"8=FIX.4.2|9=57|35=A|34=1|49=HOST|52=20260105-14:30:00|56=C2|98=0|108=30|10=221|8=FIX.4.2|9=129|35=8|34=2|49=HOST|52=20260105-14:30:00|56=C2|37=4|11=b|17=5-6|20=0|150=1|39=1|55=M6|54=1|38=2|32=1|31=98.00|151=1|14=1|6=0|442=1|10=146|",
            ),
        ],
    },
];

#[test]
fn reports(rt: HostRuntime) {
    expect_cases(&rt, rt.alloc(), &CASES);
}
