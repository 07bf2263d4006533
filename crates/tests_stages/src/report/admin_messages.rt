//! The session's own messages, resend requests, and the stamp that all bear.
use super::{Case, Start, Step, expect_cases};
use crate::said::Said;

static CASES: [Case; 5] = [
    Case {
        shows: "session messages",
        start: Start::Usual,
        steps: &[
            Step::Session(0, Said::Logon(b"C1")),
            Step::Session(0, Said::TestReply),
            Step::Session(0, Said::Gap(3)),
            Step::Session(0, Said::Reject(2, 5)),
            Step::Session(0, Said::Close(2)),
            Step::Sent(
                0,
                b"8=FIX.4.2|9=57|35=A|34=1|49=HOST|52=20260105-14:30:00|56=C1|98=0|108=30|10=220|8=FIX.4.2|9=51|35=0|34=2|49=HOST|52=20260105-14:30:00|56=C1|112=T|10=211|8=FIX.4.2|9=54|35=2|34=3|49=HOST|52=20260105-14:30:00|56=C1|7=3|16=0|10=048|8=FIX.4.2|9=56|35=3|34=4|49=HOST|52=20260105-14:30:00|56=C1|45=2|373=5|10=160|8=FIX.4.2|9=66|35=5|34=5|49=HOST|52=20260105-14:30:00|56=C1|58=MsgSeqNum too low|10=202|",
            ),
        ],
    },
    Case {
        shows: "a session that closes for 4 is told, one that closes for 5 is not, nor is one before its Logon",
        start: Start::Usual,
        steps: &[
            Step::Session(1, Said::Logon(b"C2")),
            Step::Session(2, Said::Logon(b"C3")),
            Step::Session(1, Said::Close(4)),
            Step::Session(2, Said::Close(5)),
            Step::Session(3, Said::Close(3)),
            Step::Sent(
                1,
                b"8=FIX.4.2|9=57|35=A|34=1|49=HOST|52=20260105-14:30:00|56=C2|98=0|108=30|10=221|8=FIX.4.2|9=55|35=5|34=2|49=HOST|52=20260105-14:30:00|56=C2|58=CompID|10=126|",
            ),
            Step::Sent(
                2,
                b"8=FIX.4.2|9=57|35=A|34=1|49=HOST|52=20260105-14:30:00|56=C3|98=0|108=30|10=222|",
            ),
            Step::Sent(3, b""),
        ],
    },
    Case {
        shows: "a stamp of one byte",
        start: Start::Stamp(b"S"),
        steps: &[
            Step::Session(0, Said::Logon(b"C1")),
            Step::Sent(
                0,
                b"8=FIX.4.2|9=41|35=A|34=1|49=HOST|52=S|56=C1|98=0|108=30|10=207|",
            ),
        ],
    },
    Case {
        shows: "a stamp of 32 bytes",
        start: Start::Stamp(b"ABCDEFGHIJKLMNOPQRSTUVWXYZ012345"),
        steps: &[
            Step::Session(0, Said::Logon(b"C1")),
            Step::Sent(
                0,
                b"8=FIX.4.2|9=72|35=A|34=1|49=HOST|52=ABCDEFGHIJKLMNOPQRSTUVWXYZ012345|56=C1|98=0|108=30|10=142|",
            ),
        ],
    },
    Case {
        shows: "resend requests are answered by gap fills",
        start: Start::Usual,
        steps: &[
            Step::Session(0, Said::Logon(b"C1")),
            Step::Session(0, Said::TestReply),
            Step::Session(0, Said::TestReply),
            Step::Session(0, Said::TestReply),
            Step::Session(0, Said::TestReply),
            Step::Session(0, Said::Resend(2, 0)),
            Step::Session(0, Said::Resend(2, 3)),
            Step::Session(0, Said::Resend(6, 0)),
            Step::Session(0, Said::TestReply),
            Step::Sent(
                0,
                b"8=FIX.4.2|9=57|35=A|34=1|49=HOST|52=20260105-14:30:00|56=C1|98=0|108=30|10=220|8=FIX.4.2|9=51|35=0|34=2|49=HOST|52=20260105-14:30:00|56=C1|112=T|10=211|8=FIX.4.2|9=51|35=0|34=3|49=HOST|52=20260105-14:30:00|56=C1|112=T|10=212|8=FIX.4.2|9=51|35=0|34=4|49=HOST|52=20260105-14:30:00|56=C1|112=T|10=213|8=FIX.4.2|9=51|35=0|34=5|49=HOST|52=20260105-14:30:00|56=C1|112=T|10=214|8=FIX.4.2|9=83|35=4|34=2|43=Y|49=HOST|52=20260105-14:30:00|56=C1|122=20260105-14:30:00|36=6|123=Y|10=234|8=FIX.4.2|9=83|35=4|34=2|43=Y|49=HOST|52=20260105-14:30:00|56=C1|122=20260105-14:30:00|36=4|123=Y|10=232|8=FIX.4.2|9=51|35=0|34=6|49=HOST|52=20260105-14:30:00|56=C1|112=T|10=215|",
            ),
        ],
    },
];

#[test]
fn admin_messages(rt: HostRuntime) {
    expect_cases(&rt, rt.alloc(), &CASES);
}
