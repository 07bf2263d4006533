//! Entries that change no order.
use super::{Case, expect_all};
use tests_shared::THREE_MONTHS;

const JOURNAL: &[u8] =
    b"JOURNAL 2\n0 logon 4331 484f5354 30\n0 test 41\n0 gap 5\n0 resend 1 0\n0 resend 1 3\n0 reject 7 5\n0 close 1\nEND 7\n";

const CASES: &[Case] = &[
    Case {
        shows: "a Logon",
        rules: THREE_MONTHS,
        journal: JOURNAL,
        place: 1,
        words: b"entry 1, session 0: logon of 4331 to 484f5354, beat 30\noutcome: no order changes\n",
    },
    Case {
        shows: "a TestRequest",
        rules: THREE_MONTHS,
        journal: JOURNAL,
        place: 2,
        words: b"entry 2, session 0: test request 41\noutcome: no order changes\n",
    },
    Case {
        shows: "a gap",
        rules: THREE_MONTHS,
        journal: JOURNAL,
        place: 3,
        words: b"entry 3, session 0: messages missing from 5\noutcome: no order changes\n",
    },
    Case {
        shows: "a ResendRequest without an end",
        rules: THREE_MONTHS,
        journal: JOURNAL,
        place: 4,
        words: b"entry 4, session 0: resend request from 1 on\noutcome: no order changes\n",
    },
    Case {
        shows: "a ResendRequest",
        rules: THREE_MONTHS,
        journal: JOURNAL,
        place: 5,
        words: b"entry 5, session 0: resend request from 1 to 3\noutcome: no order changes\n",
    },
    Case {
        shows: "a Reject",
        rules: THREE_MONTHS,
        journal: JOURNAL,
        place: 6,
        words: b"entry 6, session 0: message 7 rejected, reason 5\noutcome: no order changes\n",
    },
    Case {
        shows: "a close",
        rules: THREE_MONTHS,
        journal: JOURNAL,
        place: 7,
        words: b"entry 7, session 0: session closed, reason 1\noutcome: no order changes\n",
    },
];

#[test]
fn session_entries(rt: HostRuntime) {
    expect_all(&rt, rt.alloc(), CASES);
}
