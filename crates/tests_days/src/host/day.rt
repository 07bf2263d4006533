//! A day's text, and what goes into it.
ghost use Rattle.std.specs.Prelude.{◌<◌, ◌≤◌, All, length};
ghost use Rattle.fix_wire_frames.specs.Frames.{IsFrameRow};
ghost use Rattle.text_day.specs.DayText.{AreShown};
ghost use Rattle.text_messages.specs.Messages.{texts_of};

use super::read_again;
use crate::expect::holds;
use crate::rules::three_months;
use spread_host::{HostFault, day_of, write_day, write_fills};
use spread_rules::{Fill, Rulebook, TestSink};
use std::alloc::Global;
use std::process::Abort;
use tests_shared::{FIRST_TRADE_JOURNAL, FIRST_TRADE_TEXT, Refusing, stamp};
use text_day::{Day, write_behind_journal, write_journal_lines};
use text_messages::write_sessions;

/// A journal, and what is written of its day.
struct Written {
    journal: &'static [u8],
    /// The journal alone.
    alone: &'static [u8],
    /// The journal, the fills, what each session is sent, and the months, in that order.
    whole: &'static [u8],
    /// The lines of what each session is sent.
    sent: &'static [u8],
    /// The lines of the fills and of the months.
    fills: &'static [u8],
}

/// The Logons of sessions 0 and 12.
const TWO_LOGONS: &[u8] =
    b"JOURNAL 1\n0 logon 4331 484f5354 30\n12 logon 4332 484f5354 30\nEND 2\n";

/// Their day.
const TWO_ANSWERS: &[u8] =
    b"JOURNAL 2\n0 logon 4331 484f5354 30\n12 logon 4332 484f5354 30\nEND 2\nO 0:8=FIX.4.2|9=57|35=A|34=1|49=HOST|52=20260105-14:30:00|56=C1|98=0|108=30|10=220|\nO 12:8=FIX.4.2|9=57|35=A|34=1|49=HOST|52=20260105-14:30:00|56=C2|98=0|108=30|10=221|\nM H6 0 0 0 0\nM M6 0 0 0 0\nM U6 0 0 0 0\n";

static DAYS: [Written; 2] = [
    Written {
        journal: FIRST_TRADE_JOURNAL,
        alone: FIRST_TRADE_JOURNAL,
        whole: FIRST_TRADE_TEXT,
        sent: b"O 0:8=FIX.4.2|9=57|35=A|34=1|49=HOST|52=20260105-14:30:00|56=C1|98=0|108=30|10=220|\nO 0:8=FIX.4.2|9=109|35=8|34=2|49=HOST|52=20260105-14:30:00|56=C1|37=2|11=a|17=2-1|20=0|150=0|39=0|55=H6|54=2|38=5|151=5|14=0|6=0|10=006|\nO 0:8=FIX.4.2|9=109|35=8|34=3|49=HOST|52=20260105-14:30:00|56=C1|37=3|11=b|17=3-1|20=0|150=0|39=0|55=H6|54=1|38=5|151=5|14=0|6=0|10=009|\nO 0:8=FIX.4.2|9=130|35=8|34=4|49=HOST|52=20260105-14:30:00|56=C1|37=3|11=b|17=3-2|20=0|150=2|39=2|55=H6|54=1|38=5|32=5|31=100.00|151=0|14=5|6=0|442=1|10=171|\nO 0:8=FIX.4.2|9=130|35=8|34=5|49=HOST|52=20260105-14:30:00|56=C1|37=2|11=a|17=3-3|20=0|150=2|39=2|55=H6|54=2|38=5|32=5|31=100.00|151=0|14=5|6=0|442=1|10=172|\nO 0:8=FIX.4.2|9=45|35=5|34=6|49=HOST|52=20260105-14:30:00|56=C1|10=185|\n",
        fills: b"F 3 3 0 H6 1 5 10000\nF 3 2 0 H6 2 5 10000\nM H6 5 5 50000 50000\nM M6 0 0 0 0\nM U6 0 0 0 0\n",
    },
    Written {
        journal: TWO_LOGONS,
        alone: b"JOURNAL 2\n0 logon 4331 484f5354 30\n12 logon 4332 484f5354 30\nEND 2\n",
        whole: TWO_ANSWERS,
        sent: b"O 0:8=FIX.4.2|9=57|35=A|34=1|49=HOST|52=20260105-14:30:00|56=C1|98=0|108=30|10=220|\nO 12:8=FIX.4.2|9=57|35=A|34=1|49=HOST|52=20260105-14:30:00|56=C2|98=0|108=30|10=221|\n",
        fills: b"M H6 0 0 0 0\nM M6 0 0 0 0\nM U6 0 0 0 0\n",
    },
];

/// What is written of the day.
fn expect_text(
    rt: &impl Abort,
    alloc: Global,
    rules: &Rulebook,
    day: &Day<Global>,
    journal_only: bool,
    want: &[u8],
)
    requires lists { length day.now.out.items ≤ 16 }
    requires rows { All IsFrameRow (texts_of day.now.out.items) }
    requires shown { AreShown rules.now day.now.fills.items }
{
    let mut sink = TestSink::new(alloc, 4096, 0).expect(rt, "memory");
    write_day(alloc, rules, day, journal_only, &mut sink).expect(rt, "a sink that works");
    holds(rt, sink.bytes() == want);
}

/// The lines of what each session is sent, written in pieces of so many bytes.
fn expect_sent(rt: &impl Abort, alloc: Global, day: &Day<Global>, room: usize, want: &[u8])
    requires lists { length day.now.out.items ≤ 16 }
    requires rows { All IsFrameRow (texts_of day.now.out.items) }
    requires some { 0 < room }
{
    let mut sink = TestSink::new(alloc, 300_000, 0).expect(rt, "memory");
    let mut piece = Vec::with_capacity(alloc, room).expect(rt, "memory");
    write_sessions(&mut piece, &mut sink, &day.out).expect(rt, "a sink that works");
    holds(rt, sink.bytes() == want);
}

/// The journal, and then what stands behind it, by way of a small piece.
fn expect_parts(rt: &impl Abort, alloc: Global, rules: &Rulebook, day: &Day<Global>, want: &Written)
    requires lists { length day.now.out.items ≤ 16 }
    requires rows { All IsFrameRow (texts_of day.now.out.items) }
    requires shown { AreShown rules.now day.now.fills.items }
{
    let mut sink = TestSink::new(alloc, 4096, 0).expect(rt, "memory");
    let mut piece = Vec::with_capacity(alloc, 512).expect(rt, "memory");
    write_journal_lines(&mut piece, &mut sink, &day.journal).expect(rt, "a sink that works");
    holds(rt, sink.bytes() == want.alone);
    let fills = day.fills.to_vec(alloc).expect(rt, "memory");
    let behind = write_behind_journal(&mut piece, &mut sink, rules, fills, &day.out);
    holds(rt, behind.is_ok());
    holds(rt, sink.bytes() == want.whole);
}

/// The lines of these fills and of the months. Nothing is written where the first request for memory is refused, and a
/// front of them where the sink has less room.
fn expect_fills(rt: &impl Abort, alloc: Global, rules: &Rulebook, fills: &[Fill], want: &[u8])
    requires { AreShown rules.now fills.now }
{
    let mut sink = TestSink::new(alloc, 4096, 0).expect(rt, "memory");
    let heap = Refusing::new(alloc, 1);
    let refused = write_fills(&heap, rules, fills, &mut sink);
    holds(rt, refused == Err(HostFault::NoMemory(0)));
    holds(rt, sink.bytes().is_empty());
    write_fills(alloc, rules, fills, &mut sink).expect(rt, "a sink that works");
    holds(rt, sink.bytes() == want);
    let mut small = TestSink::new(alloc, 30, 0).expect(rt, "memory");
    let failed = write_fills(alloc, rules, fills, &mut small);
    holds(rt, failed == Err(HostFault::Write));
    holds(
        rt,
        small.bytes().len() == 30 && want.starts_with(small.bytes()),
    );
}

/// All that is written of the day. The lines are the same in pieces of any size.
fn expect_written(
    rt: &impl Abort,
    alloc: Global,
    rules: &Rulebook,
    day: &Day<Global>,
    want: &Written,
)
    requires lists { length day.now.out.items ≤ 16 }
    requires rows { All IsFrameRow (texts_of day.now.out.items) }
    requires shown { AreShown rules.now day.now.fills.items }
{
    expect_text(rt, alloc, rules, day, true, want.alone);
    expect_text(rt, alloc, rules, day, false, want.whole);
    expect_parts(rt, alloc, rules, day, want);
    expect_fills(rt, alloc, rules, &day.fills, want.fills);
    expect_sent(rt, alloc, day, 4096, want.sent);
    expect_sent(rt, alloc, day, 100, want.sent);
    expect_sent(rt, alloc, day, 1, want.sent);
}

/// The day of the journal is written so.
fn expect_day(rt: &impl Abort, alloc: Global, rules: &Rulebook, want: &Written) {
    let journal = read_again(rt, alloc, want.journal);
    let day = day_of(alloc, rules, stamp(), journal).expect(rt, "a day");
    expect_written(rt, alloc, rules, &day, want);
}

#[test]
fn days_written(rt: HostRuntime) {
    let rules = three_months(&rt);
    for want in &DAYS {
        expect_day(&rt, rt.alloc(), &rules, want);
    }
}
