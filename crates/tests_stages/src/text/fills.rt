//! The lines of fills and of months.
//! Rule M12 of docs/PROFILE.md.
ghost use Rattle.std.specs.Prelude.{◌≡◌};
ghost use Rattle.text_day.specs.DayText.{AreShown};

use crate::expect::holds;
use crate::rules::three_months;
use spread_rules::{Fill, Instrument, Rulebook, Side, TestSink};
use std::alloc::Global;
use std::process::Abort;
use text_day::{TextFault, text_of_fills, write_fills};
use text_fills::{MonthTotals, add_fill, month_totals, no_totals, put_fills, write_fill_lines};

/// A fill of one lot, as far as its lines show it.
fn one_lot(at: u64, order: u64, instrument: Instrument, side: Side, prices: (i64, i64, i64)) -> Fill
    ensures instrument { result.instrument ≡ instrument }
    ensures quantity { result.quantity ≡ 1 }
    ensures price { result.price ≡ prices.0 }
    ensures near { result.near ≡ prices.1 }
    ensures far { result.far ≡ prices.2 }
{
    Fill {
        at,
        order,
        instrument,
        side,
        quantity: 1,
        price: prices.0,
        near: prices.1,
        far: prices.2,
        ..Fill::default()
    }
}

/// The sums of a month in which one lot was bought and one sold at this price.
fn one_each(price: i128) -> MonthTotals {
    MonthTotals {
        bought: 1,
        sold: 1,
        paid: price,
        received: price,
    }
}

/// The room of a sink, the write at which it fails (0: none), and how many bytes are in it then.
type Room = (usize, u32, usize);

/// The text of the fills, and so much of it in a sink of this room.
fn expect_text(
    rt: &impl Abort,
    alloc: Global,
    rules: &Rulebook,
    fills: &[Fill],
    text: &[u8],
    room: &Room,
)
    requires { AreShown rules.now fills.now }
{
    let (room, fail, written) = *room;
    let mut sink = TestSink::new(alloc, room, fail).expect(rt, "memory");
    let fault = write_fills(alloc, rules, fills, &mut sink).err();
    holds(
        rt,
        fault == (written != text.len()).then_some(TextFault::Write),
    );
    holds(rt, sink.bytes().len() == written);
    holds(rt, text.starts_with(sink.bytes()));
    let whole = text_of_fills(alloc, rules, fills).expect(rt, "memory");
    holds(rt, whole.as_slice() == text);
}

/// The lines of the fills alone, put in a list and written by way of a block, and the first month's sums.
fn expect_lines(rt: &impl Abort, alloc: Global, rules: &Rulebook, fills: &[Fill], lines: &[u8])
    requires { AreShown rules.now fills.now }
{
    let mut out = Vec::new(alloc);
    put_fills(&mut out, rules, fills).expect(rt, "memory");
    holds(rt, out.as_slice() == lines);
    let mut sink = TestSink::new(alloc, 1000, 0).expect(rt, "memory");
    let mut block = Vec::with_capacity(alloc, 512).expect(rt, "memory");
    let mut sums = no_totals();
    let written = write_fill_lines(&mut block, &mut sink, rules, fills, &mut sums);
    written.expect(rt, "a sink that works");
    holds(rt, sink.bytes() == lines);
    holds(rt, sums[0] == one_each(10000));
}

#[test]
fn spread_lifts_two_months(rt: HostRuntime) {
    let fills = [
        one_lot(
            4,
            4,
            Instrument::Spread(0, 1),
            Side::Buy,
            (200, 10000, 9800),
        ),
        one_lot(
            4,
            2,
            Instrument::Outright(0),
            Side::Sell,
            (10000, 10000, 10000),
        ),
        one_lot(4, 3, Instrument::Outright(1), Side::Buy, (9800, 9800, 9800)),
    ];
    let text =
        b"F 4 4 0 H6-M6 1 1 200 10000 9800\nF 4 2 0 H6 2 1 10000\nF 4 3 0 M6 1 1 9800\nM H6 1 1 10000 10000\nM M6 1 1 9800 9800\nM U6 0 0 0 0\n";
    let totals = month_totals(&fills);
    holds(
        &rt,
        totals[0] == one_each(10000) && totals[1] == one_each(9800),
    );
    let mut sums = no_totals();
    add_fill(&mut sums, &fills[1]);
    holds(&rt, sums[0].sold == 1 && sums[0].received == 10000);
    let rules = three_months(&rt);
    let room = (1000, 0, text.len());
    expect_text(&rt, rt.alloc(), &rules, &fills, text, &room);
    let lines = b"F 4 4 0 H6-M6 1 1 200 10000 9800\nF 4 2 0 H6 2 1 10000\nF 4 3 0 M6 1 1 9800\n";
    expect_lines(&rt, rt.alloc(), &rules, &fills, lines);
}

/// Rooms for a text of 120 bytes.
static ROOMS: [Room; 3] = [(1000, 0, 120), (30, 0, 30), (1000, 1, 0)];

#[test]
fn negative_prices(rt: HostRuntime) {
    let fills = [
        one_lot(4, 4, Instrument::Outright(0), Side::Buy, (-100, -100, -100)),
        one_lot(
            4,
            2,
            Instrument::Spread(0, 1),
            Side::Sell,
            (-300, -100, 200),
        ),
        one_lot(4, 3, Instrument::Outright(1), Side::Sell, (200, 200, 200)),
    ];
    let text =
        b"F 4 4 0 H6 1 1 -100\nF 4 2 0 H6-M6 2 1 -300 -100 200\nF 4 3 0 M6 2 1 200\nM H6 1 1 -100 -100\nM M6 1 1 200 200\nM U6 0 0 0 0\n";
    let rules = three_months(&rt);
    holds(&rt, text.len() == 120);
    for room in &ROOMS {
        expect_text(&rt, rt.alloc(), &rules, &fills, text, room);
    }
}
