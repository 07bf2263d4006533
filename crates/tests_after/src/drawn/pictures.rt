//! Pictures of small days, their parts counted and placed by hand.
use crate::expect::holds;
use crate::rules::three_months;
use draw_course::put_bytes;
use draw_day::draw;
use spread_rules::TestSink;
use std::alloc::Global;
use std::process::Abort;
use tests_shared::FIRST_TRADE_JOURNAL;

/// Orders to sell H6, H6-M6 and M6, and one to buy H6 that trades two lots with the first and three with the others.
pub const DIRECT_BEFORE_IMPLIED: &[u8] =
    b"JOURNAL 1\n0 logon 4331 484f5354 30\n0 new 61 4836 2 2 10000 day\n0 new 62 48362d4d36 2 3 200 day\n0 new 63 4d36 2 4 9800 day\n0 new 64 4836 1 6 10000 day\nEND 5\n";

/// The picture of a journal under the rulebook of three months.
pub fn drawn(rt: &impl Abort, alloc: Global, journal: &[u8]) -> TestSink {
    let rules = three_months(rt);
    let mut sink = TestSink::new(alloc, 100_000, 0).expect(rt, "memory");
    draw(alloc, &rules, journal, &mut sink).expect(rt, "a picture");
    sink
}

/// How often a part stands in a picture.
pub fn count_of(picture: &[u8], part: &[u8]) -> u64 {
    let mut found = 0u64;
    for at in 0..picture.len() {
        if picture[at..].starts_with(part) {
            found = found.wrapping_add(1);
        }
    }
    found
}

/// A part of a picture, and how often it stands there.
type Part = (&'static [u8], u64);

/// A journal, and how often parts stand in its picture.
struct Picture {
    journal: &'static [u8],
    parts: &'static [Part],
}

fn expect_parts(rt: &impl Abort, picture: &[u8], parts: &[Part]) {
    for (part, times) in parts {
        holds(rt, count_of(picture, part) == *times);
    }
}

fn expect_picture(rt: &impl Abort, alloc: Global, picture: &Picture) {
    let sink = drawn(rt, alloc, picture.journal);
    expect_parts(rt, sink.bytes(), picture.parts);
}

fn expect_pictures(rt: &impl Abort, alloc: Global, pictures: &[Picture]) {
    for picture in pictures {
        expect_picture(rt, alloc, picture);
    }
}

/// Two months and a spread traded. Five places share 8,390 tenths from 125 on, so the places 2, 3, 4 and 5 begin at
/// 1,803, 3,481, 5,159 and 6,837, and the day ends at 8,515. Each panel shows one price, and two ticks on either side of
/// it, in a height of 1,900 less 125 at each edge: it stands at 950. The greatest mark, of three lots, has the radius 95
/// and so corners at 119, and that of two lots the least radius whose square is two thirds of it, 78. The legend has the
/// sizes of 2 lots and of none below.
static TRADED: &[Picture] = &[Picture {
    journal: DIRECT_BEFORE_IMPLIED,
    parts: &[
        (b"<svg class=\"panel\"", 3),
        (b">H6</text>", 1),
        (b">M6</text>", 1),
        (b">H6-M6</text>", 1),
        (b">U6</text>", 0),
        (b">H6-U6</text>", 0),
        (b">1 direct, 1 implied, 5 lots</text>", 1),
        (b">0 direct, 1 implied, 3 lots</text>", 2),
        (b">5 entries; 2 months and 1 spread traded.</text>", 1),
        // The marks of trades.
        (b"<circle cx=", 1),
        (b"<circle cx=\"6837\" cy=\"950\" r=\"78\"/>", 1),
        (b"<path d=\"M6837 831l119 119-119 119-119-119z\"/>", 3),
        // The steps of best prices.
        (b"<path class=\"buy\" ", 1),
        (b"<path class=\"sell\" ", 3),
        (b"<path class=\"buy\" d=\"M6837 950h1678\"/>", 1),
        (b"<path class=\"sell\" d=\"M1803 950h5034\"/>", 1),
        (b"<path class=\"sell\" d=\"M3481 950h3356\"/>", 1),
        (b"<path class=\"sell\" d=\"M5159 950h3356\"/>", 1),
        // Axes: prices, and the places 1 to 5 below each panel.
        (b">99.98</text>", 1),
        (b">100.00</text>", 1),
        (b">100.02</text>", 1),
        (b">100.03</text>", 0),
        (b">97.98</text>", 1),
        (b">98.02</text>", 1),
        (b">1.98</text>", 1),
        (b">2.02</text>", 1),
        (b">5</text>", 3),
        // The legend, and the file.
        (b">best buy</text>", 1),
        (b">best sell</text>", 1),
        (b">direct trade</text>", 1),
        (b"<title id=\"title\">", 1),
        (b"<desc id=\"desc\">", 1),
        (b"@media (prefers-color-scheme:dark){", 1),
        (b"</svg>\n", 4),
    ],
}];

/// Orders to sell at 100.02, 100.00 and 100.04, of which the second is cancelled, and one to buy that takes the first.
/// Six places of 1,398 tenths; a tick has 412 of them, from 100.04 at 125 down, and the last price stands at 1,775.
const UP_AND_DOWN: &[u8] =
    b"JOURNAL 1\n0 logon 4331 484f5354 30\n0 new 61 4836 2 2 10002 day\n0 new 62 4836 2 3 10000 day\n0 new 63 4836 2 4 10004 day\n0 cancel 64 62\n0 new 65 4836 1 2 10002 day\nEND 6\n";

static ONE_MONTH: &[Picture] = &[
    Picture {
        journal: UP_AND_DOWN,
        parts: &[
            (
                b"<path class=\"sell\" d=\"M1523 950h1398v825h2797v-825h1398v-825h1399\"/>",
                1,
            ),
            (b"<path class=\"buy\" ", 0),
            (b"<circle cx=\"7116\" cy=\"950\" r=\"95\"/>", 1),
        ],
    },
    Picture {
        journal: FIRST_TRADE_JOURNAL,
        parts: &[
            (b"<svg class=\"panel\"", 1),
            (b"<circle cx=", 1),
            (b">1 direct, 0 implied, 5 lots</text>", 1),
        ],
    },
];

#[test]
fn panels_of_what_traded(rt: HostRuntime) {
    expect_pictures(&rt, rt.alloc(), TRADED);
}

#[test]
fn days_of_one_month(rt: HostRuntime) {
    expect_pictures(&rt, rt.alloc(), ONE_MONTH);
}

const NO_ENTRIES: &[u8] = b">0 entries; 0 months and 0 spreads traded.</text>";

const ONE_ENTRY: &[u8] = b">1 entry; 0 months and 0 spreads traded.</text>";

const TWO_ENTRIES: &[u8] = b">2 entries; 0 months and 0 spreads traded.</text>";

/// Journals, and what the pictures say that they have.
const WITHOUT_TRADES: &[(&[u8], &[u8])] = &[
    (b"JOURNAL 2\nEND 0\n", NO_ENTRIES),
    (b"JOURNAL 2\n0 close 1\nEND 1\n", ONE_ENTRY),
    (
        b"JOURNAL 2\n0 logon 4331 484f5354 30\n0 new 61 4836 2 5 10000 day\nEND 2\n",
        TWO_ENTRIES,
    ),
    // A symbol that names no instrument: <&>" and byte 2.
    (
        b"JOURNAL 2\n0 logon 4331 484f5354 30\n0 new 61 3c263e2202 2 5 10000 day\nEND 2\n",
        TWO_ENTRIES,
    ),
];

const NO_TRADE: &[Part] = &[
    (b">Nothing was traded.</text>", 1),
    (b"<svg ", 1),
    (b"<circle ", 0),
];

#[test]
fn days_without_trades(rt: HostRuntime) {
    for (journal, totals) in WITHOUT_TRADES {
        let sink = drawn(&rt, rt.alloc(), journal);
        holds(&rt, count_of(sink.bytes(), totals) == 1);
        expect_parts(&rt, sink.bytes(), NO_TRADE);
    }
}

#[test]
fn bytes_as_text(rt: HostRuntime) {
    let mut text = String::new(rt.alloc());
    put_bytes(&mut text, b"<H6&\"M6\">\x02~ ").expect(&rt, "memory");
    holds(
        &rt,
        text.as_bytes() == b"&lt;H6&amp;&quot;M6&quot;&gt;&#xfffd;~ ".as_slice(),
    );
}
