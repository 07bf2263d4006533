//! Courses of one instrument, their scale and their points.
use crate::expect::holds;
use draw_course::{
    Course, Kind, Span, Stretch, Trade, column_of, first_multiple, length_of, most_lots, points_of,
    round_below, scale_of, step, widened,
};
use spread_rules::Instrument;
use std::alloc::{AllocError, Global};

/// Four entries: behind the first a bid and an offer rest 20 ticks apart, the second trades 5 lots between them.
pub fn short_course(alloc: Global) -> Result<Course<Global>, AllocError> {
    let mut course = Course::new(alloc, Instrument::Outright(0));
    course.look(column_of(1, 4), Some(9_990), Some(10_010))?;
    course.note(Trade {
        column: column_of(2, 4),
        price: 10_000,
        kind: Kind::Direct,
        lots: 5,
    })?;
    Ok(course)
}

fn is_span(span: Option<Span>, least: i64, most: i64) -> bool {
    span.is_some_and(|span| span.least == least && span.most == most)
}

/// A panel is 8,640 tenths wide, of which 125 are left at each edge: 8,390 for four columns, 2,097 each.
#[test]
fn a_trade_is_a_point(rt: HostRuntime) {
    let course = short_course(rt.alloc()).expect(&rt, "memory");
    let scale = scale_of(&course, 4, 1, 1_000).expect(&rt, "a trade");
    holds(&rt, is_span(Some(scale.prices), 9_990, 10_010));
    holds(&rt, scale.x(1) == 2_222 && scale.x_of_place(2) == 2_222);
    holds(&rt, scale.y(10_010) == 125 && scale.y(10_000) == 500);
    let points = points_of(rt.alloc(), &course.trades, &scale, 100).expect(&rt, "memory");
    holds(&rt, points.len() == 1 && most_lots(&points) == 5);
    let point = points.first().expect(&rt, "a point");
    holds(
        &rt,
        point.x == 2_222 && point.y == 500 && point.kind == Kind::Direct,
    );
}

#[test]
fn columns_two_by_two(rt: HostRuntime) {
    let mut course = Course::new(rt.alloc(), Instrument::Outright(0));
    for (column, price) in [(0, Some(9_990)), (1, Some(9_980)), (2, None)] {
        course.look(column, price, None).expect(&rt, "memory");
    }
    let wider: Vec<Stretch> = widened(rt.alloc(), &course.buy, 2).expect(&rt, "memory");
    let first = wider.first().expect(&rt, "a stretch");
    let last = wider.last().expect(&rt, "a stretch");
    holds(
        &rt,
        wider.len() == 2 && first.column == 0 && last.column == 2,
    );
    holds(
        &rt,
        is_span(first.span, 9_980, 9_990) && first.last == Some(9_980),
    );
    holds(&rt, last.span.is_none() && last.last.is_none());
}

/// An axis of 20 ticks with at most ten marks has one at every second; the greatest round number below 7 is 5.
#[test]
fn marks_of_an_axis(rt: HostRuntime) {
    holds(&rt, step(20, 10, 1) == 2 && step(8, 10, 1) == 1);
    holds(
        &rt,
        first_multiple(9_991, 5) == 9_995 && first_multiple(-3, 2) == -2,
    );
    holds(
        &rt,
        round_below(7) == 5 && length_of(7) == 7 && column_of(2_000, 2_000) == 999,
    );
}
