//! The marks and lines of a picture, as they are written.
use super::courses::short_course;
use crate::expect::holds;
use draw_course::{
    ChartPoint, Kind, SvgText, Trade, column_of, corner, points_of, put_diamond, put_marks,
    put_steps, scale_of,
};
use std::alloc::Global;
use std::process::Abort;

/// The text is this.
fn expect_text(rt: &impl Abort, out: SvgText<Global>, want: &str) {
    let text = out.finish().expect(rt, "memory");
    holds(rt, text.as_str() == want);
}

/// A text as it is, and one with a number in it.
#[test]
fn texts_one_behind_the_other(rt: HostRuntime) {
    let mut out = SvgText::new(rt.alloc());
    out.put("a");
    let five = 5;
    write!(out, " {five}");
    expect_text(&rt, out, "a 5");
}

/// A diamond from its top. Its corners are a quarter farther from its middle than the edge of a circle of its area.
#[test]
fn diamonds(rt: HostRuntime) {
    let mut out = SvgText::new(rt.alloc());
    put_diamond(&mut out, 10);
    expect_text(&rt, out, "l10 10-10 10-10-10z");
    holds(&rt, corner(100) == 125);
}

/// The point of five lots that traded at 100.00, as the scale of the short course has it.
fn five_lots(rt: &impl Abort, alloc: Global, kind: Kind) -> Vec<ChartPoint> {
    let course = short_course(alloc).expect(rt, "memory");
    let scale = scale_of(&course, 4, 1, 1_000).expect(rt, "a trade");
    let trade = Trade {
        column: column_of(2, 4),
        price: 10_000,
        kind,
        lots: 5,
    };
    points_of(alloc, &[trade], &scale, 100).expect(rt, "memory")
}

/// The greatest circle has 95 for its radius, and a diamond of its area 119 to its corners. Marks of another kind are left
/// out.
#[test]
fn marks_of_trades(rt: HostRuntime) {
    let direct = five_lots(&rt, rt.alloc(), Kind::Direct);
    let implied = five_lots(&rt, rt.alloc(), Kind::Implied);
    let mut out = SvgText::new(rt.alloc());
    put_marks(&mut out, &direct, Kind::Direct, 5);
    put_marks(&mut out, &direct, Kind::Implied, 5);
    put_marks(&mut out, &implied, Kind::Implied, 5);
    expect_text(
        &rt,
        out,
        "<g class=\"direct\"><circle cx=\"2222\" cy=\"500\" r=\"95\"/></g>\n\
        <g class=\"implied\"></g>\n\
        <g class=\"implied\"><path d=\"M2222 381l119 119-119 119-119-119z\"/></g>\n",
    );
}

/// The best bid rests from the first column on, to the panel's other edge.
#[test]
fn a_line_of_best_prices(rt: HostRuntime) {
    let course = short_course(rt.alloc()).expect(&rt, "memory");
    let scale = scale_of(&course, 4, 1, 1_000).expect(&rt, "a trade");
    let mut out = SvgText::new(rt.alloc());
    put_steps(&mut out, &course.buy, &scale);
    expect_text(&rt, out, "M125 875h8390");
}
