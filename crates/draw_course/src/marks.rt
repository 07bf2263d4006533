//! The marks of trades: circles where they are direct, diamonds where they are implied.
use crate::course::Kind;
use crate::points::ChartPoint;
use crate::scale::length_of;
use crate::svg_text::SvgText;
use std::alloc::Allocator;

/// How large a mark is at least and at most, in tenths: the distance of its edge from its middle where it is a circle.
const LEAST_RADIUS: u64 = 16;

const MOST_RADIUS: u64 = 95;

/// The distance of a mark's edge from its middle, where its area is to that of the greatest mark as its lots are to most.
pub fn radius(lots: u64, most: u64) -> u64 {
    for radius in LEAST_RADIUS..MOST_RADIUS {
        let area = radius.saturating_mul(radius).saturating_mul(most);
        if lots.saturating_mul(MOST_RADIUS * MOST_RADIUS) <= area {
            return radius;
        }
    }
    MOST_RADIUS
}

/// The distance of a diamond's corners from its middle, where its area is that of a circle.
pub fn corner(radius: u64) -> i64 {
    length_of(radius.saturating_mul(1_253) / 1_000)
}

/// The edges of a diamond from its top, where its corners are that far from its middle.
pub fn put_diamond<A: Allocator>(out: &mut SvgText<A>, far: i64) {
    write!(out, "l{far} {far}-{far} {far}-{far}-{far}z");
}

/// One mark, in the order of a panel's points.
fn put_mark<A: Allocator>(out: &mut SvgText<A>, point: &ChartPoint, most: u64) {
    let radius = radius(point.lots, most);
    let x = point.x;
    match point.kind {
        Kind::Direct => {
            let y = point.y;
            write!(out, "<circle cx=\"{x}\" cy=\"{y}\" r=\"{radius}\"/>");
        }
        Kind::Implied => {
            let far = corner(radius);
            let top = point.y.saturating_sub(far);
            write!(out, "<path d=\"M{x} {top}");
            put_diamond(out, far);
            out.put("\"/>");
        }
    }
}

/// The marks of one kind, where the greatest stands for so many lots.
pub fn put_marks<A: Allocator>(out: &mut SvgText<A>, points: &[ChartPoint], kind: Kind, most: u64) {
    let class = match kind {
        Kind::Direct => "direct",
        Kind::Implied => "implied",
    };
    write!(out, "<g class=\"{class}\">");
    for point in points {
        if point.kind == kind {
            put_mark(out, point, most);
        }
    }
    out.put("</g>\n");
}
