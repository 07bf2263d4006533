//! The best prices of an instrument and side as a line of steps.
use crate::course::Stretch;
use crate::scale::{EDGE, Scale, WIDTH};
use crate::svg_text::SvgText;
use std::alloc::Allocator;

/// Where a line is. It has no height where no order rests.
#[derive(Clone, Copy)]
struct Pen {
    x: i64,
    y: Option<i64>,
}

impl Pen {
    /// On to the right, at the same height.
    fn go<A: Allocator>(&mut self, out: &mut SvgText<A>, x: i64) {
        let far = x.saturating_sub(self.x);
        if self.y.is_some() && far != 0 {
            write!(out, "h{far}");
        }
        self.x = x;
    }

    /// Up or down, or a new line where there was none.
    fn turn<A: Allocator>(&mut self, out: &mut SvgText<A>, y: i64) {
        match self.y {
            None => {
                let x = self.x;
                write!(out, "M{x} {y}");
            }
            Some(before) => {
                let far = y.saturating_sub(before);
                if far != 0 {
                    write!(out, "v{far}");
                }
            }
        }
        self.y = Some(y);
    }

    /// Through all prices of a stretch, and to its last one.
    fn pass<A: Allocator>(&mut self, out: &mut SvgText<A>, stretch: &Stretch, scale: &Scale) {
        self.go(out, scale.x(stretch.column));
        if let Some(span) = stretch.span {
            if stretch.last == Some(span.most) {
                self.turn(out, scale.y(span.least));
                self.turn(out, scale.y(span.most));
            } else {
                self.turn(out, scale.y(span.most));
                self.turn(out, scale.y(span.least));
            }
        }
        match stretch.last {
            None => self.y = None,
            Some(price) => self.turn(out, scale.y(price)),
        }
    }
}

/// The line of some stretches, from left to right, as the data of a path.
pub fn put_steps<A: Allocator>(out: &mut SvgText<A>, stretches: &[Stretch], scale: &Scale) {
    let mut pen = Pen { x: EDGE, y: None };
    for stretch in stretches {
        pen.pass(out, stretch, scale);
    }
    pen.go(out, WIDTH - EDGE);
}
