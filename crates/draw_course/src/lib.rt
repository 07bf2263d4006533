//! What a picture shows of a day in one instrument: the course of its best prices and its trades, the scale of its
//! panel, the points at which it traded; and the text of an SVG file, with what is drawn of a course in it.
#![tactic(auto)]

mod course;
mod marks;
mod points;
mod scale;
mod steps;
mod svg_text;

pub use course::{Course, Kind, Span, Stretch, Trade, column_of, widened};
pub use marks::{corner, put_diamond, put_marks, radius};
pub use points::{ChartPoint, most_lots, points_of};
pub use scale::{EDGE, Scale, WIDTH, first_multiple, length_of, round_below, scale_of, step};
pub use steps::put_steps;
pub use svg_text::{SvgText, put_bytes};
