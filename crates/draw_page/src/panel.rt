//! The panel of one instrument: its axes, its best prices as steps, its trades as marks.
use draw_course::{
    ChartPoint, Course, Kind, Scale, Stretch, SvgText, WIDTH, first_multiple, length_of, points_of,
    put_marks, put_steps, scale_of, step, widened,
};
use spread_rules::{Instrument, Rulebook};
use std::alloc::{AllocError, Allocator};

/// Where panels begin, from the left.
const LEFT: i64 = 100;
/// The room above a panel for its heading.
const HEADING: i64 = 26;
/// The room below a panel for its places.
const FOOT: i64 = 30;
/// How many marks an axis of places has at most.
const MOST_PLACES: i64 = 10;
/// How far the marks of an axis of prices lie apart at least.
const PRICE_ROOM: i64 = 28;

/// What is drawn of one instrument.
#[derive(Drop)]
pub struct Panel<A: Allocator> {
    pub instrument: Instrument,
    scale: Scale,
    buy: Vec<Stretch, A>,
    sell: Vec<Stretch, A>,
    pub points: Vec<ChartPoint, A>,
    direct: u64,
    implied: u64,
    lots: u64,
}

/// How much room there is for a panel, in units, columns and points.
#[derive(Clone, Copy)]
pub struct Room {
    pub height: i64,
    /// How many columns are drawn as one.
    pub columns: u64,
    /// How many points it has at most.
    pub points: u64,
}

/// The panel of an instrument of the rulebook. None where the instrument did not trade.
pub fn panel_of<A: Allocator + Copy>(
    alloc: A,
    rulebook: &Rulebook,
    course: &Course<A>,
    entries: u64,
    room: Room,
) -> Result<Option<Panel<A>>, AllocError> {
    let height = room.height.saturating_mul(10);
    let Some(scale) = scale_of(course, entries, rulebook.tick(), height) else {
        return Ok(None);
    };
    Ok(Some(Panel {
        instrument: course.instrument,
        scale,
        buy: widened(alloc, &course.buy, room.columns)?,
        sell: widened(alloc, &course.sell, room.columns)?,
        points: points_of(alloc, &course.trades, &scale, room.points)?,
        direct: course.direct,
        implied: course.implied,
        lots: course.lots,
    }))
}

/// The places below a panel.
fn put_places<A: Allocator>(out: &mut SvgText<A>, scale: &Scale, foot: i64) {
    for n in 0..MOST_PLACES {
        let Some(place) = nth_place(scale, n) else {
            break;
        };
        let x = LEFT.saturating_add(scale.x_of_place(place) / 10);
        write!(out, "<text class=\"note mid\" x=\"{x}\" y=\"{foot}\">");
        out.count(place);
        out.put("</text>");
    }
    out.put("\n");
}

/// The n-th round place of a panel, from 0.
fn nth_place(scale: &Scale, n: i64) -> Option<u64> {
    let step = step(length_of(scale.entries), MOST_PLACES, 1);
    let place = step.saturating_mul(n.saturating_add(1)).unsigned_abs();
    if place <= scale.entries {
        Some(place)
    } else {
        None
    }
}

/// How many marks the prices of a panel have at most.
fn most_prices(scale: &Scale) -> i64 {
    (scale.height / 10 / PRICE_ROOM).max(1)
}

/// The n-th round price of a panel, from 0, in hundredths.
fn nth_price(scale: &Scale, n: i64) -> Option<i64> {
    let length = scale.prices.most.saturating_sub(scale.prices.least);
    let step = step(length, most_prices(scale), scale.tick);
    let first = first_multiple(scale.prices.least, step);
    let price = first.saturating_add(step.saturating_mul(n));
    if price <= scale.prices.most {
        Some(price)
    } else {
        None
    }
}

/// The prices beside a panel.
fn put_prices<A: Allocator>(out: &mut SvgText<A>, scale: &Scale, top: i64) {
    let x = LEFT - 8;
    for n in 0..most_prices(scale).saturating_add(1) {
        let Some(price) = nth_price(scale, n) else {
            break;
        };
        let y = top.saturating_add(scale.y(price) / 10).saturating_add(4);
        write!(out, "<text class=\"note end\" x=\"{x}\" y=\"{y}\">");
        out.price(price);
        out.put("</text>");
    }
    out.put("\n");
}

/// The lines of a panel's grid at its round places.
fn put_uprights<A: Allocator>(out: &mut SvgText<A>, scale: &Scale) {
    let height = scale.height;
    for n in 0..MOST_PLACES {
        let Some(place) = nth_place(scale, n) else {
            break;
        };
        let x = scale.x_of_place(place);
        write!(out, "M{x} 0v{height}");
    }
}

/// The lines of a panel's grid at its round prices.
fn put_levels<A: Allocator>(out: &mut SvgText<A>, scale: &Scale) {
    for n in 0..most_prices(scale).saturating_add(1) {
        let Some(price) = nth_price(scale, n) else {
            break;
        };
        let y = scale.y(price);
        write!(out, "M0 {y}h{WIDTH}");
    }
}

/// The steps of one side.
fn put_side<A: Allocator>(out: &mut SvgText<A>, class: &str, stretches: &[Stretch], scale: &Scale) {
    if stretches.is_empty() {
        return;
    }
    write!(out, "<path class=\"{class}\" d=\"");
    put_steps(out, stretches, scale);
    out.put("\"/>\n");
}

impl<A: Allocator> Panel<A> {
    /// Its symbol, and what was traded.
    fn put_heading(&self, out: &mut SvgText<A>, rulebook: &Rulebook, top: i64) {
        let y = top.saturating_sub(8);
        let right = LEFT + WIDTH / 10;
        write!(out, "<text class=\"symbol\" x=\"{LEFT}\" y=\"{y}\">");
        out.symbol(rulebook, self.instrument);
        write!(
            out,
            "</text><text class=\"note end\" x=\"{right}\" y=\"{y}\">"
        );
        out.count(self.direct);
        out.put(" direct, ");
        out.count(self.implied);
        out.put(" implied, ");
        out.count(self.lots);
        out.put(" lots</text>\n");
    }

    /// What stands inside its frame: its ground, and on it the grid, the best prices and the trades.
    fn put_inside(&self, out: &mut SvgText<A>, most: u64) {
        let height = self.scale.height;
        write!(
            out,
            "<rect class=\"ground\" width=\"{WIDTH}\" height=\"{height}\"/><path class=\"grid\" d=\""
        );
        put_uprights(out, &self.scale);
        put_levels(out, &self.scale);
        out.put("\"/>\n");
        put_side(out, "buy", &self.buy, &self.scale);
        put_side(out, "sell", &self.sell, &self.scale);
        put_marks(out, &self.points, Kind::Direct, most);
        put_marks(out, &self.points, Kind::Implied, most);
        write!(
            out,
            "<rect class=\"frame\" width=\"{WIDTH}\" height=\"{height}\"/></svg>\n"
        );
    }

    /// How much of the page it takes, with its heading and its places.
    pub fn height(&self) -> i64 {
        (self.scale.height / 10)
            .saturating_add(HEADING)
            .saturating_add(FOOT)
    }

    /// The whole panel, that far from the top of the page. The greatest mark stands for so many lots.
    pub fn put(&self, out: &mut SvgText<A>, rulebook: &Rulebook, top: i64, most: u64) {
        let top = top.saturating_add(HEADING);
        self.put_heading(out, rulebook, top);
        let width = WIDTH / 10;
        let inside = self.scale.height;
        let height = inside / 10;
        put_prices(out, &self.scale, top);
        let foot = top.saturating_add(height).saturating_add(17);
        put_places(out, &self.scale, foot);
        write!(
            out,
            "<svg class=\"panel\" x=\"{LEFT}\" y=\"{top}\" width=\"{width}\" height=\"{height}\" viewBox=\"0 0 {WIDTH} {inside}\">"
        );
        self.put_inside(out, most);
    }
}
