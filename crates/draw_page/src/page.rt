//! The page: its head, a panel for each month that traded, and below them one for each spread.
use crate::legend::{HEAD, Totals, put_about, put_head};
use crate::panel::{Panel, Room, panel_of};
use crate::style::STYLE;
use draw_course::{Course, SvgText, most_lots};
use spread_rules::{Instrument, Rulebook};
use std::alloc::{AllocError, Allocator};

/// How wide a page is, in units.
const PAGE_WIDTH: i64 = 984;
/// How many columns all panels of a page have together at most.
const PAGE_COLUMNS: u64 = 24_000;
/// How many columns a panel has at most.
const PANEL_COLUMNS: u64 = 1_000;
/// How many points all panels of a page have together at most.
const PAGE_POINTS: u64 = 12_000;
/// How many points each panel may have, however many there are.
const LEAST_POINTS: u64 = 20;

fn is_spread(instrument: Instrument) -> bool {
    matches!(instrument, Instrument::Spread(_, _))
}

/// How many months, or how many spreads, traded.
fn traded<A: Allocator>(courses: &[Course<A>], spreads: bool) -> u64 {
    let mut count = 0u64;
    for course in courses {
        if is_spread(course.instrument) == spreads && !course.trades.is_empty() {
            count = count.saturating_add(1);
        }
    }
    count
}

/// How high panels are of which there are so many.
fn height_of(count: u64) -> i64 {
    match count {
        0..=4 => 190,
        5..=12 => 150,
        13..=30 => 116,
        _ => 88,
    }
}

/// How much room each of so many panels of a kind has, where there are so many in all.
fn room_of(count: u64, all: u64) -> Room {
    let columns = all.saturating_mul(PANEL_COLUMNS);
    Room {
        height: height_of(count),
        columns: columns.div_ceil(PAGE_COLUMNS),
        points: (PAGE_POINTS / all.max(1)).max(LEAST_POINTS),
    }
}

/// The panels of the instruments that traded, where each month's has one room and each spread's another.
fn panels_of<A: Allocator + Copy>(
    alloc: A,
    rulebook: &Rulebook,
    courses: &[Course<A>],
    entries: u64,
    rooms: [Room; 2],
) -> Result<Vec<Panel<A>, A>, AllocError> {
    let [months, spreads] = rooms;
    let mut panels = Vec::new(alloc);
    for course in courses {
        let room = if is_spread(course.instrument) {
            spreads
        } else {
            months
        };
        if let Some(panel) = panel_of(alloc, rulebook, course, entries, room)? {
            panels.push(panel)?;
        }
    }
    Ok(panels)
}

/// The most lots of a point of any panel.
fn most_of<A: Allocator>(panels: &[Panel<A>]) -> u64 {
    let mut most = 0;
    for panel in panels {
        most = most_lots(&panel.points).max(most);
    }
    most
}

/// How high the page is.
fn height<A: Allocator>(panels: &[Panel<A>]) -> i64 {
    let mut height = HEAD;
    for panel in panels {
        height = height.saturating_add(panel.height());
    }
    height
}

/// Panels one below the other.
fn put_panels<A: Allocator>(
    out: &mut SvgText<A>,
    rulebook: &Rulebook,
    panels: &[Panel<A>],
    most: u64,
) {
    let mut top = HEAD;
    for panel in panels {
        panel.put(out, rulebook, top, most);
        top = top.saturating_add(panel.height());
    }
}

/// What opens the file, and the head of the page.
fn put_opening<A: Allocator>(out: &mut SvgText<A>, totals: &Totals, height: i64) {
    write!(
        out,
        "<svg xmlns=\"http://www.w3.org/2000/svg\" viewBox=\"0 0 {PAGE_WIDTH} {height}\" role=\"img\" aria-labelledby=\"title desc\">\n"
    );
    put_about(out, totals);
    out.put(STYLE);
    write!(
        out,
        "<rect class=\"page\" width=\"{PAGE_WIDTH}\" height=\"{height}\"/>\n"
    );
    put_head(out, totals);
}

/// The file of a day: the days of a rulebook's instruments, months first, over so many entries.
pub fn page_of<A: Allocator + Copy>(
    alloc: A,
    rulebook: &Rulebook,
    courses: &[Course<A>],
    entries: u64,
) -> Result<String<A>, AllocError> {
    let months = traded(courses, false);
    let spreads = traded(courses, true);
    let all = months.saturating_add(spreads);
    let rooms = [room_of(months, all), room_of(spreads, all)];
    let panels = panels_of(alloc, rulebook, courses, entries, rooms)?;
    let totals = Totals {
        entries,
        months,
        spreads,
        most: most_of(&panels),
    };
    let mut out = SvgText::new(alloc);
    put_opening(&mut out, &totals, height(&panels));
    put_panels(&mut out, rulebook, &panels, totals.most);
    out.put("</svg>\n");
    out.finish()
}
