//! The head of a page: what it shows, and what its lines and marks mean.
use draw_course::{SvgText, corner, put_diamond, radius, round_below};
use std::alloc::Allocator;

/// How far from the top the first panel's heading may begin.
pub const HEAD: i64 = 132;

/// The keys of lines and marks, a row that stands 86 from the top.
const KEYS: &str = "\
<path class=\"buy key\" d=\"M100 81h30\"/><text x=\"137\" y=\"86\">best buy</text>
<path class=\"sell key\" d=\"M220 81h30\"/><text x=\"257\" y=\"86\">best sell</text>
<g class=\"direct\"><circle class=\"size\" cx=\"350\" cy=\"81\" r=\"6\"/></g><text x=\"363\" y=\"86\">direct trade</text>
<g class=\"implied\"><path class=\"size\" d=\"M470 73l8 8-8 8-8-8z\"/></g><text x=\"485\" y=\"86\">implied trade, a mark in each of its three instruments</text>
";

/// What the row of sizes begins with, 112 from the top.
const AREA: &str = "<text x=\"100\" y=\"112\">area: lots at one point</text>\n";

/// What a page shows in all.
#[derive(Clone, Copy)]
pub struct Totals {
    pub entries: u64,
    pub months: u64,
    pub spreads: u64,
    /// The most lots of a point.
    pub most: u64,
}

/// How many entries there were, and how many months and spreads traded.
fn put_totals<A: Allocator>(out: &mut SvgText<A>, totals: &Totals) {
    out.count(totals.entries);
    out.put(if totals.entries == 1 {
        " entry; "
    } else {
        " entries; "
    });
    out.count(totals.months);
    out.put(if totals.months == 1 {
        " month and "
    } else {
        " months and "
    });
    out.count(totals.spreads);
    out.put(if totals.spreads == 1 {
        " spread traded."
    } else {
        " spreads traded."
    });
}

/// What a reader who sees no picture is told.
pub fn put_about<A: Allocator>(out: &mut SvgText<A>, totals: &Totals) {
    out.put("<title id=\"title\">A day's prices over the places of its journal</title>\n");
    out.put("<desc id=\"desc\">");
    put_totals(out, totals);
    out.put(
        " Best buy and best sell price of each as steps, trades as marks: circles direct, diamonds implied.</desc>\n",
    );
}

/// One size: both its marks, and the lots that they stand for.
fn put_size<A: Allocator>(out: &mut SvgText<A>, x: i64, lots: u64, most: u64) {
    let radius = radius(lots, most);
    let (units, tenths) = (radius / 10, radius % 10);
    let far = corner(radius);
    let across = x.saturating_add(26);
    write!(
        out,
        "<g class=\"direct\"><circle class=\"size\" cx=\"{x}\" cy=\"107\" r=\"{units}.{tenths}\"/></g>"
    );
    write!(
        out,
        "<g class=\"implied\" transform=\"translate({across} 107) scale(.1)\"><path d=\"M0-{far}"
    );
    put_diamond(out, far);
    out.put("\"/></g>");
    let text = x.saturating_add(43);
    write!(out, "<text x=\"{text}\" y=\"112\">");
    out.count(lots);
    out.put("</text>\n");
}

/// What the sizes of marks mean.
fn put_sizes<A: Allocator>(out: &mut SvgText<A>, most: u64) {
    let large = round_below(most);
    let middle = round_below(large / 4);
    let small = round_below(large / 20);
    out.put(AREA);
    put_size(out, 260, large, most);
    if middle < large {
        put_size(out, 390, middle, most);
    }
    if small < middle {
        put_size(out, 520, small, most);
    }
}

/// The head of the page.
pub fn put_head<A: Allocator>(out: &mut SvgText<A>, totals: &Totals) {
    out.put("<text class=\"title\" x=\"100\" y=\"36\">Price over place in the journal</text>\n");
    out.put("<text class=\"note\" x=\"100\" y=\"58\">");
    put_totals(out, totals);
    out.put("</text>\n");
    if totals.most == 0 {
        out.put("<text x=\"100\" y=\"100\">Nothing was traded.</text>\n");
        return;
    }
    out.put("<g id=\"legend\">\n");
    out.put(KEYS);
    put_sizes(out, totals.most);
    out.put("</g>\n");
}
