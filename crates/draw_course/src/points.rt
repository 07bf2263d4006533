//! The points at which an instrument traded.
use crate::course::{Kind, Trade};
use crate::scale::Scale;
use std::alloc::{AllocError, Allocator};

/// How many points a panel has at most.
const CROWD: u64 = 2_000;
/// How often the size of the cells whose trades are one point is doubled at most.
const DOUBLINGS: u32 = 10;
/// The least cell, in tenths: what is nearer together is not told apart.
const LEAST_CELL: i64 = 5;

/// Trades that are drawn as one: those of one kind and one cell of the panel.
#[derive(Clone, Copy, PartialEq, Eq, PartialOrd, Ord)]
pub struct ChartPoint {
    pub kind: Kind,
    /// Its cell, from the top and from the left.
    row: i64,
    column: i64,
    /// Where its first trade stands, in tenths.
    pub y: i64,
    pub x: i64,
    pub lots: u64,
}

/// The cell of a length, where each is so wide.
fn cell(length: i64, width: i64) -> i64 {
    length.max(0) / width.max(1)
}

impl ChartPoint {
    /// The point in cells of that width. A cell is lower than it is wide, since a price tells more than a place.
    fn in_cells(self, width: i64) -> ChartPoint {
        ChartPoint {
            row: cell(self.y, (width / 8).max(LEAST_CELL)),
            column: cell(self.x, width),
            ..self
        }
    }

    /// Whether two points are of one kind and cell.
    fn is_with(&self, other: &ChartPoint) -> bool {
        self.kind == other.kind && self.row == other.row && self.column == other.column
    }
}

/// The points of each cell as one, by kind, then from the top, then from the left.
fn merged<A: Allocator + Copy>(
    alloc: A,
    points: &[ChartPoint],
) -> Result<Vec<ChartPoint, A>, AllocError> {
    let mut fewer: Vec<ChartPoint, A> = Vec::new(alloc);
    for point in points {
        match fewer.last_mut() {
            Some(last) if last.is_with(point) => {
                last.lots = last.lots.saturating_add(point.lots);
            }
            _ => fewer.push(*point)?,
        }
    }
    Ok(fewer)
}

/// The points in cells of that width, each cell's as one.
fn gathered<A: Allocator + Copy>(
    alloc: A,
    mut points: Vec<ChartPoint, A>,
    width: i64,
) -> Result<Vec<ChartPoint, A>, AllocError> {
    for point in points.iter_mut() {
        *point = point.in_cells(width);
    }
    points.sort_unstable();
    merged(alloc, &points)
}

/// A point for each trade.
fn placed<A: Allocator + Copy>(
    alloc: A,
    trades: &[Trade],
    scale: &Scale,
) -> Result<Vec<ChartPoint, A>, AllocError> {
    let mut points = Vec::new(alloc);
    for trade in trades {
        points.push(ChartPoint {
            kind: trade.kind,
            row: 0,
            column: 0,
            y: scale.y(trade.price),
            x: scale.x(trade.column),
            lots: trade.lots,
        })?;
    }
    Ok(points)
}

/// The points of trades: what cannot be told apart is one, and of a crowd what lies near.
pub fn points_of<A: Allocator + Copy>(
    alloc: A,
    trades: &[Trade],
    scale: &Scale,
    most: u64,
) -> Result<Vec<ChartPoint, A>, AllocError> {
    let mut width = LEAST_CELL;
    let mut points = gathered(alloc, placed(alloc, trades, scale)?, width)?;
    for _ in 0..DOUBLINGS {
        if points.len() as u64 <= most.min(CROWD) {
            break;
        }
        width = width.saturating_mul(2);
        points = gathered(alloc, points, width)?;
    }
    Ok(points)
}

/// The most lots of a point.
pub fn most_lots(points: &[ChartPoint]) -> u64 {
    let mut most = 0;
    for point in points {
        most = point.lots.max(most);
    }
    most
}
