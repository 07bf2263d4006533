//! Where places and prices stand in a panel. Inside a panel all is in tenths of a unit of the page.
use crate::course::{Course, Span, Stretch, columns_of, joined};
use std::alloc::Allocator;

/// How wide a panel is inside, in tenths.
pub const WIDTH: i64 = 8_640;
/// How far from a panel's edges its first place and its least price stand, in tenths.
pub const EDGE: i64 = 125;
/// How many ticks the prices of a panel lie apart at least.
const LEAST_TICKS: i64 = 4;
/// How many ticks a panel reaches beyond its trades, where it has best prices there.
const REACH_TICKS: i64 = 30;

/// Steps from one mark of an axis to the next.
const STEPS: [i64; 30] = [
    1,
    2,
    5,
    10,
    20,
    50,
    100,
    200,
    500,
    1_000,
    2_000,
    5_000,
    10_000,
    20_000,
    50_000,
    100_000,
    200_000,
    500_000,
    1_000_000,
    2_000_000,
    5_000_000,
    10_000_000,
    20_000_000,
    50_000_000,
    100_000_000,
    200_000_000,
    500_000_000,
    1_000_000_000,
    2_000_000_000,
    5_000_000_000,
];

/// The places and the prices of a panel, and its height.
#[derive(Clone, Copy)]
pub struct Scale {
    pub entries: u64,
    /// The prices that are drawn, in hundredths.
    pub prices: Span,
    /// In hundredths.
    pub tick: i64,
    /// In tenths.
    pub height: i64,
}

/// `of × many / whole`: what `of` is of `whole`, in units of which `many` are the whole. A `whole` of 0 counts as 1.
fn scaled(of: i64, many: i64, whole: i64) -> i64 {
    of.saturating_mul(many) / whole.max(1)
}

/// A count as a length: none is longer than the greatest.
pub fn length_of(count: u64) -> i64 {
    i64::try_from(count).unwrap_or(i64::MAX)
}

impl Scale {
    /// Where a column begins.
    pub fn x(&self, column: u64) -> i64 {
        let columns = length_of(columns_of(self.entries));
        let inner = WIDTH - 2 * EDGE;
        EDGE.saturating_add(scaled(length_of(column), inner, columns))
    }

    /// Where a place begins, counted from 1.
    pub fn x_of_place(&self, place: u64) -> i64 {
        let inner = WIDTH - 2 * EDGE;
        let before = length_of(place.saturating_sub(1));
        EDGE.saturating_add(scaled(before, inner, length_of(self.entries)))
    }

    /// Where a price stands, from the top; a little outside where it is not drawn.
    pub fn y(&self, price: i64) -> i64 {
        let inner = self.height.saturating_sub(2 * EDGE);
        let whole = self.prices.most.saturating_sub(self.prices.least);
        let below = self.prices.most.saturating_sub(price);
        EDGE.saturating_add(scaled(below, inner, whole))
            .clamp(-50, self.height.max(0).saturating_add(50))
    }
}

/// All prices at which the instrument traded.
fn traded<A: Allocator>(course: &Course<A>) -> Option<Span> {
    let mut span = None;
    for trade in &course.trades {
        span = joined(
            span,
            Some(Span {
                least: trade.price,
                most: trade.price,
            }),
        );
    }
    span
}

/// All best prices of an instrument and side.
fn best(stretches: &[Stretch]) -> Option<Span> {
    let mut span = None;
    for stretch in stretches {
        span = joined(span, stretch.span);
    }
    span
}

/// The prices that a panel shows: those of the trades, and the best ones as far as these lie no further from the trades
/// than the trades among themselves, or a few ticks.
fn shown(trades: Span, best: Option<Span>, tick: i64) -> Span {
    let all = best.map_or(trades, |best| trades.with(best));
    let reach = trades
        .most
        .saturating_sub(trades.least)
        .max(tick.saturating_mul(REACH_TICKS));
    let least = all.least.max(trades.least.saturating_sub(reach));
    let most = all.most.min(trades.most.saturating_add(reach));
    let lacks = tick
        .saturating_mul(LEAST_TICKS)
        .saturating_sub(most.saturating_sub(least))
        .max(0);
    Span {
        least: least.saturating_sub(lacks / 2),
        most: most.saturating_add(lacks - lacks / 2),
    }
}

/// The scale of an instrument's panel. None where the instrument did not trade.
pub fn scale_of<A: Allocator>(
    course: &Course<A>,
    entries: u64,
    tick: i64,
    height: i64,
) -> Option<Scale> {
    let trades = traded(course)?;
    let prices = shown(trades, joined(best(&course.buy), best(&course.sell)), tick);
    Some(Scale {
        entries,
        prices,
        tick,
        height,
    })
}

/// Whether a step is a multiple of a unit, and divides a length in no more than so many parts.
fn fits(step: i64, unit: i64, length: i64, most: i64) -> bool {
    step % unit.max(1) == 0 && length / step.max(1) <= most
}

/// The least step of 1, 2 or 5 times a power of ten, so many times, that fits; the greatest number where none does.
fn least_step(length: i64, most: i64, unit: i64, times: i64) -> i64 {
    for step in STEPS {
        let step = step.saturating_mul(times);
        if fits(step, unit, length, most) {
            return step;
        }
    }
    i64::MAX
}

/// The step of an axis of that length: a multiple of the unit, with no more than so many marks. It is the unit, or 1, 2 or
/// 5 times a power of ten, or so many units where that leaves too few marks.
pub fn step(length: i64, most: i64, unit: i64) -> i64 {
    if fits(unit, unit, length, most) {
        return unit;
    }
    let round = least_step(length, most, unit, 1);
    if length / round.max(1) >= 2 {
        return round;
    }
    round.min(least_step(length, most, unit, unit))
}

/// The least multiple of a step that is not below a price.
pub fn first_multiple(from: i64, step: i64) -> i64 {
    let step = step.max(1);
    let over = from.rem_euclid(step);
    if over == 0 {
        from
    } else {
        from.saturating_add(step.saturating_sub(over))
    }
}

/// The greatest step of 1, 2 or 5 times a power of ten that is not above a number of at least 1.
pub fn round_below(number: u64) -> u64 {
    let mut round = 1;
    for step in STEPS {
        if step.unsigned_abs() <= number {
            round = step.unsigned_abs();
        }
    }
    round
}
