//! The entries of a journal applied, and what each instrument's day was.
ghost use Rattle.std.specs.Prelude.{◌<◌, ◌+◌, [], All, OnOk, length, take};
ghost use Rattle.spread_rules.specs.Journal.{FitsEntry};
ghost use Rattle.apply_market.specs.Application.{HasApplied};

use apply_market::MatchedJournal;
use draw_course::{Course, Kind, Trade, column_of};
use spread_books::{Book, IndexBook};
use spread_rules::{Entry, Event, Fill, Instrument, Outcome, Rulebook, Side};
use std::alloc::{AllocError, Allocator};

/// The days of all instruments of a rulebook: its months, then a row of spreads for each near month.
#[derive(Drop)]
pub struct Watch<'r, A: Allocator> {
    rulebook: &'r Rulebook,
    /// How many entries the journal has.
    entries: u64,
    courses: Vec<Course<A>, A>,
}

/// The instrument at that number: so many months, then a row of spreads for each near month. A pair whose far month is
/// not the later one is no instrument, and its course stays empty.
fn numbered(number: u16, months: u8) -> Instrument {
    let width = u16::from(months.max(1));
    let near = u8::try_from(number / width).unwrap_or(u8::MAX);
    let month = (number % width) as u8;
    match near.checked_sub(1) {
        None => Instrument::Outright(month),
        Some(near) => Instrument::Spread(near, month),
    }
}

/// The number of an instrument.
fn number_of(instrument: Instrument, months: u8) -> usize {
    match instrument {
        Instrument::Outright(month) => usize::from(month),
        Instrument::Spread(near, far) => {
            (usize::from(near) + 1) * usize::from(months) + usize::from(far)
        }
    }
}

fn new_courses<A: Allocator + Copy>(alloc: A, months: u8) -> Result<Vec<Course<A>, A>, AllocError> {
    let mut courses = Vec::new(alloc);
    let width = u16::from(months);
    for number in 0..width.saturating_mul(width.saturating_add(1)) {
        courses.push(Course::new(alloc, numbered(number, months)))?;
    }
    Ok(courses)
}

/// The best price of the resting orders of that instrument and side, in hundredths.
fn best_price<A: Allocator + Copy>(
    book: &IndexBook<'_, A>,
    instrument: Instrument,
    side: Side,
) -> Option<i64> {
    book.front_level(instrument, side).map(|level| level.price)
}

/// The instrument of the order that the entry brings or takes away.
fn instrument_of(rulebook: &Rulebook, entry: &Entry, outcome: &Outcome) -> Option<Instrument> {
    match (outcome, entry.event) {
        (Outcome::Cancelled(order), _) => Some(order.instrument),
        (_, Event::New(ticket)) | (_, Event::Replace { ticket, .. }) => {
            rulebook.find(ticket.symbol.bytes())
        }
        _ => None,
    }
}

/// Whether a fill is the new order's own, with which each turn begins.
fn is_own(fill: &Fill) -> bool {
    fill.order == fill.at
}

/// What the n-th fill of an entry, from 0, is part of. A turn's fills are the new order's, then those of the resting
/// orders: of one in the same instrument, or of two in others. None where its trade is that of the fill before it, the
/// new order's in the same instrument.
fn kind_of(fills: &[Fill], n: usize, fill: &Fill) -> Option<Kind> {
    let other = if is_own(fill) {
        fills.get(n.wrapping_add(1))
    } else {
        fills.get(n.wrapping_sub(1)).filter(|before| is_own(before))
    };
    match other {
        Some(other) if other.instrument == fill.instrument => {
            if is_own(fill) {
                Some(Kind::Direct)
            } else {
                None
            }
        }
        _ => Some(Kind::Implied),
    }
}

impl<'r, A: Allocator + Copy> Watch<'r, A> {
    fn new(alloc: A, rulebook: &'r Rulebook, entries: u64) -> Result<Self, AllocError> {
        Ok(Watch {
            rulebook,
            entries,
            courses: new_courses(alloc, rulebook.months())?,
        })
    }

    /// Notes the best prices of an instrument behind an entry of that column.
    fn look(
        &mut self,
        book: &IndexBook<'_, A>,
        instrument: Instrument,
        column: u64,
    ) -> Result<(), AllocError> {
        let number = number_of(instrument, self.rulebook.months());
        if let Some(course) = self.courses.get_mut(number) {
            course.look(
                column,
                best_price(book, instrument, Side::Buy),
                best_price(book, instrument, Side::Sell),
            )?;
        }
        Ok(())
    }

    /// Notes what a fill traded.
    fn note(&mut self, fill: &Fill, kind: Kind, column: u64) -> Result<(), AllocError> {
        let number = number_of(fill.instrument, self.rulebook.months());
        if let Some(course) = self.courses.get_mut(number) {
            let trade = Trade {
                column,
                price: fill.price,
                kind,
                lots: u64::from(fill.quantity),
            };
            course.note(trade)?;
        }
        Ok(())
    }

    /// Looks at what the entry that was applied last has touched.
    fn see(
        &mut self,
        applied: &MatchedJournal<'_, A>,
        entry: &Entry,
        outcome: &Outcome,
    ) -> Result<(), AllocError> {
        let column = column_of(applied.count(), self.entries);
        if let Some(instrument) = instrument_of(self.rulebook, entry, outcome) {
            self.look(applied.book(), instrument, column)?;
        }
        let fills = applied.last_fills();
        for (n, fill) in fills.iter().enumerate() {
            self.look(applied.book(), fill.instrument, column)?;
            if let Some(kind) = kind_of(fills, n, fill) {
                self.note(fill, kind, column)?;
            }
        }
        Ok(())
    }
}

/// Applies entry n of the journal, from 0, behind those before it, and looks at what it has touched.
fn watch_entry<A: Allocator + Copy>(
    watch: &mut Watch<'_, A>,
    applied: &mut MatchedJournal<'_, A>,
    journal: &[Entry],
    n: usize,
) -> Result<(), AllocError>
    requires fits { All FitsEntry journal.now }
    requires within { n < length journal.now }
    requires applied { HasApplied (take n journal.now) applied.old }
    ensures { OnOk result (HasApplied (take (n + 1) journal.now) applied.new) }
{
    match applied.apply(&journal[n]) {
        Ok(outcome) => watch.see(applied, &journal[n], &outcome),
        Err(_) => Err(AllocError),
    }
}

/// Applies the entries of a journal behind none, and tells what the day of each instrument was: those of the months
/// first, then those of the spreads.
fn courses_behind<A: Allocator + Copy>(
    alloc: A,
    applied: &mut MatchedJournal<'_, A>,
    rulebook: &Rulebook,
    journal: &[Entry],
) -> Result<Vec<Course<A>, A>, AllocError>
    requires fits { All FitsEntry journal.now }
    requires applied { HasApplied [] applied.old }
{
    let mut watch = Watch::new(alloc, rulebook, journal.len() as u64)?;
    for n in 0..journal.len() {
        watch_entry(&mut watch, applied, journal, n)?;
    }
    Ok(watch.courses)
}

/// What the day of a journal was in each instrument.
pub fn courses_of<A: Allocator + Copy>(
    alloc: A,
    rulebook: &Rulebook,
    journal: &[Entry],
) -> Result<Vec<Course<A>, A>, AllocError>
    requires { All FitsEntry journal.now }
{
    let Ok(mut applied) = MatchedJournal::new(alloc, rulebook) else {
        return Err(AllocError);
    };
    let courses = courses_behind(alloc, &mut applied, rulebook, journal);
    // The market is dropped within this call.
    applied.into_fills();
    courses
}
