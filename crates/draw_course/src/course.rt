//! What a day was in one instrument: its best prices, and its trades.
use spread_rules::Instrument;
use std::alloc::{AllocError, Allocator};

/// How many columns the places of a day share at most.
const MOST_COLUMNS: u64 = 1_000;

/// Prices in hundredths, from the least to the greatest.
#[derive(Clone, Copy)]
pub struct Span {
    pub least: i64,
    pub most: i64,
}

/// The best prices of one instrument and side within a column.
#[derive(Clone, Copy)]
pub struct Stretch {
    /// The column, from 0.
    pub column: u64,
    /// All of them. None where no order rested.
    pub span: Option<Span>,
    /// The last one. None where no order rested any more.
    pub last: Option<i64>,
}

/// What a trade is made of.
#[derive(Clone, Copy, PartialEq, Eq, PartialOrd, Ord)]
pub enum Kind {
    /// A new order and a resting order of its instrument.
    Direct,
    /// A new order and two resting orders of other instruments.
    Implied,
}

/// What one instrument traded by one turn.
#[derive(Clone, Copy)]
pub struct Trade {
    /// The column, from 0.
    pub column: u64,
    /// In hundredths.
    pub price: i64,
    pub kind: Kind,
    pub lots: u64,
}

impl Trade {
    /// Whether a later trade is of the same column, price and kind.
    fn is_beside(&self, later: &Trade) -> bool {
        self.column == later.column && self.price == later.price && self.kind == later.kind
    }
}

/// A day in one instrument, in order of place.
#[derive(Drop)]
pub struct Course<A: Allocator> {
    pub instrument: Instrument,
    pub buy: Vec<Stretch, A>,
    pub sell: Vec<Stretch, A>,
    pub trades: Vec<Trade, A>,
    /// How many turns were direct, how many implied, and how many lots they traded.
    pub direct: u64,
    pub implied: u64,
    pub lots: u64,
}

/// How many columns so many entries have: one each, as long as there are enough.
pub fn columns_of(entries: u64) -> u64 {
    entries.clamp(1, MOST_COLUMNS)
}

/// The column of a place, counted from 1, among so many entries.
pub fn column_of(place: u64, entries: u64) -> u64 {
    if entries <= MOST_COLUMNS {
        place.saturating_sub(1)
    } else {
        place.saturating_sub(1).saturating_mul(MOST_COLUMNS) / entries
    }
}

impl Span {
    /// The least span that has those prices too.
    pub fn with(self, other: Span) -> Span {
        Span {
            least: self.least.min(other.least),
            most: self.most.max(other.most),
        }
    }
}

/// The least span that has what either of two has.
pub fn joined(one: Option<Span>, other: Option<Span>) -> Option<Span> {
    match (one, other) {
        (None, span) | (span, None) => span,
        (Some(one), Some(other)) => Some(one.with(other)),
    }
}

impl Stretch {
    /// The column with what came later in it.
    pub fn then(self, later: Stretch) -> Stretch {
        Stretch {
            column: self.column,
            span: joined(self.span, later.span),
            last: later.last,
        }
    }
}

/// Stretches of as many columns each.
pub fn widened<A: Allocator + Copy>(
    alloc: A,
    stretches: &[Stretch],
    columns: u64,
) -> Result<Vec<Stretch, A>, AllocError> {
    let columns = columns.max(1);
    let mut wider: Vec<Stretch, A> = Vec::new(alloc);
    for stretch in stretches {
        let stretch = Stretch {
            column: stretch.column / columns * columns,
            ..*stretch
        };
        match wider.last_mut() {
            Some(last) if last.column == stretch.column => *last = last.then(stretch),
            _ => wider.push(stretch)?,
        }
    }
    Ok(wider)
}

/// Notes the best price behind an entry of that column, where it is another than before.
fn note_best<A: Allocator>(
    stretches: &mut Vec<Stretch, A>,
    column: u64,
    price: Option<i64>,
) -> Result<(), AllocError> {
    let noted = Stretch {
        column,
        span: price.map(|price| Span {
            least: price,
            most: price,
        }),
        last: price,
    };
    match stretches.last_mut() {
        None if price.is_none() => return Ok(()),
        Some(stretch) if stretch.last == price => return Ok(()),
        Some(stretch) if stretch.column == column => {
            *stretch = stretch.then(noted);
            return Ok(());
        }
        _ => {}
    }
    stretches.push(noted)?;
    Ok(())
}

impl<A: Allocator> Course<A> {
    /// The course of an instrument before the first entry.
    pub fn new(alloc: A, instrument: Instrument) -> Self
    where
        A: Copy,
    {
        Course {
            instrument,
            buy: Vec::new(alloc),
            sell: Vec::new(alloc),
            trades: Vec::new(alloc),
            direct: 0,
            implied: 0,
            lots: 0,
        }
    }

    /// Notes the best prices to buy and to sell behind an entry of that column, in hundredths.
    pub fn look(
        &mut self,
        column: u64,
        buy: Option<i64>,
        sell: Option<i64>,
    ) -> Result<(), AllocError> {
        note_best(&mut self.buy, column, buy)?;
        note_best(&mut self.sell, column, sell)
    }

    /// Notes a trade, and counts it. Trades of one column, price and kind that follow one another are noted as one.
    pub fn note(&mut self, trade: Trade) -> Result<(), AllocError> {
        let turns = match trade.kind {
            Kind::Direct => &mut self.direct,
            Kind::Implied => &mut self.implied,
        };
        *turns = turns.saturating_add(1);
        self.lots = self.lots.saturating_add(trade.lots);
        match self.trades.last_mut() {
            Some(last) if last.is_beside(&trade) => {
                last.lots = last.lots.saturating_add(trade.lots);
            }
            _ => self.trades.push(trade)?,
        }
        Ok(())
    }
}
