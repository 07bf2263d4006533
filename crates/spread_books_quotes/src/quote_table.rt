//! A table of the pairs of fronts that cost the least, one for each month and side, renewed as fronts change.
ghost use Rattle.std.specs.Prelude.{◌≡◌, ℕ, ◌<◌, ◌≤◌, ◌*◌, ◌^◌, List, length, replicate, None, IfOk};
ghost use Rattle.spread_rules_ids.specs.declared.limits.TheConstants.{MAX_MONTHS};
ghost use Rattle.spread_rules.specs.Candidates.{Pairs};
ghost use Rattle.spread_rules.specs.declared.order.Side.{Side};
ghost use Rattle.spread_rules.specs.declared.order.Order.{Order};
ghost use Rattle.spread_books_plain.specs.Pairs.{IsCheapest};
ghost use Rattle.spread_books_search.specs.Listed.{IsInMonths};
ghost use Rattle.spread_books_search.specs.code.Cheapest.{KeepsOthers, sooner_of};
ghost use Rattle.spread_books_quotes.specs.code.FrontCosts.{AreFrontCosts, cell_of, pair_of_cell, pairs_of};
ghost use Rattle.spread_books_quotes.specs.code.QuoteTable.{known_pair, AreCheapest, AreAmong, ChangesOneQueue, IsOneWay, KeepsOtherSide, RenewsCell};
ghost use Rattle.spread_books_quotes.specs.declared.quote_table.Change.TheVariants.{Came, Left};

use crate::front_costs::{FrontCosts, NO_PAIR, ROW_CELLS, row_cell, side_month_cell, sum_of_cells};
use crate::renewal::{cheapest_of_row, is_sooner};
use spread_books_plain::PairCost;
use spread_rules::{Instrument, NoMemory, Order, Side};
use spread_rules_ids::limits::MAX_MONTHS;
use std::alloc::Allocator;
use std::marker::Model;

/// What an order did.
#[derive(Clone, Copy)]
pub enum Change {
    Came,
    Left,
}

/// The front of one of the two queues changed by which orders of that side are met by way of that other month.
#[derive(Clone, Copy)]
pub struct ColumnChange {
    pub side: Side,
    pub via: u8,
    pub change: Change,
}

/// The cells of each month in turn, who buys before who sells. A cell of no pair costs `NO_PAIR`, or more.
#[derive(Drop)]
pub struct QuoteTable<A: Allocator + Copy> {
    cells: Vec<PairCost, A>,
}

impl<A: Allocator + Copy> Model for QuoteTable<A> {
    ghost use Rattle.std.specs.Prelude.{List, Option};
    ghost use Rattle.spread_books_plain.specs.declared.pair.PairCost.{PairCost};
    ghost use Rattle.spread_books_quotes.specs.code.FrontCosts.{pairs_of};

    ghost Value = { List (Option PairCost) };

    ghost view = { λ t. pairs_of t.cells.items };
}

/// The pair that a cell has, if any.
#[inline(always)]
fn pair_of_cell(cell: PairCost) -> Option<PairCost>
    ensures { result ≡ pair_of_cell cell }
{
    if cell.cost < NO_PAIR {
        Some(cell)
    } else {
        None
    }
}

/// How many months have a cell of that side among so many cells.
#[inline(always)]
fn side_count(side: Side, cells: usize) -> usize
    requires { cells < 2 ^ 63 }
    ensures within { (month : ℕ) → month < result → cell_of side month < cells }
    ensures all { (month : ℕ) → cell_of side month < cells → month < result }
{
    match side {
        Side::Buy => (cells + 1) / 2,
        Side::Sell => cells / 2,
    }
}

/// A pair of that month that costs so much takes the place of the one that a cell holds, where it is sooner.
#[inline(always)]
fn offer(held: &mut PairCost, cost: i64, via: u8)
    ensures { held.new ≡ sooner_of cost via held.old }
{
    if is_sooner(cost, via, held) {
        *held = PairCost {
            cost,
            other_month: u64::from(via),
        };
    }
}

/// Renews that side's cell of a month, after an order of that other month left: another pair may cost the least only
/// where the one that did was of that month. No sum has become less.
#[inline(always)]
fn renew_left<A: Allocator + Copy>(
    held: &mut PairCost,
    costs: &FrontCosts<A>,
    months: u8,
    side: Side,
    month: u8,
    via: u8,
)
    ensures { (on : Pairs) (xs ys : List Order)
        → AreFrontCosts on months ys costs.now
        → month < months
        → AreAmong ys xs
        → KeepsOthers xs ys side month via
        → IsCheapest on xs side month months (pair_of_cell held.old)
        → IsCheapest on ys side month months (pair_of_cell held.new) }
{
    if held.other_month == u64::from(via) {
        *held = cheapest_of_row(costs, months, side, month);
    }
}

/// Renews that side's cell of each month, after an order of that other month came.
fn renew_row_came<A: Allocator + Copy>(
    cells: &mut [PairCost],
    costs: &FrontCosts<A>,
    months: u8,
    side: Side,
    via: u8,
)
    requires within { via < months }
    requires most { months ≤ MAX_MONTHS }
    ensures length { length cells.new ≡ length cells.old }
    ensures rest { KeepsOtherSide side (pairs_of cells.old) (pairs_of cells.new) }
    ensures own { (m : ℕ)
        → RenewsCell Came costs.now months side via (pairs_of cells.old) (pairs_of cells.new) m }
{
    let spreads = costs.spread_cells();
    let outright = costs.outright_cell(side, via);
    let rows = spreads.len() / (2 * ROW_CELLS);
    let count = side_count(side, cells.len())
        .min(rows)
        .min(usize::from(months));
    for month in 0..count as u8 {
        let spread = spreads[row_cell(side, month, via)];
        let cost = sum_of_cells(spread, outright);
        offer(&mut cells[side_month_cell(side, month)], cost, via);
    }
}

/// Renews that side's cell of each month, after an order of that other month left.
fn renew_row_left<A: Allocator + Copy>(
    cells: &mut [PairCost],
    costs: &FrontCosts<A>,
    months: u8,
    side: Side,
    via: u8,
)
    ensures length { length cells.new ≡ length cells.old }
    ensures rest { KeepsOtherSide side (pairs_of cells.old) (pairs_of cells.new) }
    ensures own { (m : ℕ)
        → RenewsCell Left costs.now months side via (pairs_of cells.old) (pairs_of cells.new) m }
{
    let count = side_count(side, cells.len()).min(usize::from(months));
    for month in 0..count as u8 {
        renew_left(
            &mut cells[side_month_cell(side, month)],
            costs,
            months,
            side,
            month,
            via,
        );
    }
}

impl<A: Allocator + Copy> QuoteTable<A> {
    /// A table for so many months, in which no two orders meet any other.
    pub fn new(alloc: A, months: u8) -> Result<Self, NoMemory>
        ensures { IfOk result (λ t. t ≡ replicate (months * 2) None) }
    {
        let no_pair = PairCost {
            cost: NO_PAIR,
            other_month: u64::from(MAX_MONTHS),
        };
        let mut cells = Vec::new(alloc);
        cells.resize(usize::from(months) * 2, no_pair)?;
        Ok(QuoteTable { cells })
    }

    /// What its cell has. None where the table has no such month.
    pub fn known_pair(&self, side: Side, month: u8) -> Option<Option<PairCost>>
        ensures { result ≡ known_pair self.now side month }
    {
        match self.cells.get(side_month_cell(side, month)) {
            None => None,
            Some(held) => Some(pair_of_cell(*held)),
        }
    }

    /// Renews the cell of that month, where there are fronts of the other one.
    fn renew_cell(&mut self, costs: &FrontCosts<A>, months: u8, column: ColumnChange, month: u8)
        ensures rest { (t : Side) (m : ℕ)
            → ((t ≡ column.side) × (m ≡ month) → ⊥)
            → known_pair self.new t m ≡ known_pair self.old t m }
        ensures own { RenewsCell column.change costs.now months column.side column.via self.old self.new month }
    {
        let ColumnChange { side, via, change } = column;
        let n = side_month_cell(side, month);
        if via < months && n < self.cells.len() {
            match change {
                Change::Came => {
                    let spread = costs.spread_cell(side, month, via);
                    let cost = sum_of_cells(spread, costs.outright_cell(side, via));
                    offer(&mut self.cells[n], cost, via);
                }
                Change::Left => renew_left(&mut self.cells[n], costs, months, side, month, via),
            }
        }
    }

    /// Renews that side's cell of each month.
    fn renew_months(&mut self, costs: &FrontCosts<A>, months: u8, column: ColumnChange)
        requires within { column.via < months }
        requires most { months ≤ MAX_MONTHS }
        ensures rest { KeepsOtherSide column.side self.old self.new }
        ensures own { (m : ℕ)
            → RenewsCell column.change costs.now months column.side column.via self.old self.new m }
    {
        let ColumnChange { side, via, change } = column;
        match change {
            Change::Came => renew_row_came(&mut self.cells, costs, months, side, via),
            Change::Left => renew_row_left(&mut self.cells, costs, months, side, via),
        }
    }

    /// Renews the cells that the front of that order's queue has a part in, after the order did that: then what the
    /// fronts of so many months cost is this.
    pub fn renew(&mut self, costs: &FrontCosts<A>, months: u8, order: &Order, change: Change)
        requires within { IsInMonths months order.now.instrument }
        requires most { months ≤ MAX_MONTHS }
        ensures { (on : Pairs) (xs ys : List Order)
            → AreFrontCosts on months ys costs.now
            → IsOneWay change xs ys
            → ChangesOneQueue xs ys order.now.instrument order.now.side
            → AreCheapest on months xs self.old
            → AreCheapest on months ys self.new }
    {
        let side = order.side.opposite();
        match order.instrument {
            Instrument::Outright(via) => {
                self.renew_months(costs, months, ColumnChange { side, via, change });
            }
            Instrument::Spread(near, far) => {
                let of_near = ColumnChange {
                    side,
                    via: far,
                    change,
                };
                let of_far = ColumnChange {
                    side: order.side,
                    via: near,
                    change,
                };
                self.renew_cell(costs, months, of_near, near);
                self.renew_cell(costs, months, of_far, far);
            }
        }
    }
}
