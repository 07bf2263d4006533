//! What the fronts of queues cost who meets them, in rows by month: a search over them looks into no book.
ghost use Rattle.std.specs.Prelude.{◌≡◌, ◌<◌, ◌≤◌, ◌+ℤ◌, ℕ, List, All, length, take, drop, slice_set, IfOk, IfSome, unwrap_or};
ghost use Rattle.spread_rules_ids.specs.declared.limits.TheConstants.{MAX_MONTHS};
ghost use Rattle.spread_rules.specs.declared.order.Order.{Order};
ghost use Rattle.spread_rules.specs.code.Candidates.{HasOrderPrice};
ghost use Rattle.spread_rules_rulebook.specs.Prices.{IsOrderPrice};
ghost use Rattle.spread_rules_rulebook.specs.Rulebook.{implied};
ghost use Rattle.spread_books_search.specs.Listed.{IsInMonths};
ghost use Rattle.spread_books_quotes.specs.code.FrontCosts.{cell_of, cell_at, cost_of_cell, costs_of, spread_cost, outright_cost, cost_at, row_cell, no_costs, with_outright_cost, with_spread_cost, AreFrontCosts, AreOrderPrices};
ghost use Rattle.spread_books_quotes.specs.declared.front_costs.TheConstants.{NO_COST};
ghost use Rattle.spread_books_quotes.specs.code.QuoteTable.{ChangesOneQueue};

use spread_books_plain::Book;
use spread_books_search::{MonthPairs, front_cost, is_pair_on};
use spread_rules::{Instrument, NoMemory, Order, Side};
use spread_rules_ids::limits::MAX_MONTHS;
use std::alloc::Allocator;
use std::marker::Model;

/// How many months a row has room for.
pub const ROW_CELLS: usize = MAX_MONTHS as usize;

/// What stands in a cell of no cost: more than any price, and than any two together.
const NO_COST: i64 = 1_000_000_000_000;

/// What two cells come to at least, where one is of no cost. Two costs come to less.
pub const NO_PAIR: i64 = 500_000_000_000;

/// For each side and month a row of what the fronts of its spreads cost, and for each side a row of what the fronts of
/// the outrights cost that meet an order of that side together with these: by the other month, `NO_COST` where a queue
/// is empty or its pair takes no part.
#[derive(Drop)]
pub struct FrontCosts<A: Allocator + Copy> {
    spreads: Vec<i64, A>,
    outrights: Vec<i64, A>,
}

impl<A: Allocator + Copy> Model for FrontCosts<A> {
    ghost use Rattle.spread_books_quotes.specs.code.FrontCosts.{CostRows, AreOrderPrices, costs_of};

    ghost Value = { CostRows };

    ghost view = { λ c. record {
      spreads = costs_of c.spreads.items;
      outrights = costs_of c.outrights.items;
    } };

    ghost invariant = { λ c.
        AreOrderPrices (costs_of c.spreads.items) × AreOrderPrices (costs_of c.outrights.items) };
}

/// The index of a side and month in a table with two cells a month, buy first.
#[inline(always)]
pub fn side_month_cell(side: Side, month: u8) -> usize
    ensures { result ≡ cell_of side month }
{
    match side {
        Side::Buy => usize::from(month) * 2,
        Side::Sell => usize::from(month) * 2 + 1,
    }
}

/// Where the cost of that other month stands in the row of that side and month.
#[inline(always)]
pub fn row_cell(side: Side, month: u8, other_month: u8) -> usize
    ensures { result ≡ row_cell side month other_month }
{
    side_month_cell(side, month) * ROW_CELLS + usize::from(other_month)
}

/// The cell that stands there, or one of no cost where there is none.
#[inline(always)]
fn cell_at(cells: &[i64], n: usize) -> i64
    ensures { result ≡ cell_at cells.now n }
{
    cells.get(n).copied().unwrap_or(NO_COST)
}

/// What two cells come to: no less than `NO_PAIR` where one is of no cost.
#[inline(always)]
pub fn sum_of_cells(first: i64, second: i64) -> i64
    requires first { IfSome (cost_of_cell first) IsOrderPrice }
    requires second { IfSome (cost_of_cell second) IsOrderPrice }
    ensures { result ≡ first +ℤ second }
{
    first + second
}

/// The cells of so many months from the first on, or as many as there are.
#[inline(always)]
fn row(cells: &[i64], first: usize, months: u8) -> &[i64]
    ensures { result.now ≡ take months (drop first cells.now) }
{
    match cells.get(first..) {
        None => &[],
        Some(rest) => &rest[..rest.len().min(usize::from(months))],
    }
}

/// Puts that cost there, where there is such a cell.
fn put_cost(cells: &mut [i64], n: usize, cost: Option<i64>)
    ensures { cells.new ≡ slice_set cells.old n (unwrap_or cost NO_COST) }
{
    if n < cells.len() {
        cells[n] = cost.unwrap_or(NO_COST);
    }
}

impl<A: Allocator + Copy> FrontCosts<A> {
    /// The rows of so many months, where no order rests.
    pub fn new(alloc: A, months: u8) -> Result<Self, NoMemory>
        ensures { IfOk result (λ c. c ≡ no_costs months) }
    {
        let mut spreads = Vec::new(alloc);
        spreads.resize(usize::from(months) * 2 * ROW_CELLS, NO_COST)?;
        let mut outrights = Vec::new(alloc);
        outrights.resize(2 * ROW_CELLS, NO_COST)?;
        Ok(FrontCosts { spreads, outrights })
    }

    /// The cells of all spreads, as `row_cell` has them.
    #[inline(always)]
    pub fn spread_cells(&self) -> &[i64]
        ensures costs { costs_of result.now ≡ self.now.spreads }
        ensures order_price { AreOrderPrices (costs_of result.now) }
    {
        &self.spreads
    }

    /// The cell of the spreads of that side and month with that other month.
    #[inline(always)]
    pub fn spread_cell(&self, side: Side, month: u8, other_month: u8) -> i64
        ensures cost { cost_of_cell result ≡ spread_cost self.now side month other_month }
        ensures order_price { IfSome (cost_of_cell result) IsOrderPrice }
    {
        cell_at(&self.spreads, row_cell(side, month, other_month))
    }

    /// The cell of the outrights of that month that meet an order of that side.
    #[inline(always)]
    pub fn outright_cell(&self, side: Side, month: u8) -> i64
        ensures cost { cost_of_cell result ≡ outright_cost self.now side month }
        ensures order_price { IfSome (cost_of_cell result) IsOrderPrice }
    {
        cell_at(&self.outrights, row_cell(side, 0, month))
    }

    /// What the fronts of the spreads of that side and month cost, by the other month.
    #[inline(always)]
    pub fn spread_row(&self, side: Side, month: u8, months: u8) -> &[i64]
        ensures most { length result.now ≤ months }
        ensures order_price { AreOrderPrices (costs_of result.now) }
        ensures costs { (other : ℕ) → other < months
            → cost_at (costs_of result.now) other ≡ spread_cost self.now side month other }
    {
        row(&self.spreads, row_cell(side, month, 0), months)
    }

    /// What the fronts of the outrights cost that meet an order of that side, by their month.
    #[inline(always)]
    pub fn outright_row(&self, side: Side, months: u8) -> &[i64]
        ensures order_price { AreOrderPrices (costs_of result.now) }
        ensures costs { (other : ℕ) → other < months
            → cost_at (costs_of result.now) other ≡ outright_cost self.now side other }
    {
        row(&self.outrights, row_cell(side, 0, 0), months)
    }

    /// The front of the outrights of that side and month costs that.
    fn note_outright(&mut self, side: Side, month: u8, cost: Option<i64>)
        requires { IfSome cost IsOrderPrice }
        ensures { self.new ≡ with_outright_cost self.old side month cost }
    {
        put_cost(
            &mut self.outrights,
            row_cell(side.opposite(), 0, month),
            cost,
        );
    }

    /// The front of the spreads of that side and these months costs that.
    fn note_spread(&mut self, side: Side, near: u8, far: u8, cost: Option<i64>)
        requires { IfSome cost IsOrderPrice }
        ensures { self.new ≡ with_spread_cost self.old side near far cost }
    {
        if near < far {
            put_cost(
                &mut self.spreads,
                row_cell(side.opposite(), near, far),
                cost,
            );
        }
        if near <= far {
            put_cost(&mut self.spreads, row_cell(side, far, near), cost);
        }
    }

    /// Notes what the front of that order's queue costs, after the order came or left.
    pub fn note<B: Book>(&mut self, book: &B, pairs: &MonthPairs<'_>, order: &Order)
        requires order_price { All HasOrderPrice (B.orders book.now) }
        requires within { IsInMonths pairs.now.months order.now.instrument }
        requires most { pairs.now.months ≤ MAX_MONTHS }
        ensures { (xs : List Order)
            → ChangesOneQueue xs (B.orders book.now) order.now.instrument order.now.side
            → AreFrontCosts (implied pairs.now.rules.now) pairs.now.months xs self.old
            → AreFrontCosts (implied pairs.now.rules.now) pairs.now.months (B.orders book.now) self.new }
    {
        let cost = front_cost(book, order.instrument, order.side);
        match order.instrument {
            Instrument::Outright(month) => self.note_outright(order.side, month, cost),
            Instrument::Spread(near, far) => {
                if is_pair_on(pairs.rules, far, near) {
                    self.note_spread(order.side, near, far, cost);
                }
            }
        }
    }
}
