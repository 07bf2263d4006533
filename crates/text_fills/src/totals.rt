//! What each month sums to: lots bought and sold, money paid and received.
ghost use Rattle.std.specs.Prelude.{◌≡◌, ◌<◌, ◌≤◌, ◌^◌, All};
ghost use Rattle.spread_rules.specs.Legs.{other_side};
ghost use Rattle.spread_rules_rulebook.specs.Prices.{IsLegPrice};
ghost use Rattle.text_fills.specs.Totals.{AreTotals, IsSummable, IsBelow};
ghost use Rattle.text_fills.specs.code.Sums.{plus_leg, with_leg, HasRoom, with_fill, empty_months};

use spread_rules::{Fill, Instrument, Side};
use spread_rules_ids::limits::{MAX_MONTHS, MAX_ORDER_QTY};

/// The sums of one month over all legs: quantities in lots, and money in hundredths times lots.
#[derive(Clone, Copy, PartialEq, Eq)]
pub struct MonthTotals {
    pub bought: u128,
    pub sold: u128,
    pub paid: i128,
    pub received: i128,
}

impl MonthTotals {
    /// One more leg on that side.
    fn add(&mut self, side: Side, quantity: u32, price: i64)
        requires quantity { quantity ≤ MAX_ORDER_QTY }
        requires price { IsLegPrice price }
        requires room { HasRoom (2 ^ 67) self.old }
        ensures { self.new ≡ plus_leg side quantity price self.old }
    {
        let money = i128::from(quantity) * i128::from(price);
        match side {
            Side::Buy => {
                self.bought += u128::from(quantity);
                self.paid += money;
            }
            Side::Sell => {
                self.sold += u128::from(quantity);
                self.received += money;
            }
        }
    }
}

/// A slot for each month that a rulebook can have.
const MONTHS: usize = MAX_MONTHS as usize;

/// The sums of all months, the first month first.
pub type AllTotals = [MonthTotals; MONTHS];

const NOTHING: MonthTotals = MonthTotals {
    bought: 0,
    sold: 0,
    paid: 0,
    received: 0,
};

/// The sums of no fill.
pub fn no_totals() -> AllTotals
    ensures { result ≡ empty_months }
{
    [NOTHING; MONTHS]
}

fn other(side: Side) -> Side
    ensures { result ≡ other_side side }
{
    match side {
        Side::Buy => Side::Sell,
        Side::Sell => Side::Buy,
    }
}

/// One more leg of that month.
fn add_leg(totals: &mut AllTotals, month: u8, side: Side, quantity: u32, price: i64)
    requires month { month < MAX_MONTHS }
    requires quantity { quantity ≤ MAX_ORDER_QTY }
    requires price { IsLegPrice price }
    requires room { All (HasRoom (2 ^ 67)) totals.old }
    ensures { totals.new ≡ with_leg totals.old
        (record { month = month; side = side; quantity = quantity; price = price }) }
{
    totals[month as usize].add(side, quantity, price);
}

/// One more fill: its leg, or the two legs of a spread. Its months are those of a rulebook, its quantity is at most the
/// greatest of an order, and its prices are in their range.
pub fn add_fill(totals: &mut AllTotals, fill: &Fill)
    requires months { IsBelow MAX_MONTHS fill.now.instrument }
    requires summable { IsSummable fill.now }
    requires room { All (HasRoom (2 ^ 66)) totals.old }
    ensures { totals.new ≡ with_fill totals.old fill.now }
{
    match fill.instrument {
        Instrument::Outright(month) => {
            add_leg(totals, month, fill.side, fill.quantity, fill.price);
        }
        Instrument::Spread(near, far) => {
            add_leg(totals, near, fill.side, fill.quantity, fill.near);
            add_leg(totals, far, other(fill.side), fill.quantity, fill.far);
        }
    }
}

/// The sums of each month, the first month first. Each fill's months are those of a rulebook, its quantity is at most the
/// greatest of an order, and its price and leg prices are in their range.
pub fn month_totals(fills: &[Fill]) -> AllTotals
    requires months { All (λ f. IsBelow MAX_MONTHS f.instrument) fills.now }
    requires summable { All IsSummable fills.now }
    ensures { AreTotals fills.now result }
{
    let mut totals = no_totals();
    for fill in fills {
        add_fill(&mut totals, fill);
    }
    totals
}
