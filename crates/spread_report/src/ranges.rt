//! What `Desk::outgoing` requires of an outcome and of fills, looked at.
ghost use Rattle.std.specs.Prelude.{◌↔◌, IsTrue};
ghost use Rattle.spread_rules_rulebook.specs.Rulebook.{IsListed};
ghost use Rattle.spread_rules.specs.Ranges.{FitsOutcome, FitsFill, FitFills};

use spread_rules::{Event, Fill, Instrument, Outcome, Rulebook};
use spread_rules_ids::limits::SESSIONS;

/// Whether the rulebook has the instrument.
fn is_listed(rules: &Rulebook, instrument: Instrument) -> bool
    ensures { IsTrue result ↔ IsListed rules.now instrument }
{
    match instrument {
        Instrument::Outright(month) => month < rules.months(),
        Instrument::Spread(near, far) => near < far && far < rules.months(),
    }
}

fn fits_fill(rules: &Rulebook, fill: &Fill) -> bool
    ensures { IsTrue result ↔ FitsFill rules.now fill.now }
{
    is_listed(rules, fill.instrument)
        && usize::from(fill.session) < SESSIONS
        && fill.leaves <= fill.total
}

/// Whether all fills are in range.
pub fn fit_fills(rules: &Rulebook, fills: &[Fill]) -> bool
    ensures { IsTrue result ↔ FitFills rules.now fills.now }
{
    for fill in fills {
        if !fits_fill(rules, fill) {
            return false;
        }
    }
    true
}

/// Whether what came of an entry fits its event.
pub fn fits_outcome(rules: &Rulebook, event: &Event, outcome: &Outcome) -> bool
    ensures { IsTrue result ↔ FitsOutcome rules.now event.now outcome.now }
{
    match (event, outcome) {
        (Event::New(ticket), Outcome::Ended { left }) => *left <= ticket.quantity,
        (Event::Cancel { .. }, Outcome::Cancelled(order))
        | (Event::Replace { .. }, Outcome::Replaced(order)) => {
            is_listed(rules, order.instrument) && order.leaves <= order.quantity
        }
        _ => true,
    }
}
