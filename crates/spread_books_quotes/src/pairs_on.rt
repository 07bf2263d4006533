//! Whether each pair of months takes part in implied trading.
ghost use Rattle.std.specs.Prelude.{◌↔◌, IsTrue};
ghost use Rattle.spread_rules_rulebook.specs.Rulebook.{implied};
ghost use Rattle.spread_books_quotes.specs.code.PairsOn.{IsRowOn, AreAllOn};

use spread_rules::Rulebook;
use spread_rules_ids::limits::MAX_MONTHS;

/// Whether each pair with that near month takes part.
fn is_row_on(rules: &Rulebook, near: u8) -> bool
    ensures { IsTrue result ↔ IsRowOn (implied rules.now) near }
{
    for far in 0..MAX_MONTHS {
        if !rules.implied(near, far) {
            return false;
        }
    }
    true
}

/// Whether each pair takes part.
pub fn is_all_on(rules: &Rulebook) -> bool
    ensures { IsTrue result ↔ AreAllOn (implied rules.now) }
{
    for near in 0..MAX_MONTHS {
        if !is_row_on(rules, near) {
            return false;
        }
    }
    true
}
