//! The rulebook of most tests.
ghost use Rattle.std.specs.Prelude.{◌≡◌};
ghost use Rattle.spread_rules_rulebook.specs.Rulebook.{month_count};

use crate::expect::holds;
use spread_rules::Rulebook;
use std::process::Abort;
use tests_shared::THREE_MONTHS;

/// The rulebook of three months.
pub fn three_months(rt: &impl Abort) -> Rulebook
    ensures { month_count result ≡ 3 }
{
    let rules = Rulebook::read(THREE_MONTHS).expect(rt, "a rulebook");
    holds(rt, rules.months() == 3);
    rules
}
