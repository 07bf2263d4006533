//! The rulebook of most tests.
use spread_rules::Rulebook;
use std::process::Abort;
use tests_shared::THREE_MONTHS;

/// The rulebook of three months.
pub fn three_months(rt: &impl Abort) -> Rulebook {
    Rulebook::read(THREE_MONTHS).expect(rt, "a rulebook")
}
