//! Why a rulebook's text is refused.
ghost use Rattle.std.specs.Prelude.{◌≡◌};
ghost use Rattle.spread_rules_rulebook.specs.RulebookText.{fault_number};

use thiserror::Error;

/// The first fault from the top.
#[derive(Clone, Copy, Debug, PartialEq, Eq, Error)]
pub enum RuleFault {
    /// The line with this number, counted from 1, can't stand where it does.
    #[error("bad line {0}")]
    BadLine(u64),
    #[error("no month")]
    NoMonth,
    /// A twenty-fifth month.
    #[error("too many months")]
    TooManyMonths,
    #[error("named twice")]
    NamedTwice,
    /// Kept for a rulebook that takes memory; this one takes none.
    #[error("no memory")]
    NoMemory,
}

impl RuleFault {
    /// A number for each fault, 1 to 5, for callers of the library.
    pub fn number(&self) -> u8
        ensures { result ≡ fault_number self.now }
    {
        match self {
            RuleFault::BadLine(_) => 1,
            RuleFault::NoMonth => 2,
            RuleFault::TooManyMonths => 3,
            RuleFault::NamedTwice => 4,
            RuleFault::NoMemory => 5,
        }
    }
}
