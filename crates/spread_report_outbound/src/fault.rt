//! Why messages are not sent.
ghost use Rattle.std.specs.Prelude.{◌≡◌};
ghost use Rattle.spread_report_outbound.specs.Faults.{fault_number};

use spread_rules_ends::NoMemory;
use thiserror::Error;

/// Why messages were not sent: of one message, or of an entry. Nothing has changed then.
#[derive(Clone, Copy, Debug, PartialEq, Eq, Error)]
pub enum DeskFault {
    /// A request for memory was refused.
    #[error("no memory")]
    NoMemory,
    /// A message would have to bear a number above the limit.
    #[error("numbers spent")]
    NumbersSpent,
}

impl DeskFault {
    /// Its number, 1 or 2.
    pub fn number(&self) -> u8
        ensures { result ≡ fault_number self.now }
    {
        match self {
            DeskFault::NoMemory => 1,
            DeskFault::NumbersSpent => 2,
        }
    }
}

impl From<NoMemory> for DeskFault {
    ghost use Rattle.spread_report_outbound.specs.declared.fault.DeskFault.TheVariants.{NoMemory};

    ghost from_gives = { λ _ e. e ≡ NoMemory };

    fn from(_fault: NoMemory) -> DeskFault {
        DeskFault::NoMemory
    }
}
