//! Why no ring or no link of rings was made.
ghost use Rattle.std.specs.Prelude.{◌≡◌};
ghost use Rattle.gate_link_stages.specs.Faults.{fault_number};

use thiserror::Error;

/// Why no ring or no link of rings was made.
#[derive(Clone, Copy, PartialEq, Eq, Debug, Error)]
pub enum LinkFault {
    #[error("not 1 to 16 sessions")]
    Sessions,
    #[error("a ring of not 1 to 4,096 events")]
    Ring,
    #[error("no memory")]
    NoMemory,
    #[error("a journal of more than 1,000,000 entries")]
    Journal,
}

impl LinkFault {
    /// Its number, 1 to 4.
    pub fn number(&self) -> u8
        ensures { result ≡ fault_number self.now }
    {
        match self {
            LinkFault::Sessions => 1,
            LinkFault::Ring => 2,
            LinkFault::NoMemory => 3,
            LinkFault::Journal => 4,
        }
    }
}
