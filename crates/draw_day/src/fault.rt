//! Why a day was not drawn.
use spread_journal::JournalFault;
use std::alloc::AllocError;
use thiserror::Error;

/// Why a day was not drawn.
#[derive(Clone, Copy, Debug, PartialEq, Eq, Error)]
pub enum DrawFault {
    /// The journal text was refused.
    #[error("{0}")]
    Journal(JournalFault),
    #[error("no memory")]
    NoMemory,
    /// The writer failed.
    #[error("cannot write")]
    Write,
}

impl From<AllocError> for DrawFault {
    ghost use Rattle.std.specs.Prelude.{◌≡◌};
    ghost use Rattle.draw_day.specs.declared.fault.DrawFault.TheVariants.{NoMemory};

    ghost from_gives = { λ _ f. f ≡ NoMemory };

    fn from(_error: AllocError) -> DrawFault {
        DrawFault::NoMemory
    }
}
