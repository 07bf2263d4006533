//! Why an entry was not explained.
use spread_journal::JournalFault;
use thiserror::Error;

/// Why an entry was not explained.
#[derive(Clone, Copy, Debug, PartialEq, Eq, Error)]
pub enum ExplainFault {
    /// The journal text was refused.
    #[error("{0}")]
    Journal(JournalFault),
    /// The journal has no entry of that place.
    #[error("no such place")]
    Place,
    #[error("no memory")]
    NoMemory,
    #[error("cannot write")]
    Write,
}
