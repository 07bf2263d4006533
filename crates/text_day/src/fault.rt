//! Why a text was not written.

/// Why a text was not written.
#[derive(Clone, Copy, Debug, PartialEq, Eq)]
pub enum TextFault {
    /// A request for memory was refused.
    NoMemory,
    /// The writer failed.
    Write,
}
