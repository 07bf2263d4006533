//! Why a journal was not applied.

/// Why a journal was not applied.
#[derive(Clone, Copy, Debug)]
pub enum ApplyFault {
    /// Memory ran out. The place is that of the first entry not worked through, 0 where none was begun.
    NoMemory(u64),
    /// A message of the entry of this place would bear a number above 999,999,999.
    NumbersSpent(u64),
}
