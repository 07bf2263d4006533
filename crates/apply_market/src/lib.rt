//! A journal's entries matched in order: the market behind them, and all that they fill.
#![tactic(auto)]

mod apply;
mod fault;
mod journal;

pub use apply::MatchedJournal;
pub use fault::ApplyFault;
pub use journal::{apply_entries, fills_of_journal};
