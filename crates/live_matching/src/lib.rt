//! The thread that matches: it applies the journal's entries one after another as they come, and gives what each of them
//! sends to the sessions' writers before the next is applied.
#![tactic(auto)]

mod matching;
mod posting;
mod step;
mod turns;

pub use matching::{MatchPromise, start_matching};
pub use posting::PostedEntries;
pub use step::MatchEnd;
pub use turns::Matched;
