//! How the order of each New and Replace entry so far stands, found by its session and id.
#![tactic(auto)]

mod statuses;

pub use statuses::{Statuses, WHEN_IT_RESTS_NO_MORE};
