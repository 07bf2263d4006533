//! The kinds of messages of the profile with their tags, and what an accepted message of each kind means.
#![tactic(auto)]

mod table;

pub use table::{Meaning, OrderTexts, meaning_of_message, order_texts, ticket_of};
