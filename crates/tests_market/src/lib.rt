//! Tests of what the market stands on, and of the market: rulebooks and rules; tables of ids and of resting orders, books,
//! quotes and statuses (`spread_books_ids` to `spread_match`).
#![tactic(auto)]

#[cfg(test)]
mod books;
#[cfg(test)]
mod expect;
#[cfg(test)]
mod ids;
#[cfg(test)]
mod matching;
#[cfg(test)]
mod rules;
#[cfg(test)]
mod tables;
