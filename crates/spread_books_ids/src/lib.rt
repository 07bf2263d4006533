//! Where the row of a session and an id stands: a table of ids. Nothing here knows of orders.
#![tactic(auto)]

mod id_table;
mod rows;
mod spot;

pub use id_table::{IdTable, Noted};
pub use rows::IdRows;
