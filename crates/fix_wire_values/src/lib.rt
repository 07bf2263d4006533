//! Numbers, quantities and prices as values of FIX fields: read from their text, and written as text.
#![tactic(auto)]

mod digits;
pub mod laws;
mod values;

pub use digits::{put, put_byte, put_number, put_price};
pub use values::{MAX_HUNDREDTHS, Unread, limited_digits, read_number, read_price, read_quantity};
