//! What every crate above stands on: ids and their keys, limits, the names of bytes, and texts. Nothing here knows of orders.
#![tactic(auto)]

pub mod bytes;
mod id;
mod id_key;
pub mod laws;
pub mod limits;
mod text;

pub use id::Id;
pub use id_key::IdKey;
pub use text::{after, cut_at, read_decimal, read_plain};
