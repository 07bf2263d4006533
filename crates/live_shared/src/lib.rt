//! What all threads of a day share: how one waits that finds nothing to do, the gate that sees what they do, and how they
//! are joined.
#![tactic(auto)]

mod gate;
mod idle;
mod joining;

pub use gate::{Gate, Shared};
pub use idle::{Pace, found, rest};
pub use joining::join_each;
