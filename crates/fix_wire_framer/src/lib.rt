//! Frames taken from bytes: from a stream that comes in pieces, and from a row of whole frames.
#![tactic(auto)]

mod framer;
pub mod laws;
mod row;

pub use framer::{FramePlace, Framer, Look, Next};
pub use row::first_of_row;
