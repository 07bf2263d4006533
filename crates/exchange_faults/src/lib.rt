//! Why the program ends without its text: the line that says so, and the exit status.
#![tactic(auto)]

mod fault;

pub use fault::{Fault, tell};
