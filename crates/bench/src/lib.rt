//! The speed of each layer: a phase over recorded input, in processor time of the thread that does the work.
#![tactic(auto)]

mod phases;
mod reports;
mod sending;

pub use bench_phases::{BenchFault, Beside, Measured};
pub use phases::measure;
