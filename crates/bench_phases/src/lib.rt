//! The phases of a day, measured: frames, judged messages, rings between two threads, and matching. And the clock, the
//! lines and the faults of every phase.
#![tactic(auto)]

mod fault;
mod matching;
mod rings;
mod timing;
mod wire;

pub use fault::BenchFault;
pub use matching::{apply_entry, read_inputs, time_match};
pub use rings::{AtOnce, time_threads};
pub use timing::{Beside, Measured, RUNS, Timer};
pub use wire::{PIECE, bytes_of, scanned, time_judge, time_scan};
