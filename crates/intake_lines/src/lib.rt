//! Day lines: the text that `replay` reads from a source, to its end, and the journal of its sessions.
#![tactic(auto)]

mod day_reader;
pub mod laws;
mod line_sessions;
mod lines;
mod reading;

pub use day_reader::DayReader;
pub use lines::LinesFault;
pub use reading::{CHUNK_BYTES, read_day_lines};
