//! The threads of the sessions: one that judges each session's stream and sends its events; and the sequencer's turns, by
//! which the journal is made of what they send and given on to the thread that matches.
#![tactic(auto)]

mod sequencing;
mod turns;
mod worker;
mod workers;

pub use sequencing::{SequenceEnd, Sequenced, sequence};
pub use worker::WorkerPromise;
pub use workers::{GivenStreams, Started, WorkerHandle, Workers, join_all, start_all};
