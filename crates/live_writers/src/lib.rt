//! A thread for each session that takes what the session is sent.
#![tactic(auto)]

mod writing;

pub use writing::{
    StartedWriters, WritePromise, Writing, WritingHandle, Written, join_writers, start_writers,
};
