//! What each command of the program does, and the files that are read for it.
#![tactic(auto)]

mod files;
mod requests;
mod tasks;

pub use requests::run;
