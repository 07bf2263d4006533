//! The commands of `exchange` and their options, as the parser of the command line takes them, and what its words ask for.
#![tactic(auto)]

mod parser;
mod request;
mod texts;

pub use request::{Refused, Request, Task, read_words, refuse, words_of};
