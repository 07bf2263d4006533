//! Tests by subject.

mod byte_ends;
mod ids;
mod memory;
mod texts;
