//! Where the host meets its surroundings: memory that is refused, bytes that come and bytes that go.
#![tactic(auto)]

mod memory;
mod sink;
mod source;
mod test_ends;
mod whole;

pub use memory::{NoMemory, release};
pub use sink::{Sink, ToWriter};
pub use source::{Failed, FromReader, Source};
pub use test_ends::{TestSink, TestSource};
pub use whole::write_all;
