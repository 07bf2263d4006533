//! A ring of blocks of a text, from the thread that makes the text to one that writes it: while a block is written the
//! next one is made. Blocks come back when they were written, so that all memory is taken before the first.
#![tactic(auto)]

mod block;
mod giving;
mod ring;
mod sink;
mod source;

pub use giving::{GivingEnd, RingEnd};
pub use ring::{block_ring, same_text};
pub use sink::BlockSink;
pub use source::BlockSource;
