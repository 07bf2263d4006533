//! A text on its way out in blocks, and the lines of outgoing messages in a day's text.
#![tactic(auto)]

mod blocks;
mod messages;

pub use blocks::{BLOCK_BYTES, TakesBlocks, append, put_whole};
pub use messages::write_sessions;
