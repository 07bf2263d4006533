//! What goes through the rings.
ghost use Rattle.std.specs.Prelude.{◌≡◌, ◌≤◌, [], vec_capacity};
ghost use Rattle.text_messages.specs.declared.blocks.TheConstants.{BLOCK_BYTES};

use rtrb::Protocol;
use std::alloc::Allocator;

/// How many blocks there are: four million bytes. So far ahead the thread that makes the text can be while the other
/// one has something else to write before it, and at the end, where it then has the time to let go of what the text
/// tells.
pub const BLOCKS: usize = 16;

/// A part of a text. A block without bytes marks the end.
pub type Block<A> = Vec<u8, A>;

/// What is given on has room for as many bytes as each other block.
pub struct Filled;

impl<A: Allocator> Protocol<Block<A>> for Filled {
    ghost allows = { λ before block. BLOCK_BYTES ≤ vec_capacity block };
}

/// What comes back is empty besides.
pub struct Emptied;

impl<A: Allocator> Protocol<Block<A>> for Emptied {
    ghost allows = { λ before block. (block.items ≡ []) × (BLOCK_BYTES ≤ vec_capacity block) };
}
