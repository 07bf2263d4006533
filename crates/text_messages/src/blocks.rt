//! Bytes on their way out, collected in a block that goes on when it is full.
ghost use Rattle.std.specs.Prelude.{◌≡◌, ◌≤◌, ◌+◌, ◌++◌, ℕ, List, [], Option, Bool, length, min, OnOk, vec_len, vec_capacity, false};
ghost use Rattle.text_messages.specs.code.Blocks.{Puts, Writes};

use spread_rules_ends::{Failed, Sink, write_all};
use std::alloc::Allocator;

/// How many bytes a block has room for. The system takes larger blocks faster.
pub const BLOCK_BYTES: usize = 262_144;

/// What takes a text block by block. Once a write has failed no further block is given.
pub trait TakesBlocks<A: Allocator> {
    // The text that was taken so far, where it is known.
    ghost written: { Self → Option (List ℕ) };

    // Whether a write has failed.
    ghost has_failed: { Self → Bool };

    /// Takes all that stands in the block. Then it is empty, with as much room as before, or as a block has. Where a
    /// write fails, a front is out, and nothing is known of what stands in the block.
    fn take(&mut self, block: &mut Vec<u8, A>) -> Result<(), Failed>
        requires not_failed { has_failed self.old ≡ false }
        ensures writes { Writes result (written self.old) (written self.new) (has_failed self.new)
            block.old.items }
        ensures items { OnOk result (block.new.items ≡ []) }
        ensures len { OnOk result (vec_len block.new ≡ 0) }
        ensures room { min BLOCK_BYTES (vec_capacity block.old) ≤ vec_capacity block.new };
}

/// A sink writes each block when it takes it.
impl<K: Sink, A: Allocator> TakesBlocks<A> for K {
    ghost written = { λ k. K.written k };

    ghost has_failed = { λ k. K.has_failed k };

    fn take(&mut self, block: &mut Vec<u8, A>) -> Result<(), Failed> {
        write_all(self, block)?;
        block.clear();
        Ok(())
    }
}

/// Writes what stands in the block if it has no room for so many bytes more.
fn make_room<K: TakesBlocks<A>, A: Allocator>(
    block: &mut Vec<u8, A>,
    sink: &mut K,
    bytes: usize,
) -> Result<(), Failed>
    requires not_failed { K.has_failed sink.old ≡ false }
    requires most { bytes ≤ min BLOCK_BYTES (vec_capacity block.old) }
    ensures puts { Puts result (K.written sink.old) (K.written sink.new) (K.has_failed sink.new)
        block.new.items block.old.items }
    ensures room { OnOk result (vec_len block.new + bytes ≤ vec_capacity block.new) }
    ensures capacity { min BLOCK_BYTES (vec_capacity block.old) ≤ vec_capacity block.new }
{
    if block.capacity() - block.len() < bytes {
        return sink.take(block);
    }
    Ok(())
}

/// Appends bytes for which there is room.
pub fn append<A: Allocator>(block: &mut Vec<u8, A>, bytes: &[u8])
    requires { vec_len block.old + length bytes.now ≤ vec_capacity block.old }
    ensures items { block.new.items ≡ block.old.items ++ bytes.now }
    ensures len { vec_len block.new ≡ vec_len block.old + length bytes.now }
    ensures room { vec_capacity block.old ≤ vec_capacity block.new }
{
    match block.extend_from_slice(bytes) {
        Ok(()) => {}
        Err(_) => unreachable!(),
    }
}

/// Puts bytes behind those of the block, which is written first where it has no room for them.
pub fn put_whole<K: TakesBlocks<A>, A: Allocator>(
    block: &mut Vec<u8, A>,
    sink: &mut K,
    bytes: &[u8],
) -> Result<(), Failed>
    requires not_failed { K.has_failed sink.old ≡ false }
    requires most { length bytes.now ≤ min BLOCK_BYTES (vec_capacity block.old) }
    ensures puts { Puts result (K.written sink.old) (K.written sink.new) (K.has_failed sink.new)
        block.new.items (block.old.items ++ bytes.now) }
    ensures capacity { OnOk result
        (min BLOCK_BYTES (vec_capacity block.old) ≤ vec_capacity block.new) }
{
    make_room(block, sink, bytes.len())?;
    append(block, bytes);
    Ok(())
}
