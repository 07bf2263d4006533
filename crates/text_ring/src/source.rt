//! The end that the thread has that writes a text.
ghost use Rattle.std.specs.Prelude.{◌≡◌, ◌≤◌, true, false, is_ok, OnOk, OnErr, vec_capacity};
ghost use Rattle.text_messages.specs.code.Blocks.{Writes};
ghost use Rattle.text_messages.specs.declared.blocks.TheConstants.{BLOCK_BYTES};
ghost use Rattle.text_ring.specs.Ends.{text_taken, IsUnread, IsRead, SameSource};

use crate::block::{Block, Emptied, Filled};
use live_shared::{found, rest};
use rtrb::{Consumer, Producer};
use spread_rules_ends::{Failed, Sink, write_all};
use std::alloc::Allocator;
use std::sync::Wait;

/// What takes the blocks of a text. It may move to another thread.
#[derive(Drop)]
pub struct BlockSource<A: Allocator> {
    pub(crate) filled: Consumer<Block<A>, A, Filled>,
    pub(crate) emptied: Producer<Block<A>, A, Emptied>,
}

/// Gives back a block that was written.
fn give_back<A: Allocator>(emptied: &mut Producer<Block<A>, A, Emptied>, block: Block<A>)
    requires { BLOCK_BYTES ≤ vec_capacity block }
{
    let mut block = block;
    block.clear();
    // There is room for all blocks.
    let _ = emptied.push(block);
}

impl<A: Allocator> BlockSource<A> {
    /// Writes the blocks as they come, up to the mark, behind a text whose writing ended so. Behind a write that
    /// failed, that one's or one of its own, the others are taken, not written.
    pub fn write_to<R: Wait, K: Sink>(
        &mut self,
        rt: &R,
        sink: &mut K,
        so_far: Result<(), Failed>,
    ) -> Result<(), Failed>
        requires not_failed { OnOk so_far (K.has_failed sink.old ≡ false) }
        requires failed { OnErr so_far (K.has_failed sink.old ≡ true) }
        requires unread { IsUnread self.old }
        ensures ring { SameSource self.old self.new }
        ensures read { IsRead self.new }
        ensures writes { Writes result (K.written sink.old) (K.written sink.new) (K.has_failed sink.new)
            (text_taken self.new) }
        ensures kept { OnErr so_far ((is_ok result ≡ false) × (sink.new ≡ sink.old)) }
    {
        let mut result = so_far;
        let mut looks = 0u32;
        for _ in rt.forever() {
            match self.filled.pop() {
                Ok(block) => {
                    if block.is_empty() {
                        return result;
                    }
                    looks = found(looks);
                    if result.is_ok() {
                        result = write_all(sink, &block);
                    }
                    give_back(&mut self.emptied, block);
                }
                Err(_) => looks = rest(rt, looks),
            }
        }
        unreachable!()
    }
}
