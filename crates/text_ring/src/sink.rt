//! The end that the thread has that makes a text.
ghost use Rattle.std.specs.Prelude.{◌≡◌, ◌≤◌, ◌++◌, ◌∷◌, [], true, false, min, vec_len, vec_capacity};
ghost use Rattle.rtrb.specs.Ring.{sent, SameProducer};
ghost use Rattle.gate_link_stages.specs.Marks.{ends};
ghost use Rattle.text_ring.specs.Blocks.{is_mark};
ghost use Rattle.text_messages.specs.declared.blocks.TheConstants.{BLOCK_BYTES};

use crate::block::{Block, Emptied, Filled};
use live_shared::rest;
use rtrb::{Consumer, Producer, PushError};
use std::alloc::Allocator;
use std::mem;
use std::sync::Wait;
use text_messages::BLOCK_BYTES;

/// Takes the blocks of a text, which go to another thread. It may move to another thread.
#[derive(Drop)]
pub struct BlockSink<'r, R, A: Allocator> {
    rt: &'r R,
    pub(crate) filled: Producer<Block<A>, A, Filled>,
    emptied: Consumer<Block<A>, A, Emptied>,
    ended: bool,
    // The mark comes last, and only where it is ended.
    ghost shape: { ends is_mark (sent filled) ended ≡ true },
}

/// Gives a block on, as soon as the ring has room for it.
fn give<R: Wait, A: Allocator>(rt: &R, filled: &mut Producer<Block<A>, A, Filled>, block: Block<A>)
    requires { BLOCK_BYTES ≤ vec_capacity block }
    ensures ring { SameProducer filled.old filled.new }
    ensures sent { sent filled.new ≡ sent filled.old ++ block ∷ [] }
{
    let mut block = block;
    let mut looks = 0u32;
    for _ in rt.forever() {
        match filled.push(block) {
            Ok(()) => return,
            Err(PushError::Full(back)) => block = back,
        }
        looks = rest(rt, looks);
    }
    unreachable!()
}

/// An empty block, as soon as one came back.
fn take_empty<R: Wait, A: Allocator>(
    rt: &R,
    emptied: &mut Consumer<Block<A>, A, Emptied>,
) -> Block<A>
    ensures empty { result.items ≡ [] }
    ensures room { BLOCK_BYTES ≤ vec_capacity result }
{
    let mut looks = 0u32;
    for _ in rt.forever() {
        if let Ok(block) = emptied.pop() {
            return block;
        }
        looks = rest(rt, looks);
    }
    unreachable!()
}

/// Takes a block, and leaves an empty one in its place. One that has less room than the others stays, and its bytes are
/// copied.
fn exchange<A: Allocator>(block: &mut Block<A>, empty: Block<A>) -> Block<A>
    requires empty { empty.items ≡ [] }
    requires room { BLOCK_BYTES ≤ vec_capacity empty }
    ensures items { result.items ≡ block.old.items }
    ensures room { BLOCK_BYTES ≤ vec_capacity result }
    ensures emptied { block.new.items ≡ [] }
    ensures len { vec_len block.new ≡ 0 }
    ensures kept { min BLOCK_BYTES (vec_capacity block.old) ≤ vec_capacity block.new }
{
    if BLOCK_BYTES <= block.capacity() {
        return mem::replace(block, empty);
    }
    let mut copy = empty;
    match copy.extend_from_slice(block) {
        Ok(()) => {}
        Err(_) => unreachable!(),
    }
    block.clear();
    copy
}

impl<'r, R: Wait, A: Allocator> BlockSink<'r, R, A> {
    ghost use Rattle.text_ring.specs.Ends.{text_given, SameSink};

    pub(crate) fn new(
        rt: &'r R,
        filled: Producer<Block<A>, A, Filled>,
        emptied: Consumer<Block<A>, A, Emptied>,
    ) -> BlockSink<'r, R, A>
        requires { sent filled ≡ [] }
        ensures { (result.filled ≡ filled) × (result.ended ≡ false) }
    {
        BlockSink {
            rt,
            filled,
            emptied,
            ended: false,
        }
    }

    /// Takes all that stands in the block. Then it is empty, with as much room as before, or as a block has.
    pub fn take(&mut self, block: &mut Block<A>)
        requires { self.old.ended ≡ false }
        ensures ring { SameSink self.old self.new }
        ensures open { self.new.ended ≡ false }
        ensures text { text_given self.new ≡ text_given self.old ++ block.old.items }
        ensures items { block.new.items ≡ [] }
        ensures len { vec_len block.new ≡ 0 }
        ensures room { min BLOCK_BYTES (vec_capacity block.old) ≤ vec_capacity block.new }
    {
        if block.is_empty() {
            return;
        }
        let empty = take_empty(self.rt, &mut self.emptied);
        let full = exchange(block, empty);
        give(self.rt, &mut self.filled, full);
    }

    /// Marks the end of the text, where it is not marked yet: the other end returns when it comes to it.
    pub fn end(&mut self)
        ensures ring { SameSink self.old self.new }
        ensures text { text_given self.new ≡ text_given self.old }
        ensures ended { self.new.ended ≡ true }
    {
        if self.ended {
            return;
        }
        let mark = take_empty(self.rt, &mut self.emptied);
        give(self.rt, &mut self.filled, mark);
        self.ended = true;
    }
}
