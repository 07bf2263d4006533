//! Both ends, made in one thread.
ghost use Rattle.std.specs.Prelude.{◌≡◌, [], IfOk, false};
ghost use Rattle.text_ring.specs.Ends.{text_given, text_taken, AreEnds, IsRead, IsUnread};

use crate::block::{BLOCKS, Block, Emptied, Filled};
use crate::sink::BlockSink;
use crate::source::BlockSource;
use rtrb::{Producer, RingBuffer};
use std::alloc::{AllocError, Allocator};
use std::sync::Wait;
use text_messages::BLOCK_BYTES;

/// Puts all blocks, empty, into the ring by which they come back.
fn put_empty<A: Allocator + Copy>(
    alloc: A,
    emptied: &mut Producer<Block<A>, A, Emptied>,
) -> Result<(), AllocError> {
    for _ in 0..BLOCKS {
        let block = Vec::with_capacity(alloc, BLOCK_BYTES)?;
        let _ = emptied.push(block);
    }
    Ok(())
}

/// The two ends, and all memory that they take: four million bytes.
pub fn block_ring<'r, R: Wait, A: Allocator + Copy>(
    rt: &'r R,
    alloc: A,
) -> Result<(BlockSink<'r, R, A>, BlockSource<A>), AllocError>
    ensures sink { IfOk result (λ r. (text_given r.0 ≡ []) × (r.0.ended ≡ false)) }
    ensures source { IfOk result (λ r. IsUnread r.1) }
    ensures ends { IfOk result (λ r. AreEnds r.0 r.1) }
{
    let (filled, taken) = RingBuffer::<Block<A>>::with_protocol::<A, Filled>(alloc, BLOCKS)?;
    let (emptied, empty) = RingBuffer::<Block<A>>::with_protocol::<A, Emptied>(alloc, BLOCKS)?;
    let mut emptied = emptied;
    put_empty(alloc, &mut emptied)?;
    let sink = BlockSink::new(rt, filled, empty);
    let source = BlockSource {
        filled: taken,
        emptied,
    };
    Ok((sink, source))
}

/// Both ends in one thread again, of which one took the mark: what it took is the text that the other was given.
pub fn same_text<R: Wait, A: Allocator>(sink: &mut BlockSink<'_, R, A>, source: &mut BlockSource<A>)
    requires ends { AreEnds sink.old source.old }
    requires read { IsRead source.old }
    ensures { text_taken source.old ≡ text_given sink.old }
{
    source.filled.slots_beside(&mut sink.filled);
}
