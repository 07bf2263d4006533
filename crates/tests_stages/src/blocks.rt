//! A text that goes through a ring of blocks.
ghost use Rattle.std.specs.Prelude.{◌≡◌, Some, false};
ghost use Rattle.text_ring.specs.Ends.{IsUnread, SameSink};

use crate::expect::holds;
use spread_rules_ends::TestSink;
use std::alloc::{Allocator, Global};
use std::marker::Brand;
use std::process::Abort;
use std::sync::Wait;
use std::thread;
use std::thread::Threads;
use tests_shared::Refusing;
use text_messages::{BLOCK_BYTES, TakesBlocks};
use text_ring::{BlockSink, BlockSource, GivingEnd, RingEnd, block_ring, same_text};

const LINE: &[u8] = b"abcdefghi\n";

/// Gives so many lines on, one in each block, and marks the end. Each goes on whole, and an empty block is back.
fn give_lines<R: Wait + Abort, A: Allocator>(
    rt: &R,
    alloc: A,
    mut sink: BlockSink<'_, R, A>,
    lines: u32,
)
    requires { sink.ended ≡ false }
{
    let mut block = Vec::with_capacity(alloc, BLOCK_BYTES).expect(rt, "memory");
    for _ in 0..lines {
        block.extend_from_slice(LINE).expect(rt, "memory");
        sink.take(&mut block);
        holds(rt, block.is_empty());
    }
    sink.end();
    sink.end();
}

/// Takes a text to its end, into a sink that fails at that call: says whether it was written whole.
fn take_text<R: Wait + Abort>(
    rt: &R,
    mut source: BlockSource<Global>,
    alloc: Global,
    fail: u32,
) -> (TestSink, bool)
    requires { IsUnread source }
{
    let mut out = TestSink::new(alloc, 400_000, fail).expect(rt, "memory");
    let whole = source.write_to(rt, &mut out, Ok(())).is_ok();
    (out, whole)
}

/// Gives so many lines on while another thread takes them.
fn pass_lines<R: Threads + Wait + Sync + Abort>(
    rt: &R,
    alloc: Global,
    lines: u32,
    fail: u32,
) -> (TestSink, bool) {
    let (sink, source) = block_ring(rt, alloc).expect(rt, "memory");
    let (taken, ()) = thread::join(
        rt,
        move || -> (TestSink, bool)
            requires { IsUnread source }
        { take_text(rt, source, alloc, fail) },
        move ||
            requires { sink.ended ≡ false }
        { give_lines(rt, alloc, sink, lines) },
    );
    taken
}

/// What was written is so many lines.
fn expect_lines(rt: &impl Abort, text: &[u8], lines: u32) {
    let mut count = 0u32;
    for line in text.chunks(LINE.len()) {
        holds(rt, line == LINE);
        count = count.saturating_add(1);
    }
    holds(rt, count == lines);
}

/// Three lines and the mark are as many blocks as there are.
#[test]
fn blocks_in_one_thread(rt: HostRuntime) {
    let (sink, source) = block_ring(&rt, rt.alloc()).expect(&rt, "memory");
    give_lines(&rt, rt.alloc(), sink, 3);
    let (out, whole) = take_text(&rt, source, rt.alloc(), 0);
    holds(&rt, whole);
    expect_lines(&rt, out.bytes(), 3);
}

#[test]
fn blocks_in_two_threads(rt: HostRuntime) {
    let (out, whole) = pass_lines(&rt, rt.alloc(), 5000, 0);
    holds(&rt, whole);
    expect_lines(&rt, out.bytes(), 5000);
}

/// The third write fails: the others are taken, so that who makes the text does not wait, and not written.
#[test]
fn a_text_whose_writing_fails(rt: HostRuntime) {
    let (out, whole) = pass_lines(&rt, rt.alloc(), 5000, 3);
    holds(&rt, !whole);
    expect_lines(&rt, out.bytes(), 2);
}

/// A text behind one that could not be written: its blocks are taken, and none is written.
#[test]
fn a_text_behind_a_failed_write(rt: HostRuntime) {
    let (sink, mut source) = block_ring(&rt, rt.alloc()).expect(&rt, "memory");
    give_lines(&rt, rt.alloc(), sink, 3);
    let mut out = TestSink::new(rt.alloc(), 100, 1).expect(&rt, "memory");
    let mut block = Vec::new(rt.alloc());
    block.extend_from_slice(LINE).expect(&rt, "memory");
    let so_far = out.take(&mut block);
    holds(&rt, so_far.is_err());
    holds(&rt, source.write_to(&rt, &mut out, so_far).is_err());
    holds(&rt, out.bytes().is_empty());
}

/// Gives these bytes on as one block, which has room for no more.
fn give_block<R: Wait + Abort, A: Allocator + Copy>(
    rt: &R,
    alloc: A,
    sink: &mut BlockSink<'_, R, A>,
    bytes: &[u8],
)
    requires { sink.old.ended ≡ false }
    ensures { sink.new.ended ≡ false }
{
    let mut block = bytes.to_vec(alloc).expect(rt, "memory");
    sink.take(&mut block);
    holds(rt, block.is_empty());
}

/// A block of less room than the others has, one without bytes, and one of more.
#[test]
fn blocks_of_each_size(rt: HostRuntime) {
    let (mut sink, source) = block_ring(&rt, rt.alloc()).expect(&rt, "memory");
    give_block(&rt, rt.alloc(), &mut sink, LINE);
    give_block(&rt, rt.alloc(), &mut sink, b"");
    give_block(&rt, rt.alloc(), &mut sink, &[b'x'; 300_000]);
    sink.end();
    let (out, whole) = take_text(&rt, source, rt.alloc(), 0);
    holds(&rt, whole && out.bytes().len() == 300_010);
    holds(&rt, out.bytes().starts_with(b"abcdefghi\nxx"));
    holds(&rt, out.bytes().ends_with(b"xx"));
}

/// Gives a line on by an end that has a name, and hands the end back.
fn give_by_name<'r, R: Wait + Abort, B: RingEnd>(
    rt: &'r R,
    alloc: Global,
    sink: BlockSink<'r, R, Global>,
) -> BlockSink<'r, R, Global>
    requires end { B.end ≡ Some sink.filled }
    requires open { sink.ended ≡ false }
    ensures { SameSink sink.entry result }
{
    let mut giving = GivingEnd::<R, B>::new(sink);
    let mut block = LINE.to_vec(alloc).expect(rt, "memory");
    giving.take(&mut block).expect(rt, "no write fails");
    holds(rt, block.is_empty());
    giving.into_sink()
}

/// What the one end took is what the other was given.
#[test]
fn both_ends_of_a_text(rt: HostRuntime) {
    let (sink, mut source) = block_ring(&rt, rt.alloc()).expect(&rt, "memory");
    let mut sink = give_by_name::<HostRuntime, Brand>(&rt, rt.alloc(), sink);
    sink.end();
    let mut out = TestSink::new(rt.alloc(), 100, 0).expect(&rt, "memory");
    holds(&rt, source.write_to(&rt, &mut out, Ok(())).is_ok());
    holds(&rt, out.bytes() == LINE);
    same_text(&mut sink, &mut source);
}

/// A sink takes blocks too: it writes them.
#[test]
fn blocks_of_a_sink(rt: HostRuntime) {
    let mut out = TestSink::new(rt.alloc(), 100, 2).expect(&rt, "memory");
    let mut block = Vec::new(rt.alloc());
    block.extend_from_slice(LINE).expect(&rt, "memory");
    holds(&rt, out.take(&mut block).is_ok() && block.is_empty());
    block.extend_from_slice(LINE).expect(&rt, "memory");
    holds(&rt, out.take(&mut block).is_err());
    holds(&rt, out.bytes() == LINE);
}

/// Whether a ring is made whose memory is the heap's.
fn is_made<R: Wait + Abort, A: Allocator + Copy>(rt: &R, heap: A) -> bool {
    block_ring(rt, heap).is_ok()
}

/// Two rings and the blocks.
#[test]
fn block_ring_refused_memory(rt: HostRuntime) {
    let mut refused = 0u32;
    for number in 1..40u64 {
        let heap = Refusing::new(rt.alloc(), number);
        let made = is_made(&rt, &heap);
        holds(&rt, made != heap.has_refused());
        if !made {
            refused = refused.saturating_add(1);
        }
    }
    holds(&rt, 16 < refused && refused < 39);
}
