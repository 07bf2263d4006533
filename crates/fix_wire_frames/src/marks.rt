//! Where the SOHs of a text stand, found a block of bytes at a time.
ghost use Rattle.std.specs.Prelude.{◌≡◌, ◌+◌, ◌≤◌, ◌<◌, length, take, drop};
ghost use Rattle.std.specs.List.{position_or_len};
ghost use Rattle.fix_wire_frames.specs.code.Texts.{is_soh};
ghost use Rattle.fix_wire_frames.specs.code.Marked.{marks_of, IsMarked};

use spread_rules_ids::bytes::SOH;
use std::simd::prelude::*;

/// How many bytes are looked at at once.
const BLOCK_BYTES: usize = 64;

/// The SOHs of a text from some place up to `next`, of the block that ends there: bit k is set where byte k of the block
/// is one.
#[derive(Clone, Copy)]
pub(crate) struct Marks {
    pub bits: u64,
    pub next: usize,
}

/// The marks of no byte yet.
pub(crate) const NO_MARKS: Marks = Marks { bits: 0, next: 0 };

/// The SOHs of a whole block.
#[inline(always)]
fn marks_at(text: &[u8], at: usize) -> u64
    requires { at + BLOCK_BYTES ≤ length text.now }
    ensures { result ≡ marks_of (take BLOCK_BYTES (drop at text.now)) }
{
    u8x64::from_slice(&text[at..])
        .simd_eq(u8x64::splat(SOH))
        .to_bitmask()
}

/// The marks of a text that is shorter than a block.
#[inline(never)]
fn marks_of_rest(rest: &[u8]) -> u64
    requires { length rest.now < BLOCK_BYTES }
    ensures { result ≡ marks_of rest.now }
{
    let mut block = [0; BLOCK_BYTES];
    block[..rest.len()].copy_from_slice(rest);
    marks_at(&block, 0)
}

/// The place of the first SOH from a place on, or the length where there is none; and the marks behind it.
#[inline(always)]
pub(crate) fn next_soh(text: &[u8], from: usize, marks: &mut Marks) -> usize
    requires within { from ≤ length text.now }
    requires marks { IsMarked text.now from marks.old }
    ensures place { result ≡ from + position_or_len is_soh (drop from text.now) }
    ensures marks { result < length text.now → IsMarked text.now (result + 1) marks.new }
{
    let mut at = from;
    while marks.bits == 0 {
        if marks.next >= text.len() {
            return text.len();
        }
        at = marks.next;
        marks.bits = if text.len() - at >= BLOCK_BYTES {
            marks_at(text, at)
        } else {
            marks_of_rest(&text[at..])
        };
        marks.next = at + BLOCK_BYTES;
    }
    let end = marks.next + marks.bits.trailing_zeros() as usize - BLOCK_BYTES;
    marks.bits &= marks.bits - 1;
    end
}
