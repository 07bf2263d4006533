//! Where a session and an id belong in a table of lines. Ids that differ in the two low bits of their last byte alone
//! share a line: a session mostly counts its ids up, so its next id mostly belongs to the line of the one before.
ghost use Rattle.std.specs.Prelude.{◌≡◌, ◌≤◌};
ghost use Rattle.spread_books_ids.specs.Tables.{joined, words_before, last_word, from_last_byte, spread_bits, line_of, tag_of};

use spread_rules_ids::IdKey;

/// A sum with one word more.
fn joined(sum: u64, word: u64) -> u64
    ensures { result ≡ joined sum word }
{
    sum.wrapping_mul(11_400_714_819_323_198_485)
        .wrapping_add(word.wrapping_mul(12_605_985_483_714_917_081))
}

/// The sum of a session and the words of an id before the last one that is not 0, and that last one.
fn words_of(key: &IdKey) -> (u64, u64)
    ensures before { result.0 ≡ words_before key.now }
    ensures last { result.1 ≡ last_word key.now }
{
    let [session, first, second, third, fourth] = key.words();
    if fourth != 0 {
        (
            joined(joined(joined(session, first), second), third),
            fourth,
        )
    } else if third != 0 {
        (joined(joined(session, first), second), third)
    } else if second != 0 {
        (joined(session, first), second)
    } else {
        (session, first)
    }
}

/// A word without the bytes behind the last one that is not 0.
fn from_last_byte(word: u64) -> u64
    ensures { result ≡ from_last_byte word }
{
    word.wrapping_shr(word.trailing_zeros() / 8 * 8)
}

/// The bits of a sum, spread so that sums that differ little differ in many bits.
fn spread(sum: u64) -> u64
    ensures { result ≡ spread_bits sum }
{
    (sum ^ (sum >> 32)).wrapping_mul(11_400_714_819_323_198_485)
}

/// Where the numbers of a key's rows stand, and what marks them.
#[derive(Clone, Copy)]
pub struct Spot {
    pub line: usize,
    pub tag: u32,
}

/// Where a key belongs among so many lines. Who chooses ids can choose them so that all belong to one line: nothing
/// rests on the line and the tag but speed.
#[inline(always)]
#[tactic(auto, unfolding(crate::specs::Tables::hash_of, crate::specs::Tables::last_of))]
pub fn spot_of(count: usize, key: &IdKey) -> Spot
    ensures line { result.line ≡ line_of count key.now }
    ensures tag { result.tag ≡ tag_of key.now }
    ensures some { 1 ≤ result.tag }
    ensures most { result.tag ≤ 4095 }
{
    let (before, last_word) = words_of(key);
    let last = from_last_byte(last_word);
    let hash = spread(joined(before, last / 4));
    Spot {
        line: (hash >> 32) as usize & count.saturating_sub(1),
        tag: (((hash >> 16) + last % 4) % 4096).max(1) as u32,
    }
}
