//! Where a claimed text begins to differ from the right one.
ghost use Rattle.std.specs.Prelude.{◌≡◌, ◌≢◌, ◌++◌, List, ℕ, IfSome, IfNone, IfOk};
ghost use Rattle.text_day.specs.Differences.{first_line, IsWholeLine, DiffersFirst};

use spread_rules_ids::cut_at;
use std::alloc::{AllocError, Allocator};

/// The first line in which a text differs from the right one.
#[derive(Drop)]
pub struct Difference<A: Allocator> {
    /// Its number, counted from 1.
    pub line: u64,
    /// The line that should stand there, with its line end; empty where the text should have ended.
    pub right: Vec<u8, A>,
}

/// The first line of a text, with its line end where it has one.
fn first_line(text: &[u8]) -> &[u8]
    ensures { result.now ≡ first_line text.now }
{
    match cut_at(text, b'\n') {
        Some((line, _)) => &text[..line.len() + 1],
        None => text,
    }
}

/// What follows the first line in both texts, where it is the same line with its line end.
fn past_same_line<'a>(claim: &'a [u8], right: &'a [u8]) -> Option<(&'a [u8], &'a [u8])>
    ensures same { IfSome result (λ r. (line : List ℕ) × IsWholeLine line
        × (claim.now ≡ line ++ r.0.now) × (right.now ≡ line ++ r.1.now)) }
    ensures other { IfNone result (claim.now ≢ right.now → first_line claim.now ≢ first_line right.now) }
{
    let Some((said, claim_rest)) = cut_at(claim, b'\n') else {
        return None;
    };
    let Some((wanted, right_rest)) = cut_at(right, b'\n') else {
        return None;
    };
    if said == wanted {
        Some((claim_rest, right_rest))
    } else {
        None
    }
}

/// The first line in which two texts differ, as the right one has it.
pub fn first_difference<A: Allocator>(
    alloc: A,
    claim: &[u8],
    right: &[u8],
) -> Result<Difference<A>, AllocError>
    requires { claim.now ≢ right.now }
    ensures { IfOk result (λ d. DiffersFirst claim.now right.now d.line d.right.items) }
{
    let mut claim_rest = claim;
    let mut right_rest = right;
    let mut line = 1u64;
    // The label names the loop for its proof.
    'lines: while let Some((claim_after, right_after)) = past_same_line(claim_rest, right_rest) {
        claim_rest = claim_after;
        right_rest = right_after;
        line += 1;
    }
    Ok(Difference {
        line,
        right: first_line(right_rest).to_vec(alloc)?,
    })
}
