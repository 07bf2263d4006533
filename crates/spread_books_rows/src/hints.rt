//! Guesses of where the row of a place stands.
ghost use Rattle.std.specs.Prelude.{◌≡◌, Some, IfSome, slice_get};

use crate::rows::PlacedRows;
use std::alloc::Allocator;

/// How many places the next guess may be behind the last one, beyond as many as there are guesses.
const MAX_GAP_PLACES: usize = 1024;

/// How many places get a guess at once, from the one that is noted on. So most places have one already when they are
/// noted, be there a gap before them or none.
const GUESSES_AHEAD: usize = 128;

/// For each place from a first one on, the row that may have it. Nothing rests on a guess: who takes one looks whether
/// the row has that place, and searches if it has not.
#[derive(Drop)]
pub struct Hints<A: Allocator + Copy> {
    /// The place of the first guess.
    base: u64,
    rows: Vec<u32, A>,
}

impl<A: Allocator + Copy> Hints<A> {
    /// No guess. Takes no memory yet.
    pub fn new(alloc: A) -> Self {
        Hints {
            base: 0,
            rows: Vec::new(alloc),
        }
    }

    /// The row that may have that place.
    pub fn guess(&self, place: u64) -> Option<usize> {
        let from = place.checked_sub(self.base)?;
        let n = usize::try_from(from).ok()?;
        let row = *self.rows.get(n)?;
        Some(row as usize)
    }

    /// The row of that place, where the guess is right.
    pub fn find<R: PlacedRows>(&self, rows: &R, place: u64) -> Option<usize>
        ensures { IfSome result (λ row. slice_get (R.places rows.now) row ≡ Some place) }
    {
        let row = self.guess(place)?;
        match rows.place_at(row) {
            Some(own) if own == place => Some(row),
            _ => None,
        }
    }

    /// The row of that place stands there. A guess that finds no memory is left out. Behind a gap that is longer than
    /// all guesses together they begin anew, so that one place far away takes no more memory than all before it.
    pub fn note(&mut self, place: u64, at: usize) {
        let from = place.saturating_sub(self.base);
        if let (Ok(n), Ok(row)) = (usize::try_from(from), u32::try_from(at)) {
            if n < self.rows.len() {
                self.rows[n] = row;
            } else {
                self.note_behind(place, n, row);
            }
        }
    }

    /// Notes the row of a place behind all guesses, `n` places behind the first one.
    #[inline(never)]
    fn note_behind(&mut self, place: u64, n: usize, row: u32) {
        let most = self
            .rows
            .len()
            .saturating_mul(2)
            .saturating_add(MAX_GAP_PLACES);
        if !self.rows.is_empty() && n < most {
            let _ = self.rows.resize(n.saturating_add(GUESSES_AHEAD), row);
        } else {
            self.rows.clear();
            self.base = place;
            let _ = self.rows.resize(GUESSES_AHEAD, row);
        }
    }

    /// Forgets all guesses.
    pub fn clear(&mut self) {
        self.rows.clear();
    }
}
