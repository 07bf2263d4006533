//! Rows by place.
ghost use Rattle.std.specs.Prelude.{◌≡◌, ℕ, List, slice_get};

/// Rows that are looked up by place, seen as the list of these in order of row.
pub trait PlacedRows {
    ghost places: { Self → List ℕ };

    /// The place of a row. None where there are not so many rows. Takes no memory.
    fn place_at(&self, row: usize) -> Option<u64>
        ensures { result ≡ slice_get (places self.now) row };
}
