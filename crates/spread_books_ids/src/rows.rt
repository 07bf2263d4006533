//! Rows by session and id.
ghost use Rattle.std.specs.Prelude.{◌≡◌, List, length, slice_get};
ghost use Rattle.spread_rules_ids.specs.declared.id_key.IdKey.{IdKey};

use spread_rules_ids::IdKey;

/// Rows that each have a session and an id, seen as the list of these in order of row.
pub trait IdRows {
    ghost keys: { Self → List IdKey };

    /// The session and the id of a row. None where there are not so many rows. Takes no memory.
    fn key_at(&self, row: usize) -> Option<IdKey>
        ensures { result ≡ slice_get (keys self.now) row };

    /// How many rows there are. Takes no memory.
    fn len(&self) -> usize
        ensures { result ≡ length (keys self.now) };
}
