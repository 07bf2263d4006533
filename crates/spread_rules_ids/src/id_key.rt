//! A session and an id as one key of an ordered table.
ghost use Rattle.std.specs.Prelude.{◌≡◌, ℕ, ◌+◌, ◌-◌, ◌≤◌, ◌∷◌, [], ◌<◌, get_or, take, drop};
ghost use Rattle.std.specs.Int.{w64, from_be_bytes};
ghost use Rattle.spread_rules_ids.specs.IdKeys.{key_of, IsIdBytes};

use crate::id::Id;
use crate::limits::MAX_ID_LENGTH;

/// Two keys are equal exactly where session and id are. In their order the ids of a session that are counted up follow one
/// another, so that what is looked up next is near.
#[derive(Clone, Copy, PartialEq, Eq, PartialOrd, Ord)]
pub struct IdKey {
    session: u8,
    // The 32 bytes that hold the id, eight in each number.
    first: u64,
    second: u64,
    third: u64,
    fourth: u64,
    // How many bytes the id has: zeros may stand in it, not only behind it.
    size: u8,
}

/// Eight bytes from there on as one number, the first of most worth.
fn word(bytes: &[u8; MAX_ID_LENGTH], at: usize) -> u64
    requires { at + 8 ≤ MAX_ID_LENGTH }
    ensures { result ≡ from_be_bytes w64 (take 8 (drop at bytes.now)) }
{
    u64::from_be_bytes([
        bytes[at],
        bytes[at + 1],
        bytes[at + 2],
        bytes[at + 3],
        bytes[at + 4],
        bytes[at + 5],
        bytes[at + 6],
        bytes[at + 7],
    ])
}

/// What is known of any bytes.
fn are_bytes(text: &[u8])
    ensures { (i : ℕ) → get_or text.now i 0 < 256 }
{
    let _ = text.len();
}

impl IdKey {
    /// The key of that session's id.
    pub fn new(session: u8, id: &Id) -> IdKey
        ensures key { result ≡ key_of session id.now }
        ensures bytes { IsIdBytes id.now }
    {
        let text = id.bytes();
        are_bytes(text);
        let bytes = id.padded();
        IdKey {
            session,
            first: word(bytes, 0),
            second: word(bytes, 8),
            third: word(bytes, 16),
            fourth: word(bytes, 24),
            size: text.len() as u8,
        }
    }

    /// The session, and the 32 bytes that hold the id, eight in each number: for who spreads keys over places.
    pub fn words(&self) -> [u64; 5]
        ensures { result
            ≡ self.now.session ∷ self.now.first ∷ self.now.second ∷ self.now.third
            ∷ self.now.fourth ∷ [] }
    {
        [
            u64::from(self.session),
            self.first,
            self.second,
            self.third,
            self.fourth,
        ]
    }
}
