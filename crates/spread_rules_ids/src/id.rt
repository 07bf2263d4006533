//! Ids: client order ids, CompIDs, symbols and stamps.
ghost use Rattle.std.specs.Prelude.{◌≡◌, ◌≤◌, ◌<◌, ◌+◌, ◌-◌, ◌++◌, ℕ, List, length, replicate, true};
ghost use Rattle.std.specs.Str.{bytes_eq};
ghost use Rattle.spread_rules_ids.specs.Ids.{id_of, is_id, is_plain};

use crate::bytes::SOH;
use crate::limits::MAX_ID_LENGTH;
use std::marker::Model;

/// 1 to 32 bytes, none of them byte 1. Contracts see the list of the bytes.
#[derive(Clone, Copy, PartialEq, Eq)]
pub struct Id {
    // Zeros stand behind the id.
    bytes: [u8; MAX_ID_LENGTH],
    len: u8,
}

impl Model for Id {
    ghost use Rattle.std.specs.Prelude.{List, ℕ};

    ghost Value = { List ℕ };

    ghost use Rattle.spread_rules_ids.specs.code.IdFields.{text_of, IsKept, kept_of, kept_again};

    ghost view = { text_of };

    ghost invariant = { IsKept };

    ghost inverse = { kept_of };

    ghost inverse_ok = { kept_again };
}

/// Whether no byte 1, which ends a field, stands among these.
fn is_plain(text: &[u8]) -> bool
    ensures { result ≡ is_plain text.now }
{
    for b in text {
        if *b == SOH {
            return false;
        }
    }
    true
}

impl Id {
    /// Whether these bytes are an id: 1 to 32 of them, none of them byte 1.
    pub fn fits(text: &[u8]) -> bool
        ensures { result ≡ is_id text.now }
    {
        !text.is_empty() && text.len() <= MAX_ID_LENGTH && is_plain(text)
    }

    /// The id of bytes that are one.
    #[inline(always)]
    pub fn of(text: &[u8]) -> Id
        requires { is_id text.now ≡ true }
        ensures { result ≡ text.now }
    {
        let mut bytes = [0; MAX_ID_LENGTH];
        bytes[..text.len()].copy_from_slice(text);
        Id {
            bytes,
            len: text.len() as u8,
        }
    }

    /// The id of these bytes. None where they are none, more than 32, or have a byte 1 among them.
    pub fn new(text: &[u8]) -> Option<Id>
        ensures { result ≡ id_of text.now }
    {
        if Id::fits(text) {
            Some(Id::of(text))
        } else {
            None
        }
    }

    /// Its bytes, 1 to 32 of them.
    pub fn bytes(&self) -> &[u8]
        ensures value { result.now ≡ self.now }
        ensures some { 0 < length self.now }
        ensures most { length self.now ≤ MAX_ID_LENGTH }
        ensures plain { is_plain self.now ≡ true }
    {
        &self.bytes[..usize::from(self.len)]
    }

    /// Its bytes with zeros behind them, 32 in all: what copies these copies a length that is known.
    pub fn padded(&self) -> &[u8; MAX_ID_LENGTH]
        ensures { result.now ≡ self.now ++ replicate (MAX_ID_LENGTH - length self.now) 0 }
    {
        &self.bytes
    }

    /// Whether it is that id.
    pub fn is(&self, other: &Id) -> bool
        ensures { result ≡ bytes_eq self.now other.now }
    {
        self.bytes() == other.bytes()
    }
}

/// A place holder: the one byte 0.
impl Default for Id {
    fn default() -> Self {
        Id {
            bytes: [0; MAX_ID_LENGTH],
            len: 1,
        }
    }
}
