//! Symbols and other short texts.
ghost use Rattle.std.specs.Prelude.{◌≡◌, ◌≤◌, ◌<◌, ◌+◌, ◌++◌, ◌∷◌, length, take};
ghost use Rattle.spread_rules_ids.specs.declared.bytes.TheConstants.{HYPHEN_MINUS};
ghost use Rattle.spread_rules_rulebook.specs.Rulebook.{IsListed, symbol_of};

use spread_rules::{Instrument, Rulebook};
use spread_rules_ids::Id;
use spread_rules_ids::limits::MAX_ID_LENGTH;

/// Writes two names with a dash between to the front of the text, and tells how many bytes they are.
fn write_joined(text: &mut [u8], first: &[u8], second: &[u8]) -> usize
    requires room { length first.now + length second.now < length text.old }
    ensures written { take result text.new ≡ first.now ++ HYPHEN_MINUS ∷ second.now }
    ensures within { result ≤ length text.old }
{
    let dash = first.len();
    let end = dash + 1 + second.len();
    text[..dash].copy_from_slice(first);
    text[dash] = b'-';
    text[dash + 1..end].copy_from_slice(second);
    end
}

/// Two names with a dash between.
fn joined(near: &Id, far: &Id) -> Id
    requires { length near.now + length far.now < MAX_ID_LENGTH }
    ensures { result ≡ near.now ++ HYPHEN_MINUS ∷ far.now }
{
    let mut text = [0; MAX_ID_LENGTH];
    let end = write_joined(&mut text, near.bytes(), far.bytes());
    Id::of(&text[..end])
}

/// The symbol of an instrument.
pub fn symbol_of(rules: &Rulebook, instrument: Instrument) -> Id
    requires { IsListed rules.now instrument }
    ensures { result ≡ symbol_of rules.now instrument }
{
    match instrument {
        Instrument::Outright(month) => rules.name_id(month),
        Instrument::Spread(near, far) => joined(&rules.name_id(near), &rules.name_id(far)),
    }
}
