//! Guesses of which month has a name.
ghost use Rattle.std.specs.Prelude.{◌<◌, ◌≤◌, length};
ghost use Rattle.spread_rules_ids.specs.declared.limits.TheConstants.{MAX_MONTHS};

use crate::rulebook::Month;

/// How many guesses there are.
const GUESSES: usize = 128;

/// For each place, the month that may have a name of that place. Nothing rests on a guess: who takes one looks whether
/// the month has that name, and looks at all months if it has not.
#[derive(Clone, Copy)]
pub struct NameGuesses {
    months: [u8; GUESSES],
}

/// The place of a name. Names of a letter and the last digit of a year, as futures months have, do not meet within four
/// years of one decade.
fn place_of(name: &[u8]) -> usize
    ensures { result < GUESSES }
{
    match (name.first(), name.last()) {
        (Some(first), Some(last)) => { (usize::from(*first) + 32 * usize::from(*last)) % GUESSES }
        _ => 0,
    }
}

impl NameGuesses {
    /// The guesses of these months' names.
    pub fn new(months: &[Month]) -> NameGuesses
        requires { length months.now ≤ MAX_MONTHS }
    {
        let mut guesses = [0; GUESSES];
        for month in 0..months.len() as u8 {
            guesses[place_of(months[month as usize].name.bytes())] = month;
        }
        NameGuesses { months: guesses }
    }

    /// The month that may have that name.
    pub fn month(&self, name: &[u8]) -> u8 {
        self.months[place_of(name)]
    }
}
