//! Which pairs of months were switched on or off for implied trading.
ghost use Rattle.std.specs.Prelude.{◌≡◌, ◌<◌, length, set, Some, true, unwrap_or};
ghost use Rattle.spread_rules_rulebook.specs.code.Rulebook.{switch_number, switch_of};
ghost use Rattle.spread_rules_rulebook.specs.RulebookText.{no_switches};

use spread_rules_ids::limits;

const MONTHS: usize = limits::MAX_MONTHS as usize;

const PAIRS: usize = MONTHS * MONTHS;

/// A row of switches for each near month, in which a pair that was not switched has none.
#[derive(Drop)]
pub struct Switches {
    pub rows: [Option<bool>; PAIRS],
}

/// Which switch is that of a pair.
fn switch_number(near: u8, far: u8) -> usize
    ensures { result ≡ switch_number near far }
{
    usize::from(near) * MONTHS + usize::from(far)
}

/// No pair is switched yet.
pub fn no_switches() -> Switches
    ensures { result.rows ≡ no_switches }
{
    Switches {
        rows: [None; PAIRS],
    }
}

impl Switches {
    /// How the pair was switched.
    pub fn said(&self, near: u8, far: u8) -> Option<bool>
        ensures { result ≡ switch_of self.now.rows near far }
    {
        let number = switch_number(near, far);
        if number < self.rows.len() {
            self.rows[number]
        } else {
            None
        }
    }

    /// Whether the pair takes part in implied trading: one that was not switched does.
    pub fn is_on(&self, near: u8, far: u8) -> bool
        ensures { result ≡ unwrap_or (switch_of self.now.rows near far) true }
    {
        match self.said(near, far) {
            Some(on) => on,
            None => true,
        }
    }

    /// Switches a pair of months that a rulebook may have.
    pub fn put(&mut self, near: u8, far: u8, on: bool)
        requires { switch_number near far < length self.old.rows }
        ensures { self.new.rows ≡ set self.old.rows (switch_number near far) (Some on) }
    {
        self.rows[switch_number(near, far)] = Some(on);
    }
}
