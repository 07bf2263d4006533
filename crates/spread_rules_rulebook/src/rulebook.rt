//! The rulebook of a day.
ghost use Rattle.std.specs.Prelude.{◌≡◌, ◌≢◌, ◌<◌, ◌≤◌, ℕ, length, get_or, [], pos, IfSome, IfNone, Ok, Err, MatchResult, ◌≤ℤ◌};
ghost use Rattle.spread_rules_ids.specs.declared.limits.TheConstants.{MAX_MONTHS, MAX_NAME_LENGTH, MAX_TICK};
ghost use Rattle.spread_rules_rulebook.specs.Rulebook.{implied, month_count, names_of, references_of, IsListed, symbol_of, find_symbol, IsRules};
ghost use Rattle.spread_rules_rulebook.specs.RulebookText.{ReadsRulebook};
ghost use Rattle.spread_rules_rulebook.specs.declared.instrument.Instrument.{Instrument};
ghost use Rattle.spread_rules_rulebook.specs.declared.rule_fault.RuleFault.{RuleFault};

use crate::instrument::Instrument;
use crate::name_guesses::NameGuesses;
use crate::pair_line::{month_named, name_in};
use crate::rule_fault::RuleFault;
use crate::rulebook_text::{MonthList, read_lines};
use crate::switches::Switches;
use spread_rules_ids::{Id, cut_at};
use std::marker::Model;

/// A contract month.
#[derive(Clone, Copy, PartialEq, Eq)]
pub struct Month {
    /// 1 to 15 letters and digits.
    pub name: Id,
    /// The reference price, in hundredths: a multiple of the tick, within 1,000,000,000 either way.
    pub reference: i64,
}

/// The tick, the months in order of expiry, and which pairs of them take part in implied trading.
#[derive(Drop)]
pub struct Rulebook {
    tick: i64,
    list: MonthList,
    switches: Switches,
    guesses: NameGuesses,
}

impl Model for Rulebook {
    ghost use Rattle.spread_rules_rulebook.specs.Rulebook.{Rules};
    ghost use Rattle.std.specs.Prelude.{take};

    ghost Value = { Rules };

    ghost use Rattle.spread_rules_rulebook.specs.code.RulebookFields.{rules_of, IsRulebook};

    ghost view = { rules_of };

    ghost invariant = { IsRulebook };
}

impl Rulebook {
    /// The rulebook of this text, or the first fault from the top. Lines count from 1, the empty ones and comments too.
    pub fn read(text: &[u8]) -> Result<Rulebook, RuleFault>
        ensures reads { MatchResult result
            (λ rules. ReadsRulebook text.now (Ok rules))
            (λ f. ReadsRulebook text.now (Err f)) }
        ensures takes_no_memory { result ≢ Err RuleFault.NoMemory }
    {
        let draft = match read_lines(text) {
            Ok(draft) => draft,
            Err(fault) => return Err(fault),
        };
        let tick = match draft.tick {
            Some(tick) => tick,
            None => return Err(RuleFault::NoMonth),
        };
        if draft.list.count == 0 {
            return Err(RuleFault::NoMonth);
        }
        let guesses = NameGuesses::new(&draft.list.slots[..draft.list.count]);
        Ok(Rulebook {
            tick,
            list: draft.list,
            switches: draft.switches,
            guesses,
        })
    }

    /// How many months there are, 1 to 24.
    pub fn months(&self) -> u8
        ensures count { result ≡ month_count self.now }
        ensures some { 1 ≤ result }
        ensures most { result ≤ MAX_MONTHS }
        ensures lawful { IsRules self.now }
    {
        self.list.count as u8
    }

    /// The month's name, 1 to 15 letters and digits.
    pub fn name(&self, month: u8) -> &[u8]
        requires { month < month_count self.now }
        ensures { result.now ≡ get_or (names_of self.now) month [] }
    {
        self.list.slots[month as usize].name.bytes()
    }

    /// The month's name as an id.
    pub fn name_id(&self, month: u8) -> Id
        requires { month < month_count self.now }
        ensures value { result ≡ get_or (names_of self.now) month [] }
        ensures most { length result ≤ MAX_NAME_LENGTH }
        // What a rulebook keeps at all times.
        ensures lawful { IsRules self.now }
    {
        self.list.slots[month as usize].name
    }

    /// The month's reference price, in hundredths.
    pub fn reference(&self, month: u8) -> i64
        requires { month < month_count self.now }
        ensures { result ≡ get_or (references_of self.now) month (pos 0) }
    {
        self.list.slots[month as usize].reference
    }

    /// Whether the pair of these months, the near one first, takes part in implied trading.
    pub fn implied(&self, near: u8, far: u8) -> bool
        ensures { result ≡ implied self.now near far }
    {
        self.switches.is_on(near, far)
    }

    /// The month that is guessed to have this name, where it has.
    fn month_guessed(&self, name: &[u8]) -> Option<u8>
        ensures found { IfSome result (λ m.
            (m < month_count self.now) × (get_or (names_of self.now) m [] ≡ name.now)) }
    {
        let months = &self.list.slots[..self.list.count];
        let guess = self.guesses.month(name);
        if usize::from(guess) < months.len() && name_in(months, guess) == name {
            return Some(guess);
        }
        None
    }

    /// The number of the month with this name: the one that is guessed, or one that is looked for.
    fn month_named(&self, name: &[u8]) -> Option<u8>
        ensures found { IfSome result (λ m.
            (m < month_count self.now) × (get_or (names_of self.now) m [] ≡ name.now)) }
        ensures none { IfNone result ((m : ℕ)
            → m < month_count self.now → get_or (names_of self.now) m [] ≢ name.now) }
    {
        match self.month_guessed(name) {
            Some(month) => Some(month),
            None => month_named(&self.list.slots[..self.list.count], name),
        }
    }

    /// The spread with this symbol.
    fn spread_named(&self, symbol: &[u8]) -> Option<Instrument>
        ensures found { IfSome result (λ i.
            IsListed self.now i × (symbol_of self.now i ≡ symbol.now)) }
        ensures none { IfNone result ((m f : ℕ)
            → IsListed self.now (Instrument.Spread m f)
            → symbol_of self.now (Instrument.Spread m f) ≢ symbol.now) }
    {
        // Read for the proof, which then knows that the tick is an `i64`.
        let _ = &self.tick;
        let (before, behind) = match cut_at(symbol, b'-') {
            Some(cut) => cut,
            None => return None,
        };
        let near = match self.month_named(before) {
            Some(month) => month,
            None => return None,
        };
        let far = match self.month_named(behind) {
            Some(month) => month,
            None => return None,
        };
        if near < far {
            Some(Instrument::Spread(near, far))
        } else {
            None
        }
    }

    /// The instrument with this symbol: a month's name, or two with a dash between, the near one first.
    pub fn find(&self, symbol: &[u8]) -> Option<Instrument>
        ensures found { IfSome result (λ i.
            IsListed self.now i × (symbol_of self.now i ≡ symbol.now)) }
        ensures none { IfNone result ((i : Instrument)
            → IsListed self.now i → symbol_of self.now i ≢ symbol.now) }
        ensures value { result ≡ find_symbol self.now symbol.now }
    {
        // Read for the proof, which then knows that the tick is an `i64`.
        let _ = &self.tick;
        if let Some(month) = self.month_guessed(symbol) {
            return Some(Instrument::Outright(month));
        }
        // A spread's symbol is no month's name, and whoever looks for a name that no month has looks at all.
        if let Some(spread) = self.spread_named(symbol) {
            return Some(spread);
        }
        match self.month_named(symbol) {
            Some(month) => Some(Instrument::Outright(month)),
            None => None,
        }
    }

    /// The tick, in hundredths, 1 to 1,000,000.
    pub fn tick(&self) -> i64
        ensures value { result ≡ self.now.tick }
        ensures low { pos 1 ≤ℤ result }
        ensures high { result ≤ℤ MAX_TICK }
    {
        self.tick
    }
}
