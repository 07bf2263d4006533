//! Lines that switch a pair of months.
ghost use Rattle.std.specs.Prelude.{◌≡◌, ◌≢◌, ◌<◌, ◌≤◌, ℕ, Bool, [], All, length, get_or, IfSome, IfNone};
ghost use Rattle.spread_rules_ids.specs.declared.limits.TheConstants.{MAX_MONTHS};
ghost use Rattle.spread_rules_rulebook.specs.Rulebook.{IsName};
ghost use Rattle.spread_rules_rulebook.specs.RulebookText.{names_in, switch_text, IsPairLine};
ghost use Rattle.spread_rules_rulebook.specs.code.DraftFields.{HasDistinctNames};

use crate::rulebook::Month;
use spread_rules_ids::{after, cut_at};

/// What a line for a pair says.
#[derive(Clone, Copy)]
pub struct PairLine {
    pub near: u8,
    pub far: u8,
    pub on: bool,
}

/// The name of a month.
pub fn name_in(months: &[Month], month: u8) -> &[u8]
    requires { month < length months.now }
    ensures { result.now ≡ get_or (names_in months.now) month [] }
{
    months[month as usize].name.bytes()
}

/// The number of the month with this name, the first where there are several.
pub fn month_named(months: &[Month], name: &[u8]) -> Option<u8>
    requires { length months.now ≤ MAX_MONTHS }
    ensures found { IfSome result (λ m.
        (m < length months.now) × (get_or (names_in months.now) m [] ≡ name.now)) }
    ensures none { IfNone result ((m : ℕ)
        → m < length months.now → get_or (names_in months.now) m [] ≢ name.now) }
{
    for month in 0..months.len() as u8 {
        if name_in(months, month) == name {
            return Some(month);
        }
    }
    None
}

fn read_switch(text: &[u8]) -> Option<bool>
    ensures found { IfSome result (λ on. text.now ≡ switch_text on) }
    ensures none { IfNone result ((on : Bool) → text.now ≢ switch_text on) }
{
    match text {
        b"on" => Some(true),
        b"off" => Some(false),
        _ => None,
    }
}

/// What the line says, where it is one for a pair of these months.
pub fn read_pair(months: &[Month], line: &[u8]) -> Option<PairLine>
    requires most { length months.now ≤ MAX_MONTHS }
    requires names { All (λ m. IsName m.name) months.now }
    requires distinct { HasDistinctNames (names_in months.now) }
    ensures found { IfSome result (λ p. IsPairLine (names_in months.now) p.near p.far p.on line.now) }
    ensures none { IfNone result ((near far : ℕ) (on : Bool)
        → IsPairLine (names_in months.now) near far on line.now → ⊥) }
{
    let fields = after(line, b"pair ")?;
    let (near, others) = cut_at(fields, b' ')?;
    let (far, switch) = cut_at(others, b' ')?;
    let near = month_named(months, near)?;
    let far = month_named(months, far)?;
    let on = read_switch(switch)?;
    if near < far {
        Some(PairLine { near, far, on })
    } else {
        None
    }
}
