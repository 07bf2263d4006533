//! A rulebook's text, read line by line from the top.
ghost use Rattle.std.specs.Prelude.{◌≡◌, ◌≢◌, ◌<◌, ◌↔◌, ℕ, ℤ, true, IsTrue, IfSome, IfNone, Some, Ok, Err, MatchResult, IfOk, Result, List};
ghost use Rattle.std.specs.Fmt.{signed_decimal};
ghost use Rattle.spread_rules_rulebook.specs.Rulebook.{Rules, IsMonth, is_name_byte, IsTick, IsName, IsReference};
ghost use Rattle.spread_rules_rulebook.specs.RulebookText.{names_in, IsPairLine, IsSkipped, tick_line, month_line, no_lines, LineGives, EndGives, ReadsRulebook};
ghost use Rattle.spread_rules_rulebook.specs.code.DraftFields.{IsDraft, so_far};
ghost use Rattle.spread_rules_rulebook.specs.declared.rulebook.Month.{Month};
ghost use Rattle.spread_rules_rulebook.specs.declared.rule_fault.RuleFault.{RuleFault};

use crate::pair_line::{PairLine, month_named, read_pair};
use crate::rule_fault::RuleFault;
use crate::rulebook::Month;
use crate::switches::{Switches, no_switches};
use spread_rules_ids::{Id, after, cut_at, limits, read_plain};

const SLOTS: usize = limits::MAX_MONTHS as usize;

/// Up to `MAX_MONTHS` months in order of expiry: the first ones of the slots.
#[derive(Drop)]
pub struct MonthList {
    pub count: usize,
    pub slots: [Month; SLOTS],
}

/// What the lines so far say.
#[derive(Drop)]
pub struct Draft {
    pub tick: Option<i64>,
    pub list: MonthList,
    pub switches: Switches,
}

/// Nothing yet.
fn empty_draft() -> Draft
    ensures value { so_far result ≡ no_lines }
    ensures kept { IsDraft result }
{
    Draft {
        tick: None,
        list: MonthList {
            count: 0,
            slots: [Month {
                name: Id::default(),
                reference: 0,
            }; SLOTS],
        },
        switches: no_switches(),
    }
}

fn is_skipped(line: &[u8]) -> bool
    ensures { IsTrue result ↔ IsSkipped line.now }
{
    match line {
        [] => true,
        [first, ..] => *first == b'#',
    }
}

fn read_tick(line: &[u8]) -> Option<i64>
    ensures found { IfSome result (λ t. (line.now ≡ tick_line t) × IsTick t) }
    ensures none { IfNone result ((t : ℤ) → IsTick t → line.now ≢ tick_line t) }
{
    let digits = match after(line, b"tick ") {
        Some(digits) => digits,
        None => return None,
    };
    let tick = match read_plain(digits) {
        Some(tick) => tick,
        None => return None,
    };
    if tick < 1 {
        return None;
    }
    if tick > limits::MAX_TICK {
        return None;
    }
    Some(tick)
}

fn is_letter_or_digit(byte: u8) -> bool
    ensures { result ≡ is_name_byte byte }
{
    matches!(byte, b'A'..=b'Z' | b'a'..=b'z' | b'0'..=b'9')
}

/// The name that this text is.
fn read_name(text: &[u8]) -> Option<Id>
    ensures found { IfSome result (λ name. (name ≡ text.now) × IsName text.now) }
    ensures none { IfNone result (IsName text.now → ⊥) }
{
    if text.len() > limits::MAX_NAME_LENGTH {
        return None;
    }
    for byte in text {
        if !is_letter_or_digit(*byte) {
            return None;
        }
    }
    Id::new(text)
}

/// The reference price that this text is.
fn read_reference(text: &[u8], tick: i64) -> Option<i64>
    requires { IsTick tick }
    ensures found { IfSome result (λ z. (text.now ≡ signed_decimal z) × IsReference tick z) }
    ensures none { IfNone result ((z : ℤ) → IsReference tick z → text.now ≢ signed_decimal z) }
{
    let reference = match read_plain(text) {
        Some(reference) => reference,
        None => return None,
    };
    if reference < -limits::MAX_PRICE {
        return None;
    }
    if reference > limits::MAX_PRICE {
        return None;
    }
    if reference % tick != 0 {
        return None;
    }
    Some(reference)
}

fn read_month(line: &[u8], tick: i64) -> Option<Month>
    requires { IsTick tick }
    ensures found { IfSome result (λ m. (line.now ≡ month_line m) × IsMonth tick m) }
    ensures none { IfNone result ((m : Month) → IsMonth tick m → line.now ≢ month_line m) }
{
    let fields = match after(line, b"month ") {
        Some(fields) => fields,
        None => return None,
    };
    let (name, digits) = match cut_at(fields, b' ') {
        Some(cut) => cut,
        None => return None,
    };
    let name = match read_name(name) {
        Some(name) => name,
        None => return None,
    };
    match read_reference(digits, tick) {
        Some(reference) => Some(Month { name, reference }),
        None => None,
    }
}

/// One month more, unless there is no room for it or its name is taken.
fn add_month(draft: &mut Draft, month: Month) -> Result<(), RuleFault>
    requires draft { IsDraft draft.old }
    requires fits { (t : ℤ) × (draft.old.tick ≡ Some t) × IsMonth t month }
    ensures gives { (n : ℕ) (line : List ℕ) → line ≡ month_line month → MatchResult result
        (λ _. LineGives n (so_far draft.old) line (Ok (so_far draft.new)))
        (λ f. LineGives n (so_far draft.old) line (Err f)) }
    ensures kept { IsDraft draft.new }
    ensures never { result ≢ Err RuleFault.NoMemory }
{
    if draft.list.count >= SLOTS {
        return Err(RuleFault::TooManyMonths);
    }
    let named = &draft.list.slots[..draft.list.count];
    if let Some(_) = month_named(named, month.name.bytes()) {
        return Err(RuleFault::NamedTwice);
    }
    draft.list.slots[draft.list.count] = month;
    draft.list.count += 1;
    Ok(())
}

/// Switches a pair, unless it was switched before.
fn add_switch(draft: &mut Draft, pair: PairLine) -> Result<(), RuleFault>
    requires draft { IsDraft draft.old }
    requires tick { (t : ℤ) × (draft.old.tick ≡ Some t) }
    requires order { pair.near < pair.far }
    requires named { pair.far < draft.old.list.count }
    ensures gives { (n : ℕ) (line : List ℕ)
        → IsPairLine (names_in (so_far draft.old).months) pair.near pair.far pair.on line
        → MatchResult result
        (λ _. LineGives n (so_far draft.old) line (Ok (so_far draft.new)))
        (λ f. LineGives n (so_far draft.old) line (Err f)) }
    ensures kept { IsDraft draft.new }
    ensures never { result ≢ Err RuleFault.NoMemory }
{
    match draft.switches.said(pair.near, pair.far) {
        Some(_) => Err(RuleFault::NamedTwice),
        None => {
            draft.switches.put(pair.near, pair.far, pair.on);
            Ok(())
        }
    }
}

/// What this line makes of the draft. A fault leaves it as it was.
fn add_line(number: u64, draft: &mut Draft, line: &[u8]) -> Result<(), RuleFault>
    requires { IsDraft draft.old }
    ensures gives { MatchResult result
        (λ _. LineGives number (so_far draft.old) line.now (Ok (so_far draft.new)))
        (λ f. LineGives number (so_far draft.old) line.now (Err f)) }
    ensures kept { IsDraft draft.new }
    ensures never { result ≢ Err RuleFault.NoMemory }
{
    if is_skipped(line) {
        return Ok(());
    }
    let tick = match draft.tick {
        Some(tick) => tick,
        None => match read_tick(line) {
            Some(tick) => {
                draft.tick = Some(tick);
                return Ok(());
            }
            None => return Err(RuleFault::BadLine(number)),
        },
    };
    if let Some(month) = read_month(line, tick) {
        return add_month(draft, month);
    }
    match read_pair(&draft.list.slots[..draft.list.count], line) {
        Some(pair) => add_switch(draft, pair),
        None => Err(RuleFault::BadLine(number)),
    }
}

/// The draft of this text, whose last line may lack its line end; or the first fault in a line.
pub fn read_lines(text: &[u8]) -> Result<Draft, RuleFault>
    ensures reads { MatchResult result
        (λ d. (answer : Result Rules RuleFault)
        → EndGives (so_far d) answer → ReadsRulebook text.now answer)
        (λ f. ReadsRulebook text.now (Err f)) }
    ensures kept { IfOk result IsDraft }
    ensures never { result ≢ Err RuleFault.NoMemory }
{
    let mut draft = empty_draft();
    let mut rest = text;
    let mut number = 1u64;
    // The label names the loop for its proof.
    'lines: loop {
        let (line, others) = match cut_at(rest, b'\n') {
            Some(cut) => cut,
            None => {
                return match add_line(number, &mut draft, rest) {
                    Ok(()) => Ok(draft),
                    Err(fault) => Err(fault),
                };
            }
        };
        match add_line(number, &mut draft, line) {
            Ok(()) => {}
            Err(fault) => return Err(fault),
        }
        number += 1;
        rest = others;
    }
}
