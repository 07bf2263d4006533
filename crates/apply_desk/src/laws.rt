//! Laws: a journal applied entry by entry is the journal applied whole; spent numbers are the first place that wants one more.
ghost use Rattle.std.specs.Prelude.{◌≡◌, ℕ, ◌<◌, ◌≤◌, ◌-◌, true, false, List, take};
ghost use Rattle.spread_rules_ids.specs.declared.limits.TheConstants.{SESSIONS};
ghost use Rattle.spread_rules.specs.declared.event.Entry.{Entry};
ghost use Rattle.spread_rules_rulebook.specs.Rulebook.{Rules};
ghost use Rattle.spread_report.specs.Outgoing.{spends_numbers, AppliedEntry};
ghost use Rattle.apply_desk.specs.Applied.{applied_entries, SpendsAt, applied_journal};
ghost use Rattle.std.specs.List.{flat_map};
ghost use Rattle.spread_rules.specs.code.Meaning.{meaning_of_journal};

/// Where outgoing numbers are spent at an entry's place, a session's numbers are spent behind that entry, and no
/// session's before it.
pub fn numbers_spent()
    ensures first { (rules : Rules) (journal : List Entry) (place : ℕ)
        → SpendsAt rules journal place → 1 ≤ place }
    ensures session { (rules : Rules) (journal : List Entry) (place : ℕ)
        → SpendsAt rules journal place → (s : ℕ) × (s < SESSIONS)
        × (spends_numbers rules (applied_entries rules (take place journal)) s ≡ true) }
    ensures none_before { (rules : Rules) (journal : List Entry) (place : ℕ)
        → SpendsAt rules journal place → (s : ℕ) → s < SESSIONS
        → spends_numbers rules (applied_entries rules (take (place - 1) journal)) s ≡ false }
{}

/// A journal applied entry by entry, each with all entries before it, leaves the orders and makes the fills of the state
/// that the calls of a market keep.
pub fn one_by_one()
    ensures orders { (rules : Rules) (journal : List Entry)
        → (applied_journal rules journal).orders ≡ (meaning_of_journal rules journal).orders }
    ensures fills { (rules : Rules) (journal : List Entry)
        → flat_map (λ (w : AppliedEntry). w.fills) (applied_entries rules journal)
        ≡ (meaning_of_journal rules journal).fills }
{}
