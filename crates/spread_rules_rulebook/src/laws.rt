//! Laws: a rulebook's text has one answer; one of twelve months means what it meant before pairs.
ghost use Rattle.std.specs.Prelude.{◌≡◌, ◌≢◌, true, Ok, Err, ℕ, List, Result};
ghost use Rattle.spread_rules_rulebook.specs.RulebookTextBeforePairs.{FirstRules, HasNoPairLine, with_all_on, answer_with_all_on, ReadsRulebook as first_ReadsRulebook};
ghost use Rattle.spread_rules_rulebook.specs.Rulebook.{Rules, implied};
ghost use Rattle.spread_rules_rulebook.specs.RulebookText.{ReadsRulebook};
ghost use Rattle.spread_rules_rulebook.specs.declared.rule_fault.RuleFault.{RuleFault};

/// A rulebook's text has one answer.
pub fn one_rulebook()
    ensures once { (text : List ℕ) (a b : Result Rules RuleFault)
        → ReadsRulebook text a → ReadsRulebook text b → a ≡ b }
{}

/// A rulebook's text of up to twelve months without a line for a pair means what it meant before pairs could be
/// switched, its faults too; so does every text that was read; and all pairs are on.
pub fn twelve_months()
    ensures kept { (text : List ℕ) (answer : Result FirstRules RuleFault)
        → first_ReadsRulebook text answer → answer ≢ Err RuleFault.TooManyMonths
        → HasNoPairLine text → ReadsRulebook text (answer_with_all_on answer) }
    ensures read { (text : List ℕ) (r : FirstRules)
        → first_ReadsRulebook text (Ok r) → ReadsRulebook text (Ok (with_all_on r)) }
    ensures on { (r : FirstRules) (near far : ℕ) → implied (with_all_on r) near far ≡ true }
{}
