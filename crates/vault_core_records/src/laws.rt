//! What holds of every rule set, by a law that is the contract of a function that does nothing.
ghost use Rattle.std.specs.Prelude.{IsTrue};
ghost use Rattle.vault_rules.specs.Rules.{is_rule_set};

use vault_rules::rule_set::RuleSet;

/// The rules of a set are valid together.
pub(crate) fn rules_are_a_rule_set(rules: &RuleSet)
    ensures { IsTrue (is_rule_set rules.now) }
{
    let _rules = rules.as_slice();
}
