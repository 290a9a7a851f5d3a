//! The default retention and the lifecycle rules of a bucket.
ghost use Rattle.std.specs.Prelude.{IsTrue};
ghost use Rattle.vault_rules.specs.Rules.{is_rule_set};
ghost use Rattle.vault_core_model.specs.Leaves.{Leaves};
ghost use Rattle.vault_core_model.specs.Halts.{AnswersAs, is_device};
ghost use Rattle.vault_core_model.specs.RecordOutcomes as outcome;

use crate::laws::rules_are_a_rule_set;
use vault_base::moment::Moment;
use vault_base::name::CallerName;
use vault_base::refusal::Refusal;
use vault_base::right::Right;
use vault_core_checks::argument::check_default;
use vault_core_checks::caller::find_access;
use vault_core_model::change::Change;
use vault_core_model::command::{DropRules, GetDefault, GetRules, SetDefault, SetRules};
use vault_core_model::halt::Halt;
use vault_core_model::keeper::{Keeper, make_change};
use vault_core_model::reply::Answer;

/// Sets or clears the default retention of versions placed later.
pub fn set_default<K: Keeper>(
    keeper: &mut K,
    at: Moment,
    who: &CallerName,
    command: &SetDefault,
) -> Result<Answer, Halt>
    ensures meets { K.is_honest keeper.new → AnswersAs result (K.vault keeper.old) (K.vault keeper.new) (outcome.set_default (K.vault keeper.old) at who.now command.now) }
    ensures leaves { Leaves K.Kept keeper.old keeper.new (is_device result) }
{
    drop(find_access(keeper, at, who, &command.bucket, Right::Config)?);
    check_default(command.default)?;
    let change = Change::SetDefault(command.bucket.clone()?, command.default);
    make_change(keeper, at, change)?;
    Ok(Answer::Nothing)
}

/// Reads the default retention.
pub fn get_default<K: Keeper>(
    keeper: &mut K,
    at: Moment,
    who: &CallerName,
    command: &GetDefault,
) -> Result<Answer, Halt>
    ensures meets { K.is_honest keeper.new → AnswersAs result (K.vault keeper.old) (K.vault keeper.new) (outcome.get_default (K.vault keeper.old) at who.now command.now) }
    ensures leaves { Leaves K.Kept keeper.old keeper.new (is_device result) }
{
    let access = find_access(keeper, at, who, &command.bucket, Right::Config)?;
    let default = access.bucket.default;
    drop(access);
    Ok(Answer::Default(default))
}

/// Sets the lifecycle rules, in place of those that the bucket has.
pub fn set_rules<K: Keeper>(
    keeper: &mut K,
    at: Moment,
    who: &CallerName,
    command: &SetRules,
) -> Result<Answer, Halt>
    ensures meets { K.is_honest keeper.new → AnswersAs result (K.vault keeper.old) (K.vault keeper.new) (outcome.set_rules (K.vault keeper.old) at who.now command.now) }
    ensures rule_set { IsTrue (is_rule_set command.now.rules) }
    ensures leaves { Leaves K.Kept keeper.old keeper.new (is_device result) }
{
    rules_are_a_rule_set(&command.rules);
    drop(find_access(keeper, at, who, &command.bucket, Right::Config)?);
    let change = Change::SetRules(command.bucket.clone()?, Some(command.rules.clone()?));
    make_change(keeper, at, change)?;
    Ok(Answer::Nothing)
}

/// Reads the lifecycle rules.
pub fn get_rules<K: Keeper>(
    keeper: &mut K,
    at: Moment,
    who: &CallerName,
    command: &GetRules,
) -> Result<Answer, Halt>
    ensures meets { K.is_honest keeper.new → AnswersAs result (K.vault keeper.old) (K.vault keeper.new) (outcome.get_rules (K.vault keeper.old) at who.now command.now) }
    ensures leaves { Leaves K.Kept keeper.old keeper.new (is_device result) }
{
    drop(find_access(keeper, at, who, &command.bucket, Right::Config)?);
    let Some(rules) = keeper.rules(&command.bucket)? else {
        return Err(Halt::Refused(Refusal::NoSuchLifecycleConfiguration));
    };
    Ok(Answer::Rules(rules))
}

/// Drops the lifecycle rules; done also where there are none.
pub fn drop_rules<K: Keeper>(
    keeper: &mut K,
    at: Moment,
    who: &CallerName,
    command: &DropRules,
) -> Result<Answer, Halt>
    ensures meets { K.is_honest keeper.new → AnswersAs result (K.vault keeper.old) (K.vault keeper.new) (outcome.drop_rules (K.vault keeper.old) at who.now command.now) }
    ensures leaves { Leaves K.Kept keeper.old keeper.new (is_device result) }
{
    drop(find_access(keeper, at, who, &command.bucket, Right::Config)?);
    let change = Change::SetRules(command.bucket.clone()?, None);
    make_change(keeper, at, change)?;
    Ok(Answer::Nothing)
}
