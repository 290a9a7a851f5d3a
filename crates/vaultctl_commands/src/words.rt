//! Words that may be left out, ids and rights.
ghost use Rattle.vault_values.specs.Fault.{Gives};
ghost use Rattle.vault_values.specs.Rights.{rights_named};
ghost use Rattle.vaultctl_commands.specs.Words as spec;

use std::alloc::Global;
use vault_base::moment::Moment;
use vault_base::name::{DeptName, VersionId};
use vault_base::refusal::Refusal;
use vault_base::right::Right;
use vault_core_model::rights::Rights;
use vault_values::fault::LineFault;
use vault_values::named::{dept_named, reading_named};
use vaultctl_job::word::Word;

/// The reading, where one is given: InvalidArgument where it isn't written as a moment, ClockOutOfRange where
/// it lies outside the range of moments.
#[tactic(auto, unfolding(crate::specs::Words::optional_reading))]
pub fn optional_reading(word: &Option<Word>) -> Result<Option<Moment>, LineFault>
    ensures { Gives (λ x. x) result (spec.optional_reading word.now) }
{
    let Some(word) = word else {
        return Ok(None);
    };
    Ok(Some(reading_named(word.as_str())?))
}

/// The moment of that text; else InvalidArgument.
fn moment_named(text: &str) -> Result<Moment, LineFault>
    ensures { Gives (λ x. x) result (spec.moment_named text.now) }
{
    match Moment::read(text) {
        Ok(moment) => Ok(moment),
        Err(_) => Err(LineFault::Refused(Refusal::InvalidArgument)),
    }
}

/// The moment before which something was, where one is given.
#[tactic(auto, unfolding(crate::specs::Words::optional_moment))]
pub fn optional_moment(word: &Option<Word>) -> Result<Option<Moment>, LineFault>
    ensures { Gives (λ x. x) result (spec.optional_moment word.now) }
{
    let Some(word) = word else {
        return Ok(None);
    };
    Ok(Some(moment_named(word.as_str())?))
}

/// The name of a department, where one is given.
#[tactic(auto, unfolding(crate::specs::Words::optional_dept))]
pub fn optional_dept(alloc: Global, word: &Option<Word>) -> Result<Option<DeptName>, LineFault>
    ensures { Gives (λ x. x) result (spec.optional_dept word.now) }
{
    let Some(word) = word else {
        return Ok(None);
    };
    Ok(Some(dept_named(alloc, word.as_str())?))
}

/// The id of a version, in decimal without a sign and without zeros in front; else InvalidArgument.
#[tactic(auto, unfolding(crate::specs::Words::version_named))]
pub fn version_named(word: &Word) -> Result<VersionId, LineFault>
    ensures { Gives (λ x. x) result (spec.version_named word.now) }
{
    match VersionId::read(word.as_str()) {
        Ok(id) => Ok(id),
        Err(_) => Err(LineFault::Refused(Refusal::InvalidArgument)),
    }
}

/// The rights of those names; a right that is named twice counts once. InvalidArgument where a word is none.
#[tactic(auto, unfolding(vault_values::specs::Rights::rights_named))]
pub fn rights_named(words: &[Word]) -> Result<Rights, LineFault>
    ensures { Gives (λ x. x) result (rights_named words.now) }
{
    let mut rights = Rights::none();
    for word in words {
        let Some(right) = Right::read(word.as_str()) else {
            return Err(LineFault::Refused(Refusal::InvalidArgument));
        };
        rights = rights.with(right);
    }
    Ok(rights)
}
