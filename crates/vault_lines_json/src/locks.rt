//! Members of an object to retentions, holds and defaults.
ghost use Rattle.std.specs.Prelude.{option_map};
ghost use Rattle.serde_json.specs.View.{view};
ghost use Rattle.vault_lines_json.specs.Locks as spec;
ghost use Rattle.vault_values.specs.Fault.{Gives};

use crate::members::{Whole, flag_of, optional_text_of, optional_whole_of, text_of};
use crate::values::{small, smaller};
use serde_json::Value;
use vault_base::refusal::Refusal;
use vault_lock::retention::{Default, Period, Retention};
use vault_values::fault::LineFault;
use vault_values::locks::{both_or_none, is_on, mode, retention_spelled};

/// A retention: the members `mode` and `until`.
#[tactic(auto, unfolding(crate::specs::Locks::retention_of))]
pub fn retention(value: &Value) -> Result<Retention, LineFault>
    ensures { Gives (λ x. x) result (spec.retention_of (view value.now)) }
{
    let mode = text_of("mode", value)?;
    let until = text_of("until", value)?;
    retention_spelled(mode, until)
}

/// A retention, where the members `mode` and `until` are there; they stand together or not at
/// all.
#[tactic(auto, unfolding(crate::specs::Locks::optional_retention_of))]
pub fn optional_retention(value: &Value) -> Result<Option<Retention>, LineFault>
    ensures { Gives (λ x. x) result (spec.optional_retention_of (view value.now)) }
{
    let mode = optional_text_of("mode", value)?;
    let until = optional_text_of("until", value)?;
    both_or_none(mode, until)
}

/// Whether a legal hold is to be on: the member `hold`.
#[tactic(auto, unfolding(crate::specs::Locks::hold_of))]
pub fn hold(value: &Value) -> Result<bool, LineFault>
    ensures { Gives (λ x. x) result (spec.hold_of (view value.now)) }
{
    let text = text_of("hold", value)?;
    is_on(text)
}

/// Whether a legal hold is to be on, if it is said.
#[tactic(auto, unfolding(crate::specs::Locks::optional_hold_of))]
pub fn optional_hold(value: &Value) -> Result<Option<bool>, LineFault>
    ensures { Gives (λ x. x) result (spec.optional_hold_of (view value.now)) }
{
    let Some(text) = optional_text_of("hold", value)? else {
        return Ok(None);
    };
    Ok(Some(is_on(text)?))
}

/// Whether governance is to be bypassed: the member `bypass`.
#[tactic(auto, unfolding(crate::specs::Locks::bypass_of))]
pub fn bypass(value: &Value) -> Result<bool, LineFault>
    ensures { Gives (λ x. x) result (spec.bypass_of (view value.now)) }
{
    flag_of("bypass", value)
}

#[tactic(auto, unfolding(crate::specs::Locks::default_spelled))]
fn default_spelled(
    mode_text: Option<&str>,
    days: Option<Whole>,
    years: Option<Whole>,
) -> Result<Option<Default>, LineFault>
    ensures { Gives (λ x. x) result (spec.default_spelled (option_map (λ t. t.now) mode_text.entry) days years) }
{
    match (mode_text, days, years) {
        (None, None, None) => Ok(None),
        (Some(text), Some(days), None) => {
            let mode = mode(text)?;
            let period = Period::Days(small(days)?);
            Ok(Some(Default { mode, period }))
        }
        (Some(text), None, Some(years)) => {
            let mode = mode(text)?;
            let period = Period::Years(smaller(years)?);
            Ok(Some(Default { mode, period }))
        }
        _ => Err(LineFault::Refused(Refusal::InvalidArgument)),
    }
}

/// A default retention: the member `mode`, and `days` or `years`. None of them says that there
/// is to be no default.
#[tactic(auto, unfolding(crate::specs::Locks::default_of))]
pub fn default(value: &Value) -> Result<Option<Default>, LineFault>
    ensures { Gives (λ x. x) result (spec.default_of (view value.now)) }
{
    let mode = optional_text_of("mode", value)?;
    let days = optional_whole_of("days", value)?;
    let years = optional_whole_of("years", value)?;
    default_spelled(mode, days, years)
}
