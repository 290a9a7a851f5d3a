//! Texts to retentions and holds.
ghost use Rattle.std.specs.Prelude.{option_map};
ghost use Rattle.vault_values.specs.Fault.{Gives, or_invalid};
ghost use Rattle.vault_values.specs.Locks as spec;
ghost use Rattle.vault_values.specs.Words.{mode_named as mode_of, hold_named as is_on};

use crate::fault::LineFault;
use crate::named::until_named;
use crate::words::{hold_named, mode_named};
use vault_base::refusal::Refusal;
use vault_lock::retention::{Mode, Retention};

/// The mode of that name; else InvalidArgument.
pub fn mode(text: &str) -> Result<Mode, LineFault>
    ensures { Gives (λ x. x) result (or_invalid (mode_of text.now)) }
{
    match mode_named(text) {
        Some(mode) => Ok(mode),
        None => Err(LineFault::Refused(Refusal::InvalidArgument)),
    }
}

/// A retention by the texts of its mode and its end, of which the mode is read first.
///
/// InvalidArgument for another mode, or a text that is no moment; RetentionOutOfRange for a moment outside 1970 to
/// 9999.
#[tactic(auto, unfolding(crate::specs::Locks::retention_spelled))]
pub fn retention_spelled(mode_text: &str, until_text: &str) -> Result<Retention, LineFault>
    ensures { Gives (λ x. x) result (spec.retention_spelled mode_text.now until_text.now) }
{
    let mode = mode(mode_text)?;
    let until = until_named(until_text)?;
    Ok(Retention { mode, until })
}

/// A retention by the texts of its mode and its end, which stand together or not at all.
///
/// InvalidArgument for one without the other, another mode, or a text that is no moment; RetentionOutOfRange for
/// a moment outside 1970 to 9999.
#[tactic(auto, unfolding(crate::specs::Locks::both_or_none))]
pub fn both_or_none(mode: Option<&str>, until: Option<&str>) -> Result<Option<Retention>, LineFault>
    ensures { Gives (λ x. x) result (spec.both_or_none (option_map (λ t. t.now) mode.entry) (option_map (λ t. t.now) until.entry)) }
{
    match (mode, until) {
        (None, None) => Ok(None),
        (Some(mode), Some(until)) => Ok(Some(retention_spelled(mode, until)?)),
        _ => Err(LineFault::Refused(Refusal::InvalidArgument)),
    }
}

/// Whether a text names a hold that is on, `ON` or `OFF`; else InvalidArgument.
pub fn is_on(text: &str) -> Result<bool, LineFault>
    ensures { Gives (λ x. x) result (or_invalid (is_on text.now)) }
{
    match hold_named(text) {
        Some(hold) => Ok(hold),
        None => Err(LineFault::Refused(Refusal::InvalidArgument)),
    }
}
