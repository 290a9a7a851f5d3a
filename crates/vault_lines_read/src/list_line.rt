//! The line that asks for a listing of versions.
ghost use Rattle.std.specs.Prelude.{is_some};
ghost use Rattle.serde_json.specs.Find.{get};
ghost use Rattle.serde_json.specs.View.{view};
ghost use Rattle.vault_values.specs.Fault.{Gives};
ghost use Rattle.vault_lines_read.specs.ListLine as spec;
ghost use Rattle.vault_lines_read.specs.Verb.{values_of};
ghost use Rattle.vault_lines_read.specs.declared.verb.Verb.TheVariants as verb;

use serde_json::Value;
use std::alloc::Global;
use vault_base::limits::MOST_LISTED;
use vault_base::name::VersionId;
use vault_base::refusal::Refusal;
use vault_core_model::command::{Command, ListVersions};
use vault_lines_json::values;
use vault_values::fault::LineFault;

/// The entry of `after_key` after which the listing begins; it means nothing without that key.
#[tactic(auto, unfolding(crate::specs::ListLine::after_id_of))]
fn after_id(value: &Value) -> Result<Option<VersionId>, LineFault>
    ensures { Gives (λ x. x) result (spec.after_id_of (view value.now)) }
{
    let Some(id) = values::optional_id("after_id", value)? else {
        return Ok(None);
    };
    if value.get("after_key").is_some() {
        Ok(Some(id))
    } else {
        Err(LineFault::Refused(Refusal::InvalidArgument))
    }
}

#[tactic(auto, unfolding(crate::specs::ListLine::most_of))]
fn most(value: &Value) -> Result<u32, LineFault>
    ensures { Gives (λ x. x) result (spec.most_of (view value.now)) }
{
    let most = values::optional_number_of("most", value)?;
    Ok(most.unwrap_or(MOST_LISTED))
}

/// The command of a `list-versions` line, or its first fault: a value's refusal, or out of memory.
#[tactic(auto, unfolding(crate::specs::Verb::values_of))]
pub fn list_versions(alloc: Global, value: &Value) -> Result<Command, LineFault>
    ensures { Gives (λ x. x) result (values_of verb.ListVersions (view value.now)) }
{
    let bucket = values::bucket(alloc, value)?;
    let prefix = values::prefix(alloc, "prefix", value)?;
    let after_key = values::prefix(alloc, "after_key", value)?;
    let after_id = after_id(value)?;
    let most = most(value)?;
    Ok(Command::ListVersions(ListVersions {
        bucket,
        prefix,
        after_key,
        after_id,
        most,
    }))
}
