//! Texts to rights.
ghost use Rattle.std.specs.Prelude.{map};
ghost use Rattle.vault_values.specs.Fault.{Gives};
ghost use Rattle.vault_values.specs.Rights as spec;

use crate::fault::LineFault;
use vault_base::refusal::Refusal;
use vault_base::right::Right;
use vault_core_model::rights::Rights;

/// The rights of those names; a right that is named twice counts once. InvalidArgument where a text names none.
#[tactic(auto, unfolding(crate::specs::Rights::rights_named))]
pub fn rights_named(names: &[&str]) -> Result<Rights, LineFault>
    ensures { Gives (λ x. x) result (spec.rights_named (map (λ n. n.now) names.now)) }
{
    let mut rights = Rights::none();
    for name in names {
        let Some(right) = Right::read(name) else {
            return Err(LineFault::Refused(Refusal::InvalidArgument));
        };
        rights = rights.with(right);
    }
    Ok(rights)
}
