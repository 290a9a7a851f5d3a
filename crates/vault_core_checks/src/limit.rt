//! The quota of a department, and the numbers that the vault gives.
ghost use Rattle.std.specs.Prelude.{◌≡◌, ◌≤◌, ◌+◌, IfOk, IfErr, OnOk, nat_lt, ◌<◌, false, Some, None, if◌then◌else◌};
ghost use Rattle.vault_base.specs.Limits.{most_ids, most_moves, most_settings};
ghost use Rattle.vault_base.specs.Name.{is_version_id};
ghost use Rattle.vault_core_model.specs.Leaves.{LeavesSame};
ghost use Rattle.vault_core_model.specs.Halts.{ChecksAs, is_device, is_device_refusal};
ghost use Rattle.vault_core_model.specs.Vault.{next_id};
ghost use Rattle.vault_core_model.specs.Totals.{admitted_bytes, received_bytes};
ghost use Rattle.vault_core_model.specs.Checks.{check, within_quota, free_id, free_move};
ghost use Rattle.vault_base.specs.declared.refusal.Refusal.TheVariants.{VaultFull};
ghost use Rattle.vault_tally.specs.Row.{quota};

use vault_base::limits::{MOST_MOVES, MOST_SETTINGS};
use vault_base::name::{DeptName, VersionId};
use vault_base::refusal::Refusal;
use vault_core_model::halt::Halt;
use vault_core_model::keeper::Keeper;

/// The department may admit or receive n bytes more; else QuotaExceeded.
pub fn check_quota<K: Keeper>(keeper: &mut K, dept: &DeptName, size: u64) -> Result<(), Halt>
    ensures found { K.is_honest keeper.new → ChecksAs result (within_quota (K.vault keeper.old) dept.now size) }
    ensures fits { K.is_honest keeper.new → OnOk result (admitted_bytes (K.vault keeper.old) dept.now + received_bytes (K.vault keeper.old) dept.now + size ≤ quota) }
    ensures leaves { LeavesSame K.Kept keeper.old keeper.new (is_device result) }
{
    let row = keeper.totals(dept)?;
    if row.fits(size) {
        Ok(())
    } else {
        Err(Halt::Refused(Refusal::QuotaExceeded))
    }
}

/// The id of the next entry, while one is left; else VaultFull.
pub fn find_id<K: Keeper>(keeper: &mut K) -> Result<VersionId, Halt>
    ensures found { K.is_honest keeper.new → ChecksAs result (free_id (K.vault keeper.old)) }
    ensures few { K.is_honest keeper.new → OnOk result (next_id (K.vault keeper.old) ≤ most_ids) }
    ensures next { K.is_honest keeper.new → IfOk result (λ id. id ≡ next_id (K.vault keeper.old)) }
    ensures leaves { LeavesSame K.Kept keeper.old keeper.new (is_device result) }
{
    let next = keeper.next_id()?;
    match id_of(next) {
        Some(id) => Ok(id),
        None => Err(Halt::Refused(Refusal::VaultFull)),
    }
}

/// The id of that number.
fn id_of(number: u64) -> Option<VersionId>
    ensures { result ≡ (if is_version_id number then Some number else None) }
{
    match u32::try_from(number) {
        Ok(number) => VersionId::new(number),
        Err(_) => None,
    }
}

/// One bucket more may be moved; else VaultFull.
pub fn check_moves<K: Keeper>(keeper: &mut K) -> Result<(), Halt>
    ensures found { K.is_honest keeper.new → ChecksAs result (free_move (K.vault keeper.old)) }
    ensures left { K.is_honest keeper.new → OnOk result ((K.vault keeper.old).moves < most_moves) }
    ensures leaves { LeavesSame K.Kept keeper.old keeper.new (is_device result) }
{
    let made = keeper.moves()?;
    if made < MOST_MOVES {
        Ok(())
    } else {
        Err(Halt::Refused(Refusal::VaultFull))
    }
}

/// One setting more may be made of a version that has n; else VaultFull.
pub fn check_settings(count: u64) -> Result<(), Refusal>
    ensures exact { result ≡ check (nat_lt count most_settings) VaultFull }
    ensures fits { OnOk result (count < most_settings) }
    ensures device { IfErr result (λ refusal. is_device_refusal refusal ≡ false) }
{
    if count < MOST_SETTINGS {
        Ok(())
    } else {
        Err(Refusal::VaultFull)
    }
}
