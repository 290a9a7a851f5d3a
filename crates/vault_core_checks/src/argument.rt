//! The arguments of commands.
ghost use Rattle.std.specs.Prelude.{◌≡◌, ◌≤◌, IsTrue, IfErr, OnOk, false, Some};
ghost use Rattle.std.specs.Str.{bytes_eq};
ghost use Rattle.vault_base.specs.Content.{size, most_size};
ghost use Rattle.vault_core_model.specs.Leaves.{LeavesSame};
ghost use Rattle.vault_core_model.specs.Halts.{ChecksAs, is_device, is_device_refusal};
ghost use Rattle.vault_core_model.specs.Vault.{has_department};
ghost use Rattle.vault_core_model.specs.Sound.{HasPlace};
ghost use Rattle.vault_rules.specs.Rules.{passes_if_given};
ghost use Rattle.vault_core_model.specs.Checks.{has_place, small_enough, ends_later_if_given, known_department, known_department_if_given, other_department, allowed_default, has_period};

use vault_base::content::Content;
use vault_base::moment::Moment;
use vault_base::name::DeptName;
use vault_base::refusal::Refusal;
use vault_core_model::halt::Halt;
use vault_core_model::keeper::Keeper;
use vault_core_model::records::BucketConfig;
use vault_lock::retention::{Default, Retention};

/// A content that is kept outside is for a vault that registers such contents; else InvalidArgument.
pub fn check_place<K: Keeper>(keeper: &mut K, content: &Content) -> Result<(), Halt>
    ensures found { K.is_honest keeper.new → ChecksAs result (has_place (K.vault keeper.old) content.now) }
    ensures there { K.is_honest keeper.new → OnOk result (HasPlace (K.vault keeper.old).external (Some content.now)) }
    ensures leaves { LeavesSame K.Kept keeper.old keeper.new (is_device result) }
{
    if keeper.external()? || !content.is_external() {
        Ok(())
    } else {
        Err(Halt::Refused(Refusal::InvalidArgument))
    }
}

/// The content is within the limit of one version: 1,048,576 bytes that the vault keeps, or 5,368,709,120 that are kept
/// outside; else EntityTooLarge.
pub fn check_size(content: &Content) -> Result<(), Refusal>
    ensures exact { result ≡ small_enough content.now }
    ensures small { OnOk result (size content.now ≤ most_size content.now) }
    ensures device { IfErr result (λ refusal. is_device_refusal refusal ≡ false) }
{
    if content.is_in_limit() {
        Ok(())
    } else {
        Err(Refusal::EntityTooLarge)
    }
}

/// A new retention, where one is given, ends after the reading; else InvalidArgument.
pub fn check_end(at: Moment, retention: Option<Retention>) -> Result<(), Refusal>
    ensures exact { result ≡ ends_later_if_given at retention }
    ensures device { IfErr result (λ refusal. is_device_refusal refusal ≡ false) }
{
    match retention {
        None => Ok(()),
        Some(retention) if at < retention.until => Ok(()),
        Some(_) => Err(Refusal::InvalidArgument),
    }
}

/// The department is there; else InvalidArgument.
pub fn check_dept<K: Keeper>(keeper: &mut K, dept: &DeptName) -> Result<(), Halt>
    ensures found { K.is_honest keeper.new → ChecksAs result (known_department (K.vault keeper.old) dept.now) }
    ensures there { K.is_honest keeper.new → OnOk result (IsTrue (has_department (K.vault keeper.old) dept.now)) }
    ensures leaves { LeavesSame K.Kept keeper.old keeper.new (is_device result) }
{
    if keeper.dept(dept)? {
        Ok(())
    } else {
        Err(Halt::Refused(Refusal::InvalidArgument))
    }
}

/// The department, where one is given, is there; else InvalidArgument.
pub fn check_dept_if_given<K: Keeper>(keeper: &mut K, dept: &Option<DeptName>) -> Result<(), Halt>
    ensures found { K.is_honest keeper.new → ChecksAs result (known_department_if_given (K.vault keeper.old) dept.now) }
    ensures there { K.is_honest keeper.new → OnOk result (IsTrue (passes_if_given (has_department (K.vault keeper.old)) dept.now)) }
    ensures leaves { LeavesSame K.Kept keeper.old keeper.new (is_device result) }
{
    match dept {
        None => Ok(()),
        Some(dept) => check_dept(keeper, dept),
    }
}

/// The department is there, and isn't the bucket's own; else InvalidArgument.
pub fn check_other<K: Keeper>(
    keeper: &mut K,
    bucket: &BucketConfig,
    dept: &DeptName,
) -> Result<(), Halt>
    ensures found { K.is_honest keeper.new → ChecksAs result (other_department (K.vault keeper.old) bucket.now dept.now) }
    ensures there { K.is_honest keeper.new → OnOk result (IsTrue (has_department (K.vault keeper.old) dept.now)) }
    ensures other { OnOk result (bytes_eq bucket.now.dept dept.now ≡ false) }
    ensures leaves { LeavesSame K.Kept keeper.old keeper.new (is_device result) }
{
    check_dept(keeper, dept)?;
    if bucket.dept == *dept {
        return Err(Halt::Refused(Refusal::InvalidArgument));
    }
    Ok(())
}

/// A default's period, where there is a default, is in its range, 1 to 36,500 days or 1 to 100 years; else
/// InvalidArgument (Amazon S3 User Guide, "Locking objects with Object Lock").
pub fn check_default(default: Option<Default>) -> Result<(), Refusal>
    ensures exact { result ≡ allowed_default default }
    ensures period { OnOk result (IsTrue (has_period default)) }
    ensures device { IfErr result (λ refusal. is_device_refusal refusal ≡ false) }
{
    match default {
        None => Ok(()),
        Some(default) if default.period.is_in_range() => Ok(()),
        Some(_) => Err(Refusal::InvalidArgument),
    }
}
