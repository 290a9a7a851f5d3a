//! A bucket that moves to another department.
ghost use Rattle.std.specs.Prelude.{◌≡◌, ◌≤◌, IfOk, OnOk, Some};
ghost use Rattle.vault_core_model.specs.Leaves.{Leaves, LeavesSame};
ghost use Rattle.vault_core_model.specs.Halts.{ChecksAs, AnswersAs, is_device};
ghost use Rattle.vault_core_model.specs.Vault.{config_of};
ghost use Rattle.vault_core_model.specs.RecordOutcomes as outcome;

use vault_base::moment::Moment;
use vault_base::name::CallerName;
use vault_base::refusal::Refusal;
use vault_base::right::Right;
use vault_core_checks::argument::check_other;
use vault_core_checks::caller::{check_right, find_caller};
use vault_core_checks::limit::{check_moves, check_quota};
use vault_core_model::change::Change;
use vault_core_model::command::MoveBucket;
use vault_core_model::halt::Halt;
use vault_core_model::keeper::{Keeper, make_change};
use vault_core_model::records::BucketConfig;
use vault_core_model::reply::Answer;

/// Gives a bucket and its held content to another department, and answers the bytes of that content.
pub fn move_bucket<K: Keeper>(
    keeper: &mut K,
    at: Moment,
    who: &CallerName,
    command: &MoveBucket,
) -> Result<Answer, Halt>
    ensures meets { K.is_honest keeper.new → AnswersAs result (K.vault keeper.old) (K.vault keeper.new) (outcome.move_bucket (K.vault keeper.old) at who.now command.now) }
    ensures leaves { Leaves K.Kept keeper.old keeper.new (is_device result) }
{
    let bucket = find_bucket(keeper, at, who, command)?;
    let other = check_other(keeper, &bucket, &command.dept);
    drop(bucket);
    other?;
    let (bytes, _) = keeper.bucket_held(&command.bucket)?;
    check_quota(keeper, &command.dept, bytes)?;
    check_moves(keeper)?;
    let change = Change::MoveBucket(command.bucket.clone()?, command.dept.clone()?);
    make_change(keeper, at, change)?;
    Ok(Answer::Moved(bytes))
}

/// The clock, the caller, the bucket, the right to administer; whose the bucket is makes no difference.
///
/// As `find_caller`; NoSuchBucket; AccessDenied `right:admin`.
fn find_bucket<K: Keeper>(
    keeper: &mut K,
    at: Moment,
    who: &CallerName,
    command: &MoveBucket,
) -> Result<BucketConfig, Halt>
    ensures found { K.is_honest keeper.new → ChecksAs result (outcome.bucket_to_move (K.vault keeper.old) at who.now command.now) }
    ensures in_time { K.is_honest keeper.new → OnOk result ((K.vault keeper.old).last ≤ at) }
    ensures there { K.is_honest keeper.new → IfOk result (λ bucket. config_of (K.vault keeper.old) command.now.bucket ≡ Some bucket) }
    ensures leaves { LeavesSame K.Kept keeper.old keeper.new (is_device result) }
{
    let caller = find_caller(keeper, at, who)?;
    let Some(bucket) = keeper.bucket(&command.bucket)? else {
        return Err(Halt::Refused(Refusal::NoSuchBucket));
    };
    check_right(&caller, Right::Admin)?;
    Ok(bucket)
}
