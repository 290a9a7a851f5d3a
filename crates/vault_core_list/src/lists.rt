//! The lists of a vault, and the changes of them.
ghost use Rattle.std.specs.Prelude.{◌≡◌, IfOk, OnOk, OnErr};
ghost use Rattle.vault_core_model.specs.Allowed.{Allows, IsMove};
ghost use Rattle.vault_core_model.specs.Change.{new_bucket};
ghost use Rattle.vault_core_model.specs.Sound.{Sound};
ghost use Rattle.vault_core_model.specs.declared.change.Change.TheVariants as changes;
ghost use Rattle.vault_core_list.specs.Lists.{IsChanged, vault_of};

use crate::{change, place};
use std::alloc::{AllocError, Global};
use vault_base::moment::Moment;
use vault_base::name::{BucketName, DeptName};
use vault_core_model::change::Change;
use vault_core_model::records::{Bucket, BucketConfig, Caller, History, Note, Tenure};

/// The lists of a vault, with its last moment, how many moves of buckets were made, and whether it registers contents that are
/// kept outside.
#[derive(Drop)]
pub(crate) struct Lists {
    pub(crate) external: bool,
    pub(crate) last: Moment,
    pub(crate) departments: Vec<DeptName>,
    pub(crate) callers: Vec<Caller>,
    pub(crate) buckets: Vec<Bucket>,
    pub(crate) notes: Vec<Note>,
    pub(crate) histories: Vec<History>,
    pub(crate) moves: u32,
}

/// A bucket of that department, without default retention and rules.
fn new_bucket(name: &BucketName, dept: &DeptName) -> Result<Bucket, AllocError>
    ensures { IfOk result (λ bucket. bucket ≡ new_bucket name.now dept.now) }
{
    Ok(Bucket {
        name: name.clone()?,
        config: BucketConfig {
            dept: dept.clone()?,
            default: None,
        },
        rules: None,
    })
}

/// The tenure that the move of that number begins.
fn new_tenure(dept: &DeptName, from: Moment, number: u32) -> Result<Tenure, AllocError>
    ensures { IfOk result (λ tenure. tenure ≡ record { dept = dept.now; from = from; number = number }) }
{
    Ok(Tenure {
        dept: dept.clone()?,
        from,
        number,
    })
}

/// Moves a bucket to a department, and counts the move.
fn move_bucket(
    alloc: Global,
    lists: &mut Lists,
    at: Moment,
    bucket: &BucketName,
    dept: &DeptName,
) -> Result<(), AllocError>
    requires { IsMove (vault_of lists.old) bucket.now dept.now }
    ensures ok { OnOk result (IsChanged lists.old lists.new at (changes.MoveBucket bucket.now dept.now)) }
    ensures err { OnErr result (vault_of lists.new ≡ vault_of lists.old) }
{
    let number = lists.moves + 1;
    let tenure = new_tenure(dept, at, number)?;
    change::move_bucket(
        alloc,
        &mut lists.buckets,
        &mut lists.histories,
        bucket,
        tenure,
    )?;
    lists.moves = number;
    Ok(())
}

/// Makes a change of the lists, all but that its moment becomes the last one; or changes nothing.
pub(crate) fn make(
    alloc: Global,
    lists: &mut Lists,
    at: Moment,
    change: &Change,
) -> Result<(), AllocError>
    requires sound { Sound (vault_of lists.old) }
    requires allowed { Allows (vault_of lists.old) at change.now }
    ensures ok { OnOk result (IsChanged lists.old lists.new at change.now) }
    ensures err { OnErr result (vault_of lists.new ≡ vault_of lists.old) }
{
    match change {
        Change::AddDept(dept) => place::place(&mut lists.departments, dept.clone()?),
        Change::AddCaller(caller) => place::place(&mut lists.callers, caller.clone()?),
        Change::CloseCaller(name) => {
            lists.callers = change::closed(alloc, &lists.callers, name)?;
            Ok(())
        }
        Change::AddBucket(bucket, dept) => {
            place::place(&mut lists.buckets, new_bucket(bucket, dept)?)
        }
        Change::MoveBucket(bucket, dept) => move_bucket(alloc, lists, at, bucket, dept),
        Change::SetDefault(bucket, default) => {
            lists.buckets = change::with_default(alloc, &lists.buckets, bucket, *default)?;
            Ok(())
        }
        Change::SetRules(bucket, rules) => {
            lists.buckets = change::with_rules(alloc, &lists.buckets, bucket, rules)?;
            Ok(())
        }
        Change::Admit(admission) => {
            change::admit(&mut lists.histories, &mut lists.notes, admission)
        }
        Change::AddSetting(id, setting) => {
            change::add_setting(&mut lists.histories, *id, setting)
        }
        Change::Remove(id, removal) => {
            change::remove(&mut lists.histories, *id, removal.clone()?);
            Ok(())
        }
    }
}
