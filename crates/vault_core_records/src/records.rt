//! Departments, callers and buckets, and the report on a department.
ghost use Rattle.std.specs.Prelude.{◌≡◌, ◌≤◌, IsTrue, IfOk, Err, IsSome, false};
ghost use Rattle.vault_core_model.specs.Leaves.{Leaves, ReadsAs};
ghost use Rattle.vault_core_model.specs.Halts.{AnswersAs, is_device};
ghost use Rattle.vault_core_model.specs.RecordOutcomes as outcome;

use std::alloc::AllocError;
use vault_base::moment::Moment;
use vault_base::name::{CallerName, DeptName};
use vault_base::refusal::Refusal;
use vault_core_checks::argument::{check_dept, check_dept_if_given};
use vault_core_checks::caller::{check_report, find_administrator, find_caller};
use vault_core_model::change::Change;
use vault_core_model::command::{AddBucket, AddCaller, AddDept, CloseCaller, Report};
use vault_core_model::halt::{Fault, Halt};
use vault_core_model::keeper::{Keeper, make_change};
use vault_core_model::records::Caller;
use vault_core_model::reply::{self, Answer};

/// Adds a department.
pub fn add_dept<K: Keeper>(
    keeper: &mut K,
    at: Moment,
    who: &CallerName,
    command: &AddDept,
) -> Result<Answer, Halt>
    ensures meets { K.is_honest keeper.new → AnswersAs result (K.vault keeper.old) (K.vault keeper.new) (outcome.add_dept (K.vault keeper.old) at who.now command.now) }
    ensures leaves { Leaves K.Kept keeper.old keeper.new (is_device result) }
{
    drop(find_administrator(keeper, at, who)?);
    if keeper.dept(&command.dept)? {
        return Err(Halt::Refused(Refusal::NameTaken));
    }
    make_change(keeper, at, Change::AddDept(command.dept.clone()?))?;
    Ok(Answer::Nothing)
}

/// Adds a caller. The name of a closed caller stays taken.
pub fn add_caller<K: Keeper>(
    keeper: &mut K,
    at: Moment,
    who: &CallerName,
    command: &AddCaller,
) -> Result<Answer, Halt>
    ensures meets { K.is_honest keeper.new → AnswersAs result (K.vault keeper.old) (K.vault keeper.new) (outcome.add_caller (K.vault keeper.old) at who.now command.now) }
    ensures leaves { Leaves K.Kept keeper.old keeper.new (is_device result) }
{
    drop(find_administrator(keeper, at, who)?);
    check_dept_if_given(keeper, &command.dept)?;
    let found = keeper.caller(&command.caller)?;
    let taken = found.is_some();
    drop(found);
    if taken {
        return Err(Halt::Refused(Refusal::NameTaken));
    }
    let caller = new_caller(command)?;
    make_change(keeper, at, Change::AddCaller(caller))?;
    Ok(Answer::Nothing)
}

fn new_caller(command: &AddCaller) -> Result<Caller, AllocError>
    ensures { IfOk result (λ caller. caller ≡ outcome.new_caller command.now) }
{
    Ok(Caller {
        name: command.caller.clone()?,
        dept: command.dept.clone()?,
        rights: command.rights,
        closed: false,
    })
}

/// Closes an open caller for good.
pub fn close_caller<K: Keeper>(
    keeper: &mut K,
    at: Moment,
    who: &CallerName,
    command: &CloseCaller,
) -> Result<Answer, Halt>
    ensures meets { K.is_honest keeper.new → AnswersAs result (K.vault keeper.old) (K.vault keeper.new) (outcome.close_caller (K.vault keeper.old) at who.now command.now) }
    ensures leaves { Leaves K.Kept keeper.old keeper.new (is_device result) }
{
    drop(find_administrator(keeper, at, who)?);
    let found = keeper.caller(&command.caller)?;
    let open = is_open(&found);
    drop(found);
    if !open {
        return Err(Halt::Refused(Refusal::InvalidArgument));
    }
    make_change(keeper, at, Change::CloseCaller(command.caller.clone()?))?;
    Ok(Answer::Nothing)
}

fn is_open(found: &Option<Caller>) -> bool
    ensures open { result ≡ outcome.is_open found.now }
    ensures there { IsTrue result → IsSome found.now }
{
    match found {
        None => false,
        Some(caller) => !caller.closed,
    }
}

/// Adds a bucket to a department.
pub fn add_bucket<K: Keeper>(
    keeper: &mut K,
    at: Moment,
    who: &CallerName,
    command: &AddBucket,
) -> Result<Answer, Halt>
    ensures meets { K.is_honest keeper.new → AnswersAs result (K.vault keeper.old) (K.vault keeper.new) (outcome.add_bucket (K.vault keeper.old) at who.now command.now) }
    ensures leaves { Leaves K.Kept keeper.old keeper.new (is_device result) }
{
    drop(find_administrator(keeper, at, who)?);
    check_dept(keeper, &command.dept)?;
    let found = keeper.bucket(&command.bucket)?;
    let taken = found.is_some();
    drop(found);
    if taken {
        return Err(Halt::Refused(Refusal::BucketAlreadyExists));
    }
    let change = Change::AddBucket(command.bucket.clone()?, command.dept.clone()?);
    make_change(keeper, at, change)?;
    Ok(Answer::Nothing)
}

/// Reports the sums of a department at the reading.
pub fn report<K: Keeper>(
    keeper: &mut K,
    at: Moment,
    who: &CallerName,
    command: &Report,
) -> Result<Answer, Halt>
    ensures meets { K.is_honest keeper.new → AnswersAs result (K.vault keeper.old) (K.vault keeper.new) (outcome.report (K.vault keeper.old) at who.now command.now) }
    ensures leaves { Leaves K.Kept keeper.old keeper.new (is_device result) }
{
    let caller = find_caller(keeper, at, who)?;
    let allowed = check_report(&caller, &command.dept);
    drop(caller);
    allowed?;
    check_dept(keeper, &command.dept)?;
    Ok(Answer::Report(sums_of(keeper, &command.dept, at)?))
}

/// The sums of a department at a reading that isn't before the last moment.
fn sums_of<K: Keeper>(keeper: &mut K, dept: &DeptName, at: Moment) -> Result<reply::Report, Fault>
    requires in_time { K.is_honest keeper.old → (K.vault keeper.old).last ≤ at }
    ensures value { K.is_honest keeper.new → IfOk result (λ report. report ≡ outcome.report_of (K.vault keeper.old) dept.now at) }
    ensures leaves { ReadsAs K.Kept keeper.old keeper.new result }
{
    let row = keeper.totals(dept)?;
    Ok(reply::Report {
        dept: dept.clone()?,
        at,
        admitted: row.admitted,
        received: row.received,
        held: row.held,
        removed: row.removed,
        handed: row.handed,
        byte_days: row.charged(at.day()),
    })
}
