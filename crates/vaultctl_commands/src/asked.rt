//! What jobs ask of a vault.
ghost use Rattle.vault_values.specs.Fault.{Gives};
ghost use Rattle.vaultctl_commands.specs.Asked as spec;

use crate::words::{optional_dept, optional_moment, optional_reading, rights_named, version_named};
use std::alloc::Global;
use vault_base::moment::Moment;
use vault_base::name::{BatchName, BucketName, CallerName};
use vault_core_model::command::{
    AddBucket, AddCaller, AddDept, Certificate, CloseCaller, Command, MoveBucket, Report, Run,
};
use vault_values::fault::LineFault;
use vault_values::named::{asker_named, batch_named, bucket_named, caller_named, dept_named};
use vaultctl_job::job;

/// A command with the caller who asks, and the reading where one is given; else the machine's clock is read.
#[derive(Drop)]
pub struct AskedCommand {
    pub at: Option<Moment>,
    pub who: CallerName,
    pub command: Command,
}

/// An intake that is asked for.
#[derive(Drop)]
pub struct AskedIntake {
    pub at: Option<Moment>,
    pub who: CallerName,
    pub bucket: BucketName,
    pub batch: BatchName,
}

/// The events that are asked for: those before a moment, or all.
#[derive(Clone, Copy)]
pub struct AskedEvents {
    pub before: Option<Moment>,
}

/// The seal that is asked for: the one of a moment, or of the vault's last one.
#[derive(Clone, Copy)]
pub struct AskedSeal {
    pub before: Option<Moment>,
}

/// The department to be added.
#[tactic(auto, unfolding(crate::specs::Asked::dept_of))]
pub fn dept(alloc: Global, job: &job::DeptJob) -> Result<AskedCommand, LineFault>
    ensures { Gives (λ x. x) result (spec.dept_of job.now) }
{
    let at = optional_reading(&job.asking.at)?;
    let who = asker_named(alloc, job.asking.who.as_str())?;
    let dept = dept_named(alloc, job.name.as_str())?;
    Ok(AskedCommand {
        at,
        who,
        command: Command::AddDept(AddDept { dept }),
    })
}

/// The caller to be added.
#[tactic(auto, unfolding(crate::specs::Asked::new_caller_of))]
fn new_caller(alloc: Global, job: &job::CallerJob) -> Result<Command, LineFault>
    ensures { Gives (λ x. x) result (spec.new_caller_of job.now) }
{
    let caller = caller_named(alloc, job.name.as_str())?;
    let dept = optional_dept(alloc, &job.dept)?;
    let rights = rights_named(job.rights.as_slice())?;
    Ok(Command::AddCaller(AddCaller {
        caller,
        dept,
        rights,
    }))
}

/// The caller to be closed; rights and a department aren't looked at.
#[tactic(auto, unfolding(crate::specs::Asked::closed_caller_of))]
fn closed_caller(alloc: Global, job: &job::CallerJob) -> Result<Command, LineFault>
    ensures { Gives (λ x. x) result (spec.closed_caller_of job.now) }
{
    let caller = caller_named(alloc, job.name.as_str())?;
    Ok(Command::CloseCaller(CloseCaller { caller }))
}

/// What is to be done with a caller.
fn caller_command(alloc: Global, job: &job::CallerJob) -> Result<Command, LineFault>
    ensures { Gives (λ x. x) result (spec.caller_command_of job.now) }
{
    if job.close {
        closed_caller(alloc, job)
    } else {
        new_caller(alloc, job)
    }
}

/// The caller to be added, or to be closed.
#[tactic(auto, unfolding(crate::specs::Asked::caller_of))]
pub fn caller(alloc: Global, job: &job::CallerJob) -> Result<AskedCommand, LineFault>
    ensures { Gives (λ x. x) result (spec.caller_of job.now) }
{
    let at = optional_reading(&job.asking.at)?;
    let who = asker_named(alloc, job.asking.who.as_str())?;
    let command = caller_command(alloc, job)?;
    Ok(AskedCommand { at, who, command })
}

/// The bucket to be added.
#[tactic(auto, unfolding(crate::specs::Asked::bucket_of))]
pub fn bucket(alloc: Global, job: &job::BucketJob) -> Result<AskedCommand, LineFault>
    ensures { Gives (λ x. x) result (spec.bucket_of job.now) }
{
    let at = optional_reading(&job.asking.at)?;
    let who = asker_named(alloc, job.asking.who.as_str())?;
    let bucket = bucket_named(alloc, job.name.as_str())?;
    let dept = dept_named(alloc, job.dept.as_str())?;
    Ok(AskedCommand {
        at,
        who,
        command: Command::AddBucket(AddBucket { bucket, dept }),
    })
}

/// The move of a bucket to another department.
#[tactic(auto, unfolding(crate::specs::Asked::move_bucket_of))]
pub fn move_bucket(alloc: Global, job: &job::MoveJob) -> Result<AskedCommand, LineFault>
    ensures { Gives (λ x. x) result (spec.move_bucket_of job.now) }
{
    let at = optional_reading(&job.asking.at)?;
    let who = asker_named(alloc, job.asking.who.as_str())?;
    let bucket = bucket_named(alloc, job.bucket.as_str())?;
    let dept = dept_named(alloc, job.dept.as_str())?;
    Ok(AskedCommand {
        at,
        who,
        command: Command::MoveBucket(MoveBucket { bucket, dept }),
    })
}

/// The run of a bucket's rules.
#[tactic(auto, unfolding(crate::specs::Asked::run_of))]
pub fn run(alloc: Global, job: &job::RunJob) -> Result<AskedCommand, LineFault>
    ensures { Gives (λ x. x) result (spec.run_of job.now) }
{
    let at = optional_reading(&job.asking.at)?;
    let who = asker_named(alloc, job.asking.who.as_str())?;
    let bucket = bucket_named(alloc, job.bucket.as_str())?;
    Ok(AskedCommand {
        at,
        who,
        command: Command::Run(Run { bucket }),
    })
}

/// The report on a department.
#[tactic(auto, unfolding(crate::specs::Asked::report_of))]
pub fn report(alloc: Global, job: &job::ReportJob) -> Result<AskedCommand, LineFault>
    ensures { Gives (λ x. x) result (spec.report_of job.now) }
{
    let at = optional_reading(&job.asking.at)?;
    let who = asker_named(alloc, job.asking.who.as_str())?;
    let dept = dept_named(alloc, job.dept.as_str())?;
    Ok(AskedCommand {
        at,
        who,
        command: Command::Report(Report { dept }),
    })
}

/// The certificate of a removed version.
#[tactic(auto, unfolding(crate::specs::Asked::certificate_of))]
pub fn certificate(alloc: Global, job: &job::CertificateJob) -> Result<AskedCommand, LineFault>
    ensures { Gives (λ x. x) result (spec.certificate_of job.now) }
{
    let at = optional_reading(&job.asking.at)?;
    let who = asker_named(alloc, job.asking.who.as_str())?;
    let bucket = bucket_named(alloc, job.bucket.as_str())?;
    let id = version_named(&job.version)?;
    Ok(AskedCommand {
        at,
        who,
        command: Command::Certificate(Certificate { bucket, id }),
    })
}

/// The intake of a batch into a bucket.
#[tactic(auto, unfolding(crate::specs::Asked::intake_of))]
pub fn intake(alloc: Global, job: &job::IntakeJob) -> Result<AskedIntake, LineFault>
    ensures { Gives (λ x. x) result (spec.intake_of job.now) }
{
    let at = optional_reading(&job.asking.at)?;
    let who = asker_named(alloc, job.asking.who.as_str())?;
    let bucket = bucket_named(alloc, job.bucket.as_str())?;
    let batch = batch_named(alloc, job.batch.as_str())?;
    Ok(AskedIntake {
        at,
        who,
        bucket,
        batch,
    })
}

/// The events before a moment, or all.
#[tactic(auto, unfolding(crate::specs::Asked::events_of))]
pub fn events(job: &job::EventsJob) -> Result<AskedEvents, LineFault>
    ensures { Gives (λ x. x) result (spec.events_of job.now) }
{
    let before = optional_moment(&job.before)?;
    Ok(AskedEvents { before })
}

/// The seal of a moment, or of the vault's last one.
#[tactic(auto, unfolding(crate::specs::Asked::seal_of))]
pub fn seal(job: &job::SealJob) -> Result<AskedSeal, LineFault>
    ensures { Gives (λ x. x) result (spec.seal_of job.now) }
{
    let before = optional_moment(&job.before)?;
    Ok(AskedSeal { before })
}
