//! What a job is named by: its subcommand and the vault's file.
ghost use Rattle.std.specs.Prelude.{◌≡◌};
ghost use Rattle.vaultctl_perform.specs.Calls as spec;

use vaultctl_job::job::Job;
use vaultctl_job::word::Word;

/// A job, with the name of its subcommand and the vault's file.
#[derive(Clone, Copy)]
pub struct Call<'a> {
    pub subcommand: &'a str,
    /// The path of the vault's file; empty where a script has none.
    pub file: &'a str,
    pub job: &'a Job,
}

/// A job, and what it does with its vault.
#[derive(Drop)]
pub struct Task<'a, T> {
    pub call: Call<'a>,
    pub work: &'a T,
}

/// The name of a job's subcommand.
fn name_of(job: &Job) -> &'static str
    ensures { result.now ≡ spec.name_in job.now }
{
    match job {
        Job::Init(_) => "init",
        Job::Dept(_) => "dept",
        Job::Caller(_) => "caller",
        Job::Bucket(_) => "bucket",
        Job::Move(_) => "move",
        Job::Intake(_) => "intake",
        Job::Run(_) => "run",
        Job::Report(_) => "report",
        Job::Certificate(_) => "certificate",
        Job::Register(_) => "register",
        Job::Verify(_) => "verify",
        Job::Events(_) => "events",
        Job::Seal(_) => "seal",
        Job::Lawful(_) => "lawful",
        Job::Replay(_) => "replay",
        Job::Serve(_) => "serve",
        Job::Migrate(_) => "migrate",
    }
}

/// The path that is given; empty where none is.
fn given(file: &Option<Word>) -> &str
    ensures { result.now ≡ spec.given_in file.now }
{
    match file {
        Some(file) => file.as_str(),
        None => "",
    }
}

/// The vault's file; of a copy, the one that it is made of.
fn file_of(job: &Job) -> &str
    ensures { result.now ≡ spec.file_in job.now }
{
    match job {
        Job::Init(job) => job.file.as_str(),
        Job::Dept(job) => job.file.as_str(),
        Job::Caller(job) => job.file.as_str(),
        Job::Bucket(job) => job.file.as_str(),
        Job::Move(job) => job.file.as_str(),
        Job::Intake(job) => job.file.as_str(),
        Job::Run(job) => job.file.as_str(),
        Job::Report(job) => job.file.as_str(),
        Job::Certificate(job) => job.file.as_str(),
        Job::Register(job) => job.file.as_str(),
        Job::Verify(job) => job.file.as_str(),
        Job::Events(job) => job.file.as_str(),
        Job::Seal(job) => job.file.as_str(),
        Job::Lawful(job) => job.file.as_str(),
        Job::Replay(job) => given(&job.file),
        Job::Serve(job) => job.file.as_str(),
        Job::Migrate(job) => job.old.as_str(),
    }
}

/// The call of a job.
pub fn call_of(job: &Job) -> Call<'_>
    ensures name { result.subcommand.now ≡ spec.name_in job.now }
    ensures file { result.file.now ≡ spec.file_in job.now }
    ensures job { result.job.now ≡ job.now }
{
    Call {
        subcommand: name_of(job),
        file: file_of(job),
        job,
    }
}
