//! Carries out what the program's words ask for.
#![tactic(auto)]

ghost use Rattle.std.specs.Prelude.{◌≡◌, ◌≢◌, ◌⊎◌, [], None, Some, map, string_bytes};
ghost use Rattle.clap.specs.Words.{fault_of};
ghost use Rattle.vaultctl_job.specs.Words.{job_for, vaultctl};
ghost use Rattle.vaultctl_job.specs.declared.job.Job.{Job as AnyJob};
ghost use Rattle.sqlite_wal.specs.Files.{image_at};
ghost use Rattle.vaultctl_perform.specs.Done.{IsPerformed, IsScriptDone};
ghost use Rattle.vaultctl_perform.specs.Status.{Ends};

mod asking;
mod call;
mod init;
mod messages;
mod migrate;
mod replay;
mod vaults;
mod verify;
pub mod version;

use crate::asking::{ask, ask_read, take_in};
use crate::call::{Task, call_of};
use crate::messages::print_fault;
use crate::vaults::in_vault;
use sqlite::Start;
use std::io::{Read, Write};
use vaultctl_commands::asked::{
    bucket, caller, certificate, dept, events, move_bucket, report, run, seal,
};
use vaultctl_commands::fault::JobFault;
use vaultctl_job::fault::WordsFault;
use vaultctl_job::job::{Job, ReplayJob};
use vaultctl_job::words::job_of;
use vaultctl_machine::starts::Starts;
use vaultctl_machine::vaults::FileMachine;
use vaultctl_remedies::hint::hint;
use vaultctl_work::intake;
use vaultctl_work::saying::say;

fn replay_script<A: Start, B: Start, R: Read, W: Write, E: Write>(
    machine: &mut FileMachine<'_, A, B>,
    start: A,
    task: Task<'_, ReplayJob>,
    reader: &mut R,
    out: &mut W,
    err: &mut E,
) -> u8
    ensures performed { Ends result (λ outcome. IsScriptDone (image_at A.Start) outcome machine.old machine.new
        (R.remaining reader.old) (R.remaining reader.new) (W.contents out.old) (W.contents out.new) task.entry.work.now.file) }
{
    let job = task.work;
    match &job.file {
        Some(_) => in_vault(machine, start, task, reader, out, err),
        None => replay::from_new(machine.runtime().alloc(), reader, out, err),
    }
}

/// Carries a job out and answers the exit status: 0 where it was done, 1 where it was refused or a fault
/// stopped it.
///
/// What a job answers goes to `out`. A fault is named on `err`, as `replay: Read`, and why a vault can't be
/// opened or made, as `open: Damaged meta`. Faults are found in this order: values of words, the vault's file,
/// an intake's list or a port, the clock, and what is asked.
pub fn perform<A: Start, B: Start, R: Read, W: Write, E: Write>(
    machine: &mut FileMachine<'_, A, B>,
    starts: Starts<A, B>,
    job: &Job,
    reader: &mut R,
    out: &mut W,
    err: &mut E,
) -> u8
    // The status is that of what came of the job. Whatever that is, one vault was opened, made or copied, as the job asks, and
    // no other, or none; what was done with the one that was found in the file, and what was printed, is what came of it.
    ensures performed { Ends result (λ outcome. IsPerformed (image_at A.Start) outcome machine.old machine.new
        (R.remaining reader.old) (R.remaining reader.new) (W.contents out.old) (W.contents out.new) job.now) }
{
    let alloc = machine.runtime().alloc();
    // A job opens the files of one vault, but for `migrate`.
    let Starts { first, second } = starts;
    let call = call_of(job);
    match job {
        Job::Init(job) => init::init(machine, call.file, first, job.external, err),
        Job::Dept(job) => ask(machine, call, first, dept(alloc, job), out, err),
        Job::Caller(job) => ask(machine, call, first, caller(alloc, job), out, err),
        Job::Bucket(job) => ask(machine, call, first, bucket(alloc, job), out, err),
        Job::Move(job) => ask(machine, call, first, move_bucket(alloc, job), out, err),
        Job::Intake(job) => take_in(machine, call, first, intake::asked(alloc, job), out, err),
        Job::Run(job) => ask(machine, call, first, run(alloc, job), out, err),
        Job::Report(job) => ask(machine, call, first, report(alloc, job), out, err),
        Job::Certificate(job) => ask(machine, call, first, certificate(alloc, job), out, err),
        Job::Register(work) => in_vault(machine, first, Task { call, work }, reader, out, err),
        Job::Verify(_) => verify::verify(machine, call.file, first, out, err),
        Job::Events(job) => ask_read(machine, call, first, &events(job), out, err),
        Job::Seal(job) => ask_read(machine, call, first, &seal(job), out, err),
        Job::Lawful(work) => in_vault(machine, first, Task { call, work }, reader, out, err),
        Job::Replay(work) => replay_script(machine, first, Task { call, work }, reader, out, err),
        Job::Serve(work) => in_vault(machine, first, Task { call, work }, reader, out, err),
        Job::Migrate(job) => {
            let starts = Starts { first, second };
            let copying = migrate::copying_of(job);
            migrate::migrate(machine, copying, starts, out, err)
        }
    }
}

/// Writes why words are refused, and where they are often meant otherwise, how; the status is 2.
fn print_refused<E: Write>(words: &[String], text: &str, err: &mut E) -> u8
    ensures { result ≡ 2 }
{
    // Where even this can't be written, the status states alone.
    let _ = write!(err, "{text}");
    if let Some(hint) = hint(words) {
        say(err, hint);
    }
    2
}

/// Reads the words, of which the first is the program's name, and carries out their job.
///
/// The exit status is that of the job. It is 2 where the words are refused, and the text that says why
/// goes to `err`; where memory for reading them was refused, it is 1 and `err` gets `words: Memory`.
pub fn answer_words<A: Start, B: Start, R: Read, W: Write, E: Write>(
    machine: &mut FileMachine<'_, A, B>,
    starts: Starts<A, B>,
    words: &[String],
    reader: &mut R,
    out: &mut W,
    err: &mut E,
) -> u8
    ensures refused { result ≡ 2 → fault_of vaultctl (map string_bytes words.now) ≢ [] }
    // Words that ask for nothing are never reported as done.
    ensures words { job_for (map string_bytes words.now) ≡ None → result ≢ 0 }
    // Their job was carried out; or the words weren't read, and nothing was done, printed or read.
    ensures performed { (job : AnyJob) → job_for (map string_bytes words.now) ≡ Some job
        → Ends result (λ outcome. IsPerformed (image_at A.Start) outcome machine.old machine.new (R.remaining reader.old) (R.remaining reader.new) (W.contents out.old) (W.contents out.new) job)
        ⊎ ((result ≢ 0) × (machine.new ≡ machine.old) × (R.remaining reader.new ≡ R.remaining reader.old) × (W.contents out.new ≡ W.contents out.old)) }
{
    match job_of(machine.runtime().alloc(), words) {
        Ok(job) => perform(machine, starts, &job, reader, out, err),
        Err(WordsFault::Refused(text)) => print_refused(words, text.as_str(), err),
        Err(WordsFault::Memory) => print_fault(err, "words", JobFault::Memory),
    }
}
