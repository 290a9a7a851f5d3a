//! The words of a subcommand, as clap has found them, read as a job.
ghost use Rattle.std.specs.Prelude.{◌≡◌, IfOk, codes, false, map, option_map};
ghost use Rattle.clap.specs.Words.{all_of, found_of, rows_of, first_of};
ghost use Rattle.vaultctl_job.specs.Jobs as spec;

use crate::job::{
    Asking, BucketJob, CallerJob, CertificateJob, DeptJob, EventsJob, InitJob, IntakeJob, Job,
    LawfulJob, MigrateJob, MoveJob, RegisterJob, ReplayJob, ReportJob, RunJob, SealJob, ServeJob,
    VerifyJob,
};
use crate::word::{Word, Words};
use clap::ArgMatches;
use std::alloc::{AllocError, Global};

/// The first text of an argument.
fn text<'a>(matches: &ArgMatches<'a>, id: &str) -> Option<&'a str>
    ensures { first_of id.now (rows_of (found_of matches.now)) ≡ option_map (λ t. t.now) result }
{
    matches.get_str(id)
}

/// All texts of an argument.
fn texts<'b, 'a>(matches: &'b ArgMatches<'a>, id: &str) -> Option<&'b [&'a str]>
    ensures { all_of id.now (rows_of (found_of matches.now)) ≡ option_map (λ s. map (λ t. t.now) s.now) result }
{
    matches.get_strs(id)
}

fn copied(alloc: Global, texts: &[&str]) -> Result<Words, AllocError>
    ensures { IfOk result (λ words. words ≡ map (λ t. t.now) texts.now) }
{
    let mut words = Words::new(alloc);
    for text in texts {
        words.push(Word::of(alloc, text)?)?;
    }
    Ok(words)
}

fn is_set(matches: &ArgMatches<'_>, id: &str) -> bool
    ensures { result ≡ spec.is_set id.now (rows_of (found_of matches.now)) }
{
    match text(matches, id) {
        Some(text) => text == "true",
        None => false,
    }
}

fn port(matches: &ArgMatches<'_>) -> u16
    ensures { result ≡ spec.number_of 65536 (codes "PORT") (rows_of (found_of matches.now)) }
{
    matches.get_one::<u16>("PORT").unwrap_or(0)
}

fn count(matches: &ArgMatches<'_>) -> u32
    ensures { result ≡ spec.number_of 4294967296 (codes "count") (rows_of (found_of matches.now)) }
{
    matches.get_one::<u32>("count").unwrap_or(0)
}

/// Memory for the words of a job. Once it is short, words are left empty.
#[derive(Drop)]
struct Memory {
    alloc: Global,
    is_short: bool,
}

impl Memory {
    fn copy(&mut self, text: &str) -> Word
        ensures { spec.IfEnough self.old.is_short self.new.is_short (result ≡ text.now) }
    {
        match Word::of(self.alloc, text) {
            Ok(word) => word,
            Err(_) => {
                self.is_short = true;
                Word::new(self.alloc)
            }
        }
    }

    fn word(&mut self, matches: &ArgMatches<'_>, id: &str) -> Word
        ensures { spec.IfEnough self.old.is_short self.new.is_short (result ≡ spec.text_of id.now (rows_of (found_of matches.now))) }
    {
        match text(matches, id) {
            Some(text) => self.copy(text),
            None => Word::new(self.alloc),
        }
    }

    fn optional_word(&mut self, matches: &ArgMatches<'_>, id: &str) -> Option<Word>
        ensures { spec.IfEnough self.old.is_short self.new.is_short (result ≡ first_of id.now (rows_of (found_of matches.now))) }
    {
        match text(matches, id) {
            Some(text) => Some(self.copy(text)),
            None => None,
        }
    }

    fn words(&mut self, matches: &ArgMatches<'_>, id: &str) -> Words
        ensures { spec.IfEnough self.old.is_short self.new.is_short (result ≡ spec.texts_of id.now (rows_of (found_of matches.now))) }
    {
        let Some(texts) = texts(matches, id) else {
            return Words::new(self.alloc);
        };
        match copied(self.alloc, texts) {
            Ok(words) => words,
            Err(_) => {
                self.is_short = true;
                Words::new(self.alloc)
            }
        }
    }

    fn asking(&mut self, matches: &ArgMatches<'_>) -> Asking
        ensures { spec.IfEnough self.old.is_short self.new.is_short (result ≡ spec.asking_of (rows_of (found_of matches.now))) }
    {
        Asking {
            who: self.word(matches, "as"),
            at: self.optional_word(matches, "at"),
        }
    }
}

#[tactic(auto, unfolding(crate::specs::Jobs::init_of))]
fn init(memory: &mut Memory, matches: &ArgMatches<'_>) -> InitJob
    ensures { spec.IfEnough memory.old.is_short memory.new.is_short (result ≡ spec.init_of (rows_of (found_of matches.now))) }
{
    InitJob {
        file: memory.word(matches, "FILE"),
        external: is_set(matches, "external"),
    }
}

#[tactic(auto, unfolding(crate::specs::Jobs::dept_of))]
fn dept(memory: &mut Memory, matches: &ArgMatches<'_>) -> DeptJob
    ensures { spec.IfEnough memory.old.is_short memory.new.is_short (result ≡ spec.dept_of (rows_of (found_of matches.now))) }
{
    DeptJob {
        file: memory.word(matches, "FILE"),
        name: memory.word(matches, "NAME"),
        asking: memory.asking(matches),
    }
}

#[tactic(auto, unfolding(crate::specs::Jobs::caller_of))]
fn caller(memory: &mut Memory, matches: &ArgMatches<'_>) -> CallerJob
    ensures { spec.IfEnough memory.old.is_short memory.new.is_short (result ≡ spec.caller_of (rows_of (found_of matches.now))) }
{
    CallerJob {
        file: memory.word(matches, "FILE"),
        name: memory.word(matches, "NAME"),
        rights: memory.words(matches, "RIGHT"),
        asking: memory.asking(matches),
        dept: memory.optional_word(matches, "dept"),
        close: is_set(matches, "close"),
    }
}

#[tactic(auto, unfolding(crate::specs::Jobs::bucket_of))]
fn bucket(memory: &mut Memory, matches: &ArgMatches<'_>) -> BucketJob
    ensures { spec.IfEnough memory.old.is_short memory.new.is_short (result ≡ spec.bucket_of (rows_of (found_of matches.now))) }
{
    BucketJob {
        file: memory.word(matches, "FILE"),
        name: memory.word(matches, "NAME"),
        dept: memory.word(matches, "DEPT"),
        asking: memory.asking(matches),
    }
}

#[tactic(auto, unfolding(crate::specs::Jobs::move_of))]
fn moving(memory: &mut Memory, matches: &ArgMatches<'_>) -> MoveJob
    ensures { spec.IfEnough memory.old.is_short memory.new.is_short (result ≡ spec.move_of (rows_of (found_of matches.now))) }
{
    MoveJob {
        file: memory.word(matches, "FILE"),
        bucket: memory.word(matches, "BUCKET"),
        dept: memory.word(matches, "DEPT"),
        asking: memory.asking(matches),
    }
}

#[tactic(auto, unfolding(crate::specs::Jobs::intake_of))]
fn intake(memory: &mut Memory, matches: &ArgMatches<'_>) -> IntakeJob
    ensures { spec.IfEnough memory.old.is_short memory.new.is_short (result ≡ spec.intake_of (rows_of (found_of matches.now))) }
{
    IntakeJob {
        file: memory.word(matches, "FILE"),
        bucket: memory.word(matches, "BUCKET"),
        batch: memory.word(matches, "BATCH"),
        list: memory.word(matches, "LIST"),
        folder: memory.word(matches, "FOLDER"),
        asking: memory.asking(matches),
    }
}

#[tactic(auto, unfolding(crate::specs::Jobs::run_of))]
fn run(memory: &mut Memory, matches: &ArgMatches<'_>) -> RunJob
    ensures { spec.IfEnough memory.old.is_short memory.new.is_short (result ≡ spec.run_of (rows_of (found_of matches.now))) }
{
    RunJob {
        file: memory.word(matches, "FILE"),
        bucket: memory.word(matches, "BUCKET"),
        asking: memory.asking(matches),
    }
}

#[tactic(auto, unfolding(crate::specs::Jobs::report_of))]
fn report(memory: &mut Memory, matches: &ArgMatches<'_>) -> ReportJob
    ensures { spec.IfEnough memory.old.is_short memory.new.is_short (result ≡ spec.report_of (rows_of (found_of matches.now))) }
{
    ReportJob {
        file: memory.word(matches, "FILE"),
        dept: memory.word(matches, "DEPT"),
        asking: memory.asking(matches),
    }
}

#[tactic(auto, unfolding(crate::specs::Jobs::certificate_of))]
fn certificate(memory: &mut Memory, matches: &ArgMatches<'_>) -> CertificateJob
    ensures { spec.IfEnough memory.old.is_short memory.new.is_short (result ≡ spec.certificate_of (rows_of (found_of matches.now))) }
{
    CertificateJob {
        file: memory.word(matches, "FILE"),
        bucket: memory.word(matches, "BUCKET"),
        version: memory.word(matches, "VERSION"),
        asking: memory.asking(matches),
    }
}

#[tactic(auto, unfolding(crate::specs::Jobs::events_of))]
fn events(memory: &mut Memory, matches: &ArgMatches<'_>) -> EventsJob
    ensures { spec.IfEnough memory.old.is_short memory.new.is_short (result ≡ spec.events_of (rows_of (found_of matches.now))) }
{
    EventsJob {
        file: memory.word(matches, "FILE"),
        before: memory.optional_word(matches, "before"),
    }
}

#[tactic(auto, unfolding(crate::specs::Jobs::seal_of))]
fn seal(memory: &mut Memory, matches: &ArgMatches<'_>) -> SealJob
    ensures { spec.IfEnough memory.old.is_short memory.new.is_short (result ≡ spec.seal_of (rows_of (found_of matches.now))) }
{
    SealJob {
        file: memory.word(matches, "FILE"),
        before: memory.optional_word(matches, "before"),
    }
}

#[tactic(auto, unfolding(crate::specs::Jobs::serve_of))]
fn serve(memory: &mut Memory, matches: &ArgMatches<'_>) -> ServeJob
    ensures { spec.IfEnough memory.old.is_short memory.new.is_short (result ≡ spec.serve_of (rows_of (found_of matches.now))) }
{
    ServeJob {
        file: memory.word(matches, "FILE"),
        port: port(matches),
        count: count(matches),
        lines: memory.optional_word(matches, "lines"),
        hosts: memory.words(matches, "host"),
        log: is_set(matches, "log"),
        journal: memory.optional_word(matches, "journal"),
    }
}

#[tactic(auto, unfolding(crate::specs::Jobs::migrate_of))]
fn migrate(memory: &mut Memory, matches: &ArgMatches<'_>) -> MigrateJob
    ensures { spec.IfEnough memory.old.is_short memory.new.is_short (result ≡ spec.migrate_of (rows_of (found_of matches.now))) }
{
    MigrateJob {
        old: memory.word(matches, "OLD"),
        new: memory.word(matches, "NEW"),
        external: is_set(matches, "external"),
    }
}

#[tactic(auto, unfolding(crate::specs::Jobs::register_of, crate::specs::Jobs::verify_of, crate::specs::Jobs::lawful_of, crate::specs::Jobs::replay_of))]
fn job_read(memory: &mut Memory, name: &str, matches: &ArgMatches<'_>) -> Option<Job>
    ensures { spec.IfEnough memory.old.is_short memory.new.is_short (result ≡ spec.job_named name.now (rows_of (found_of matches.now))) }
{
    match name {
        "init" => Some(Job::Init(init(memory, matches))),
        "dept" => Some(Job::Dept(dept(memory, matches))),
        "caller" => Some(Job::Caller(caller(memory, matches))),
        "bucket" => Some(Job::Bucket(bucket(memory, matches))),
        "move" => Some(Job::Move(moving(memory, matches))),
        "intake" => Some(Job::Intake(intake(memory, matches))),
        "run" => Some(Job::Run(run(memory, matches))),
        "report" => Some(Job::Report(report(memory, matches))),
        "certificate" => Some(Job::Certificate(certificate(memory, matches))),
        "register" => Some(Job::Register(RegisterJob {
            file: memory.word(matches, "FILE"),
        })),
        "verify" => Some(Job::Verify(VerifyJob {
            file: memory.word(matches, "FILE"),
        })),
        "events" => Some(Job::Events(events(memory, matches))),
        "seal" => Some(Job::Seal(seal(memory, matches))),
        "lawful" => Some(Job::Lawful(LawfulJob {
            file: memory.word(matches, "FILE"),
        })),
        "replay" => Some(Job::Replay(ReplayJob {
            file: memory.optional_word(matches, "FILE"),
        })),
        "serve" => Some(Job::Serve(serve(memory, matches))),
        "migrate" => Some(Job::Migrate(migrate(memory, matches))),
        _ => None,
    }
}

/// The job of the subcommand of that name, with its words.
pub fn job_named(
    alloc: Global,
    name: &str,
    matches: &ArgMatches<'_>,
) -> Result<Option<Job>, AllocError>
    ensures { IfOk result (λ job. job ≡ spec.job_named name.now (rows_of (found_of matches.now))) }
{
    let mut memory = Memory {
        alloc,
        is_short: false,
    };
    let job = job_read(&mut memory, name, matches);
    if memory.is_short {
        drop(job);
        return Err(AllocError);
    }
    Ok(job)
}
