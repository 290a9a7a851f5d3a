//! Which value of a job's words isn't allowed: a second look, after one of them was refused.
use std::alloc::{AllocError, Global};
use std::io::Write;
use vault_base::moment::{Moment, MomentFault};
use vault_base::name::{BucketName, CallerName, VersionId};
use vault_base::right::Right;
use vaultctl_job::job::{Asking, CallerJob, Job};
use vaultctl_job::word::Word;

/// What a word has to spell.
#[derive(Clone, Copy)]
enum Kind {
    Moment,
    /// The caller who asks.
    Asker,
    Caller,
    Dept,
    Batch,
    Bucket,
    Version,
    Right,
}

/// A word of a job: as help calls it, what it has to spell, and what was given.
#[derive(Clone, Copy)]
pub struct Value<'a> {
    word: &'static str,
    kind: Kind,
    text: &'a str,
}

/// A row of a job's values, and none where the word isn't given.
type Row<'a> = Option<Value<'a>>;

fn given<'a>(word: &'static str, kind: Kind, text: &'a Word) -> Row<'a> {
    let text = text.as_str();
    Some(Value { word, kind, text })
}

fn moment<'a>(word: &'static str, text: &'a Option<Word>) -> Row<'a> {
    match text {
        Some(text) => given(word, Kind::Moment, text),
        None => None,
    }
}

/// The department of a new caller, where it is looked at.
fn dept_of(job: &CallerJob) -> Row<'_> {
    match &job.dept {
        Some(dept) if !job.close => given("--dept", Kind::Dept, dept),
        _ => None,
    }
}

/// The reading, the caller who asks, and what comes after them.
fn asked<'a>(asking: &'a Asking, one: Row<'a>, other: Row<'a>) -> [Row<'a>; 4] {
    let at = moment("--at", &asking.at);
    [at, given("--as", Kind::Asker, &asking.who), one, other]
}

/// The values of a job but for rights, in the order in which they are read.
fn values_of(job: &Job) -> [Row<'_>; 4] {
    match job {
        Job::Dept(job) => asked(&job.asking, given("NAME", Kind::Dept, &job.name), None),
        Job::Caller(job) => {
            let name = given("NAME", Kind::Caller, &job.name);
            asked(&job.asking, name, dept_of(job))
        }
        Job::Bucket(job) => {
            let name = given("NAME", Kind::Bucket, &job.name);
            asked(&job.asking, name, given("DEPT", Kind::Dept, &job.dept))
        }
        Job::Move(job) => {
            let bucket = given("BUCKET", Kind::Bucket, &job.bucket);
            asked(&job.asking, bucket, given("DEPT", Kind::Dept, &job.dept))
        }
        Job::Intake(job) => {
            let bucket = given("BUCKET", Kind::Bucket, &job.bucket);
            asked(&job.asking, bucket, given("BATCH", Kind::Batch, &job.batch))
        }
        Job::Run(job) => asked(
            &job.asking,
            given("BUCKET", Kind::Bucket, &job.bucket),
            None,
        ),
        Job::Report(job) => asked(&job.asking, given("DEPT", Kind::Dept, &job.dept), None),
        Job::Certificate(job) => {
            let bucket = given("BUCKET", Kind::Bucket, &job.bucket);
            asked(
                &job.asking,
                bucket,
                given("VERSION", Kind::Version, &job.version),
            )
        }
        Job::Events(job) => [moment("--before", &job.before), None, None, None],
        Job::Seal(job) => [moment("--before", &job.before), None, None, None],
        _ => [None, None, None, None],
    }
}

/// The words for rights of a job: those of a caller who isn't closed.
fn rights_of(job: &Job) -> &[Word] {
    match job {
        Job::Caller(job) if !job.close => job.rights.as_slice(),
        _ => &[],
    }
}

/// Whether a text spells what it has to; callers, departments and batches have names of one form. The error is want of
/// memory.
fn is_allowed(alloc: Global, kind: Kind, text: &str) -> Result<bool, AllocError> {
    match kind {
        Kind::Moment => Ok(Moment::read(text).is_ok()),
        Kind::Asker | Kind::Caller | Kind::Dept | Kind::Batch => {
            Ok(CallerName::read(alloc, text)?.is_ok())
        }
        Kind::Bucket => Ok(BucketName::read(alloc, text)?.is_ok()),
        Kind::Version => Ok(VersionId::read(text).is_ok()),
        Kind::Right => Ok(Right::read(text).is_some()),
    }
}

/// The first of these values that isn't allowed.
fn first<'a>(alloc: Global, rows: &[Row<'a>]) -> Result<Row<'a>, AllocError> {
    for row in rows {
        if let Some(value) = row {
            if !is_allowed(alloc, value.kind, value.text)? {
                return Ok(*row);
            }
        }
    }
    Ok(None)
}

/// The first value of a job's words that isn't allowed, in the order in which they are read; none of a job whose words
/// spell no values. The error is out of memory.
pub fn first_slip(alloc: Global, job: &Job) -> Result<Option<Value<'_>>, AllocError> {
    let found = first(alloc, &values_of(job))?;
    if found.is_some() {
        return Ok(found);
    }
    for right in rights_of(job) {
        let found = first(alloc, &[given("RIGHT", Kind::Right, right)])?;
        if found.is_some() {
            return Ok(found);
        }
    }
    Ok(None)
}

/// What such a value may be, with an example.
fn allowed(value: Value<'_>) -> &'static str {
    match value.kind {
        Kind::Moment => match Moment::read(value.text) {
            Err(MomentFault::Range) => "a moment lies from 1970 to 9999",
            _ =>
                "a moment is written as 2024-01-15T10:30:00Z or 2024-01-15T11:30:00+01:00: date and time, a T between them, and Z or the difference from UTC at the end",
        },
        Kind::Asker =>
            "no caller can have that name: 1 to 64 of a-z, 0-9, '-', '_' and '.', as registrar",
        Kind::Caller => "a caller's name has 1 to 64 of a-z, 0-9, '-', '_' and '.', as ann.b",
        Kind::Dept =>
            "a department's name has 1 to 64 of a-z, 0-9, '-', '_' and '.', as land-records",
        Kind::Batch => "a batch's name has 1 to 64 of a-z, 0-9, '-', '_' and '.', as 2024-01-15",
        Kind::Bucket =>
            "a bucket's name has 3 to 63 of a-z, 0-9 and '-', with no '-' at an end, as case-files",
        Kind::Version =>
            "a version is named by its number, from 1 to 1000000000, in digits alone, as 17",
        Kind::Right =>
            "rights are admin, config, put, retain, hold, get, list, delete, delete-version, run, report and bypass: each is a word of its own, without a comma",
    }
}

/// Writes which word isn't allowed, what it was, and what it may be.
pub fn say_slip<E: Write>(value: Value<'_>, err: &mut E) {
    let _ = writeln!(err, "{} '{}': {}", value.word, value.text, allowed(value));
}
