//! What the program is to do: its subcommands, with their words as texts.
use crate::word::{Word, Words};

/// Who asks, and when: `--as` and `--at`. Without a moment the machine's clock is read.
#[derive(Drop)]
pub struct Asking {
    pub who: Word,
    pub at: Option<Word>,
}

/// `init FILE [--external]`
#[derive(Drop)]
pub struct InitJob {
    pub file: Word,
    /// The vault registers contents that are kept outside it.
    pub external: bool,
}

/// `dept FILE NAME --as C [--at T]`
#[derive(Drop)]
pub struct DeptJob {
    pub file: Word,
    pub name: Word,
    pub asking: Asking,
}

/// `caller FILE NAME [RIGHT]... --as C [--at T] [--dept D] [--close]`
#[derive(Drop)]
pub struct CallerJob {
    pub file: Word,
    pub name: Word,
    pub rights: Words,
    pub asking: Asking,
    pub dept: Option<Word>,
    pub close: bool,
}

/// `bucket FILE NAME DEPT --as C [--at T]`
#[derive(Drop)]
pub struct BucketJob {
    pub file: Word,
    pub name: Word,
    pub dept: Word,
    pub asking: Asking,
}

/// `move FILE BUCKET DEPT --as C [--at T]`
#[derive(Drop)]
pub struct MoveJob {
    pub file: Word,
    pub bucket: Word,
    /// The department that the bucket moves to.
    pub dept: Word,
    pub asking: Asking,
}

/// `intake FILE BUCKET BATCH LIST FOLDER --as C [--at T]`
#[derive(Drop)]
pub struct IntakeJob {
    pub file: Word,
    pub bucket: Word,
    pub batch: Word,
    pub list: Word,
    pub folder: Word,
    pub asking: Asking,
}

/// `run FILE BUCKET --as C [--at T]`
#[derive(Drop)]
pub struct RunJob {
    pub file: Word,
    pub bucket: Word,
    pub asking: Asking,
}

/// `report FILE DEPT --as C [--at T]`
#[derive(Drop)]
pub struct ReportJob {
    pub file: Word,
    pub dept: Word,
    pub asking: Asking,
}

/// `certificate FILE BUCKET VERSION --as C [--at T]`
#[derive(Drop)]
pub struct CertificateJob {
    pub file: Word,
    pub bucket: Word,
    pub version: Word,
    pub asking: Asking,
}

/// `register FILE`
#[derive(Drop)]
pub struct RegisterJob {
    pub file: Word,
}

/// `verify FILE`
#[derive(Drop)]
pub struct VerifyJob {
    pub file: Word,
}

/// `events FILE [--before MOMENT]`
#[derive(Drop)]
pub struct EventsJob {
    pub file: Word,
    /// What isn't before this moment is left out; without one, nothing is.
    pub before: Option<Word>,
}

/// `seal FILE [--before MOMENT]`
#[derive(Drop)]
pub struct SealJob {
    pub file: Word,
    /// What isn't before this moment is left out; without one, the moment of the vault's last change.
    pub before: Option<Word>,
}

/// `lawful FILE`
#[derive(Drop)]
pub struct LawfulJob {
    pub file: Word,
}

/// `replay [FILE]`: without a file over a new vault in memory.
#[derive(Drop)]
pub struct ReplayJob {
    pub file: Option<Word>,
}

/// `serve FILE PORT [--count N] [--lines WHERE] [--host NAME]... [--log] [--journal FILE]`
#[derive(Drop)]
pub struct ServeJob {
    pub file: Word,
    pub port: u16,
    /// How many requests are served, and lines too where they come in.
    pub count: u32,
    /// Where lines come in; without it they don't.
    pub lines: Option<Word>,
    /// The hosts, beside this machine's own names, that requests may be for; without one they may be for any.
    pub hosts: Words,
    /// A line of each request and each line is written.
    pub log: bool,
    /// The new file that gets a line for each change; without it none is written.
    pub journal: Option<Word>,
}

/// `migrate OLD NEW [--external]`
#[derive(Drop)]
pub struct MigrateJob {
    /// The file of an earlier schema version than the copy's.
    pub old: Word,
    /// The file that gets the copy.
    pub new: Word,
    /// The copy registers contents that are kept outside it.
    pub external: bool,
}

/// What the program is to do.
#[derive(Drop)]
pub enum Job {
    Init(InitJob),
    Dept(DeptJob),
    Caller(CallerJob),
    Bucket(BucketJob),
    Move(MoveJob),
    Intake(IntakeJob),
    Run(RunJob),
    Report(ReportJob),
    Certificate(CertificateJob),
    Register(RegisterJob),
    Verify(VerifyJob),
    Events(EventsJob),
    Seal(SealJob),
    Lawful(LawfulJob),
    Replay(ReplayJob),
    Serve(ServeJob),
    Migrate(MigrateJob),
}
