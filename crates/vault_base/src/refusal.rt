//! Why a command is refused: 24 refusals, each with its number, its name and its HTTP status.
use crate::right::Right;

/// Why access is denied.
#[derive(Clone, Copy, Debug, PartialEq, Eq)]
pub enum Reason {
    /// No open caller has that name.
    UnknownCaller,
    /// The caller is of another department.
    Department,
    /// The caller hasn't that right.
    Right(Right),
    /// A legal hold is on.
    LegalHold,
    /// Retention in compliance mode is in force.
    RetentionCompliance,
    /// Retention in governance mode is in force.
    RetentionGovernance,
}

impl Reason {
    ghost use Rattle.std.specs.Prelude.{◌≡◌};
    ghost use Rattle.vault_base.specs.Refusal.{reason_name};

    /// Its name, as `legal-hold`, or `right:put` for a missing right.
    pub fn name(self) -> &'static str
        ensures { result.now ≡ reason_name self }
    {
        match self {
            Reason::UnknownCaller => "unknown-caller",
            Reason::Department => "department",
            Reason::Right(right) => right.reason_name(),
            Reason::LegalHold => "legal-hold",
            Reason::RetentionCompliance => "retention-compliance",
            Reason::RetentionGovernance => "retention-governance",
        }
    }
}

/// A table of the store.
#[derive(Clone, Copy, Debug, PartialEq, Eq)]
pub enum Table {
    Meta,
    Departments,
    Callers,
    Buckets,
    Rules,
    Entries,
    Contents,
    Settings,
    Intake,
    Heads,
    Tenures,
    External,
}

impl Table {
    ghost use Rattle.std.specs.Prelude.{◌≡◌};
    ghost use Rattle.vault_base.specs.Refusal.{table_name};

    /// Its name in the file, as `departments`.
    pub fn name(self) -> &'static str
        ensures { result.now ≡ table_name self }
    {
        match self {
            Table::Meta => "meta",
            Table::Departments => "departments",
            Table::Callers => "callers",
            Table::Buckets => "buckets",
            Table::Rules => "rules",
            Table::Entries => "entries",
            Table::Contents => "contents",
            Table::Settings => "settings",
            Table::Intake => "intake",
            Table::Heads => "heads",
            Table::Tenures => "tenures",
            Table::External => "external",
        }
    }
}

/// Why a command is refused.
#[derive(Clone, Copy, Debug, PartialEq, Eq)]
pub enum Refusal {
    /// The reading is before the vault's last moment.
    ClockBack,
    /// The reading isn't a moment.
    ClockOutOfRange,
    /// The caller may not, or a lock forbids it.
    AccessDenied(Reason),
    /// No bucket has that name.
    NoSuchBucket,
    /// The key has no content version on top; whether a delete marker stands there.
    NoSuchKey(bool),
    /// No held version of that key has that id.
    NoSuchVersion,
    /// The entry is of the wrong kind, or the resource hasn't that HTTP method.
    MethodNotAllowed,
    /// A bucket of that name is there.
    BucketAlreadyExists,
    /// A department or caller of that name was there before, or a table of a new store is.
    NameTaken,
    /// A value is outside what is allowed.
    InvalidArgument,
    /// A retain-until date isn't a moment.
    RetentionOutOfRange,
    /// A body or line isn't of its form.
    MalformedBody,
    /// Content or a body is above its limit.
    EntityTooLarge,
    /// A key is above 1,024 bytes.
    KeyTooLongError,
    /// No bucket can have that name.
    InvalidBucketName,
    /// A request with a body doesn't say its length.
    MissingContentLength,
    /// A request asks for what the vault doesn't do.
    NotImplemented,
    /// The bucket has no rules.
    NoSuchLifecycleConfiguration,
    /// The bytes that the department admits and receives would be above its limit.
    QuotaExceeded,
    /// No id for an entry, no number for a setting or none for a move of a bucket is left.
    VaultFull,
    /// A line of an intake batch was taken in before with other content or another lock.
    IntakeConflict,
    /// A growth was refused.
    Memory,
    /// The device failed.
    Device,
    /// A table of the file isn't sound.
    Damaged(Table),
}

impl Refusal {
    ghost use Rattle.std.specs.Prelude.{◌≡◌};
    ghost use Rattle.vault_base.specs.Refusal.{number_of, name_of, status_of};

    /// Its number, from 1 to 24.
    pub fn number(self) -> u32
        ensures { result ≡ number_of self }
    {
        match self {
            Refusal::ClockBack => 1,
            Refusal::ClockOutOfRange => 2,
            Refusal::AccessDenied(_) => 3,
            Refusal::NoSuchBucket => 4,
            Refusal::NoSuchKey(_) => 5,
            Refusal::NoSuchVersion => 6,
            Refusal::MethodNotAllowed => 7,
            Refusal::BucketAlreadyExists => 8,
            Refusal::NameTaken => 9,
            Refusal::InvalidArgument => 10,
            Refusal::RetentionOutOfRange => 11,
            Refusal::MalformedBody => 12,
            Refusal::EntityTooLarge => 13,
            Refusal::KeyTooLongError => 14,
            Refusal::InvalidBucketName => 15,
            Refusal::MissingContentLength => 16,
            Refusal::NotImplemented => 17,
            Refusal::NoSuchLifecycleConfiguration => 18,
            Refusal::QuotaExceeded => 19,
            Refusal::VaultFull => 20,
            Refusal::IntakeConflict => 21,
            Refusal::Memory => 22,
            Refusal::Device => 23,
            Refusal::Damaged(_) => 24,
        }
    }

    /// Its name, as `NoSuchKey`.
    pub fn name(self) -> &'static str
        ensures { result.now ≡ name_of self }
    {
        match self {
            Refusal::ClockBack => "ClockBack",
            Refusal::ClockOutOfRange => "ClockOutOfRange",
            Refusal::AccessDenied(_) => "AccessDenied",
            Refusal::NoSuchBucket => "NoSuchBucket",
            Refusal::NoSuchKey(_) => "NoSuchKey",
            Refusal::NoSuchVersion => "NoSuchVersion",
            Refusal::MethodNotAllowed => "MethodNotAllowed",
            Refusal::BucketAlreadyExists => "BucketAlreadyExists",
            Refusal::NameTaken => "NameTaken",
            Refusal::InvalidArgument => "InvalidArgument",
            Refusal::RetentionOutOfRange => "RetentionOutOfRange",
            Refusal::MalformedBody => "MalformedBody",
            Refusal::EntityTooLarge => "EntityTooLarge",
            Refusal::KeyTooLongError => "KeyTooLongError",
            Refusal::InvalidBucketName => "InvalidBucketName",
            Refusal::MissingContentLength => "MissingContentLength",
            Refusal::NotImplemented => "NotImplemented",
            Refusal::NoSuchLifecycleConfiguration => "NoSuchLifecycleConfiguration",
            Refusal::QuotaExceeded => "QuotaExceeded",
            Refusal::VaultFull => "VaultFull",
            Refusal::IntakeConflict => "IntakeConflict",
            Refusal::Memory => "Memory",
            Refusal::Device => "Device",
            Refusal::Damaged(_) => "Damaged",
        }
    }

    /// Its HTTP status; none for a damaged file, which no request is answered
    /// (Amazon S3 API Reference, "Error responses").
    pub fn status(self) -> Option<u16>
        ensures { result ≡ status_of self }
    {
        match self {
            Refusal::ClockBack => Some(503),
            Refusal::ClockOutOfRange => Some(503),
            Refusal::AccessDenied(_) => Some(403),
            Refusal::NoSuchBucket => Some(404),
            Refusal::NoSuchKey(_) => Some(404),
            Refusal::NoSuchVersion => Some(404),
            Refusal::MethodNotAllowed => Some(405),
            Refusal::BucketAlreadyExists => Some(409),
            Refusal::NameTaken => Some(409),
            Refusal::InvalidArgument => Some(400),
            Refusal::RetentionOutOfRange => Some(400),
            Refusal::MalformedBody => Some(400),
            Refusal::EntityTooLarge => Some(400),
            Refusal::KeyTooLongError => Some(400),
            Refusal::InvalidBucketName => Some(400),
            Refusal::MissingContentLength => Some(411),
            Refusal::NotImplemented => Some(501),
            Refusal::NoSuchLifecycleConfiguration => Some(404),
            Refusal::QuotaExceeded => Some(403),
            Refusal::VaultFull => Some(503),
            Refusal::IntakeConflict => Some(409),
            Refusal::Memory => Some(503),
            Refusal::Device => Some(500),
            Refusal::Damaged(_) => None,
        }
    }
}
