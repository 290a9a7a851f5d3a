//! Why the command of a row is refused.
use crate::shown::{Explanation, Given};
use vault_base::refusal::{Reason, Refusal};

fn words_of(refusal: Refusal) -> &'static str {
    match refusal {
        Refusal::AccessDenied(Reason::Right(_)) =>
            "the caller hasn't the right `{}`; let a caller take it in who has it",
        Refusal::AccessDenied(Reason::UnknownCaller) =>
            "no open caller has the name that `--as` gives; check its spelling",
        Refusal::AccessDenied(Reason::Department) =>
            "the caller is of another department than the bucket; let a caller of that one take it in",
        Refusal::AccessDenied(_) => "the caller may not",
        Refusal::NoSuchBucket => "no bucket has that name; check its spelling, or add it first",
        Refusal::ClockBack =>
            "the moment of the intake is before the vault's last one; give a later `--at`, or wait for it",
        Refusal::InvalidArgument =>
            "`until` doesn't lie after the moment of the intake; correct it",
        Refusal::RetentionOutOfRange =>
            "the bucket's default retention would end after the year 9999; give the row a mode and an end",
        Refusal::QuotaExceeded =>
            "the department would admit more bytes than its limit; take a bucket of another one",
        Refusal::VaultFull => "the vault has no number for another version; begin another vault",
        Refusal::IntakeConflict =>
            "this row of the batch was taken in before with another key, content, retention or hold; give the changed file a row of its own at the list's end",
        _ => refusal.name(),
    }
}

/// Why the command of a row is refused, where its cells and its file are as they have to be.
pub(crate) fn command_fault(refusal: Refusal) -> Explanation<'static> {
    let right = match refusal {
        Refusal::AccessDenied(Reason::Right(right)) => right.name(),
        _ => "",
    };
    let words = words_of(refusal);
    let given = Given::Bytes(right.as_bytes());
    Explanation { words, given }
}
