//! Why the vault in a file isn't opened or made.
ghost use Rattle.std.specs.Prelude.{◌≡◌};
ghost use Rattle.vaultctl_machine.specs.Faults as spec;

use thiserror::Error;
use vault_base::refusal::Refusal;
use vaultctl_machine_stores::cause::Cause;

/// Why the vault in a file isn't opened or made.
#[derive(Clone, Copy, Debug, PartialEq, Eq, Error)]
pub enum OpenError {
    /// Another program has the file or its log open, if only to read. It is reported as `Device`.
    #[error("another program has the file or its log open")]
    InUse,
    /// For a cause that the files show, which is reported as this.
    #[error("{}", .0.words())]
    Seen(Cause, Refusal),
    /// For another cause, which is reported as this.
    #[error("{}", .0.name())]
    Refused(Refusal),
}

impl OpenError {
    /// What it is reported as.
    pub fn refusal(self) -> Refusal
        ensures { result ≡ spec.refusal_of self }
    {
        match self {
            OpenError::InUse => Refusal::Device,
            OpenError::Seen(_, refusal) => refusal,
            OpenError::Refused(refusal) => refusal,
        }
    }

    /// The cause in words, with what to do about it; none where the refusal says all that is known.
    pub fn words(self) -> Option<&'static str> {
        match self {
            OpenError::InUse => Some(
                "another program has the vault's file open, if only to read: end it, or wait, and give the command again",
            ),
            OpenError::Seen(cause, _) => Some(cause.words()),
            OpenError::Refused(_) => None,
        }
    }
}

/// Whether a cause is a failure of the disk.
fn is_failure(cause: Cause) -> bool
    ensures { result ≡ spec.is_failure cause }
{
    match cause {
        Cause::Full | Cause::Failed => true,
        _ => false,
    }
}

/// The cause of a refusal that the files show, if they show one. A failure of the disk is shown with `Device` alone.
pub(crate) fn with_cause(refusal: Refusal, seen: Option<Cause>) -> OpenError
    ensures refusal { spec.refusal_of result ≡ refusal }
    ensures failure { spec.ReportsFailure result }
{
    let Some(cause) = seen else {
        return OpenError::Refused(refusal);
    };
    match refusal {
        Refusal::Device => OpenError::Seen(cause, Refusal::Device),
        _ if is_failure(cause) => OpenError::Refused(refusal),
        _ => OpenError::Seen(cause, refusal),
    }
}
