//! Why texts give no command.
use std::alloc::AllocError;
use thiserror::Error;
use vault_base::refusal::Refusal;

/// Why a line, a row of a list, a request or the words of a job give no command.
#[derive(Clone, Copy, Debug, Error)]
pub enum LineFault {
    /// There was no memory for it.
    #[error("out of memory")]
    Memory,
    /// Its first fault: MalformedBody for a shape; for a value InvalidBucketName, KeyTooLongError,
    /// RetentionOutOfRange, ClockOutOfRange or AccessDenied where its kind has one of these, else InvalidArgument; a
    /// request has some of its own.
    #[error("{}", .0.name())]
    Refused(Refusal),
}

impl From<AllocError> for LineFault {
    ghost use Rattle.std.specs.Prelude.{◌≡◌};
    ghost use Rattle.vault_values.specs.declared.fault.LineFault.TheVariants.{Memory};

    ghost from_gives = { λ _ e. e ≡ Memory };

    fn from(_: AllocError) -> LineFault {
        LineFault::Memory
    }
}
