//! What an error of the store is reported as.
ghost use Rattle.std.specs.Prelude.{◌≡◌};
ghost use Rattle.vault_audit_model.specs.Faults.{refusal_of};

use sqlite::{Error, ErrorCode};
use vault_base::refusal::Refusal;

/// `Memory` where memory was refused, or else `Device`.
pub fn refusal_of(error: Error) -> Refusal
    ensures { result ≡ refusal_of error }
{
    match error {
        Error::SqliteFailure(ErrorCode::OutOfMemory) => Refusal::Memory,
        _ => Refusal::Device,
    }
}
