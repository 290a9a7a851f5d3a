//! What a look says of a row that holds no record.
ghost use Rattle.std.specs.Prelude.{◌≡◌, false, IfErr, IfOk};

use sqlite::{Error, ErrorCode};
use vault_audit_rows::misread::Misread;

/// What an unread row is reported as: a row that holds no such record doesn't pass, and out of memory is an error.
pub fn refused(misread: Misread) -> Result<bool, Error>
    ensures wrong { IfOk result (λ passes. (passes ≡ false) × (misread ≡ Misread.Wrong)) }
    ensures memory { IfErr result (λ error. (misread ≡ Misread.Memory) × (error ≡ Error.SqliteFailure ErrorCode.OutOfMemory)) }
{
    match misread {
        Misread::Wrong => Ok(false),
        Misread::Memory => Err(Error::SqliteFailure(ErrorCode::OutOfMemory)),
    }
}
