//! Why a row isn't read.
ghost use Rattle.std.specs.Prelude.{◌≡◌};
ghost use Rattle.vault_audit_rows.specs.declared.misread.Misread.TheVariants as misreads;

use std::alloc::AllocError;
use thiserror::Error;

/// Why a row, or a value in one, isn't read.
#[derive(Clone, Copy, Debug, PartialEq, Eq, Error)]
pub enum Misread {
    /// It states no record of that kind, in its limits.
    #[error("the row tells no record of its kind")]
    Wrong,
    /// No memory was left for what it says.
    #[error("out of memory")]
    Memory,
}

impl From<AllocError> for Misread {
    ghost from_gives = { λ _ e. e ≡ misreads.Memory };

    fn from(_: AllocError) -> Misread {
        Misread::Memory
    }
}
