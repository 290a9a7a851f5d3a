//! Why a command stops short of its answer.
ghost use Rattle.std.specs.Prelude.{◌≡◌};
ghost use Rattle.vault_core_model.specs.declared.halt.Fault.TheVariants as faults;
ghost use Rattle.vault_core_model.specs.declared.halt.Halt.TheVariants as halts;

use std::alloc::{AllocError, AllocFailed};
use thiserror::Error;
use vault_base::refusal::Refusal;

/// What keeps a keeper from answering.
#[derive(Clone, Copy, Debug, PartialEq, Eq, Error)]
pub enum Fault {
    /// No memory was left for a growth.
    #[error("out of memory")]
    Memory,
    /// The device failed.
    #[error("the device failed")]
    Device,
}

/// Why a command stops short of its answer: a check failed, or a fault came.
#[derive(Clone, Copy, Debug, PartialEq, Eq, Error)]
pub enum Halt {
    #[error(transparent)]
    Fault(Fault),
    #[error("{}", .0.name())]
    Refused(Refusal),
}

impl From<AllocError> for Fault {
    ghost from_gives = { λ _ e. e ≡ faults.Memory };

    fn from(_: AllocError) -> Fault {
        Fault::Memory
    }
}

impl<T: Drop> From<AllocFailed<T>> for Fault {
    ghost from_gives = { λ _ e. e ≡ faults.Memory };

    fn from(_: AllocFailed<T>) -> Fault {
        Fault::Memory
    }
}

impl From<AllocError> for Halt {
    ghost from_gives = { λ _ e. e ≡ halts.Fault faults.Memory };

    fn from(_: AllocError) -> Halt {
        Halt::Fault(Fault::Memory)
    }
}

impl<T: Drop> From<AllocFailed<T>> for Halt {
    ghost from_gives = { λ _ e. e ≡ halts.Fault faults.Memory };

    fn from(_: AllocFailed<T>) -> Halt {
        Halt::Fault(Fault::Memory)
    }
}

impl From<Fault> for Halt {
    ghost from_gives = { λ f e. e ≡ halts.Fault f };

    fn from(fault: Fault) -> Halt {
        Halt::Fault(fault)
    }
}

impl From<Refusal> for Halt {
    ghost from_gives = { λ r e. e ≡ halts.Refused r };

    fn from(refusal: Refusal) -> Halt {
        Halt::Refused(refusal)
    }
}
