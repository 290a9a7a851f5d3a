//! Why a register was not written to its end.
ghost use Rattle.std.specs.Prelude.{◌≡◌};
ghost use Rattle.vault_files_texts.specs.Faults.{fault_of_keeper};
ghost use Rattle.vault_files_texts.specs.declared.fault.ExportFault.TheVariants as faults;

use std::alloc::AllocError;
use thiserror::Error;
use vault_core_model::halt::Fault;

/// Why a register was not written to its end.
#[derive(Clone, Copy, Debug, PartialEq, Eq, Error)]
pub enum ExportFault {
    /// The writer failed.
    #[error("Write")]
    Write,
    /// Room for a record was refused.
    #[error("Memory")]
    Memory,
    /// The device of the vault failed.
    #[error("Device")]
    Device,
}

impl From<AllocError> for ExportFault {
    ghost from_gives = { λ _ e. e ≡ faults.Memory };

    fn from(_: AllocError) -> ExportFault {
        ExportFault::Memory
    }
}

impl From<Fault> for ExportFault {
    ghost from_gives = { λ f e. e ≡ fault_of_keeper f };

    fn from(fault: Fault) -> ExportFault {
        match fault {
            Fault::Memory => ExportFault::Memory,
            Fault::Device => ExportFault::Device,
        }
    }
}
