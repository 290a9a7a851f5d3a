//! Why a job was not done to its end.
use thiserror::Error;

/// Why a job was not done to its end.
#[derive(Clone, Copy, Debug, PartialEq, Eq, Error)]
pub enum JobFault {
    /// The reader failed.
    #[error("Read")]
    Read,
    /// The writer failed.
    #[error("Write")]
    Write,
    /// Memory was refused.
    #[error("Memory")]
    Memory,
    /// A device failed, or a port isn't free.
    #[error("Device")]
    Device,
}

impl JobFault {
    ghost use Rattle.std.specs.Prelude.{◌≡◌};
    ghost use Rattle.vaultctl_commands.specs.Faults.{fault_name, fault_words};

    /// Its name, as `Read`.
    pub fn name(self) -> &'static str
        ensures { result.now ≡ fault_name self }
    {
        match self {
            JobFault::Read => "Read",
            JobFault::Write => "Write",
            JobFault::Memory => "Memory",
            JobFault::Device => "Device",
        }
    }

    /// What it means and what to do, as a line; for a device no line, as what it was is said where it is seen.
    pub fn words(self) -> &'static str
        ensures { result.now ≡ fault_words self }
    {
        match self {
            JobFault::Read =>
                "the input can't be read to its end: what was answered was carried out\n",
            JobFault::Write =>
                "the answer can't be written, as to a full disk or a closed pipe: what was asked may have been done, so look before you give it again\n",
            JobFault::Memory =>
                "the machine refused memory: stop other programs, and look what was done before you give it again\n",
            JobFault::Device => "",
        }
    }
}
