//! How many vaults were given out.
ghost use Rattle.std.specs.Prelude.{◌≡◌};
ghost use Rattle.vaultctl_machine.specs.VaultCounts as spec;

/// How many vaults were given out, by how they came about. Each count stops at the greatest number.
#[derive(Clone, Copy, Debug, PartialEq, Eq)]
pub struct VaultCounts {
    /// Those that were there.
    pub opened: u64,
    /// New ones.
    pub made: u64,
    /// Copies of those of earlier versions.
    pub copied: u64,
}

impl VaultCounts {
    /// None yet.
    pub fn none() -> VaultCounts
        ensures { result ≡ record { opened = 0; made = 0; copied = 0 } }
    {
        VaultCounts {
            opened: 0,
            made: 0,
            copied: 0,
        }
    }

    /// With one more that was there.
    pub fn with_opened(self) -> VaultCounts
        ensures { result ≡ spec.with_opened self }
    {
        VaultCounts {
            opened: self.opened.saturating_add(1),
            ..self
        }
    }

    /// With one more that is new.
    pub fn with_made(self) -> VaultCounts
        ensures { result ≡ spec.with_made self }
    {
        VaultCounts {
            made: self.made.saturating_add(1),
            ..self
        }
    }

    /// With one more copy.
    pub fn with_copied(self) -> VaultCounts
        ensures { result ≡ spec.with_copied self }
    {
        VaultCounts {
            copied: self.copied.saturating_add(1),
            ..self
        }
    }
}
