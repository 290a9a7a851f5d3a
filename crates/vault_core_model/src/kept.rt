//! What proofs see of what keeps a vault.
ghost use Rattle.std.specs.Prelude.{ℕ};
ghost use Rattle.vault_core_model.specs.Sound.{Sound};
ghost use Rattle.vault_core_model.specs.Vault.{Vault};

/// What keeps a vault, as clauses and proofs see it.
pub trait Kept {
    /// Its device has returned what was written; memory always has.
    ghost is_honest: { Self → Type 0 };

    /// The vault that it keeps.
    ghost vault: { Self → Vault };

    /// How often its device failed, up to the greatest number.
    ghost count: { Self → ℕ };

    /// Every vault that is kept is sound.
    ghost sound: { (k : Self) → is_honest k → Sound (vault k) };
}
