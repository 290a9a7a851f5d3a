//! A keeper whose device fails once, for tests.
use vault_core_model::change::Change;
use vault_core_model::halt::Fault;
use vault_core_model::keeper::Keeper;
use vault_core_model::kept::Kept;
use vault_core_model::wrapper::Wrapper;

/// A keeper that passes n changes on, refuses the next with `Device`, and passes all after.
#[derive(Drop)]
pub struct FuseKeeper<K> {
    keeper: K,
    /// How many changes are still passed on before the refusal.
    left: u64,
    blown: bool,
}

impl<K> FuseKeeper<K> {
    ghost use Rattle.std.specs.Prelude.{◌≡◌, false};

    /// A keeper over another one, that refuses the change after n.
    pub fn new(keeper: K, changes: u64) -> FuseKeeper<K>
        ensures below { result.keeper ≡ keeper }
        ensures left { result.left ≡ changes }
        ensures whole { result.blown ≡ false }
    {
        FuseKeeper {
            keeper,
            left: changes,
            blown: false,
        }
    }

    /// The keeper below.
    pub fn into_keeper(self) -> K
        ensures { result ≡ self.keeper }
    {
        let FuseKeeper {
            keeper,
            left: _,
            blown: _,
        } = self;
        keeper
    }
}

impl<K: Kept> Kept for FuseKeeper<K> {
    ghost use Rattle.vault_core_model.specs.Leaves.{count_after};

    ghost is_honest = { λ k. K.is_honest k.keeper };

    ghost vault = { λ k. K.vault k.keeper };

    ghost count = { λ k. count_after (K.count k.keeper) k.blown };

    ghost sound = { λ k honest. K.sound k.keeper honest };
}

impl<K: Keeper> Wrapper for FuseKeeper<K> {
    type Below = K;

    ghost use Rattle.std.specs.Prelude.{refl};
    ghost use Rattle.std.proofs.Common.{◌∙◌, ap};
    ghost use Rattle.vault_core_model.proofs.Counts.{count_swaps};
    ghost use Rattle.vault_core_model.specs.Leaves.{count_after};

    ghost within = { λ k. k.keeper };

    ghost with_below = { λ k below. record k { keeper = below } };

    ghost wraps = { record {
      put = λ _ _. refl;
      vault = λ _. refl;
      trusts = λ _ honest. honest;
      honest = λ _ _ before honest. before honest;
      counted = λ k _ failed is. ap (λ n. count_after n k.blown) is ∙ count_swaps _ failed k.blown;
    } };

    fn below(&mut self) -> &mut K {
        &mut self.keeper
    }

    fn all_faults(&self) -> u64 {
        let below = self.keeper.faults();
        if self.blown {
            below.saturating_add(1)
        } else {
            below
        }
    }

    fn before_change(&mut self, _change: &Change) -> Result<(), Fault> {
        if !self.blown {
            if self.left == 0 {
                self.blown = true;
                return Err(Fault::Device);
            }
            self.left -= 1;
        }
        Ok(())
    }
}
