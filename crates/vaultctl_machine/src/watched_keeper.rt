//! A keeper that looks before each change whether the vault's files are still those that were opened.
ghost use Rattle.std.specs.Prelude.{◌≡◌, ◌<◌, IsTrue, false, true};

use vault_core_model::change::Change;
use vault_core_model::halt::Fault;
use vault_core_model::keeper::Keeper;
use vault_core_model::kept::Kept;
use vault_core_model::wrapper::Wrapper;
use vaultctl_machine_stores::watch::Watch;

/// A keeper that looks before each change whether the vault's files are still those that were opened. From the first
/// change on for which they aren't, it refuses each with `Device`; the first time it reports so. Each change that it
/// refuses counts as a failure of the device. Reads go on.
///
/// A change is written to the files that were opened. Where their names mean other files, or none, what is answered as
/// done would be lost once they are closed.
#[derive(Drop)]
pub struct WatchedKeeper<K, W> {
    keeper: K,
    watch: W,
    /// How many changes were refused.
    refused: u64,
}

impl<K, W> WatchedKeeper<K, W> {
    ghost use Rattle.std.specs.Prelude.{◌≡◌};

    /// A keeper over another one, and what sees its files.
    pub fn new(keeper: K, watch: W) -> WatchedKeeper<K, W>
        ensures below { result.keeper ≡ keeper }
        ensures refused { result.refused ≡ 0 }
    {
        WatchedKeeper {
            keeper,
            watch,
            refused: 0,
        }
    }
}

impl<K, W: Drop> WatchedKeeper<K, W> {
    ghost use Rattle.std.specs.Prelude.{◌≡◌};

    /// The keeper below.
    pub fn into_keeper(self) -> K
        ensures { result ≡ self.keeper }
    {
        let WatchedKeeper {
            keeper,
            watch: _,
            refused: _,
        } = self;
        keeper
    }
}

/// Whether a change is to be refused, after `refused` others were. Before the first the watch reports why.
fn is_lost<W: Watch>(watch: &W, refused: u64) -> bool
    ensures later { 0 < refused → IsTrue result }
    // None is made but after a look that found the files in place.
    ensures seen { result ≡ false → W.saw watch.now true }
    // For the first that is refused it was reported why.
    ensures reported { refused ≡ 0 → IsTrue result → W.warned watch.now }
{
    if refused > 0 {
        return true;
    }
    if watch.are_in_place() {
        return false;
    }
    watch.report();
    true
}

impl<K: Kept, W> Kept for WatchedKeeper<K, W> {
    ghost use Rattle.vaultctl_machine.specs.Watched.{failures};

    ghost is_honest = { λ k. K.is_honest k.keeper };

    ghost vault = { λ k. K.vault k.keeper };

    ghost count = { λ k. failures (K.count k.keeper) k.refused };

    ghost sound = { λ k honest. K.sound k.keeper honest };
}

#[tactic(auto, using(crate::proofs::Failures::refused_more))]
impl<K: Keeper, W: Watch> Wrapper for WatchedKeeper<K, W> {
    type Below = K;

    ghost use Rattle.std.specs.Prelude.{refl};
    ghost use Rattle.std.proofs.Common.{◌∙◌, ap};
    ghost use Rattle.vaultctl_machine.specs.Watched.{failed_below, failures};

    ghost within = { λ k. k.keeper };

    ghost with_below = { λ k below. record k { keeper = below } };

    ghost wraps = { record {
      put = λ _ _. refl;
      vault = λ _. refl;
      trusts = λ _ honest. honest;
      honest = λ _ _ before honest. before honest;
      counted = λ k _ failed is. ap (λ n. failures n k.refused) is ∙ failed_below _ k.refused failed;
    } };

    fn below(&mut self) -> &mut K {
        &mut self.keeper
    }

    fn all_faults(&self) -> u64 {
        self.keeper.faults().saturating_add(self.refused)
    }

    fn before_change(&mut self, _change: &Change) -> Result<(), Fault> {
        if is_lost(&self.watch, self.refused) {
            self.refused = self.refused.saturating_add(1);
            return Err(Fault::Device);
        }
        Ok(())
    }
}
