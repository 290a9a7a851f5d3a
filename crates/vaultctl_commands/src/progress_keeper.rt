//! How far a long job has come, reported on a terminal while it goes on.
use std::io::Stderr;
use vault_core_model::change::Change;
use vault_core_model::halt::Fault;
use vault_core_model::keeper::Keeper;
use vault_core_model::kept::Kept;
use vault_core_model::wrapper::{Read, Wrapper};
use vault_files::progress::show_count;

/// A keeper of which a line is written after each thousand keys whose entries were asked for, as `1000 keys`, and after
/// each thousand entries that were asked for by their ids, as `1000 entries`. A run asks for those of each key of its
/// bucket, and a seal for each entry of the vault. A listing asks for those of several keys too, but no job that has a
/// terminal lists.
///
/// What it keeps is what the keeper within it keeps. That a line can't be written is no failure of it, and is reported to
/// nobody; without a terminal nothing is written.
#[derive(Drop)]
pub struct ProgressKeeper<K> {
    keeper: K,
    terminal: Option<Stderr>,
    keys: u64,
    entries: u64,
}

impl<K> ProgressKeeper<K> {
    ghost use Rattle.std.specs.Prelude.{◌≡◌};

    /// A keeper over another one, of which nothing was asked for yet, and the terminal that is reported.
    pub fn new(keeper: K, terminal: Option<Stderr>) -> ProgressKeeper<K>
        ensures below { result.keeper ≡ keeper }
        ensures terminal { result.terminal ≡ terminal }
        ensures keys { result.keys ≡ 0 }
        ensures entries { result.entries ≡ 0 }
    {
        ProgressKeeper {
            keeper,
            terminal,
            keys: 0,
            entries: 0,
        }
    }

    /// The keeper below.
    pub fn into_keeper(self) -> K
        ensures { result ≡ self.keeper }
    {
        let ProgressKeeper {
            keeper,
            terminal: _,
            keys: _,
            entries: _,
        } = self;
        keeper
    }
}

impl<K: Kept> Kept for ProgressKeeper<K> {
    ghost is_honest = { λ k. K.is_honest k.keeper };

    ghost vault = { λ k. K.vault k.keeper };

    ghost count = { λ k. K.count k.keeper };

    ghost sound = { λ k honest. K.sound k.keeper honest };
}

impl<K: Keeper> Wrapper for ProgressKeeper<K> {
    type Below = K;

    ghost use Rattle.std.specs.Prelude.{refl};

    ghost within = { λ k. k.keeper };

    ghost with_below = { λ k below. record k { keeper = below } };

    ghost wraps = { record {
      put = λ _ _. refl;
      vault = λ _. refl;
      trusts = λ _ honest. honest;
      honest = λ _ _ before honest. before honest;
      counted = λ _ _ _ is. is;
    } };

    fn below(&mut self) -> &mut K {
        &mut self.keeper
    }

    fn all_faults(&self) -> u64 {
        self.keeper.faults()
    }

    fn before_read(&mut self, read: &Read<'_>) {
        match read {
            Read::Entries(_) => {
                self.keys = self.keys.saturating_add(1);
                show(&mut self.terminal, self.keys, "keys");
            }
            Read::Entry(_) => {
                self.entries = self.entries.saturating_add(1);
                show(&mut self.terminal, self.entries, "entries");
            }
            _ => {}
        }
    }

    fn before_change(&mut self, _change: &Change) -> Result<(), Fault> {
        Ok(())
    }
}

/// Writes a count as `show_count` does, where there is a terminal.
fn show(terminal: &mut Option<Stderr>, count: u64, what: &str) {
    if let Some(terminal) = terminal {
        show_count(terminal, count, what);
    }
}
