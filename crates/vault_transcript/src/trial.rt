//! Trials on a vault in memory, and texts that are compared.
use crate::transcript::{opened, play};
use std::alloc::Global;
use std::test::Fail;
use vault_core::fuse_keeper::FuseKeeper;
use vault_core_list::list_keeper::ListKeeper;
use vault_core_model::keeper::Keeper;

/// What is tried on a vault. It is over any keeper, as a proof over a list would go through all parts of that
/// list wherever a trial may end.
pub trait Trial {
    fn carry_out<K: Keeper>(&self, alloc: Global, keeper: &mut K) -> Result<(), Fail>;
}

fn carry_out_after<K: Keeper, T: Trial>(
    alloc: Global,
    keeper: &mut K,
    transcript: &str,
    trial: &T,
) -> Result<(), Fail> {
    play(alloc, keeper, transcript)?;
    trial.carry_out(alloc, keeper)
}

/// Carries a trial out on a vault in which a transcript was carried out.
pub fn try_after<T: Trial>(alloc: Global, transcript: &str, trial: &T) -> Result<(), Fail> {
    let mut keeper = opened(alloc)?;
    let tried = carry_out_after(alloc, &mut keeper, transcript, trial);
    drop(keeper);
    tried
}

/// Carries a trial out on a new vault.
pub fn try_on_new<T: Trial>(alloc: Global, trial: &T) -> Result<(), Fail> {
    try_after(alloc, "", trial)
}

/// Carries a trial out on a new vault whose device refuses the change after n.
pub fn try_on_failing<T: Trial>(alloc: Global, changes: u64, trial: &T) -> Result<(), Fail> {
    let mut keeper: FuseKeeper<ListKeeper> = FuseKeeper::new(opened(alloc)?, changes);
    let tried = trial.carry_out(alloc, &mut keeper);
    drop(keeper);
    tried
}

/// Fails unless both texts are the same. The failure names what the text is of.
pub fn compare(name: &str, given: &str, wanted: &str) -> Result<(), Fail> {
    if given == wanted {
        return Ok(());
    }
    Err(Fail::new(format_args!("{name}: wanted {wanted}, got {given}")))
}
