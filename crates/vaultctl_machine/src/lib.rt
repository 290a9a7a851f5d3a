//! Vaults in the files of a machine.
#![tactic(auto)]

pub mod crashes;
mod looks;
pub mod migration;
pub mod open_error;
mod schema_versions;
pub mod starts;
pub mod vault_counts;
pub mod vaults;
pub mod watched_keeper;
