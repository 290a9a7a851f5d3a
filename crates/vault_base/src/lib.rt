//! Names, moments and refusals of the vault.
#![tactic(auto)]

pub mod content;
pub mod grammar;
pub mod limits;
pub mod name;
pub mod refusal;
pub mod right;
mod spelling;

pub use vault_base_time::moment;
