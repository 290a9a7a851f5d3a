//! What tests over whole vaults have in common: a script with its replies between the lines, carried out
//! over a keeper; what replies say of a vault; texts of requests; trials on a vault in memory; a keeper that notes what is
//! asked of it; and buckets of many keys.
#![tactic(auto)]

pub mod fillings;
pub mod noting_keeper;
pub mod replies_of;
pub mod requests;
pub mod transcript;
pub mod trial;
