//! What is at a path before its files are opened, connections to them, which a refused command leaves as it found them,
//! and whether they are still those that were opened.
#![tactic(auto)]

pub mod before;
mod blank;
pub mod cause;
pub mod connect;
pub mod opened_files;
pub mod places;
pub mod progress_disk;
pub mod site;
pub mod watch;
