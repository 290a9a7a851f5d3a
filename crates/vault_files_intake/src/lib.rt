//! A list and the files of a folder taken in, each as a version, and the lines that are printed of it.
#![tactic(auto)]

mod batch;
pub mod file_name;
pub mod folder;
pub mod intake;
pub mod lines;
pub mod list;
pub mod list_folder;
pub mod report;
pub mod row;
mod take_row;
