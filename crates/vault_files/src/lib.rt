//! Files for whoever takes folders in or writes what auditors ask for: intakes, certificates, reports and the
//! register of removals.
#![tactic(auto)]

mod cell_fault;
mod command_fault;
pub mod disk_folder;
mod file_fault;
pub mod laws;
mod list_fault;
pub mod list_file;
mod opening;
pub mod progress;
mod reading;
pub mod second_look;
mod shown;

pub use vault_files_intake::{file_name, folder, intake, lines, list_folder, report};
pub use vault_files_texts::{ExportFault, certificate, register, report_text};
