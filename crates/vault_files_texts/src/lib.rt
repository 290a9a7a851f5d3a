//! Texts for the office: certificates of destruction, reports, and the register of removals as CSV.
#![tactic(auto)]

pub mod certificate;
mod fault;
mod record;
pub mod register;
pub mod removed;
pub mod report_text;
mod rows;
mod writing;

pub use crate::fault::ExportFault;
