//! Texts read to names, moments, rights, retentions and holds, each with its refusal.
#![tactic(auto)]

pub mod fault;
pub mod locks;
pub mod named;
pub mod rights;
pub mod words;
