//! Tests that cross crates: what faults of a reader or a writer leave of a script, and of a journal whose writer holds back;
//! and what runs and listings ask of their keeper: page by page of keys, by ranges of prefixes, and of a key the versions
//! that are listed.
#![tactic(auto)]

#[cfg(test)]
mod faults;
#[cfg(test)]
mod journals;
#[cfg(test)]
mod key_pages;
#[cfg(test)]
mod key_ranges;
#[cfg(test)]
mod listed_versions;
