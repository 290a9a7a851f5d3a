//! A run of the lifecycle rules over a bucket, over any keeper: key by key, in pages of keys, each change
//! by itself. No whole plan is kept. Keys that no enabled rule's prefix begins are passed over, those between
//! two prefixes without a look.
#![tactic(auto)]

mod change;
mod key;
mod pages;
mod ranges;
pub mod run;
