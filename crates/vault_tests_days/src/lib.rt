//! Days in a vault, and single values, worked out on the definitions: no function is tried, as each meets its contract,
//! but what the contracts cite says what was meant. Each file of `proofs/` is of one subject.
#![tactic(auto)]
