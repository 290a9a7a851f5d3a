//! What standard error says of what is refused: what is often meant by words that are no job, which value of a job's
//! words isn't allowed, why the vault refuses a command or a script's line, and what to do. No clause speaks of these
//! texts, but of the number of a line.
#![tactic(auto)]

pub mod explaining;
pub mod hint;
pub mod line_remedies;
pub mod remedies;
pub mod slips;
