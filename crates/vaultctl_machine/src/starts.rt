//! What is supposed of the files that a job opens.
use sqlite::Start;

/// A value for each opening of files that a job may make. What is proved of an opening holds for any contents that
/// its type allows; two openings of one type could be shown to disagree, so each takes a type of its own.
#[derive(Drop)]
pub struct Starts<A: Start, B: Start> {
    /// Of the vault that the job names.
    pub first: A,
    /// Of a second vault, or of the same opened anew.
    pub second: B,
}
