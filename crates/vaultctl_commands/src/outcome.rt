//! What came of a job.

/// What came of a job that was carried out to its end.
#[derive(Clone, Copy, Debug, PartialEq, Eq)]
pub enum Outcome {
    Done,
    /// It was refused, or stopped, or a part of it was.
    Refused,
}
