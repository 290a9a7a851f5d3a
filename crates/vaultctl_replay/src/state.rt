//! Whether a journal goes on.
ghost use Rattle.std.specs.Prelude.{◌≡◌};
ghost use Rattle.vaultctl_replay.specs.Entries as spec;

/// Whether a journal goes on.
#[derive(Clone, Copy, Debug, PartialEq, Eq)]
pub enum JournalState {
    /// It has a line for each change so far.
    Open,
    /// Its last line says that no line makes the last change again.
    Ended,
    /// The last change couldn't be written, for the writer or where memory runs out: at most a beginning of its line is.
    Lost,
}

impl JournalState {
    /// Whether more changes can be noted.
    pub fn is_open(self) -> bool
        ensures { result ≡ spec.is_open self }
    {
        match self {
            JournalState::Open => true,
            JournalState::Ended => false,
            JournalState::Lost => false,
        }
    }
}
