//! How many events were written.
ghost use Rattle.std.specs.Prelude.{◌≡◌, ◌+◌, IfSome};

/// How many events were written, and how many entries were admitted by them.
#[derive(Clone, Copy, Debug, PartialEq, Eq)]
pub struct Counted {
    pub entries: u64,
    pub events: u64,
}

impl Counted {
    /// No event.
    pub(crate) fn none() -> Counted
        ensures { result ≡ record { entries = 0; events = 0 } }
    {
        Counted {
            entries: 0,
            events: 0,
        }
    }

    /// These and others, where their numbers can grow.
    pub(crate) fn and(self, more: Counted) -> Option<Counted>
        ensures { IfSome result (λ sum. sum ≡ record { entries = self.entries + more.entries; events = self.events + more.events }) }
    {
        Some(Counted {
            entries: self.entries.checked_add(more.entries)?,
            events: self.events.checked_add(more.events)?,
        })
    }
}
