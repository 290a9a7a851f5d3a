//! The running row of a department.

ghost use Rattle.std.specs.Prelude.{◌≡◌, ◌-◌};
ghost use Rattle.vault_tally.specs.Row.{size_where, if_held as held_or, end_day};

/// The bytes that a department may ever admit and receive.
pub const QUOTA: u64 = 1_000_000_000_000;

/// Seven sums over the tenures that a department has of content versions.
///
/// Every call is total. A row that is the sums of some tenures stays so, and then no sum
/// saturates; seven numbers that are the sums of nothing give numbers that mean nothing.
#[derive(Clone, Copy, Debug, PartialEq, Eq)]
pub struct Row {
    /// The bytes ever admitted.
    pub admitted: u64,
    /// The bytes ever received with buckets.
    pub received: u64,
    /// The bytes held.
    pub held: u64,
    /// The bytes removed.
    pub removed: u64,
    /// The bytes handed over with buckets.
    pub handed: u64,
    /// The bytes held, each times the day from which the department has it.
    pub weighted: u64,
    /// The byte-days of what was removed and handed over.
    pub closed: u64,
}

/// The size where the test passes, else nothing.
fn size_if(test: bool, size: u64) -> u64
    ensures { result ≡ size_where test size }
{
    if test { size } else { 0 }
}

/// The first number where nothing ended, else the second.
fn if_held(ended: Option<u64>, held: u64, over: u64) -> u64
    ensures { result ≡ held_or ended held over }
{
    match ended {
        None => held,
        Some(_) => over,
    }
}

/// The days from one to the end, if there is one.
fn days_to_end(ended: Option<u64>, from_day: u64) -> u64
    ensures { result ≡ end_day ended 0 - from_day }
{
    match ended {
        None => 0,
        Some(day) => day.saturating_sub(from_day),
    }
}

impl Row {
    ghost use Rattle.std.specs.Prelude.{◌≡◌, ◌↔◌, ◌≤◌, ◌+◌, ◌++◌, ◌∷◌, [], ℕ, Bool, true, List, map, sum, IsTrue};
    ghost use Rattle.vault_tally.specs.Row.{Item, IsRowOf, AreBounded, AreBegunBy, AreHeld, held_item, removed_item, received_items, handed_item, tenure_item, charge, quota, last_day};

    /// The row of a department without versions.
    pub fn new() -> Row
        ensures { IsRowOf result [] }
    {
        Row {
            admitted: 0,
            received: 0,
            held: 0,
            removed: 0,
            handed: 0,
            weighted: 0,
            closed: 0,
        }
    }

    /// Whether n bytes more are still within the quota.
    pub fn fits(&self, size: u64) -> bool
        ensures { IsTrue result ↔ (self.now.admitted + self.now.received + size ≤ quota) }
    {
        self.admitted
            .saturating_add(self.received)
            .saturating_add(size)
            <= QUOTA
    }

    /// Counts in a version of n bytes, admitted on that day.
    pub fn admit(&mut self, size: u64, day: u64)
        ensures { (items : List Item) → IsRowOf self.old items →
            AreBounded (items ++ held_item true size day ∷ []) →
            IsRowOf self.new (items ++ held_item true size day ∷ []) }
    {
        self.admitted = self.admitted.saturating_add(size);
        self.held = self.held.saturating_add(size);
        self.weighted = self.weighted.saturating_add(size.saturating_mul(day));
    }

    /// Counts the removal, on the last of the days, of a version of n bytes that the
    /// department has from the first.
    pub fn remove(&mut self, size: u64, from_day: u64, day: u64)
        ensures { (before : List Item) (first : Bool) (after : List Item) →
            IsRowOf self.old (before ++ held_item first size from_day ∷ after) →
            AreBounded (before ++ removed_item first size from_day day ∷ after) →
            IsRowOf self.new (before ++ removed_item first size from_day day ∷ after) }
    {
        let days = day.saturating_sub(from_day);
        self.held = self.held.saturating_sub(size);
        self.removed = self.removed.saturating_add(size);
        self.weighted = self.weighted.saturating_sub(size.saturating_mul(from_day));
        self.closed = self.closed.saturating_add(size.saturating_mul(days));
    }

    /// Counts in versions of n bytes in all, received with a bucket on that day.
    pub fn receive(&mut self, bytes: u64, day: u64)
        ensures { (items : List Item) (sizes : List ℕ) → IsRowOf self.old items → sum sizes ≡ bytes →
            AreBounded (items ++ received_items day sizes) →
            IsRowOf self.new (items ++ received_items day sizes) }
    {
        self.received = self.received.saturating_add(bytes);
        self.held = self.held.saturating_add(bytes);
        self.weighted = self.weighted.saturating_add(bytes.saturating_mul(day));
    }

    /// Counts that held versions, of n bytes and so much weight in all, are handed over with
    /// a bucket on that day.
    pub fn hand_over(&mut self, bytes: u64, weight: u64, day: u64)
        ensures { (kept : List Item) (going : List Item) → IsRowOf self.old (kept ++ going) →
            AreHeld bytes weight going →
            AreBounded (kept ++ map (handed_item day) going) →
            IsRowOf self.new (kept ++ map (handed_item day) going) }
    {
        let byte_days = bytes.saturating_mul(day).saturating_sub(weight);
        self.held = self.held.saturating_sub(bytes);
        self.handed = self.handed.saturating_add(bytes);
        self.weighted = self.weighted.saturating_sub(weight);
        self.closed = self.closed.saturating_add(byte_days);
    }

    /// Counts in a tenure of a version of n bytes: whether it is the version's first, from which
    /// day, up to which one if it ended, and whether it is the version's last.
    pub fn count(&mut self, size: u64, first: bool, from_day: u64, ended: Option<u64>, last: bool)
        ensures { (items : List Item) → IsRowOf self.old items →
            AreBounded (items ++ tenure_item size first from_day ended last ∷ []) →
            IsRowOf self.new (items ++ tenure_item size first from_day ended last ∷ []) }
    {
        let gone = size.saturating_mul(days_to_end(ended, from_day));
        let weight = size.saturating_mul(from_day);
        self.admitted = self.admitted.saturating_add(size_if(first, size));
        self.received = self.received.saturating_add(size_if(!first, size));
        self.held = self.held.saturating_add(if_held(ended, size, 0));
        self.removed = self
            .removed
            .saturating_add(if_held(ended, 0, size_if(last, size)));
        self.handed = self
            .handed
            .saturating_add(if_held(ended, 0, size_if(!last, size)));
        self.weighted = self.weighted.saturating_add(if_held(ended, weight, 0));
        self.closed = self.closed.saturating_add(if_held(ended, 0, gone));
    }

    /// The byte-days up to that day.
    pub fn charged(&self, day: u64) -> u64
        ensures { (items : List Item) → IsRowOf self.now items → AreBounded items →
            AreBegunBy day items → day ≤ last_day → result ≡ charge day items }
    {
        self.closed
            .saturating_add(self.held.saturating_mul(day))
            .saturating_sub(self.weighted)
    }
}
