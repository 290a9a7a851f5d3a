//! The sums over the tenures of each department, as these are counted in one by one.
ghost use Rattle.std.specs.Prelude.{◌≡◌, ◌++◌, ◌∷◌, [], ℕ, List, Some, option_map, IfErr, OnOk, IsTrue};
ghost use Rattle.vault_base.specs.Days.{day as day_of};
ghost use Rattle.vault_tally.specs.Row.{Item, is_dated};
ghost use Rattle.vault_audit_tenures.specs.Totals.{item_of, empty_sums, total_of, IsTotal, CountsFor};
ghost use Rattle.vault_audit_rows.specs.Health.{IsMemory};

use sqlite::Error;
use std::alloc::Global;
use std::collections::BTreeMap;
use vault_base::moment::Moment;
use vault_base::name::DeptName;
use vault_tally::row::Row as Sums;

/// What counts of a tenure of a version.
#[derive(Clone, Copy)]
pub struct Span {
    /// The size of the version.
    pub size: u64,
    /// Whether it is the version's first tenure.
    pub first: bool,
    pub from: Moment,
    /// The moment of its end, if it ended.
    pub ended: Option<Moment>,
    /// Whether it is the version's last tenure.
    pub last: bool,
}

/// The sums of each department, found by its name.
#[derive(Drop)]
pub struct Totals {
    /// Those of the departments for which a tenure was counted; none where they are above what a department may admit
    /// and receive.
    sums: BTreeMap<DeptName, Option<Sums>>,
}

/// The day of a moment, if there is one.
fn day_if(moment: Option<Moment>) -> Option<u64>
    ensures { result ≡ option_map day_of moment }
{
    match moment {
        None => None,
        Some(moment) => Some(moment.day()),
    }
}

/// The total with one tenure more; none where it is above what a department may admit and receive.
#[tactic(auto, using(crate::proofs::TotalLemmas::above_before))]
fn with_tenure(total: Option<Sums>, span: Span) -> Option<Sums>
    ensures { (items : List Item) → IsTotal total items → IsTrue (is_dated (item_of span)) → IsTotal result (items ++ item_of span ∷ []) }
{
    let mut sums = total?;
    if !sums.fits(span.size) {
        return None;
    }
    sums.count(
        span.size,
        span.first,
        span.from.day(),
        day_if(span.ended),
        span.last,
    );
    Some(sums)
}

impl Totals {
    /// The totals over no tenure.
    pub fn new(alloc: Global) -> Totals
        ensures { (name : List ℕ) → total_of result name ≡ Some empty_sums }
    {
        Totals {
            sums: BTreeMap::new(alloc),
        }
    }

    /// The sums of a department; none where they are above what a department may admit and receive.
    #[tactic(auto, using(crate::proofs::TotalLemmas::sums_are))]
    pub fn total(&self, dept: &DeptName) -> Option<Sums>
        ensures { result ≡ total_of self.now dept.now }
    {
        match self.sums.get(dept) {
            Some(sums) => *sums,
            None => Some(Sums::new()),
        }
    }

    /// Counts a tenure of that department in. The error is out of memory.
    pub fn count(&mut self, dept: DeptName, span: Span) -> Result<(), Error>
        ensures ok { OnOk result (CountsFor self.old dept (item_of span) self.new) }
        ensures err { IfErr result IsMemory }
    {
        let counted = with_tenure(self.total(&dept), span);
        self.sums.insert(dept, counted)?;
        Ok(())
    }
}
