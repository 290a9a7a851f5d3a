//! The sums of a department, over the tenures of all versions.
ghost use Rattle.std.specs.Prelude.{◌≡◌, [], ◌∷◌, ◌++◌, List};
ghost use Rattle.std.specs.Option.{option_copied};
ghost use Rattle.vault_core_model.specs.Totals.{items_by, items_in, removal_day, shares_of};
ghost use Rattle.vault_core_list.specs.Shares.{share_by};
ghost use Rattle.vault_tally.specs.Row.{Item, IsRowOf, AreBounded};

use vault_base::name::DeptName;
use vault_core_model::records::{Entry, History, Tenure};
use vault_tally::row::Row;

/// The day of the removal of an entry, where it was removed.
fn removal_day(entry: &Entry) -> Option<u64>
    ensures { result ≡ removal_day entry.now.removal }
{
    match &entry.removal {
        None => None,
        Some(removal) => Some(removal.at.day()),
    }
}

/// Counts a tenure in, where it is the department's: it ends as the next one begins, or with the removal.
fn count_tenure(
    row: &mut Row,
    dept: &DeptName,
    entry: &Entry,
    first: bool,
    tenure: &Tenure,
    next: Option<&Tenure>,
)
    ensures { (items : List Item) →
        let own = items_by dept.now (share_by entry.now first tenure.now (option_copied next.entry) ∷ []) in
        IsRowOf row.old items → AreBounded (items ++ own) → IsRowOf row.new (items ++ own) }
{
    if tenure.dept != *dept {
        return;
    }
    let from_day = tenure.from.day();
    match next {
        Some(next) => row.count(entry.size, first, from_day, Some(next.from.day()), false),
        None => row.count(entry.size, first, from_day, removal_day(entry), true),
    }
}

/// Counts in the department's tenures of one version.
fn count_tenures(row: &mut Row, dept: &DeptName, history: &History)
    ensures { (items : List Item) →
        let own = items_by dept.now (shares_of history.now) in
        IsRowOf row.old items → AreBounded (items ++ own) → IsRowOf row.new (items ++ own) }
{
    let tenures = history.tenures.as_slice();
    for (place, tenure) in tenures.iter().enumerate() {
        let next = tenures[place + 1..].first();
        count_tenure(row, dept, &history.entry, place == 0, tenure, next);
    }
}

/// The row of a department whose sums fit.
pub(crate) fn row(histories: &[History], dept: &DeptName) -> Row
    requires { AreBounded (items_in dept.now histories.now) }
    ensures { IsRowOf result (items_in dept.now histories.now) }
{
    let mut row = Row::new();
    for history in histories {
        count_tenures(&mut row, dept, history);
    }
    row
}
