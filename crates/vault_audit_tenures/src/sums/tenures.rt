//! The sums over the tenures of all departments, taken in one pass over the rows of `tenures`.
ghost use Rattle.std.specs.Prelude.{◌≡◌, ◌≢◌, IfOk, IfErr, IsSomeAnd, OnOk};
ghost use Rattle.sqlite.specs.State.{HasCleanDisk};
ghost use Rattle.sqlite.specs.Held.{state};
ghost use Rattle.vault_core_model.specs.Vault.{Vault};
ghost use Rattle.vault_audit_model.specs.Relations.{AreEntries, AreTenuresOf};
ghost use Rattle.vault_audit_model.specs.SchemaVersions.{is_external};
ghost use Rattle.vault_audit_model.specs.Spells.{entries_in};
ghost use Rattle.vault_audit_tenures.specs.Decided.{HasTenuresTable};
ghost use Rattle.vault_audit_tenures.specs.declared.sums.tenures.StatedTenure.{StatedTenure as Reported};
ghost use Rattle.vault_audit_tenures.specs.TenureSums.{stated_row, IsStated, begins, share_as, last_share, share_before, CountsShare, CountsPending, CountsLast};
ghost use Rattle.vault_audit_tenures.specs.Totals.{AreTotals};
ghost use Rattle.vault_audit_rows.specs.Health.{IsHealthy, IsMemory, IsOfSchemaVersion, OnlyLooks};

use crate::sums::totals::{Span, Totals};
use sqlite::{Alter, Connection, Error, Row};
use std::alloc::Global;
use vault_audit_model::schema::SchemaVersion;
use vault_audit_records::row_check::refused;
use vault_audit_rows::cell::{moment, moment_or_null, number, number_within, version_id};
use vault_audit_rows::misread::Misread;
use vault_audit_rows::name::dept_name;
use vault_audit_rows::walk::{Pass, walk};
use vault_base::limits::MOST_MOVES;
use vault_base::moment::Moment;
use vault_base::name::VersionId;
use vault_core_model::records::Tenure;

/// A tenure, and what counts of its version.
#[derive(Drop)]
pub struct StatedTenure {
    pub id: VersionId,
    pub tenure: Tenure,
    /// The size of the version.
    pub size: u64,
    /// The moment of the version's removal, if it was removed.
    pub removed: Option<Moment>,
}

/// A tenure that isn't counted yet, since the row after it has its end.
#[derive(Drop)]
pub struct Pending {
    pub stated: StatedTenure,
    /// Whether it is its version's first, whatever its number is.
    pub first: bool,
}

/// The sums of the departments, taken over the tenures one by one.
#[derive(Drop)]
pub struct TenurePass {
    pub totals: Totals,
    /// The tenure that came last.
    pub pending: Option<Pending>,
}

/// The tenure that a row holds.
#[tactic(auto, using(vault_audit_rows::proofs::RowLemmas::row_of_6))]
pub fn read_stated(row: &Row) -> Result<StatedTenure, Misread>
    ensures ok { IfOk result (λ t. row.now ≡ stated_row t) }
    ensures wrong { IfErr result (λ e. e ≡ Misread.Wrong → (x : Reported) → IsStated x → row.now ≢ stated_row x) }
{
    if row.column_count() != 6 {
        return Err(Misread::Wrong);
    }
    let id = version_id(row, 0).ok_or(Misread::Wrong)?;
    let size = number(row, 4).ok_or(Misread::Wrong)?;
    let number = number_within(row, 1, 0, MOST_MOVES).ok_or(Misread::Wrong)?;
    let from = moment(row, 3).ok_or(Misread::Wrong)?;
    let removed = moment_or_null(row, 5).ok_or(Misread::Wrong)?;
    let dept = dept_name(row, 2)?;
    Ok(StatedTenure {
        id,
        tenure: Tenure { dept, from, number },
        size,
        removed,
    })
}

/// Whether a tenure is its version's first: the one before it, if there is one, is of another version.
fn begins_version(pending: &Option<Pending>, stated: &StatedTenure) -> bool
    ensures { result ≡ begins pending.now stated.now }
{
    match pending {
        None => true,
        Some(before) => before.stated.id != stated.id,
    }
}

/// Counts a tenure in, with the moment of its end and whether it is its version's first and last.
fn count_as(
    totals: &mut Totals,
    stated: StatedTenure,
    first: bool,
    ended: Option<Moment>,
    last: bool,
) -> Result<(), Error>
    ensures ok { OnOk result (CountsShare totals.old (share_as first stated ended last) totals.new) }
    ensures err { IfErr result IsMemory }
{
    let StatedTenure { tenure, size, .. } = stated;
    let Tenure { dept, from, .. } = tenure;
    let span = Span {
        size,
        first,
        from,
        ended,
        last,
    };
    totals.count(dept, span)
}

/// Counts a version's last tenure in: it ends with the removal.
fn count_last(totals: &mut Totals, stated: StatedTenure, first: bool) -> Result<(), Error>
    ensures ok { OnOk result (CountsShare totals.old (last_share first stated) totals.new) }
    ensures err { IfErr result IsMemory }
{
    let removed = stated.removed;
    count_as(totals, stated, first, removed, true)
}

/// Counts a tenure in as the next row is met: one of the same version ends it.
fn count_before(
    totals: &mut Totals,
    stated: StatedTenure,
    first: bool,
    next: &StatedTenure,
) -> Result<(), Error>
    ensures ok { OnOk result (CountsShare totals.old (share_before first stated next.now) totals.new) }
    ensures err { IfErr result IsMemory }
{
    if stated.id == next.id {
        return count_as(totals, stated, first, Some(next.tenure.from), false);
    }
    count_last(totals, stated, first)
}

/// Counts the pending tenure in as the next row is met.
fn count_pending(
    totals: &mut Totals,
    pending: Option<Pending>,
    next: &StatedTenure,
) -> Result<(), Error>
    ensures ok { OnOk result (CountsPending totals.old pending next.now totals.new) }
    ensures err { IfErr result IsMemory }
{
    let Some(before) = pending else {
        return Ok(());
    };
    let Pending { stated, first } = before;
    count_before(totals, stated, first, next)
}

/// Counts the pending tenure in as no row is left.
fn count_left(totals: &mut Totals, pending: Option<Pending>) -> Result<(), Error>
    ensures ok { OnOk result (CountsLast totals.old pending totals.new) }
    ensures err { IfErr result IsMemory }
{
    let Some(last) = pending else {
        return Ok(());
    };
    let Pending { stated, first } = last;
    count_last(totals, stated, first)
}

impl Pass for TenurePass {
    ghost use Rattle.vault_audit_tenures.specs.TenureSums.{GoesIn, ReportsNone};

    ghost goes = { λ p row q. GoesIn p row q };

    ghost stops = { λ p row. ReportsNone p row };

    fn take(&mut self, row: &Row) -> Result<bool, Error> {
        match read_stated(row) {
            Ok(stated) => {
                let first = begins_version(&self.pending, &stated);
                let before = self.pending.take();
                count_pending(&mut self.totals, before, &stated)?;
                self.pending = Some(Pending { stated, first });
                Ok(true)
            }
            Err(misread) => refused(misread),
        }
    }
}

/// The sums over the tenures of each department, ended ones included; none where a row of the tenures beside their
/// versions reports nothing. It keeps a row of sums for each department.
pub fn sum_tenures<S: Alter>(
    alloc: Global,
    conn: &mut Connection<S>,
    schema_version: SchemaVersion,
) -> Result<Option<Totals>, Error>
    requires table { HasTenuresTable schema_version }
    requires schema { IsOfSchemaVersion S.Store conn.old schema_version }
    ensures reported { HasCleanDisk (state S.Store conn.new) → IfOk result (λ found. (v : Vault) →
        AreEntries (is_external schema_version) (state S.Store conn.new).now (entries_in v.histories) → AreTenuresOf schema_version (state S.Store conn.new).now v →
        IsSomeAnd found (AreTotals v.histories)) }
    ensures look { OnlyLooks S.Store conn.old conn.new result }
    ensures err { IsHealthy (state S.Store conn.new) → IfErr result IsMemory }
{
    let mut pass = TenurePass {
        totals: Totals::new(alloc),
        pending: None,
    };
    let whole = walk(
        conn,
        "SELECT t.id, t.n, t.dept, t.moment, e.size, e.removed FROM tenures AS t LEFT JOIN entries AS e ON e.id = t.id ORDER BY t.id, t.n",
        &mut pass,
    )?;
    if !whole {
        drop(pass);
        return Ok(None);
    }
    let TenurePass {
        mut totals,
        pending,
    } = pass;
    count_left(&mut totals, pending)?;
    Ok(Some(totals))
}
