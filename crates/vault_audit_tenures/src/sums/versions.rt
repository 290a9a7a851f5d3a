//! The sums over the versions of all departments, taken in one pass over the entries, where no bucket was moved.
ghost use Rattle.std.specs.Prelude.{IfOk, IfErr, IsSomeAnd, OnOk};
ghost use Rattle.std.specs.List.{AllByRecursion};
ghost use Rattle.sqlite.specs.State.{HasCleanDisk};
ghost use Rattle.sqlite.specs.Held.{state};
ghost use Rattle.vault_core_model.specs.Vault.{Vault};
ghost use Rattle.vault_audit_model.specs.Relations.{AreBuckets, AreEntries, IsPast};
ghost use Rattle.vault_audit_model.specs.SchemaVersions.{is_external};
ghost use Rattle.vault_audit_model.specs.Spells.{entries_in};
ghost use Rattle.vault_audit_model.specs.Tenures.{IsUnmoved};
ghost use Rattle.vault_audit_tenures.specs.Totals.{AreTotals};
ghost use Rattle.vault_audit_tenures.specs.VersionSums.{CountsEntry};
ghost use Rattle.vault_audit_rows.specs.Health.{IsHealthy, IsMemory, IsOfSchemaVersion, OnlyLooks};

use crate::sums::owned_entries::{OwnedEntry, read_owned};
use crate::sums::totals::{Span, Totals};
use sqlite::{Alter, Connection, Error, Row};
use std::alloc::Global;
use vault_audit_model::schema::SchemaVersion;
use vault_audit_records::row_check::refused;
use vault_audit_rows::walk::{Pass, walk};

/// The sums of the departments, taken over the entries one by one.
#[derive(Drop)]
pub struct SumPass {
    pub totals: Totals,
}

/// Counts an entry in, where it is a content version in a bucket of a department.
fn count_entry(totals: &mut Totals, entry: OwnedEntry) -> Result<(), Error>
    ensures ok { OnOk result (CountsEntry totals.old entry totals.new) }
    ensures err { IfErr result IsMemory }
{
    let OwnedEntry {
        marker,
        size,
        admitted,
        removed,
        dept,
        ..
    } = entry;
    let Some(dept) = dept else {
        return Ok(());
    };
    if marker {
        drop(dept);
        return Ok(());
    }
    let span = Span {
        size,
        first: true,
        from: admitted,
        ended: removed,
        last: true,
    };
    totals.count(dept, span)
}

impl Pass for SumPass {
    ghost use Rattle.vault_audit_tenures.specs.VersionSums.{GoesIn, ReportsNone};

    ghost goes = { λ p row q. GoesIn p row q };

    ghost stops = { λ p row. ReportsNone p row };

    fn take(&mut self, row: &Row) -> Result<bool, Error> {
        match read_owned(row) {
            Ok(entry) => {
                count_entry(&mut self.totals, entry)?;
                Ok(true)
            }
            Err(misread) => refused(misread),
        }
    }
}

/// The sums over the content versions of each department, removed ones included, where no bucket was moved; none where a
/// row of the entries beside their buckets reports nothing. It keeps a row of sums for each department.
pub fn sum_versions<S: Alter>(
    alloc: Global,
    conn: &mut Connection<S>,
    schema_version: SchemaVersion,
) -> Result<Option<Totals>, Error>
    requires { IsOfSchemaVersion S.Store conn.old schema_version }
    ensures reported { HasCleanDisk (state S.Store conn.new) → IfOk result (λ found. (v : Vault) →
        AreBuckets schema_version (state S.Store conn.new).now v.buckets → AreEntries (is_external schema_version) (state S.Store conn.new).now (entries_in v.histories) →
        AllByRecursion (IsPast v.last) (entries_in v.histories) → IsUnmoved v → IsSomeAnd found (AreTotals v.histories)) }
    ensures look { OnlyLooks S.Store conn.old conn.new result }
    ensures err { IsHealthy (state S.Store conn.new) → IfErr result IsMemory }
{
    let mut pass = SumPass {
        totals: Totals::new(alloc),
    };
    let whole = walk(
        conn,
        "SELECT e.id, e.marker, e.size, e.admitted, e.removed, b.dept FROM entries AS e LEFT JOIN buckets AS b ON b.name = e.bucket ORDER BY e.id",
        &mut pass,
    )?;
    if !whole {
        drop(pass);
        return Ok(None);
    }
    Ok(Some(pass.totals))
}
