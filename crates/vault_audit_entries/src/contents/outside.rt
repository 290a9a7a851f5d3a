//! The rows of `external`, each beside the entry of its id, and beside the bytes of that id.
ghost use Rattle.std.specs.Prelude.{◌≡◌, ◌≢◌, ℕ, true, List, IsTrue, IfOk, IfErr, MatchOption};
ghost use Rattle.sqlite.specs.State.{HasCleanDisk};
ghost use Rattle.sqlite.specs.Held.{state};
ghost use Rattle.vault_core_model.specs.declared.records.Entry.{Entry};
ghost use Rattle.vault_audit_model.specs.declared.schema.SchemaVersion.TheVariants.{Fourth};
ghost use Rattle.vault_audit_model.specs.Limits.{IsExternalRow};
ghost use Rattle.vault_audit_model.specs.Relations.{AreEntries};
ghost use Rattle.vault_audit_model.specs.SchemaVersions.{is_external};
ghost use Rattle.vault_audit_entries.specs.Outside.{outside_row, DecidesHeldIds, DecidesAbsence, DecidesOutside};
ghost use Rattle.vault_audit_rows.specs.Health.{IsHealthy, IsMemory, IsOfSchemaVersion, OnlyLooks};

use sqlite::{Alter, Connection, Error, ErrorCode, Row};
use vault_audit_model::schema::SchemaVersion;
use vault_audit_rows::absence::AbsenceCheck;
use vault_audit_rows::cell::{flag, is_null, version_id};
use vault_audit_rows::check::check_rows;
use vault_audit_rows::walk::{Pass, walk};
use vault_base::name::VersionId;

/// The check of ids that rise.
#[derive(Drop)]
pub struct OutsidePass {
    /// The least id that may come.
    pub next: u64,
    /// How many rows came.
    pub count: u64,
}

/// The id that a row shows, where the entry beside it is a held version.
fn read_outside(row: &Row) -> Option<VersionId>
    ensures { MatchOption result ((id : ℕ) → IsExternalRow id → row.now ≢ outside_row id) (λ id. (row.now ≡ outside_row id) × IsExternalRow id) }
{
    if row.column_count() != 3 {
        return None;
    }
    let id = version_id(row, 0)?;
    let marker = flag(row, 1)?;
    if marker {
        return None;
    }
    if !is_null(row, 2) {
        return None;
    }
    Some(id)
}

impl Pass for OutsidePass {
    ghost use Rattle.vault_audit_rows.specs.Pass.{Takes, Refuses};
    ghost use Rattle.vault_audit_entries.specs.Outside.{outside_row};
    ghost use Rattle.vault_audit_entries.specs.OutsidePasses.{ComesLater, with_id};

    ghost goes = { λ p row q. Takes outside_row ComesLater with_id p row q };

    ghost stops = { λ p row. Refuses outside_row ComesLater with_id p row };

    #[tactic(auto, using(crate::proofs::OutsideRowLemmas::same_id))]
    fn take(&mut self, row: &Row) -> Result<bool, Error> {
        let Some(id) = read_outside(row) else {
            return Ok(false);
        };
        let id = u64::from(id.number());
        if id < self.next {
            return Ok(false);
        }
        let Some(count) = self.count.checked_add(1) else {
            return Err(Error::SqliteFailure(ErrorCode::OutOfMemory));
        };
        self.next = id + 1;
        self.count = count;
        Ok(true)
    }
}

/// How many rows `external` has, or none where one isn't of a held version.
fn check_held_ids<S: Alter>(conn: &mut Connection<S>) -> Result<Option<u64>, Error>
    requires { IsOfSchemaVersion S.Store conn.old Fourth }
    ensures reported { HasCleanDisk (state S.Store conn.new) → IfOk result (λ found. (es : List Entry) →
        AreEntries true (state S.Store conn.new).now es → DecidesHeldIds (state S.Store conn.new).now es found) }
    ensures look { OnlyLooks S.Store conn.old conn.new result }
    ensures err { IsHealthy (state S.Store conn.new) → IfErr result IsMemory }
{
    let mut pass = OutsidePass { next: 1, count: 0 };
    let whole = walk(
        conn,
        "SELECT x.id, e.marker, e.removed FROM external AS x LEFT JOIN entries AS e ON e.id = x.id ORDER BY x.id",
        &mut pass,
    )?;
    if !whole {
        return Ok(None);
    }
    Ok(Some(pass.count))
}

/// Whether no row of `external` has bytes in `contents`, too.
fn have_no_bytes<S: Alter>(conn: &mut Connection<S>) -> Result<bool, Error>
    requires { IsOfSchemaVersion S.Store conn.old Fourth }
    ensures reported { HasCleanDisk (state S.Store conn.new) → IfOk result (DecidesAbsence (state S.Store conn.new).now) }
    ensures look { OnlyLooks S.Store conn.old conn.new result }
    ensures err { IsHealthy (state S.Store conn.new) → IfErr result IsMemory }
{
    check_rows(
        conn,
        "SELECT 1 AS absent, c.id FROM external AS x LEFT JOIN contents AS c ON c.id = x.id",
        &AbsenceCheck {},
    )
}

/// How many rows `external` has, or none where one isn't of a held version, or has bytes in `contents`, too.
fn check_external<S: Alter>(conn: &mut Connection<S>) -> Result<Option<u64>, Error>
    requires { IsOfSchemaVersion S.Store conn.old Fourth }
    ensures reported { HasCleanDisk (state S.Store conn.new) → IfOk result (λ found. (es : List Entry) →
        AreEntries true (state S.Store conn.new).now es → DecidesOutside Fourth (state S.Store conn.new).now es found) }
    ensures look { OnlyLooks S.Store conn.old conn.new result }
    ensures err { IsHealthy (state S.Store conn.new) → IfErr result IsMemory }
{
    let Some(count) = check_held_ids(conn)? else {
        return Ok(None);
    };
    let apart = have_no_bytes(conn)?;
    if !apart {
        return Ok(None);
    }
    Ok(Some(count))
}

/// The same of any schema version: one without that table has no row of it.
pub fn check_outside<S: Alter>(
    conn: &mut Connection<S>,
    schema_version: SchemaVersion,
) -> Result<Option<u64>, Error>
    requires schema { IsOfSchemaVersion S.Store conn.old schema_version }
    requires open { HasCleanDisk (state S.Store conn.old) → IsTrue (state S.Store conn.old).is_open }
    ensures reported { HasCleanDisk (state S.Store conn.new) → IfOk result (λ found. (es : List Entry) →
        AreEntries (is_external schema_version) (state S.Store conn.new).now es → DecidesOutside schema_version (state S.Store conn.new).now es found) }
    ensures look { OnlyLooks S.Store conn.old conn.new result }
    ensures err { IsHealthy (state S.Store conn.new) → IfErr result IsMemory }
{
    match schema_version {
        SchemaVersion::First | SchemaVersion::Second | SchemaVersion::Third => Ok(Some(0)),
        SchemaVersion::Fourth => check_external(conn),
    }
}
