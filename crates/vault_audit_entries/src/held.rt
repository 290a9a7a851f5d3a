//! The counts of the held entries, and of the versions among them.
ghost use Rattle.std.specs.Prelude.{◌≡◌, ◌+◌, IfOk, IfErr};
ghost use Rattle.sqlite_value.specs.Order.{column};
ghost use Rattle.sqlite_sql.specs.Ops.{is_null};
ghost use Rattle.sqlite.specs.State.{HasCleanDisk};
ghost use Rattle.sqlite.specs.Held.{state};
ghost use Rattle.vault_audit_model.specs.Rows.{bit};
ghost use Rattle.vault_audit_model.specs.SchemaVersions.{is_external};
ghost use Rattle.vault_audit_entries.specs.HeldPasses.{CountsRows, is_zero, is_held_row, is_version_row};
ghost use Rattle.vault_audit_rows.specs.Health.{IsHealthy, IsMemory, IsOfSchemaVersion, OnlyLooks};

use sqlite::types::ValueRef;
use sqlite::{Alter, Connection, Error, ErrorCode, Row};
use vault_audit_model::schema::SchemaVersion;
use vault_audit_rows::walk::{Pass, walk};

/// The counts of held entries as they run.
#[derive(Drop)]
pub struct HeldCount {
    /// How many rows had a held entry.
    pub entries: u64,
    /// How many of these stated a version.
    pub versions: u64,
}

/// Whether a column has the number 0.
fn shows_zero(row: &Row, at: usize) -> bool
    ensures { result ≡ is_zero (column row.now at) }
{
    match row.get_ref(at) {
        Ok(ValueRef::Int(n)) => n == 0,
        _ => false,
    }
}

/// Whether a column is NULL.
fn shows_null(row: &Row, at: usize) -> bool
    ensures { result ≡ is_null (column row.now at) }
{
    match row.get_ref(at) {
        Ok(ValueRef::Null) => true,
        Ok(_) => false,
        Err(_) => true,
    }
}

/// Whether a row of a marker and a removal shows a held entry.
fn shows_held(row: &Row) -> bool
    ensures { result ≡ is_held_row row.now }
{
    shows_null(row, 1)
}

/// Whether it shows a held version.
fn shows_version(row: &Row) -> bool
    ensures { result ≡ is_version_row row.now }
{
    shows_zero(row, 0) && shows_held(row)
}

/// A count, and one more where a row is counted.
fn count_if(count: u64, is_counted: bool) -> Result<u64, Error>
    ensures ok { IfOk result (λ found. found ≡ count + bit is_counted 1) }
    ensures err { IfErr result IsMemory }
{
    if !is_counted {
        return Ok(count);
    }
    match count.checked_add(1) {
        Some(more) => Ok(more),
        None => Err(Error::SqliteFailure(ErrorCode::OutOfMemory)),
    }
}

impl Pass for HeldCount {
    ghost use Rattle.vault_audit_entries.specs.HeldPasses.{Counts};

    ghost goes = { λ p row q. Counts p row q };

    ghost stops = { λ _ _. ⊥ };

    fn take(&mut self, row: &Row) -> Result<bool, Error> {
        let entries = count_if(self.entries, shows_held(row))?;
        let versions = count_if(self.versions, shows_version(row))?;
        self.entries = entries;
        self.versions = versions;
        Ok(true)
    }
}

/// How many of `entries` are held, and how many of these are versions.
pub fn count_held<S: Alter>(
    conn: &mut Connection<S>,
    schema_version: SchemaVersion,
) -> Result<HeldCount, Error>
    requires { IsOfSchemaVersion S.Store conn.old schema_version }
    ensures reported { HasCleanDisk (state S.Store conn.new) → IfOk result (CountsRows (is_external schema_version) (state S.Store conn.new).now) }
    ensures look { OnlyLooks S.Store conn.old conn.new result }
    ensures err { IsHealthy (state S.Store conn.new) → IfErr result IsMemory }
{
    let mut held = HeldCount {
        entries: 0,
        versions: 0,
    };
    let _whole = walk(conn, "SELECT marker, removed FROM entries", &mut held)?;
    Ok(held)
}
