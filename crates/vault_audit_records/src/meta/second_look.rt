//! The second look at `meta`: the next id is one above the number of entries.

ghost use Rattle.std.specs.Prelude.{◌≡◌, false, Some, IfOk, IfErr};
ghost use Rattle.sqlite.specs.State.{HasCleanDisk};
ghost use Rattle.sqlite.specs.Held.{state};
ghost use Rattle.vault_core_model.specs.Vault.{Vault};
ghost use Rattle.vault_audit_model.specs.declared.rows.MetaRow.{MetaRow};
ghost use Rattle.vault_audit_model.specs.Spells.{AreSoundAs};
ghost use Rattle.vault_audit_records.specs.Meta.{IsMetaOf};
ghost use Rattle.vault_audit_records.specs.MetaCount.{DecidesNext};
ghost use Rattle.vault_audit_rows.specs.Health.{IsHealthy, IsMemory, IsOfSchemaVersion, OnlyLooks};

use sqlite::{Alter, Connection, Error, ErrorCode, Row};
use vault_audit_model::schema::SchemaVersion;
use vault_audit_rows::walk::{Pass, walk};

/// The count of rows as it runs.
#[derive(Drop)]
pub struct RowCount {
    /// How many rows were met.
    pub count: u64,
}

impl Pass for RowCount {
    ghost use Rattle.vault_audit_records.specs.MetaCount.{CountsOne};

    ghost goes = { λ p row q. CountsOne p q };

    ghost stops = { λ _ _. ⊥ };

    fn take(&mut self, _row: &Row) -> Result<bool, Error> {
        let Some(count) = self.count.checked_add(1) else {
            return Err(Error::SqliteFailure(ErrorCode::OutOfMemory));
        };
        self.count = count;
        Ok(true)
    }
}

/// Whether this is one above the number of rows of `entries`, as the next id in `meta` has to be.
pub fn check_next<S: Alter>(
    conn: &mut Connection<S>,
    schema_version: SchemaVersion,
    next: u64,
) -> Result<bool, Error>
    requires { IsOfSchemaVersion S.Store conn.old schema_version }
    ensures reported { HasCleanDisk (state S.Store conn.new) → IfOk result (DecidesNext (state S.Store conn.new).now next) }
    ensures damaged { HasCleanDisk (state S.Store conn.new) → IfOk result (λ hold. hold ≡ false →
        (m : MetaRow) → IsMetaOf schema_version (state S.Store conn.new).now (Some m) → m.next ≡ next → (v : Vault) → ¬ AreSoundAs schema_version (state S.Store conn.new).now v) }
    ensures look { OnlyLooks S.Store conn.old conn.new result }
    ensures err { IsHealthy (state S.Store conn.new) → IfErr result IsMemory }
{
    let mut met = RowCount { count: 0 };
    let _whole = walk(conn, "SELECT id FROM entries", &mut met)?;
    if next == 0 {
        return Ok(false);
    }
    Ok(met.count == next - 1)
}
