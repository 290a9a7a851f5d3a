//! The second look at `heads`: its rows are the heads of the vault's keys.

ghost use Rattle.std.specs.Prelude.{◌≡◌, false, IfOk, IfErr};
ghost use Rattle.sqlite.specs.State.{HasCleanDisk};
ghost use Rattle.sqlite.specs.Held.{state};
ghost use Rattle.vault_core_model.specs.Vault.{Vault};
ghost use Rattle.vault_audit_model.specs.SchemaVersions.{is_external};
ghost use Rattle.vault_audit_model.specs.Spells.{AreSoundAs};
ghost use Rattle.vault_audit_entries.specs.Keys.{DecidesHeadsOf};
ghost use Rattle.vault_audit_rows.specs.Health.{IsHealthy, IsMemory, IsOfSchemaVersion, OnlyLooks};

use crate::heads::by_key::check_heads_by_key;
use crate::heads::counts::check_counts;
use crate::held::count_held;
use sqlite::{Alter, Connection, Error};
use vault_audit_model::schema::SchemaVersion;

/// Whether `heads` has exactly a row for each key that holds an entry, with its newest id and how many it
/// holds. It is meant for a vault with the entries of the rows, whose ids are 1, 2, 3 and so on.
pub fn check_heads<S: Alter>(
    conn: &mut Connection<S>,
    schema_version: SchemaVersion,
) -> Result<bool, Error>
    requires { IsOfSchemaVersion S.Store conn.old schema_version }
    ensures reported { HasCleanDisk (state S.Store conn.new) → IfOk result (DecidesHeadsOf (is_external schema_version) (state S.Store conn.new).now) }
    ensures damaged { HasCleanDisk (state S.Store conn.new) → IfOk result (λ found. found ≡ false → (v : Vault) → ¬ AreSoundAs schema_version (state S.Store conn.new).now v) }
    ensures look { OnlyLooks S.Store conn.old conn.new result }
    ensures err { IsHealthy (state S.Store conn.new) → IfErr result IsMemory }
{
    let Some(total) = check_heads_by_key(conn, schema_version)? else {
        return Ok(false);
    };
    let counted = check_counts(conn, schema_version)?;
    if !counted {
        return Ok(false);
    }
    // No entry is counted twice, so where the sum is that of all held entries, each has its head.
    let held = count_held(conn, schema_version)?;
    Ok(held.entries == total)
}
