//! The second look at `buckets` and `rules`.
ghost use Rattle.std.specs.Prelude.{◌≡◌, false, IfOk, IfErr};
ghost use Rattle.sqlite.specs.State.{HasCleanDisk};
ghost use Rattle.sqlite.specs.Held.{state};
ghost use Rattle.vault_core_model.specs.Vault.{Vault};
ghost use Rattle.vault_audit_model.specs.Spells.{AreSoundAs};
ghost use Rattle.vault_audit_model.specs.Relations.{DecidesBuckets};
ghost use Rattle.vault_audit_rows.specs.Health.{IsHealthy, IsMemory, IsOfSchemaVersion, OnlyLooks};

use crate::buckets::are_buckets;
use crate::rules::owners::have_buckets;
use crate::rules::placed::are_runs;
use sqlite::{Alter, Connection, Error};
use std::alloc::Global;
use vault_audit_model::schema::SchemaVersion;

/// Whether the rows of `buckets` and `rules` are buckets of different names, each with no rules or
/// with a set that it may have, in its order.
pub fn check_rules_of_buckets<S: Alter>(
    alloc: Global,
    conn: &mut Connection<S>,
    schema_version: SchemaVersion,
) -> Result<bool, Error>
    requires { IsOfSchemaVersion S.Store conn.old schema_version }
    ensures reported { HasCleanDisk (state S.Store conn.new) → IfOk result (DecidesBuckets schema_version (state S.Store conn.new).now) }
    ensures damaged { HasCleanDisk (state S.Store conn.new) → IfOk result (λ found. found ≡ false → (v : Vault) → ¬ AreSoundAs schema_version (state S.Store conn.new).now v) }
    ensures look { OnlyLooks S.Store conn.old conn.new result }
    ensures err { IsHealthy (state S.Store conn.new) → IfErr result IsMemory }
{
    let named = are_buckets(conn, schema_version)?;
    if !named {
        return Ok(false);
    }
    let placed = are_runs(alloc, conn, schema_version)?;
    if !placed {
        return Ok(false);
    }
    have_buckets(conn, schema_version)
}
