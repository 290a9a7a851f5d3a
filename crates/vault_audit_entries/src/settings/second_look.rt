//! The second look at `settings`.
ghost use Rattle.std.specs.Prelude.{◌≡◌, false, List, IfOk, IfErr};
ghost use Rattle.sqlite.specs.State.{HasCleanDisk};
ghost use Rattle.sqlite.specs.Held.{state};
ghost use Rattle.vault_core_model.specs.declared.records.Entry.{Entry};
ghost use Rattle.vault_core_model.specs.Vault.{Vault};
ghost use Rattle.vault_audit_model.specs.Spells.{AreSoundAs};
ghost use Rattle.vault_audit_model.specs.Relations.{AreEntries, DecidesSettings};
ghost use Rattle.vault_audit_model.specs.SchemaVersions.{is_external};
ghost use Rattle.vault_audit_rows.specs.Health.{IsHealthy, IsMemory, IsOfSchemaVersion, OnlyLooks};

use crate::settings::placed::are_placed;
use crate::settings::present::have_settings;
use sqlite::{Alter, Connection, Error};
use vault_audit_laws::connection::references_hold;
use vault_audit_model::schema::SchemaVersion;

/// Whether each version has settings at the places 1, 2, 3 .., at least one and as many as it may
/// have, and a marker none, and whether no other setting is there. The entries are to have the
/// ids 1, 2, 3 ..
pub fn check_history_of_settings<S: Alter>(
    conn: &mut Connection<S>,
    schema_version: SchemaVersion,
) -> Result<bool, Error>
    requires { IsOfSchemaVersion S.Store conn.old schema_version }
    ensures reported { HasCleanDisk (state S.Store conn.new) → IfOk result (λ found. (es : List Entry) →
        AreEntries (is_external schema_version) (state S.Store conn.new).now es → DecidesSettings (state S.Store conn.new).now es found) }
    ensures damaged { HasCleanDisk (state S.Store conn.new) → IfOk result (λ found. found ≡ false → (v : Vault) → ¬ AreSoundAs schema_version (state S.Store conn.new).now v) }
    ensures look { OnlyLooks S.Store conn.old conn.new result }
    ensures err { IsHealthy (state S.Store conn.new) → IfErr result IsMemory }
{
    let placed = are_placed(conn, schema_version)?;
    if !placed {
        return Ok(false);
    }
    let present = have_settings(conn, schema_version)?;
    if !present {
        return Ok(false);
    }
    // So each setting is of an entry.
    references_hold(conn, schema_version);
    Ok(true)
}
