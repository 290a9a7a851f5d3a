//! The second look at `contents` and `external`: each held version has a row in one of them, and no other entry has one.
ghost use Rattle.std.specs.Prelude.{◌≡◌, ◌↔◌, ◌+◌, false, List, is_none, IfOk, IfErr, IfSome, IsTrue};
ghost use Rattle.sqlite.specs.State.{HasCleanDisk};
ghost use Rattle.sqlite.specs.Held.{state};
ghost use Rattle.vault_core_model.specs.declared.records.Entry.{Entry};
ghost use Rattle.vault_core_model.specs.Vault.{Vault};
ghost use Rattle.vault_audit_model.specs.Relations.{AreEntries, DecidesContents};
ghost use Rattle.vault_audit_model.specs.SchemaVersions.{is_external};
ghost use Rattle.vault_audit_model.specs.Spells.{AreSoundAs};
ghost use Rattle.vault_audit_rows.specs.Health.{IsHealthy, IsMemory, IsOfSchemaVersion, OnlyLooks};

use crate::contents::beside::check_bytes;
use crate::contents::outside::check_outside;
use crate::held::count_held;
use sqlite::{Alter, Connection, Error};
use vault_audit_model::schema::SchemaVersion;
use vault_base::refusal::Table;

/// Whether the two counts together are all that are held.
fn are_all(held: u64, inside: u64, outside: u64) -> bool
    ensures { IsTrue result ↔ (held ≡ inside + outside) }
{
    held.checked_sub(inside) == Some(outside)
}

/// The one of `contents` and `external` that is damaged, if one is: together they are to have exactly a row for each held
/// version, with its bytes or where these are kept outside. A held version without a row is damage of `contents`. It is
/// meant for entries whose ids are 1, 2, 3 and so on.
pub fn check_held_contents<S: Alter>(
    conn: &mut Connection<S>,
    schema_version: SchemaVersion,
) -> Result<Option<Table>, Error>
    requires { IsOfSchemaVersion S.Store conn.old schema_version }
    ensures reported { HasCleanDisk (state S.Store conn.new) → IfOk result (λ found. (es : List Entry) →
        AreEntries (is_external schema_version) (state S.Store conn.new).now es → DecidesContents schema_version (state S.Store conn.new).now es (is_none found)) }
    ensures damaged { HasCleanDisk (state S.Store conn.new) → IfOk result (λ found. IfSome found (λ _. (v : Vault) → ¬ AreSoundAs schema_version (state S.Store conn.new).now v)) }
    ensures look { OnlyLooks S.Store conn.old conn.new result }
    ensures err { IsHealthy (state S.Store conn.new) → IfErr result IsMemory }
{
    let Some(inside) = check_bytes(conn, schema_version)? else {
        return Ok(Some(Table::Contents));
    };
    let Some(outside) = check_outside(conn, schema_version)? else {
        return Ok(Some(Table::External));
    };
    let held = count_held(conn, schema_version)?;
    if !are_all(held.versions, inside, outside) {
        return Ok(Some(Table::Contents));
    }
    Ok(None)
}
