//! Contents, settings and notes of the entries.
ghost use Rattle.std.specs.Prelude.{List, IfOk, IfErr};
ghost use Rattle.sqlite.specs.State.{HasCleanDisk};
ghost use Rattle.sqlite.specs.Held.{state};
ghost use Rattle.vault_core_model.specs.declared.records.Entry.{Entry};
ghost use Rattle.vault_audit_model.specs.Relations.{AreEntries};
ghost use Rattle.vault_audit_model.specs.SchemaVersions.{is_external};
ghost use Rattle.vault_audit.specs.Looks.{Reported, VersionsFound};
ghost use Rattle.vault_audit_rows.specs.Health.{IsHealthy, IsMemory, IsOfSchemaVersion, OnlyLooks};

use sqlite::{Alter, Connection, Error};
use vault_audit_entries::contents::second_look::check_held_contents;
use vault_audit_entries::intake::check_notes;
use vault_audit_entries::settings::second_look::check_history_of_settings;
use vault_audit_model::schema::SchemaVersion;
use vault_base::refusal::Table;

/// The first of contents or external, settings and intake that is damaged. It is meant for entries whose ids are
/// 1, 2, 3 and so on.
pub fn look_at_versions<S: Alter>(
    conn: &mut Connection<S>,
    schema_version: SchemaVersion,
) -> Result<Option<Table>, Error>
    requires { IsOfSchemaVersion S.Store conn.old schema_version }
    ensures reported { HasCleanDisk (state S.Store conn.new) → IfOk result (Reported schema_version (state S.Store conn.new).now
        ((es : List Entry) → AreEntries (is_external schema_version) (state S.Store conn.new).now es → VersionsFound schema_version (state S.Store conn.new).now es)) }
    ensures look { OnlyLooks S.Store conn.old conn.new result }
    ensures err { IsHealthy (state S.Store conn.new) → IfErr result IsMemory }
{
    if let Some(table) = check_held_contents(conn, schema_version)? {
        return Ok(Some(table));
    }
    let settings = check_history_of_settings(conn, schema_version)?;
    if !settings {
        return Ok(Some(Table::Settings));
    }
    let notes = check_notes(conn, schema_version)?;
    if !notes {
        return Ok(Some(Table::Intake));
    }
    Ok(None)
}
