//! Whether the entries with settings are the versions.
ghost use Rattle.std.specs.Prelude.{IfOk, IfErr};
ghost use Rattle.sqlite.specs.State.{HasCleanDisk};
ghost use Rattle.sqlite.specs.Held.{state};
ghost use Rattle.vault_audit_model.specs.SchemaVersions.{is_external};
ghost use Rattle.vault_audit_entries.specs.SettingPlaces.{DecidesPresence};
ghost use Rattle.vault_audit_rows.specs.Health.{IsHealthy, IsMemory, IsOfSchemaVersion, OnlyLooks};

use sqlite::{Alter, Connection, Error};
use vault_audit_model::schema::SchemaVersion;
use vault_audit_rows::absence::AbsenceCheck;
use vault_audit_rows::check::check_rows;

/// Whether each version has a setting, and no marker has one.
pub(crate) fn have_settings<S: Alter>(
    conn: &mut Connection<S>,
    schema_version: SchemaVersion,
) -> Result<bool, Error>
    requires { IsOfSchemaVersion S.Store conn.old schema_version }
    ensures reported { HasCleanDisk (state S.Store conn.new) → IfOk result (DecidesPresence (is_external schema_version) (state S.Store conn.new).now) }
    ensures look { OnlyLooks S.Store conn.old conn.new result }
    ensures err { IsHealthy (state S.Store conn.new) → IfErr result IsMemory }
{
    check_rows(
        conn,
        "SELECT e.marker, s.id FROM entries AS e LEFT JOIN settings AS s ON s.id = e.id",
        &AbsenceCheck {},
    )
}
