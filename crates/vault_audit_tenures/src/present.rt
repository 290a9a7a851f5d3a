//! Whether the entries with tenures are the versions.
ghost use Rattle.std.specs.Prelude.{IfOk, IfErr};
ghost use Rattle.sqlite.specs.State.{HasCleanDisk};
ghost use Rattle.sqlite.specs.Held.{state};
ghost use Rattle.vault_audit_model.specs.SchemaVersions.{is_external};
ghost use Rattle.vault_audit_tenures.specs.Decided.{HasTenuresTable};
ghost use Rattle.vault_audit_tenures.specs.Presence.{DecidesPresence};
ghost use Rattle.vault_audit_rows.specs.Health.{IsHealthy, IsMemory, IsOfSchemaVersion, OnlyLooks};

use sqlite::{Alter, Connection, Error};
use vault_audit_model::schema::SchemaVersion;
use vault_audit_rows::absence::AbsenceCheck;
use vault_audit_rows::check::check_rows;

/// Whether each version has a tenure, and no marker has one.
pub(crate) fn have_tenures<S: Alter>(
    conn: &mut Connection<S>,
    schema_version: SchemaVersion,
) -> Result<bool, Error>
    requires table { HasTenuresTable schema_version }
    requires schema { IsOfSchemaVersion S.Store conn.old schema_version }
    ensures reported { HasCleanDisk (state S.Store conn.new) → IfOk result (DecidesPresence (is_external schema_version) (state S.Store conn.new).now) }
    ensures look { OnlyLooks S.Store conn.old conn.new result }
    ensures err { IsHealthy (state S.Store conn.new) → IfErr result IsMemory }
{
    check_rows(
        conn,
        "SELECT e.marker, t.id FROM entries AS e LEFT JOIN tenures AS t ON t.id = e.id",
        &AbsenceCheck {},
    )
}
