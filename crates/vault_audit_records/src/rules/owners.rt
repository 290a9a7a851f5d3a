//! Whether each rule has its bucket.
ghost use Rattle.std.specs.Prelude.{IfOk, IfErr};
ghost use Rattle.sqlite.specs.State.{HasCleanDisk};
ghost use Rattle.sqlite.specs.Held.{state};
ghost use Rattle.vault_audit_records.specs.RulesByPlace.{DecidesOwners};
ghost use Rattle.vault_audit_rows.specs.Health.{IsHealthy, IsMemory, IsOfSchemaVersion, OnlyLooks};

use sqlite::{Alter, Connection, Error};
use vault_audit_model::schema::SchemaVersion;
use vault_audit_rows::absence::AbsenceCheck;
use vault_audit_rows::check::check_rows;

/// Whether each rule is of a bucket.
pub(crate) fn have_buckets<S: Alter>(
    conn: &mut Connection<S>,
    schema_version: SchemaVersion,
) -> Result<bool, Error>
    requires { IsOfSchemaVersion S.Store conn.old schema_version }
    ensures reported { HasCleanDisk (state S.Store conn.new) → IfOk result (DecidesOwners schema_version (state S.Store conn.new).now) }
    ensures look { OnlyLooks S.Store conn.old conn.new result }
    ensures err { IsHealthy (state S.Store conn.new) → IfErr result IsMemory }
{
    check_rows(
        conn,
        "SELECT 0, b.name FROM rules AS r LEFT JOIN buckets AS b ON b.name = r.bucket",
        &AbsenceCheck {},
    )
}
