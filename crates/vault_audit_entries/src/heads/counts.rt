//! A part of the second look at `heads`: each counts the held entries of its key, up to the one that it names.

ghost use Rattle.std.specs.Prelude.{IfOk, IfErr};
ghost use Rattle.sqlite.specs.State.{HasCleanDisk};
ghost use Rattle.sqlite.specs.Held.{state};
ghost use Rattle.vault_audit_model.specs.SchemaVersions.{is_external};
ghost use Rattle.vault_audit_entries.specs.HeadCounts.{DecidesCountRows};
ghost use Rattle.vault_audit_rows.specs.Health.{IsHealthy, IsMemory, IsOfSchemaVersion, OnlyLooks};

use sqlite::{Alter, Connection, Error, Row};
use vault_audit_model::schema::SchemaVersion;
use vault_audit_rows::cell::number;
use vault_audit_rows::check::{Check, check_rows};

/// The check that a row shows one number twice.
pub struct CountCheck {}

impl Check for CountCheck {
    ghost use Rattle.vault_audit_entries.specs.HeadCounts.{ShowsCount};

    ghost takes = { λ _. ShowsCount };

    #[tactic(auto, using(crate::proofs::NumberLemmas::one_number))]
    fn is_passed_by(&self, row: &Row) -> Result<bool, Error> {
        let Some(count) = number(row, 0) else {
            return Ok(false);
        };
        let Some(held) = number(row, 1) else {
            return Ok(false);
        };
        Ok(count == held)
    }
}

/// Whether each row of `heads` has the number of held entries of its bucket and key that are no newer than the one that
/// it names. It is meant for entries whose ids are 1, 2, 3 and so on, and of heads that the rows hold.
pub fn check_counts<S: Alter>(
    conn: &mut Connection<S>,
    schema_version: SchemaVersion,
) -> Result<bool, Error>
    requires { IsOfSchemaVersion S.Store conn.old schema_version }
    ensures reported { HasCleanDisk (state S.Store conn.new) → IfOk result (DecidesCountRows (is_external schema_version) (state S.Store conn.new).now) }
    ensures look { OnlyLooks S.Store conn.old conn.new result }
    ensures err { IsHealthy (state S.Store conn.new) → IfErr result IsMemory }
{
    // The test of ids is turned round, so that it bounds no scan: with such a bound the index over bucket, key and id would
    // be taken, where the one over held entries has all that is asked.
    let found = check_rows(
        conn,
        "SELECT h.count, (SELECT count(*) FROM entries AS e WHERE e.bucket = h.bucket AND e.key = h.key AND e.removed IS NULL AND NOT (e.id > h.newest)) AS held FROM heads AS h",
        &CountCheck {},
    )?;
    Ok(found)
}
