//! The second look at `departments`: each has the seven sums over its tenures.
ghost use Rattle.std.specs.Prelude.{◌≡◌, false, IfOk, IfErr, IsSomeAnd};
ghost use Rattle.std.specs.List.{AllByRecursion};
ghost use Rattle.sqlite.specs.State.{HasCleanDisk};
ghost use Rattle.sqlite.specs.Held.{state};
ghost use Rattle.vault_core_model.specs.Vault.{Vault};
ghost use Rattle.vault_audit_model.specs.Relations.{AreBuckets, AreEntries, AreTenuresOf, IsPast, DecidesSums};
ghost use Rattle.vault_audit_model.specs.SchemaVersions.{is_external};
ghost use Rattle.vault_audit_model.specs.Spells.{AreSoundAs, entries_in};
ghost use Rattle.vault_audit_tenures.specs.Totals.{AreTotals};
ghost use Rattle.vault_audit_rows.specs.Health.{IsHealthy, IsMemory, IsOfSchemaVersion, OnlyLooks};

use crate::sums::departments::{SumsCheck, check_totals};
use crate::sums::tenures::sum_tenures;
use crate::sums::totals::Totals;
use crate::sums::versions::sum_versions;
use sqlite::{Alter, Connection, Error};
use std::alloc::Global;
use vault_audit_model::schema::SchemaVersion;

/// The sums over the tenures of each department: of a schema version without a table of them, over the versions.
fn take_sums<S: Alter>(
    alloc: Global,
    conn: &mut Connection<S>,
    schema_version: SchemaVersion,
) -> Result<Option<Totals>, Error>
    requires { IsOfSchemaVersion S.Store conn.old schema_version }
    ensures reported { HasCleanDisk (state S.Store conn.new) → IfOk result (λ found. (v : Vault) →
        AreBuckets schema_version (state S.Store conn.new).now v.buckets → AreEntries (is_external schema_version) (state S.Store conn.new).now (entries_in v.histories) →
        AllByRecursion (IsPast v.last) (entries_in v.histories) → AreTenuresOf schema_version (state S.Store conn.new).now v → IsSomeAnd found (AreTotals v.histories)) }
    ensures look { OnlyLooks S.Store conn.old conn.new result }
    ensures err { IsHealthy (state S.Store conn.new) → IfErr result IsMemory }
{
    match schema_version {
        SchemaVersion::First | SchemaVersion::Second => sum_versions(alloc, conn, schema_version),
        SchemaVersion::Third | SchemaVersion::Fourth => sum_tenures(alloc, conn, schema_version),
    }
}

/// Whether the rows of `departments` are departments with the seven sums over their tenures, ended ones
/// included, each within what a department may admit and receive. It is meant for buckets, entries and
/// tenures that other looks found in order.
pub fn check_sums<S: Alter>(
    alloc: Global,
    conn: &mut Connection<S>,
    schema_version: SchemaVersion,
) -> Result<bool, Error>
    requires { IsOfSchemaVersion S.Store conn.old schema_version }
    ensures reported { HasCleanDisk (state S.Store conn.new) → IfOk result (λ hold. (v : Vault) →
        AreBuckets schema_version (state S.Store conn.new).now v.buckets → AreEntries (is_external schema_version) (state S.Store conn.new).now (entries_in v.histories) →
        AllByRecursion (IsPast v.last) (entries_in v.histories) → AreTenuresOf schema_version (state S.Store conn.new).now v → DecidesSums schema_version (state S.Store conn.new).now v.histories hold) }
    ensures damaged { HasCleanDisk (state S.Store conn.new) → IfOk result (λ hold. hold ≡ false → (v : Vault) → ¬ AreSoundAs schema_version (state S.Store conn.new).now v) }
    ensures look { OnlyLooks S.Store conn.old conn.new result }
    ensures err { IsHealthy (state S.Store conn.new) → IfErr result IsMemory }
{
    let Some(totals) = take_sums(alloc, conn, schema_version)? else {
        return Ok(false);
    };
    check_totals(conn, schema_version, &SumsCheck { totals })
}
