//! The second look at `tenures`.
ghost use Rattle.std.specs.Prelude.{IsTrue, IfOk, IfErr};
ghost use Rattle.sqlite.specs.State.{HasCleanDisk};
ghost use Rattle.sqlite.specs.Held.{state};
ghost use Rattle.vault_audit_tenures.specs.Decided.{HasTenuresTable, DamagedUnless, DecidesTenuresBy, DecidesTenuresOf};
ghost use Rattle.vault_audit_rows.specs.Health.{IsHealthy, IsMemory, IsOfSchemaVersion, OnlyLooks};

use crate::chain::are_chains;
use crate::present::have_tenures;
use sqlite::{Alter, Connection, Error};
use vault_audit_model::rows::MetaRow;
use vault_audit_model::schema::SchemaVersion;
use vault_base::moment::Moment;

/// Whether each version has tenures from its admission to its end, the last of them of its bucket's
/// department while it is held, and whether no other tenure is there, where n moves were made
/// by the last moment.
fn check_rows_of_tenures<S: Alter>(
    conn: &mut Connection<S>,
    schema_version: SchemaVersion,
    moves: u64,
    last: Moment,
) -> Result<bool, Error>
    requires table { HasTenuresTable schema_version }
    requires schema { IsOfSchemaVersion S.Store conn.old schema_version }
    ensures reported { HasCleanDisk (state S.Store conn.new) → IfOk result (DecidesTenuresBy schema_version moves last (state S.Store conn.new).now) }
    ensures look { OnlyLooks S.Store conn.old conn.new result }
    ensures err { IsHealthy (state S.Store conn.new) → IfErr result IsMemory }
{
    let present = have_tenures(conn, schema_version)?;
    if !present {
        return Ok(false);
    }
    are_chains(conn, schema_version, moves, last)
}

/// Whether the tenures of the versions are those of a vault with this row of `meta`. A schema version
/// without that table reports none, and then no bucket was moved.
pub fn check_tenures<S: Alter>(
    conn: &mut Connection<S>,
    schema_version: SchemaVersion,
    meta: MetaRow,
) -> Result<bool, Error>
    requires schema { IsOfSchemaVersion S.Store conn.old schema_version }
    requires open { HasCleanDisk (state S.Store conn.old) → IsTrue (state S.Store conn.old).is_open }
    ensures reported { HasCleanDisk (state S.Store conn.new) → IfOk result (DecidesTenuresOf schema_version (state S.Store conn.new).now meta) }
    ensures damaged { HasCleanDisk (state S.Store conn.new) → IfOk result (DamagedUnless schema_version (state S.Store conn.new).now meta) }
    ensures look { OnlyLooks S.Store conn.old conn.new result }
    ensures err { IsHealthy (state S.Store conn.new) → IfErr result IsMemory }
{
    match schema_version {
        SchemaVersion::First | SchemaVersion::Second => Ok(true),
        SchemaVersion::Third | SchemaVersion::Fourth => {
            check_rows_of_tenures(conn, schema_version, meta.moves, meta.last)
        }
    }
}
