//! The rows of the tables of an earlier schema version, copied one table after the other.
ghost use Rattle.std.specs.Prelude.{◌≡◌, ◌+◌, ◌⊎◌, false, [], List, IsTrue, IfErr, OnOk};
ghost use Rattle.sqlite_value.specs.Order.{Row as Values};
ghost use Rattle.sqlite.specs.Held.{state};
ghost use Rattle.sqlite.specs.State.{HasCleanDisk, Survives, Shown};
ghost use Rattle.sqlite.specs.Given.{IsPlain};
ghost use Rattle.sqlite.specs.Listing.{understood};
ghost use Rattle.vault_audit_model.specs.Order.{place_of};
ghost use Rattle.vault_audit_rows.specs.Walk.{Goes};
ghost use Rattle.vault_audit_model.specs.Tables.{vault_schema};
ghost use Rattle.vault_audit_rows.specs.Health.{IsHealthy, IsMemory, IsOfSchemaVersion, OnlyLooks};
ghost use Rattle.vault_store_edits.specs.Trees.{has_table};
ghost use Rattle.vault_store_create.specs.Create.{Moves};
ghost use Rattle.vault_store_create.specs.Copied.{Steps, PutsRow, HasCopied, AsksFor, StopsAt, FailsForARow};

use crate::copy::listing::listing;
use crate::copy::row::put_row;
use sqlite::{Alter, Connection, Error, ErrorCode, Transaction};
use std::alloc::Global;
use vault_audit_model::schema::SchemaVersion;
use vault_base::refusal::Table;

/// Puts each row in that the query shows.
fn copy_rows<O: Alter, S: Alter>(
    alloc: Global,
    old: &mut Connection<O>,
    tx: &mut Transaction<'_, S>,
    select: &str,
    external: bool,
    table: Table,
) -> Result<(), Error>
    requires plain { HasCleanDisk (state O.Store old.old) → IsPlain (understood old.old.schema select.now) }
    requires copied { IsTrue (has_table false table) }
    ensures same_reference { tx.new.conn.ghost_name ≡ tx.old.conn.ghost_name }
    ensures copied { HasCleanDisk (state O.Store old.new) → HasCleanDisk (state S.Store tx.new.conn.now) → IsTrue tx.old.conn.now.in_transaction → IsTrue (state S.Store tx.old.conn.now).is_open
        → OnOk result ((rows : List Values) × Shown select.now [] (state O.Store old.old) (state O.Store old.new) rows
        × Steps (state S.Store tx.old.conn.now) (state S.Store tx.new.conn.now) (λ d e. Goes (λ x row y. PutsRow external table row x y) d rows e)) }
    ensures refused { AsksFor table select.now (state O.Store old.old) → (state S.Store tx.old.conn.now).now.schema ≡ vault_schema external
        → IsHealthy (state O.Store old.new) → IsHealthy (state S.Store tx.new.conn.now) → IsTrue tx.old.conn.now.in_transaction → IsTrue (state S.Store tx.old.conn.now).is_open
        → IfErr result (λ e. IsMemory e ⊎ StopsAt external table select.now (state O.Store old.old) (state S.Store tx.old.conn.now).now) }
    ensures survives { Survives (state S.Store tx.old.conn.now) (state S.Store tx.new.conn.now) (λ _. ⊥) }
    ensures look { OnlyLooks O.Store old.old old.new result }
{
    let mut rows = old.query(select, &[])?;
    'rows: for _ in 0..u64::MAX {
        let Some(row) = rows.next()? else {
            return Ok(());
        };
        put_row(alloc, tx, external, table, row)?;
    }
    Err(Error::SqliteFailure(ErrorCode::OutOfMemory))
}

/// Copies a table out of a file of that schema version, all those before it being copied. No row is copied into `external`.
fn copy_table<O: Alter, S: Alter>(
    alloc: Global,
    old: &mut Connection<O>,
    tx: &mut Transaction<'_, S>,
    schema_version: SchemaVersion,
    external: bool,
    table: Table,
) -> Result<(), Error>
    requires known { IsOfSchemaVersion O.Store old.old schema_version }
    requires copied { IsTrue (has_table false table) }
    ensures same_reference { tx.new.conn.ghost_name ≡ tx.old.conn.ghost_name }
    ensures copied { HasCleanDisk (state O.Store old.new) → HasCleanDisk (state S.Store tx.new.conn.now) → IsTrue tx.old.conn.now.in_transaction → IsTrue (state S.Store tx.old.conn.now).is_open
        → OnOk result (Moves (state S.Store tx.old.conn.now) (state S.Store tx.new.conn.now)
        (HasCopied schema_version external (state O.Store old.old).now (place_of table)) (HasCopied schema_version external (state O.Store old.old).now (place_of table + 1))) }
    ensures refused { FailsForARow schema_version external (place_of table) (state O.Store old.old) (state O.Store old.new) (state S.Store tx.old.conn.now) (state S.Store tx.new.conn.now) result }
    ensures survives { Survives (state S.Store tx.old.conn.now) (state S.Store tx.new.conn.now) (λ _. ⊥) }
    ensures look { OnlyLooks O.Store old.old old.new result }
{
    copy_rows(
        alloc,
        old,
        tx,
        listing(external, schema_version, table),
        external,
        table,
    )
}

fn copy_first<O: Alter, S: Alter>(
    alloc: Global,
    old: &mut Connection<O>,
    tx: &mut Transaction<'_, S>,
    schema_version: SchemaVersion,
    external: bool,
) -> Result<(), Error>
    requires { IsOfSchemaVersion O.Store old.old schema_version }
    ensures same_reference { tx.new.conn.ghost_name ≡ tx.old.conn.ghost_name }
    ensures copied { HasCleanDisk (state O.Store old.new) → HasCleanDisk (state S.Store tx.new.conn.now) → IsTrue tx.old.conn.now.in_transaction → IsTrue (state S.Store tx.old.conn.now).is_open
        → OnOk result (Moves (state S.Store tx.old.conn.now) (state S.Store tx.new.conn.now)
        (HasCopied schema_version external (state O.Store old.old).now 0) (HasCopied schema_version external (state O.Store old.old).now 4)) }
    ensures refused { FailsForARow schema_version external 0 (state O.Store old.old) (state O.Store old.new) (state S.Store tx.old.conn.now) (state S.Store tx.new.conn.now) result }
    ensures survives { Survives (state S.Store tx.old.conn.now) (state S.Store tx.new.conn.now) (λ _. ⊥) }
    ensures look { OnlyLooks O.Store old.old old.new result }
{
    copy_table(alloc, old, tx, schema_version, external, Table::Meta)?;
    copy_table(alloc, old, tx, schema_version, external, Table::Departments)?;
    copy_table(alloc, old, tx, schema_version, external, Table::Callers)?;
    copy_table(alloc, old, tx, schema_version, external, Table::Buckets)?;
    Ok(())
}

fn copy_second<O: Alter, S: Alter>(
    alloc: Global,
    old: &mut Connection<O>,
    tx: &mut Transaction<'_, S>,
    schema_version: SchemaVersion,
    external: bool,
) -> Result<(), Error>
    requires { IsOfSchemaVersion O.Store old.old schema_version }
    ensures same_reference { tx.new.conn.ghost_name ≡ tx.old.conn.ghost_name }
    ensures copied { HasCleanDisk (state O.Store old.new) → HasCleanDisk (state S.Store tx.new.conn.now) → IsTrue tx.old.conn.now.in_transaction → IsTrue (state S.Store tx.old.conn.now).is_open
        → OnOk result (Moves (state S.Store tx.old.conn.now) (state S.Store tx.new.conn.now)
        (HasCopied schema_version external (state O.Store old.old).now 4) (HasCopied schema_version external (state O.Store old.old).now 8)) }
    ensures refused { FailsForARow schema_version external 4 (state O.Store old.old) (state O.Store old.new) (state S.Store tx.old.conn.now) (state S.Store tx.new.conn.now) result }
    ensures survives { Survives (state S.Store tx.old.conn.now) (state S.Store tx.new.conn.now) (λ _. ⊥) }
    ensures look { OnlyLooks O.Store old.old old.new result }
{
    copy_table(alloc, old, tx, schema_version, external, Table::Rules)?;
    copy_table(alloc, old, tx, schema_version, external, Table::Entries)?;
    copy_table(alloc, old, tx, schema_version, external, Table::Contents)?;
    copy_table(alloc, old, tx, schema_version, external, Table::Settings)?;
    Ok(())
}

fn copy_last<O: Alter, S: Alter>(
    alloc: Global,
    old: &mut Connection<O>,
    tx: &mut Transaction<'_, S>,
    schema_version: SchemaVersion,
    external: bool,
) -> Result<(), Error>
    requires { IsOfSchemaVersion O.Store old.old schema_version }
    ensures same_reference { tx.new.conn.ghost_name ≡ tx.old.conn.ghost_name }
    ensures copied { HasCleanDisk (state O.Store old.new) → HasCleanDisk (state S.Store tx.new.conn.now) → IsTrue tx.old.conn.now.in_transaction → IsTrue (state S.Store tx.old.conn.now).is_open
        → OnOk result (Moves (state S.Store tx.old.conn.now) (state S.Store tx.new.conn.now)
        (HasCopied schema_version external (state O.Store old.old).now 8) (HasCopied schema_version external (state O.Store old.old).now 11)) }
    ensures refused { FailsForARow schema_version external 8 (state O.Store old.old) (state O.Store old.new) (state S.Store tx.old.conn.now) (state S.Store tx.new.conn.now) result }
    ensures survives { Survives (state S.Store tx.old.conn.now) (state S.Store tx.new.conn.now) (λ _. ⊥) }
    ensures look { OnlyLooks O.Store old.old old.new result }
{
    copy_table(alloc, old, tx, schema_version, external, Table::Intake)?;
    copy_table(alloc, old, tx, schema_version, external, Table::Heads)?;
    copy_table(alloc, old, tx, schema_version, external, Table::Tenures)?;
    Ok(())
}

/// Copies all tables of a file of that schema version into the empty tables of a vault that registers contents which are
/// kept outside, or doesn't, inside a transaction.
pub(crate) fn copy_tables<O: Alter, S: Alter>(
    alloc: Global,
    old: &mut Connection<O>,
    tx: &mut Transaction<'_, S>,
    schema_version: SchemaVersion,
    external: bool,
) -> Result<(), Error>
    requires { IsOfSchemaVersion O.Store old.old schema_version }
    ensures same_reference { tx.new.conn.ghost_name ≡ tx.old.conn.ghost_name }
    ensures copied { HasCleanDisk (state O.Store old.new) → HasCleanDisk (state S.Store tx.new.conn.now) → IsTrue tx.old.conn.now.in_transaction → IsTrue (state S.Store tx.old.conn.now).is_open
        → OnOk result (Moves (state S.Store tx.old.conn.now) (state S.Store tx.new.conn.now)
        (HasCopied schema_version external (state O.Store old.old).now 0) (HasCopied schema_version external (state O.Store old.old).now 11)) }
    ensures refused { FailsForARow schema_version external 0 (state O.Store old.old) (state O.Store old.new) (state S.Store tx.old.conn.now) (state S.Store tx.new.conn.now) result }
    ensures survives { Survives (state S.Store tx.old.conn.now) (state S.Store tx.new.conn.now) (λ _. ⊥) }
    ensures look { OnlyLooks O.Store old.old old.new result }
{
    copy_first(alloc, old, tx, schema_version, external)?;
    copy_second(alloc, old, tx, schema_version, external)?;
    copy_last(alloc, old, tx, schema_version, external)
}
