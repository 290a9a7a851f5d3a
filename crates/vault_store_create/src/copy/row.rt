//! A row, put into its table as it is.
ghost use Rattle.std.specs.Prelude.{◌≡◌, ◌≤◌, ◌⊎◌, IsTrue, IfOk, IfErr, OnOk, false, length, map, take};
ghost use Rattle.sqlite_value.specs.Value.{owned};
ghost use Rattle.sqlite.specs.Held.{state};
ghost use Rattle.sqlite.specs.State.{HasCleanDisk, Survives};
ghost use Rattle.vault_audit_model.specs.Tables.{vault_schema};
ghost use Rattle.vault_audit_rows.specs.Health.{IsHealthy, IsMemory};
ghost use Rattle.vault_store_edits.specs.Trees.{has_table};
ghost use Rattle.vault_store_create.specs.Copied.{Steps, PutsRow, Refuses};
ghost use Rattle.vault_store_create.specs.RowsOf.{IsRowOf, put_of};

use crate::copy::listing::putting;
use sqlite::types::ValueRef;
use sqlite::{Alter, Error, ErrorCode, Row, Transaction};
use std::alloc::Global;
use vault_base::refusal::Table;

/// How many columns of a row are put in: the first ones, those that the table has.
fn width_put(table: Table, external: bool, row: &Row) -> usize
    ensures put { take result row.now ≡ put_of table external row.now }
    ensures there { result ≤ length row.now }
{
    let all = row.column_count();
    if matches!(table, Table::Meta) && !external && all > 5 {
        return 5;
    }
    all
}

/// The first values of a row, as parameters of a statement.
fn values_of(alloc: Global, row: &Row, count: usize) -> Result<Vec<ValueRef<'_>>, Error>
    requires { count ≤ length row.now }
    ensures values { IfOk result (λ values. map (λ v. owned v) values.items ≡ take count row.now) }
    ensures memory { IfErr result IsMemory }
{
    let mut values = Vec::new(alloc);
    for at in 0..count {
        let value = row.get_ref(at)?;
        if values.push(value).is_err() {
            return Err(Error::SqliteFailure(ErrorCode::OutOfMemory));
        }
    }
    Ok(values)
}

/// Puts a row into its table, as it is where it states a record of the table.
pub(crate) fn put_row<S: Alter>(
    alloc: Global,
    tx: &mut Transaction<'_, S>,
    external: bool,
    table: Table,
    row: &Row,
) -> Result<usize, Error>
    requires { IsTrue (has_table false table) }
    ensures same_reference { tx.new.conn.ghost_name ≡ tx.old.conn.ghost_name }
    ensures put { HasCleanDisk (state S.Store tx.new.conn.now) → IsTrue tx.old.conn.now.in_transaction
        → OnOk result (Steps (state S.Store tx.old.conn.now) (state S.Store tx.new.conn.now) (PutsRow external table row.now)) }
    // A store that works refuses a record of the table where memory runs out, or as its database refuses it.
    ensures refused { IsHealthy (state S.Store tx.new.conn.now) → IsTrue tx.old.conn.now.in_transaction → (state S.Store tx.old.conn.now).now.schema ≡ vault_schema external → IsRowOf table row.now
        → IfErr result (λ e. IsMemory e ⊎ Refuses external table row.now (state S.Store tx.old.conn.now).now) }
    ensures survives { Survives (state S.Store tx.old.conn.now) (state S.Store tx.new.conn.now) (λ _. ⊥) }
{
    let values = values_of(alloc, row, width_put(table, external, row))?;
    tx.execute(putting(external, table), &values)
}
