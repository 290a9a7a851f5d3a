//! A look at the rows that a statement is to change or delete.
//!
//! A statement names its rows by their rowids, and no clause of `sqlite` says that these differ. So
//! those of the rows that it is to find are looked up first.
ghost use Rattle.std.specs.Prelude.{◌≡◌, Bool, IsTrue, OnOk, List, [], ◌∷◌};
ghost use Rattle.std.specs.List.{AllByRecursion};
ghost use Rattle.sqlite_sql.specs.Term.{Term};
ghost use Rattle.sqlite.specs.State.{HasCleanDisk, IsUnchanged, KeepsCommit, Survives};
ghost use Rattle.sqlite.specs.Held.{state};
ghost use Rattle.sqlite.specs.Values.{bound};
ghost use Rattle.vault_audit_model.specs.Tables.{vault_schema};
ghost use Rattle.vault_audit_model.specs.Values.{number};
ghost use Rattle.vault_store_edits.specs.Trees.{tree_of};
ghost use Rattle.vault_store_edits.specs.UniqueRowids.{HaveUniqueRowids};
ghost use Rattle.vault_store_model.specs.Scans.{passes};
ghost use Rattle.vault_store_edits.specs.Queries.{SelectsIfKnown, Stands, rowid_text, rowids_where};

use sqlite::types::ValueRef;
use sqlite::{Alter, Error, ErrorCode, Row, Transaction, params};
use vault_base::name::VersionId;
use vault_base::refusal::Table;

/// The query for the rows of a table that have a rowid.
fn by_rowid(table: Table) -> &'static str
    ensures { result.now ≡ rowid_text table }
{
    match table {
        Table::Meta => "SELECT rowid FROM meta WHERE rowid = ?1",
        Table::Departments => "SELECT rowid FROM departments WHERE rowid = ?1",
        Table::Callers => "SELECT rowid FROM callers WHERE rowid = ?1",
        Table::Buckets => "SELECT rowid FROM buckets WHERE rowid = ?1",
        Table::Rules => "SELECT rowid FROM rules WHERE rowid = ?1",
        Table::Entries => "SELECT rowid FROM entries WHERE rowid = ?1",
        Table::Contents => "SELECT rowid FROM contents WHERE rowid = ?1",
        Table::Settings => "SELECT rowid FROM settings WHERE rowid = ?1",
        Table::Intake => "SELECT rowid FROM intake WHERE rowid = ?1",
        Table::Heads => "SELECT rowid FROM heads WHERE rowid = ?1",
        Table::Tenures => "SELECT rowid FROM tenures WHERE rowid = ?1",
        Table::External => "SELECT rowid FROM external WHERE rowid = ?1",
    }
}

/// Refuses a row that shows no rowid, or one that another row of the table has too.
fn check_row<S: Alter>(tx: &mut Transaction<'_, S>, table: Table, row: &Row) -> Result<(), Error>
    ensures same_reference { tx.new.conn.ghost_name ≡ tx.old.conn.ghost_name }
    ensures stands { (external : Bool) → HasCleanDisk (state S.Store tx.new.conn.now) → (state S.Store tx.old.conn.now).now.schema ≡ vault_schema external
        → OnOk result (IsUnchanged (state S.Store tx.old.conn.now) (state S.Store tx.new.conn.now) × Stands ((state S.Store tx.old.conn.now).now.trees (tree_of table)) row.now) }
    ensures kept { HasCleanDisk (state S.Store tx.new.conn.now) → IsTrue tx.old.conn.now.in_transaction → KeepsCommit (state S.Store tx.old.conn.now) (state S.Store tx.new.conn.now) }
    ensures inside { HasCleanDisk (state S.Store tx.new.conn.now) → IsTrue tx.old.conn.now.in_transaction → OnOk result (IsTrue tx.new.conn.now.in_transaction) }
    ensures survives { Survives (state S.Store tx.old.conn.now) (state S.Store tx.new.conn.now) (λ _. ⊥) }
{
    let id: i64 = row.get(0)?;
    let rows = tx.query_all(by_rowid(table), params![id])?;
    if rows.len() == 1 {
        Ok(())
    } else {
        Err(Error::SqliteFailure(ErrorCode::DatabaseCorrupt))
    }
}

/// The same of each of these rows.
fn check_rows<S: Alter>(
    tx: &mut Transaction<'_, S>,
    table: Table,
    rows: &[Row],
) -> Result<(), Error>
    ensures same_reference { tx.new.conn.ghost_name ≡ tx.old.conn.ghost_name }
    ensures stand { (external : Bool) → HasCleanDisk (state S.Store tx.new.conn.now) → (state S.Store tx.old.conn.now).now.schema ≡ vault_schema external → IsTrue (state S.Store tx.old.conn.now).is_open
        → OnOk result (IsUnchanged (state S.Store tx.old.conn.now) (state S.Store tx.new.conn.now) × AllByRecursion (Stands ((state S.Store tx.old.conn.now).now.trees (tree_of table))) rows.now) }
    ensures kept { HasCleanDisk (state S.Store tx.new.conn.now) → IsTrue tx.old.conn.now.in_transaction → KeepsCommit (state S.Store tx.old.conn.now) (state S.Store tx.new.conn.now) }
    ensures inside { HasCleanDisk (state S.Store tx.new.conn.now) → IsTrue tx.old.conn.now.in_transaction → OnOk result (IsTrue tx.new.conn.now.in_transaction) }
    ensures survives { Survives (state S.Store tx.old.conn.now) (state S.Store tx.new.conn.now) (λ _. ⊥) }
{
    for row in rows {
        check_row(tx, table, row)?;
    }
    Ok(())
}

/// Looks up the rows of a table that a query finds, which asks for their rowids.
///
/// `DatabaseCorrupt` where two rows have one rowid. Nothing is changed.
pub fn check_rowids<S: Alter>(
    tx: &mut Transaction<'_, S>,
    table: Table,
    sql: &str,
    params: &[ValueRef<'_>],
) -> Result<(), Error>
    ensures same_reference { tx.new.conn.ghost_name ≡ tx.old.conn.ghost_name }
    ensures unique { (external : Bool) → HasCleanDisk (state S.Store tx.new.conn.now) → (state S.Store tx.old.conn.now).now.schema ≡ vault_schema external
        → (tests : List Term) → SelectsIfKnown (vault_schema external) sql.now (rowids_where (tree_of table) tests)
        → OnOk result (IsUnchanged (state S.Store tx.old.conn.now) (state S.Store tx.new.conn.now)
        × HaveUniqueRowids (passes tests (bound params.now)) ((state S.Store tx.old.conn.now).now.trees (tree_of table))) }
    ensures kept { HasCleanDisk (state S.Store tx.new.conn.now) → IsTrue tx.old.conn.now.in_transaction → KeepsCommit (state S.Store tx.old.conn.now) (state S.Store tx.new.conn.now) }
    ensures inside { HasCleanDisk (state S.Store tx.new.conn.now) → IsTrue tx.old.conn.now.in_transaction → OnOk result (IsTrue tx.new.conn.now.in_transaction) }
    ensures survives { Survives (state S.Store tx.old.conn.now) (state S.Store tx.new.conn.now) (λ _. ⊥) }
{
    let rows = tx.query_all(sql, params)?;
    check_rows(tx, table, &rows)
}

/// Looks up the rows of a table that a query finds, whose one parameter is an id.
pub fn check_id<S: Alter>(
    tx: &mut Transaction<'_, S>,
    table: Table,
    sql: &str,
    id: VersionId,
) -> Result<(), Error>
    ensures same_reference { tx.new.conn.ghost_name ≡ tx.old.conn.ghost_name }
    ensures unique { (external : Bool) → HasCleanDisk (state S.Store tx.new.conn.now) → (state S.Store tx.old.conn.now).now.schema ≡ vault_schema external
        → (tests : List Term) → SelectsIfKnown (vault_schema external) sql.now (rowids_where (tree_of table) tests)
        → OnOk result (IsUnchanged (state S.Store tx.old.conn.now) (state S.Store tx.new.conn.now)
        × HaveUniqueRowids (passes tests (number id ∷ [])) ((state S.Store tx.old.conn.now).now.trees (tree_of table))) }
    ensures kept { HasCleanDisk (state S.Store tx.new.conn.now) → IsTrue tx.old.conn.now.in_transaction → KeepsCommit (state S.Store tx.old.conn.now) (state S.Store tx.new.conn.now) }
    ensures inside { HasCleanDisk (state S.Store tx.new.conn.now) → IsTrue tx.old.conn.now.in_transaction → OnOk result (IsTrue tx.new.conn.now.in_transaction) }
    ensures survives { Survives (state S.Store tx.old.conn.now) (state S.Store tx.new.conn.now) (λ _. ⊥) }
{
    check_rowids(tx, table, sql, params![id.number()])
}
