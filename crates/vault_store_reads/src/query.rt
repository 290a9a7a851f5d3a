//! Queries over the tables of a vault that a connection keeps.
//!
//! A query changes nothing, whatever it answers; its rows are the answer of what its text means over
//! tables that state the vault.

ghost use Rattle.std.specs.Prelude.{◌≡◌, IfOk, IfErr};
ghost use Rattle.sqlite_sql.specs.Query.{Query};
ghost use Rattle.sqlite.specs.Held.{state};
ghost use Rattle.sqlite.specs.State.{HasCleanDisk, FailsToQuery};
ghost use Rattle.sqlite.specs.Values.{bound};
ghost use Rattle.vault_core_model.specs.Vault.{Vault};
ghost use Rattle.vault_store_model.specs.Keeping.{Keeps};
ghost use Rattle.vault_store_reads.specs.Queries.{FindsRows, SelectsInBoth};
ghost use Rattle.vault_store_reads.specs.Quiet.{OnlyReads, IsOpenIfOk};
ghost use Rattle.vault_store_reads.specs.Wants.{IsAskedWith, WantsMemoryIfErr};

use sqlite::types::ValueRef;
use sqlite::{Alter, Connection, Error, ErrorCode, Row};
use vault_audit_rows::misread::Misread;

/// All rows of a query over the tables of a vault.
pub fn query_rows<S: Alter>(
    conn: &mut Connection<S>,
    sql: &str,
    params: &[ValueRef<'_>],
) -> Result<Vec<Row>, Error>
    requires { (q : Query) × SelectsInBoth sql.now q }
    ensures rows { HasCleanDisk (state S.Store conn.new) → IfOk result (λ rows. (v : Vault) → Keeps (state S.Store conn.old) v → FindsRows v sql.now (bound params.now) rows.items) }
    // An error is the store's.
    ensures err { HasCleanDisk (state S.Store conn.new) → IfErr result (FailsToQuery sql.now (bound params.now) (state S.Store conn.old) (state S.Store conn.new)) }
    ensures read { OnlyReads S.Store conn.old conn.new }
    ensures open { IsOpenIfOk S.Store conn.new result }
    // Over a store that works it fails only where memory runs out.
    ensures memory { IsAskedWith sql.now (bound params.now) → WantsMemoryIfErr S.Store conn.old conn.new result }
{
    conn.query_all(sql, params)
}

/// What is said of a row that says nothing of a vault.
pub const UNREADABLE: Error = Error::SqliteFailure(ErrorCode::DatabaseCorrupt);

/// What is said of a row that isn't read as a record: out of memory as such, any other cause as a file
/// that isn't a vault's.
pub fn unread(misread: Misread) -> Error
    ensures memory { misread ≡ Misread.Memory → result ≡ Error.SqliteFailure ErrorCode.OutOfMemory }
    ensures wrong { misread ≡ Misread.Wrong → result ≡ Error.SqliteFailure ErrorCode.DatabaseCorrupt }
{
    match misread {
        Misread::Memory => Error::SqliteFailure(ErrorCode::OutOfMemory),
        Misread::Wrong => UNREADABLE,
    }
}
