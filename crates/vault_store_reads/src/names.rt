//! Departments, callers and buckets, by their names.
ghost use Rattle.std.specs.Prelude.{◌≡◌, IfOk};
ghost use Rattle.sqlite.specs.Held.{state};
ghost use Rattle.sqlite.specs.State.{HasCleanDisk};
ghost use Rattle.vault_core_model.specs.Totals.{IsRowFor};
ghost use Rattle.vault_core_model.specs.Vault.{Vault, caller_of, config_of, has_department};
ghost use Rattle.vault_store_model.specs.Keeping.{Keeps};
ghost use Rattle.vault_store_reads.specs.Quiet.{OnlyReads, IsOpenIfOk};
ghost use Rattle.vault_store_reads.specs.Wants.{WantsMemoryIfErr};

use crate::query::{query_rows, unread};
use sqlite::{Alter, Connection, Error, params};
use vault_audit_rows::records;
use vault_audit_schema::{buckets_columns, callers_columns, departments_columns, select_text};
use vault_base::name::{BucketName, CallerName, DeptName};
use vault_core_model::records::{BucketConfig, Caller};
use vault_tally::row::Row as Sums;

/// Whether there is such a department.
pub fn has_department<S: Alter>(conn: &mut Connection<S>, name: &DeptName) -> Result<bool, Error>
    ensures value { HasCleanDisk (state S.Store conn.new) → IfOk result (λ found. (v : Vault) → Keeps (state S.Store conn.old) v → found ≡ has_department v name.now) }
    ensures read { OnlyReads S.Store conn.old conn.new }
    ensures open { IsOpenIfOk S.Store conn.new result }
    ensures memory { WantsMemoryIfErr S.Store conn.old conn.new result }
{
    let rows = query_rows(
        conn,
        departments_columns!(select_text, " WHERE name = ?1"),
        params![name.as_str()],
    )?;
    Ok(!rows.is_empty())
}

/// The sums of a department; those of one that isn't there are 0.
pub fn read_totals<S: Alter>(conn: &mut Connection<S>, dept: &DeptName) -> Result<Sums, Error>
    ensures value { HasCleanDisk (state S.Store conn.new) → IfOk result (λ row. (v : Vault) → Keeps (state S.Store conn.old) v → IsRowFor v dept.now row) }
    ensures read { OnlyReads S.Store conn.old conn.new }
    ensures open { IsOpenIfOk S.Store conn.new result }
    ensures memory { WantsMemoryIfErr S.Store conn.old conn.new result }
{
    let rows = query_rows(
        conn,
        departments_columns!(select_text, " WHERE name = ?1"),
        params![dept.as_str()],
    )?;
    match rows.first() {
        Some(row) => match records::read_department(row) {
            Ok(department) => Ok(department.sums),
            Err(misread) => Err(unread(misread)),
        },
        None => Ok(Sums {
            admitted: 0,
            received: 0,
            held: 0,
            removed: 0,
            handed: 0,
            weighted: 0,
            closed: 0,
        }),
    }
}

/// The caller of that name, open or closed.
pub fn read_caller<S: Alter>(
    conn: &mut Connection<S>,
    name: &CallerName,
) -> Result<Option<Caller>, Error>
    ensures value { HasCleanDisk (state S.Store conn.new) → IfOk result (λ found. (v : Vault) → Keeps (state S.Store conn.old) v → found ≡ caller_of v name.now) }
    ensures read { OnlyReads S.Store conn.old conn.new }
    ensures open { IsOpenIfOk S.Store conn.new result }
    ensures memory { WantsMemoryIfErr S.Store conn.old conn.new result }
{
    let rows = query_rows(
        conn,
        callers_columns!(select_text, " WHERE name = ?1"),
        params![name.as_str()],
    )?;
    match rows.first() {
        Some(row) => match records::read_caller(row) {
            Ok(caller) => Ok(Some(caller)),
            Err(misread) => Err(unread(misread)),
        },
        None => Ok(None),
    }
}

/// The department and the default retention of a bucket.
pub fn read_bucket<S: Alter>(
    conn: &mut Connection<S>,
    name: &BucketName,
) -> Result<Option<BucketConfig>, Error>
    ensures value { HasCleanDisk (state S.Store conn.new) → IfOk result (λ found. (v : Vault) → Keeps (state S.Store conn.old) v → found ≡ config_of v name.now) }
    ensures read { OnlyReads S.Store conn.old conn.new }
    ensures open { IsOpenIfOk S.Store conn.new result }
    ensures memory { WantsMemoryIfErr S.Store conn.old conn.new result }
{
    let rows = query_rows(
        conn,
        buckets_columns!(select_text, " WHERE name = ?1"),
        params![name.as_str()],
    )?;
    match rows.first() {
        Some(row) => match records::read_bucket(row) {
            Ok(bucket) => Ok(Some(bucket.config)),
            Err(misread) => Err(unread(misread)),
        },
        None => Ok(None),
    }
}
