//! The names of buckets, in order.
ghost use Rattle.std.specs.Prelude.{◌≡◌, map, IfOk, IfErr};
ghost use Rattle.sqlite.specs.Held.{state};
ghost use Rattle.sqlite.specs.State.{HasCleanDisk};
ghost use Rattle.vault_core_model.specs.Reads.{buckets_after};
ghost use Rattle.vault_core_model.specs.Vault.{Vault};
ghost use Rattle.vault_audit_model.specs.Limits.{IsBucketName};
ghost use Rattle.vault_audit_rows.specs.Health.{IsMemory};
ghost use Rattle.vault_audit_rows.specs.Records.{ReportsOne};
ghost use Rattle.vault_store_model.specs.Keeping.{Keeps};
ghost use Rattle.vault_store_reads.specs.Quiet.{OnlyReads, IsOpenIfOk};
ghost use Rattle.vault_store_reads.specs.Readable.{AreReadable};
ghost use Rattle.vault_store_reads.specs.Shown.{name_row};
ghost use Rattle.vault_store_reads.specs.Wants.{WantsMemoryIfErr};

use crate::query::{query_rows, unread};
use crate::rows_in_order::shown::read_name;
use sqlite::{Alter, Connection, Error, Row, params};
use std::alloc::Global;
use vault_base::name::BucketName;

/// The rows of the first buckets after a text: at most `most`.
fn bucket_rows<S: Alter>(
    conn: &mut Connection<S>,
    after: &str,
    most: u32,
) -> Result<Vec<Row>, Error>
    ensures rows { HasCleanDisk (state S.Store conn.new) → IfOk result (λ rows. (v : Vault) → Keeps (state S.Store conn.old) v → rows.items ≡ map name_row (buckets_after v after.now most)) }
    ensures readable { HasCleanDisk (state S.Store conn.new) → IfOk result (λ rows. (v : Vault) → Keeps (state S.Store conn.old) v → AreReadable name_row IsBucketName rows.items) }
    ensures read { OnlyReads S.Store conn.old conn.new }
    ensures open { IsOpenIfOk S.Store conn.new result }
    ensures memory { WantsMemoryIfErr S.Store conn.old conn.new result }
{
    query_rows(
        conn,
        "SELECT name FROM buckets WHERE name > ?1 ORDER BY name LIMIT ?2",
        params![after, most],
    )
}

/// The name of a row.
fn decode_name(row: &Row) -> Result<BucketName, Error>
    ensures ok { IfOk result (λ name. row.now ≡ name_row name) }
    ensures memory { ReportsOne name_row IsBucketName row.now → IfErr result IsMemory }
{
    match read_name(row) {
        Ok(name) => Ok(name),
        Err(misread) => Err(unread(misread)),
    }
}

/// Names.
fn decode_names(alloc: Global, rows: &[Row]) -> Result<Vec<BucketName>, Error>
    ensures ok { IfOk result (λ names. map name_row names.items ≡ rows.now) }
    ensures memory { AreReadable name_row IsBucketName rows.now → IfErr result IsMemory }
{
    let mut names = Vec::new(alloc);
    for row in rows {
        let one = decode_name(row)?;
        names.push(one)?;
    }
    Ok(names)
}

/// The names of the first buckets after a text: at most `most`.
pub fn find_buckets<S: Alter>(
    conn: &mut Connection<S>,
    alloc: Global,
    after: &str,
    most: u32,
) -> Result<Vec<BucketName>, Error>
    ensures value { HasCleanDisk (state S.Store conn.new) → IfOk result (λ names. (v : Vault) → Keeps (state S.Store conn.old) v → names.items ≡ buckets_after v after.now most) }
    ensures read { OnlyReads S.Store conn.old conn.new }
    ensures open { IsOpenIfOk S.Store conn.new result }
    ensures memory { WantsMemoryIfErr S.Store conn.old conn.new result }
{
    let rows = bucket_rows(conn, after, most)?;
    decode_names(alloc, &rows)
}
