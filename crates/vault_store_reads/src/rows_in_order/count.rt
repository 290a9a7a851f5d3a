//! How many entries a key holds.
ghost use Rattle.std.specs.Prelude.{◌≡◌, ◌<◌, ◌^◌, length, IfOk, IfErr};
ghost use Rattle.sqlite.specs.Held.{state};
ghost use Rattle.sqlite.specs.State.{HasCleanDisk};
ghost use Rattle.vault_core_model.specs.Places.{held_at};
ghost use Rattle.vault_core_model.specs.Sound.{Sound};
ghost use Rattle.vault_core_model.specs.Vault.{Vault};
ghost use Rattle.vault_audit_model.specs.declared.rows.HeadRow.{HeadRow as Stated};
ghost use Rattle.vault_audit_model.specs.Limits.{IsHeadRow};
ghost use Rattle.vault_audit_model.specs.Rows.{head_row};
ghost use Rattle.vault_audit_rows.specs.Health.{IsMemory};
ghost use Rattle.vault_audit_rows.specs.Records.{ReportsOne};
ghost use Rattle.vault_store_model.specs.Keeping.{Keeps};
ghost use Rattle.vault_store_reads.specs.Quiet.{ReadsQuietly, IsOpenIfOk};
ghost use Rattle.vault_store_reads.specs.Wants.{WantsMemoryIfErr};

use crate::query::{UNREADABLE, unread};
use crate::rows_in_order::rows::open_rows;
use sqlite::{Alter, Connection, Error, Row, params};
use vault_audit_model::rows::HeadRow;
use vault_audit_rows::records::read_head;
use vault_audit_schema::{heads_columns, select_text};
use vault_base::name::{BucketName, ObjectKey};

/// The head of a row.
fn decode_head(row: &Row) -> Result<HeadRow, Error>
    ensures ok { IfOk result (λ x. row.now ≡ head_row x) }
    ensures memory { ReportsOne head_row IsHeadRow row.now → IfErr result IsMemory }
{
    match read_head(row) {
        Ok(head_row) => Ok(head_row),
        Err(misread) => Err(unread(misread)),
    }
}

/// How many entries are held under the key of a head.
fn read_count(row: &Row) -> Result<u32, Error>
    ensures ok { IfOk result (λ count. (x : Stated) × (row.now ≡ head_row x) × (x.head.count ≡ count)) }
    ensures memory { (x : Stated) → IsHeadRow x → row.now ≡ head_row x → x.head.count < 2 ^ 32 → IfErr result IsMemory }
{
    let head_row = decode_head(row)?;
    match u32::try_from(head_row.head.count) {
        Ok(count) => Ok(count),
        Err(_) => Err(UNREADABLE),
    }
}

/// How many entries a key holds.
pub fn find_count<S: Alter>(
    conn: &mut Connection<S>,
    bucket: &BucketName,
    key: &ObjectKey,
) -> Result<u32, Error>
    ensures value { HasCleanDisk (state S.Store conn.new) → IfOk result (λ count. (v : Vault) → Keeps (state S.Store conn.old) v → (count ≡ length (held_at v bucket.now key.now)) × Sound v) }
    ensures read { ReadsQuietly S.Store conn.old conn.new }
    ensures open { IsOpenIfOk S.Store conn.new result }
    ensures memory { WantsMemoryIfErr S.Store conn.old conn.new result }
{
    let rows = open_rows(
        conn,
        heads_columns!(select_text, " WHERE bucket = ?1 AND key = ?2"),
        params![bucket.as_str(), key.as_str()],
    )?;
    let Some(row) = rows.first() else {
        return Ok(0);
    };
    read_count(row)
}
