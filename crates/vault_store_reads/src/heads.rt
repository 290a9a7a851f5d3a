//! Heads of keys.
ghost use Rattle.std.specs.Prelude.{◌≡◌, IfOk};
ghost use Rattle.sqlite.specs.Held.{state};
ghost use Rattle.sqlite.specs.State.{HasCleanDisk};
ghost use Rattle.vault_core_model.specs.Reads.{head_of};
ghost use Rattle.vault_core_model.specs.Vault.{Vault};
ghost use Rattle.vault_store_model.specs.Keeping.{Keeps};
ghost use Rattle.vault_store_reads.specs.Quiet.{OnlyReads, IsOpenIfOk};
ghost use Rattle.vault_store_reads.specs.Wants.{WantsMemoryIfErr};

use crate::query::{query_rows, unread};
use sqlite::{Alter, Connection, Error, params};
use vault_audit_rows::records;
use vault_audit_schema::{heads_columns, select_text};
use vault_base::name::{BucketName, ObjectKey};
use vault_core_model::records::Head;

/// The newest held entry of a key and how many are held; none where none is.
pub fn read_head<S: Alter>(
    conn: &mut Connection<S>,
    bucket: &BucketName,
    key: &ObjectKey,
) -> Result<Option<Head>, Error>
    ensures value { HasCleanDisk (state S.Store conn.new) → IfOk result (λ found. (v : Vault) → Keeps (state S.Store conn.old) v → found ≡ head_of v bucket.now key.now) }
    ensures read { OnlyReads S.Store conn.old conn.new }
    ensures open { IsOpenIfOk S.Store conn.new result }
    ensures memory { WantsMemoryIfErr S.Store conn.old conn.new result }
{
    let rows = query_rows(
        conn,
        heads_columns!(select_text, " WHERE bucket = ?1 AND key = ?2"),
        params![bucket.as_str(), key.as_str()],
    )?;
    match rows.first() {
        Some(row) => match records::read_head(row) {
            Ok(head) => Ok(Some(head.head)),
            Err(misread) => Err(unread(misread)),
        },
        None => Ok(None),
    }
}
