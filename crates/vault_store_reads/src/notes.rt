//! Notes of intake batches.
ghost use Rattle.std.specs.Prelude.{◌≡◌, IfOk};
ghost use Rattle.sqlite.specs.Held.{state};
ghost use Rattle.sqlite.specs.State.{HasCleanDisk};
ghost use Rattle.vault_core_model.specs.Vault.{Vault, note_of};
ghost use Rattle.vault_store_model.specs.Keeping.{Keeps};
ghost use Rattle.vault_store_reads.specs.Quiet.{OnlyReads, IsOpenIfOk};
ghost use Rattle.vault_store_reads.specs.Wants.{WantsMemoryIfErr};

use crate::query::{query_rows, unread};
use sqlite::{Alter, Connection, Error, params};
use vault_audit_rows::records;
use vault_audit_schema::{intake_columns, select_text};
use vault_base::name::{BatchName, BucketName};
use vault_core_model::records::Note;

/// The note of an accepted line of an intake batch.
pub fn read_note<S: Alter>(
    conn: &mut Connection<S>,
    bucket: &BucketName,
    batch: &BatchName,
    line: u32,
) -> Result<Option<Note>, Error>
    ensures value { HasCleanDisk (state S.Store conn.new) → IfOk result (λ found. (v : Vault) → Keeps (state S.Store conn.old) v → found ≡ note_of v bucket.now batch.now line) }
    ensures read { OnlyReads S.Store conn.old conn.new }
    ensures open { IsOpenIfOk S.Store conn.new result }
    ensures memory { WantsMemoryIfErr S.Store conn.old conn.new result }
{
    let rows = query_rows(
        conn,
        intake_columns!(
            select_text,
            " WHERE bucket = ?1 AND batch = ?2 AND line = ?3"
        ),
        params![bucket.as_str(), batch.as_str(), line],
    )?;
    match rows.first() {
        // No vault has a wider limit of sizes.
        Some(row) => match records::read_note(row, true) {
            Ok(note) => Ok(Some(note)),
            Err(misread) => Err(unread(misread)),
        },
        None => Ok(None),
    }
}
