//! The walk over the removed entries.
ghost use Rattle.std.specs.Prelude.{◌≡◌, true, IfOk, IfErr, OnErr};
ghost use Rattle.sqlite.specs.Held.{state};
ghost use Rattle.sqlite.specs.State.{HasCleanDisk};
ghost use Rattle.vault_core_model.specs.declared.records.Entry.{Entry};
ghost use Rattle.vault_core_model.specs.Handing.{Hands};
ghost use Rattle.vault_core_model.specs.Reads.{removed_entries};
ghost use Rattle.vault_core_model.specs.Vault.{Vault};
ghost use Rattle.vault_audit_model.specs.Limits.{IsEntry};
ghost use Rattle.vault_audit_model.specs.Rows.{entry_row};
ghost use Rattle.vault_audit_rows.specs.Health.{IsMemory};
ghost use Rattle.vault_audit_rows.specs.Records.{ReportsOne};
ghost use Rattle.vault_store_model.specs.Keeping.{Keeps};
ghost use Rattle.vault_store_reads.specs.Quiet.{IsOpenIfOk, OnlyReads};
ghost use Rattle.vault_store_reads.specs.Wants.{WantsMemoryIfErr};
ghost use Rattle.vault_store_walks.specs.Handed.{as_fault};

use sqlite::{Alter, Connection, Error, ErrorCode, Row};
use vault_audit_rows::records::read_entry;
use vault_audit_schema::{entries_columns, select_text};
use vault_core_model::keeper::Sink;
use vault_store_reads::query::unread;

/// Hands the entry of a row on: whether the sink took it.
fn hand<T: Sink>(row: &Row, sink: &mut T) -> Result<bool, Error>
    ensures ok { IfOk result (λ taken. (e : Entry) × (row.now ≡ entry_row e) × T.takes sink.old e taken sink.new) }
    ensures err { OnErr result (sink.new ≡ sink.old) }
    ensures memory { ReportsOne entry_row (IsEntry true) row.now → IfErr result IsMemory }
{
    match read_entry(row, true) {
        Ok(entry) => Ok(sink.take(&entry)),
        Err(misread) => Err(unread(misread)),
    }
}

/// Hands on each removed entry by rising id, one at a time: true after all of them, false where the sink
/// refused. Where it fails, some of the first of them were handed on.
pub fn walk_removed<S: Alter, T: Sink>(
    conn: &mut Connection<S>,
    sink: &mut T,
) -> Result<bool, Error>
    ensures value { HasCleanDisk (state S.Store conn.new) → (v : Vault) → ∥ Keeps (state S.Store conn.old) v ∥₁ → Hands T.takes sink.old (removed_entries v) (as_fault result) sink.new }
    ensures read { OnlyReads S.Store conn.old conn.new }
    ensures open { IsOpenIfOk S.Store conn.new result }
    ensures memory { WantsMemoryIfErr S.Store conn.old conn.new result }
{
    let mut rows = conn.query(
        entries_columns!(select_text, " WHERE removed IS NOT NULL ORDER BY id"),
        &[],
    )?;
    'rows: for _ in 0..u64::MAX {
        let Some(row) = rows.next()? else {
            return Ok(true);
        };
        if !hand(row, sink)? {
            return Ok(false);
        }
    }
    Err(Error::SqliteFailure(ErrorCode::OutOfMemory))
}
