//! Rows of `entries`.
ghost use Rattle.std.specs.Prelude.{◌≡◌, OnOk};
ghost use Rattle.vault_base.specs.declared.refusal.Table.TheVariants as table;
ghost use Rattle.vault_audit_model.specs.Limits.{IsCause};
ghost use Rattle.vault_audit_model.specs.Rows.{entry_row};
ghost use Rattle.vault_store_model.specs.Edits.{with_row, with_changed};
ghost use Rattle.vault_store_model.specs.Tests.{is_numbered, removed_row};
ghost use Rattle.vault_store_edits.specs.Inside.{IsEdit, IsEditOfSound};
ghost use Rattle.vault_store_edits.specs.Typed.{IsTypedEntry};

use crate::entry_parameters::{
    author_text, cause_number, cause_text, digest_bytes, is_rule, removal_at, removal_by,
    removal_cause,
};
use crate::parameters::{seconds, whole};
use crate::put::{Put, put_row};
use crate::rowids::check_id;
use sqlite::{Alter, Error, Transaction, params};
use vault_audit_schema::{entries_columns, insert_text};
use vault_base::name::VersionId;
use vault_base::refusal::Table;
use vault_core_model::records::{Entry, Removal};

impl Put for Entry {
    ghost use Rattle.std.specs.Prelude.{OnOk};
    ghost use Rattle.vault_base.specs.declared.refusal.Table.TheVariants as table;
    ghost use Rattle.vault_audit_model.specs.Rows.{entry_row};
    ghost use Rattle.vault_store_edits.specs.EntryLaws.{entry_inserts};
    ghost use Rattle.vault_store_edits.specs.Typed.{IsTypedEntry};

    ghost table = { table.Entries };

    ghost as_row = { entry_row };

    ghost typed = { λ e r. OnOk r (IsTypedEntry e) };

    fn insert<S: Alter>(&self, tx: &mut Transaction<'_, S>) -> Result<usize, Error> {
        let size = whole(self.size)?;
        tx.execute(
            entries_columns!(insert_text),
            params![
                self.id.number(),
                self.bucket.as_str(),
                self.key.as_str(),
                self.marker,
                size,
                digest_bytes(&self.digest),
                seconds(self.admitted),
                is_rule(&self.by),
                author_text(&self.by),
                removal_at(&self.removal),
                removal_cause(&self.removal),
                removal_by(&self.removal),
            ],
        )
    }

    ghost inserts = { λ external there. entry_inserts external };
}

/// Puts in an entry, with its removal if it has one. `TooBig` where its size is 2^63 or more.
pub fn put_entry<S: Alter>(tx: &mut Transaction<'_, S>, entry: &Entry) -> Result<usize, Error>
    ensures same_reference { tx.new.conn.ghost_name ≡ tx.old.conn.ghost_name }
    ensures edit { IsEdit S.Store tx.old.conn.now tx.new.conn.now result (with_row table.Entries (entry_row entry.now)) }
    ensures limits { OnOk result (IsTypedEntry entry.now) }
{
    put_row(tx, entry)
}

/// Writes this removal into the row of the entry.
pub fn remove_entry<S: Alter>(
    tx: &mut Transaction<'_, S>,
    id: VersionId,
    removal: &Removal,
) -> Result<usize, Error>
    ensures same_reference { tx.new.conn.ghost_name ≡ tx.old.conn.ghost_name }
    ensures edit { IsEditOfSound S.Store tx.old.conn.now tx.new.conn.now result (with_changed table.Entries (is_numbered id) (removed_row removal.now)) }
    ensures limits { IsCause removal.now.cause }
{
    let at = seconds(removal.at);
    let cause = cause_number(&removal.cause);
    let by = cause_text(&removal.cause);
    check_id(
        tx,
        Table::Entries,
        "SELECT id FROM entries WHERE id = ?1",
        id,
    )?;
    tx.execute(
        "UPDATE entries SET removed = ?2, cause = ?3, cause_by = ?4 WHERE id = ?1",
        params![id.number(), at, cause, by],
    )
}
