//! Rows of `contents`.
ghost use Rattle.std.specs.Prelude.{◌≡◌};
ghost use Rattle.vault_base.specs.declared.refusal.Table.TheVariants as table;
ghost use Rattle.vault_audit_model.specs.Rows.{content_row};
ghost use Rattle.vault_store_model.specs.Edits.{with_row, without};
ghost use Rattle.vault_store_model.specs.Tests.{is_numbered};
ghost use Rattle.vault_store_edits.specs.Inside.{IsEdit};

use crate::put::{Put, put_row};
use crate::rowids::check_id;
use sqlite::{Alter, Error, Transaction, params};
use vault_audit_schema::{contents_columns, insert_text};
use vault_base::content::Bytes;
use vault_base::name::VersionId;
use vault_base::refusal::Table;

/// The bytes of a version.
#[derive(Clone, Copy)]
struct NewContent<'a> {
    id: VersionId,
    content: &'a Bytes,
}

impl<'a> Put for NewContent<'a> {
    ghost use Rattle.std.specs.Prelude.{⊤};
    ghost use Rattle.vault_base.specs.declared.refusal.Table.TheVariants as table;
    ghost use Rattle.vault_audit_model.specs.Rows.{content_row};
    ghost use Rattle.vault_store_edits.specs.ContentLaws.{content_inserts};

    ghost table = { table.Contents };

    ghost as_row = { λ x. content_row (record { id = x.id; content = x.content.now }) };

    ghost typed = { λ x r. ⊤ };

    fn insert<S: Alter>(&self, tx: &mut Transaction<'_, S>) -> Result<usize, Error> {
        tx.execute(
            contents_columns!(insert_text),
            params![self.id.number(), self.content.as_slice()],
        )
    }

    ghost inserts = { λ external there x. content_inserts external (record { id = x.id; content = x.content.now }) };
}

/// Puts in the bytes of a version.
pub fn put_content<S: Alter>(
    tx: &mut Transaction<'_, S>,
    id: VersionId,
    content: &Bytes,
) -> Result<usize, Error>
    ensures same_reference { tx.new.conn.ghost_name ≡ tx.old.conn.ghost_name }
    ensures edit { IsEdit S.Store tx.old.conn.now tx.new.conn.now result (with_row table.Contents (content_row (record { id = id; content = content.now }))) }
{
    put_row(tx, &NewContent { id, content })
}

/// Deletes the bytes of a version.
pub fn delete_content<S: Alter>(tx: &mut Transaction<'_, S>, id: VersionId) -> Result<usize, Error>
    ensures same_reference { tx.new.conn.ghost_name ≡ tx.old.conn.ghost_name }
    ensures edit { IsEdit S.Store tx.old.conn.now tx.new.conn.now result (without table.Contents (is_numbered id)) }
{
    check_id(
        tx,
        Table::Contents,
        "SELECT id FROM contents WHERE id = ?1",
        id,
    )?;
    tx.execute("DELETE FROM contents WHERE id = ?1", params![id.number()])
}
