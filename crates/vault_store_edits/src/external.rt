//! Rows of `external`, a table of vaults that register contents which are kept outside. In every other vault these
//! statements fail, and change nothing.
ghost use Rattle.std.specs.Prelude.{◌≡◌};
ghost use Rattle.vault_base.specs.declared.refusal.Table.TheVariants as table;
ghost use Rattle.vault_audit_model.specs.Rows.{external_row};
ghost use Rattle.vault_store_model.specs.Edits.{with_row, without};
ghost use Rattle.vault_store_model.specs.Tests.{is_numbered};
ghost use Rattle.vault_store_edits.specs.Inside.{IsEdit};

use crate::put::{Put, put_row};
use crate::rowids::check_id;
use sqlite::{Alter, Error, Transaction, params};
use vault_audit_schema::{external_columns, insert_text};
use vault_base::name::VersionId;
use vault_base::refusal::Table;

/// A version whose bytes are kept outside.
#[derive(Clone, Copy)]
struct NewExternal {
    id: VersionId,
}

impl Put for NewExternal {
    ghost use Rattle.std.specs.Prelude.{⊤};
    ghost use Rattle.vault_base.specs.declared.refusal.Table.TheVariants as table;
    ghost use Rattle.vault_audit_model.specs.Rows.{external_row};
    ghost use Rattle.vault_store_edits.specs.ExternalLaws.{external_inserts};

    ghost table = { table.External };

    ghost as_row = { λ x. external_row x.id };

    ghost typed = { λ x r. ⊤ };

    fn insert<S: Alter>(&self, tx: &mut Transaction<'_, S>) -> Result<usize, Error> {
        tx.execute(external_columns!(insert_text), params![self.id.number()])
    }

    ghost inserts = { λ external there x. external_inserts external there x.id };
}

/// Puts in the row of a version whose bytes are kept outside.
pub fn put_external<S: Alter>(tx: &mut Transaction<'_, S>, id: VersionId) -> Result<usize, Error>
    ensures same_reference { tx.new.conn.ghost_name ≡ tx.old.conn.ghost_name }
    ensures edit { IsEdit S.Store tx.old.conn.now tx.new.conn.now result (with_row table.External (external_row id)) }
{
    put_row(tx, &NewExternal { id })
}

/// Deletes the row of a version whose bytes are kept outside.
pub fn delete_external<S: Alter>(tx: &mut Transaction<'_, S>, id: VersionId) -> Result<usize, Error>
    ensures same_reference { tx.new.conn.ghost_name ≡ tx.old.conn.ghost_name }
    ensures edit { IsEdit S.Store tx.old.conn.now tx.new.conn.now result (without table.External (is_numbered id)) }
{
    check_id(
        tx,
        Table::External,
        "SELECT id FROM external WHERE id = ?1",
        id,
    )?;
    tx.execute("DELETE FROM external WHERE id = ?1", params![id.number()])
}
