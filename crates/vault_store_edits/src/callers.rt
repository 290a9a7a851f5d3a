//! Rows of `callers`.
ghost use Rattle.std.specs.Prelude.{◌≡◌};
ghost use Rattle.vault_base.specs.declared.refusal.Table.TheVariants as table;
ghost use Rattle.vault_audit_model.specs.Limits.{IsCaller};
ghost use Rattle.vault_audit_model.specs.Rows.{caller_row};
ghost use Rattle.vault_store_model.specs.Edits.{with_row, with_changed};
ghost use Rattle.vault_store_model.specs.Tests.{is_named, closed_row};
ghost use Rattle.vault_store_edits.specs.Inside.{IsEdit, IsEditOfSound};

use crate::parameters::{dept_text, rights_number};
use crate::put::{Put, put_row};
use crate::rowids::check_rowids;
use sqlite::{Alter, Error, Transaction, params};
use vault_audit_schema::{callers_columns, insert_text};
use vault_base::name::CallerName;
use vault_base::refusal::Table;
use vault_core_model::records::Caller;

impl Put for Caller {
    ghost use Rattle.vault_base.specs.declared.refusal.Table.TheVariants as table;
    ghost use Rattle.vault_audit_model.specs.Rows.{caller_row};
    ghost use Rattle.vault_store_edits.specs.CallerLaws.{caller_inserts};
    ghost use Rattle.vault_audit_model.specs.Limits.{IsCaller};

    ghost table = { table.Callers };

    ghost as_row = { caller_row };

    ghost typed = { λ c r. IsCaller c };

    fn insert<S: Alter>(&self, tx: &mut Transaction<'_, S>) -> Result<usize, Error> {
        tx.execute(
            callers_columns!(insert_text),
            params![
                self.name.as_str(),
                dept_text(&self.dept),
                rights_number(self.rights),
                self.closed,
            ],
        )
    }

    ghost inserts = { λ external there. caller_inserts external };
}

/// Puts in a caller.
pub fn put_caller<S: Alter>(tx: &mut Transaction<'_, S>, caller: &Caller) -> Result<usize, Error>
    ensures same_reference { tx.new.conn.ghost_name ≡ tx.old.conn.ghost_name }
    ensures edit { IsEdit S.Store tx.old.conn.now tx.new.conn.now result (with_row table.Callers (caller_row caller.now)) }
    ensures limits { IsCaller caller.now }
{
    put_row(tx, caller)
}

/// Closes a caller.
pub fn close_caller<S: Alter>(
    tx: &mut Transaction<'_, S>,
    name: &CallerName,
) -> Result<usize, Error>
    ensures same_reference { tx.new.conn.ghost_name ≡ tx.old.conn.ghost_name }
    ensures edit { IsEditOfSound S.Store tx.old.conn.now tx.new.conn.now result (with_changed table.Callers (is_named name.now) closed_row) }
{
    check_rowids(
        tx,
        Table::Callers,
        "SELECT rowid FROM callers WHERE name = ?1",
        params![name.as_str()],
    )?;
    tx.execute(
        "UPDATE callers SET closed = 1 WHERE name = ?1",
        params![name.as_str()],
    )
}
