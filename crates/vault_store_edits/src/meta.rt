//! The row of `meta`.
ghost use Rattle.std.specs.Prelude.{◌≡◌, ◌≤◌, OnOk};
ghost use Rattle.vault_base.specs.Days.{last_moment};
ghost use Rattle.vault_base.specs.declared.refusal.Table.TheVariants as table;
ghost use Rattle.vault_store_model.specs.Edits.{with_changed};
ghost use Rattle.vault_store_model.specs.Tests.{every, with_last, with_last_and_moves, with_last_and_next};
ghost use Rattle.vault_store_edits.specs.Inside.{IsEditOfSound};

use crate::parameters::{seconds, whole};
use crate::rowids::check_rowids;
use sqlite::{Alter, Error, Transaction, params};
use vault_base::moment::Moment;
use vault_base::refusal::Table;

/// Writes the last moment.
pub fn set_last<S: Alter>(tx: &mut Transaction<'_, S>, last: Moment) -> Result<usize, Error>
    ensures same_reference { tx.new.conn.ghost_name ≡ tx.old.conn.ghost_name }
    ensures edit { IsEditOfSound S.Store tx.old.conn.now tx.new.conn.now result (with_changed table.Meta every (with_last last)) }
    ensures range { OnOk result (last ≤ last_moment) }
{
    check_rowids(tx, Table::Meta, "SELECT rowid FROM meta", &[])?;
    tx.execute("UPDATE meta SET last = ?1", params![seconds(last)])
}

/// Writes the last moment, and the id that the next entry gets. `TooBig` where that is 2^63 or more.
pub fn set_last_and_next<S: Alter>(
    tx: &mut Transaction<'_, S>,
    last: Moment,
    next: u64,
) -> Result<usize, Error>
    ensures same_reference { tx.new.conn.ghost_name ≡ tx.old.conn.ghost_name }
    ensures edit { IsEditOfSound S.Store tx.old.conn.now tx.new.conn.now result (with_changed table.Meta every (with_last_and_next last next)) }
    ensures range { OnOk result (last ≤ last_moment) }
{
    let next = whole(next)?;
    check_rowids(tx, Table::Meta, "SELECT rowid FROM meta", &[])?;
    tx.execute(
        "UPDATE meta SET last = ?1, next = ?2",
        params![seconds(last), next],
    )
}

/// Writes the last moment, and how many moves of buckets were made.
pub fn set_last_and_moves<S: Alter>(
    tx: &mut Transaction<'_, S>,
    last: Moment,
    moves: u32,
) -> Result<usize, Error>
    ensures same_reference { tx.new.conn.ghost_name ≡ tx.old.conn.ghost_name }
    ensures edit { IsEditOfSound S.Store tx.old.conn.now tx.new.conn.now result (with_changed table.Meta every (with_last_and_moves last moves)) }
    ensures range { OnOk result (last ≤ last_moment) }
{
    check_rowids(tx, Table::Meta, "SELECT rowid FROM meta", &[])?;
    tx.execute(
        "UPDATE meta SET last = ?1, moves = ?2",
        params![seconds(last), moves],
    )
}
