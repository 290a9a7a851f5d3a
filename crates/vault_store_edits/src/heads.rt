//! Rows of `heads`.
ghost use Rattle.std.specs.Prelude.{◌≡◌};
ghost use Rattle.vault_base.specs.declared.refusal.Table.TheVariants as table;
ghost use Rattle.vault_audit_model.specs.Rows.{head_row};
ghost use Rattle.vault_store_model.specs.Edits.{with_row, with_changed, without};
ghost use Rattle.vault_store_model.specs.Tests.{is_of_key, with_head_columns};
ghost use Rattle.vault_store_edits.specs.Inside.{IsEdit, IsEditOfSound};

use crate::parameters::whole;
use crate::put::{Put, put_row};
use crate::rowids::check_rowids;
use sqlite::{Alter, Error, Transaction, params};
use vault_audit_schema::{heads_columns, insert_text};
use vault_base::name::{BucketName, ObjectKey};
use vault_base::refusal::Table;
use vault_core_model::records::Head;

/// The head of a key.
#[derive(Clone, Copy)]
struct NewHead<'a> {
    bucket: &'a BucketName,
    key: &'a ObjectKey,
    head: &'a Head,
}

impl<'a> Put for NewHead<'a> {
    ghost use Rattle.std.specs.Prelude.{⊤};
    ghost use Rattle.vault_base.specs.declared.refusal.Table.TheVariants as table;
    ghost use Rattle.vault_audit_model.specs.Rows.{head_row};
    ghost use Rattle.vault_store_edits.specs.HeadLaws.{head_inserts};

    ghost table = { table.Heads };

    ghost as_row = { λ x. head_row (record { bucket = x.bucket.now; key = x.key.now; head = x.head.now }) };

    ghost typed = { λ x r. ⊤ };

    fn insert<S: Alter>(&self, tx: &mut Transaction<'_, S>) -> Result<usize, Error> {
        let count = whole(self.head.count)?;
        tx.execute(
            heads_columns!(insert_text),
            params![
                self.bucket.as_str(),
                self.key.as_str(),
                self.head.newest.number(),
                count,
            ],
        )
    }

    ghost inserts = { λ external there x. head_inserts external (record { bucket = x.bucket.now; key = x.key.now; head = x.head.now }) };
}

/// Puts in the head of a key. `TooBig` where its count is 2^63 or more.
pub fn put_head<S: Alter>(
    tx: &mut Transaction<'_, S>,
    bucket: &BucketName,
    key: &ObjectKey,
    head: &Head,
) -> Result<usize, Error>
    ensures same_reference { tx.new.conn.ghost_name ≡ tx.old.conn.ghost_name }
    ensures edit { IsEdit S.Store tx.old.conn.now tx.new.conn.now result (with_row table.Heads (head_row (record { bucket = bucket.now; key = key.now; head = head.now }))) }
{
    put_row(tx, &NewHead { bucket, key, head })
}

/// Writes this head into the row of its key. `TooBig` where its count is 2^63 or more.
pub fn set_head<S: Alter>(
    tx: &mut Transaction<'_, S>,
    bucket: &BucketName,
    key: &ObjectKey,
    head: &Head,
) -> Result<usize, Error>
    ensures same_reference { tx.new.conn.ghost_name ≡ tx.old.conn.ghost_name }
    ensures edit { IsEditOfSound S.Store tx.old.conn.now tx.new.conn.now result (with_changed table.Heads (is_of_key bucket.now key.now) (with_head_columns head.now)) }
{
    let count = whole(head.count)?;
    check_rowids(
        tx,
        Table::Heads,
        "SELECT rowid FROM heads WHERE bucket = ?1 AND key = ?2",
        params![bucket.as_str(), key.as_str()],
    )?;
    tx.execute(
        "UPDATE heads SET newest = ?3, count = ?4 WHERE bucket = ?1 AND key = ?2",
        params![bucket.as_str(), key.as_str(), head.newest.number(), count],
    )
}

/// Deletes the head of a key.
pub fn delete_head<S: Alter>(
    tx: &mut Transaction<'_, S>,
    bucket: &BucketName,
    key: &ObjectKey,
) -> Result<usize, Error>
    ensures same_reference { tx.new.conn.ghost_name ≡ tx.old.conn.ghost_name }
    ensures edit { IsEdit S.Store tx.old.conn.now tx.new.conn.now result (without table.Heads (is_of_key bucket.now key.now)) }
{
    check_rowids(
        tx,
        Table::Heads,
        "SELECT rowid FROM heads WHERE bucket = ?1 AND key = ?2",
        params![bucket.as_str(), key.as_str()],
    )?;
    tx.execute(
        "DELETE FROM heads WHERE bucket = ?1 AND key = ?2",
        params![bucket.as_str(), key.as_str()],
    )
}
