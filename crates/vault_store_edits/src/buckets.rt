//! Rows of `buckets`.
ghost use Rattle.std.specs.Prelude.{◌≡◌, None};
ghost use Rattle.vault_base.specs.declared.refusal.Table.TheVariants as table;
ghost use Rattle.vault_audit_model.specs.Limits.{IsBucketName, IsPlainName};
ghost use Rattle.vault_audit_model.specs.Rows.{bucket_row};
ghost use Rattle.vault_store_model.specs.Edits.{with_row, with_changed};
ghost use Rattle.vault_store_model.specs.Tests.{is_named, with_default_columns, with_owner};
ghost use Rattle.vault_store_edits.specs.Inside.{IsEdit, IsEditOfSound};

use crate::parameters::{default_days, default_mode, default_years};
use crate::put::{Put, put_row};
use crate::rowids::check_rowids;
use sqlite::{Alter, Error, Transaction, params};
use vault_audit_schema::{buckets_columns, insert_text};
use vault_base::name::{BucketName, DeptName};
use vault_base::refusal::Table;
use vault_lock::retention::Default;

/// A bucket with no default retention.
#[derive(Clone, Copy)]
struct NewBucket<'a> {
    name: &'a BucketName,
    dept: &'a DeptName,
}

impl<'a> Put for NewBucket<'a> {
    ghost use Rattle.vault_base.specs.declared.refusal.Table.TheVariants as table;
    ghost use Rattle.vault_audit_model.specs.Rows.{bucket_row};
    ghost use Rattle.vault_store_edits.specs.BucketLaws.{bucket_inserts};
    ghost use Rattle.vault_audit_model.specs.Limits.{IsBucketName, IsPlainName};
    ghost use Rattle.vault_store_edits.specs.NewRows.{new_bucket};

    ghost table = { table.Buckets };

    ghost as_row = { λ x. bucket_row (new_bucket x.name.now x.dept.now) };

    ghost typed = { λ x r. IsBucketName x.name.now × IsPlainName x.dept.now };

    fn insert<S: Alter>(&self, tx: &mut Transaction<'_, S>) -> Result<usize, Error> {
        tx.execute(
            buckets_columns!(insert_text),
            params![
                self.name.as_str(),
                self.dept.as_str(),
                default_mode(None),
                default_days(None),
                default_years(None),
            ],
        )
    }

    ghost inserts = { λ external there x. bucket_inserts external (new_bucket x.name.now x.dept.now) };
}

/// Puts in a bucket of a department, with no default retention.
pub fn put_bucket<S: Alter>(
    tx: &mut Transaction<'_, S>,
    name: &BucketName,
    dept: &DeptName,
) -> Result<usize, Error>
    ensures same_reference { tx.new.conn.ghost_name ≡ tx.old.conn.ghost_name }
    ensures edit { IsEdit S.Store tx.old.conn.now tx.new.conn.now result (with_row table.Buckets (bucket_row (record { name = name.now; config = record { dept = dept.now; default = None } }))) }
    ensures limits { IsBucketName name.now × IsPlainName dept.now }
{
    put_row(tx, &NewBucket { name, dept })
}

/// Writes this default retention, or none, into the row of the bucket.
pub fn set_default<S: Alter>(
    tx: &mut Transaction<'_, S>,
    name: &BucketName,
    default: Option<Default>,
) -> Result<usize, Error>
    ensures same_reference { tx.new.conn.ghost_name ≡ tx.old.conn.ghost_name }
    ensures edit { IsEditOfSound S.Store tx.old.conn.now tx.new.conn.now result (with_changed table.Buckets (is_named name.now) (with_default_columns default)) }
{
    check_rowids(
        tx,
        Table::Buckets,
        "SELECT rowid FROM buckets WHERE name = ?1",
        params![name.as_str()],
    )?;
    tx.execute(
        "UPDATE buckets SET mode = ?2, days = ?3, years = ?4 WHERE name = ?1",
        params![
            name.as_str(),
            default_mode(default),
            default_days(default),
            default_years(default),
        ],
    )
}

/// Writes this department into the row of the bucket.
pub fn set_owner<S: Alter>(
    tx: &mut Transaction<'_, S>,
    name: &BucketName,
    dept: &DeptName,
) -> Result<usize, Error>
    ensures same_reference { tx.new.conn.ghost_name ≡ tx.old.conn.ghost_name }
    ensures edit { IsEditOfSound S.Store tx.old.conn.now tx.new.conn.now result (with_changed table.Buckets (is_named name.now) (with_owner dept.now)) }
{
    check_rowids(
        tx,
        Table::Buckets,
        "SELECT rowid FROM buckets WHERE name = ?1",
        params![name.as_str()],
    )?;
    tx.execute(
        "UPDATE buckets SET dept = ?2 WHERE name = ?1",
        params![name.as_str(), dept.as_str()],
    )
}
