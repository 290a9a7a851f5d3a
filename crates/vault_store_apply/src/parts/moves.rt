//! A bucket that moves to another department.
ghost use Rattle.std.specs.Prelude.{◌≡◌};
ghost use Rattle.vault_audit_model.specs.Limits.{IsPlainName};
ghost use Rattle.vault_store_apply.specs.Parts.{bucket_given, both_summed};
ghost use Rattle.vault_store_edits.specs.Inside.{MakesPart};

use sqlite::{Alter, Error, Transaction};
use vault_base::moment::Moment;
use vault_base::name::{BucketName, DeptName};
use vault_store_edits::buckets::set_owner;
use vault_store_edits::departments::set_sums;
use vault_store_edits::meta::set_last_and_moves;
use vault_store_edits::tenures::put_tenures;
use vault_store_edits::transaction::Part;
use vault_tally::row::Row as Sums;

/// Gives the held versions of a bucket a tenure of a department, by the move of that number, and the
/// bucket that department.
fn give_bucket<S: Alter>(
    tx: &mut Transaction<'_, S>,
    name: &BucketName,
    number: u32,
    dept: &DeptName,
    at: Moment,
) -> Result<(), Error>
    ensures same_reference { tx.new.conn.ghost_name ≡ tx.old.conn.ghost_name }
    ensures part { MakesPart S.Store tx.old.conn.now tx.new.conn.now result (bucket_given name.now number dept.now at) }
    ensures limits { IsPlainName dept.now }
{
    put_tenures(tx, name, number, dept, at)?;
    set_owner(tx, name, dept)?;
    Ok(())
}

/// Writes the sums of the department that had the bucket, and of the one that gets it.
fn set_both_sums<S: Alter>(
    tx: &mut Transaction<'_, S>,
    owner: &DeptName,
    handed: &Sums,
    dept: &DeptName,
    received: &Sums,
) -> Result<(), Error>
    ensures same_reference { tx.new.conn.ghost_name ≡ tx.old.conn.ghost_name }
    ensures part { MakesPart S.Store tx.old.conn.now tx.new.conn.now result (both_summed owner.now handed.now dept.now received.now) }
{
    set_sums(tx, owner, handed)?;
    set_sums(tx, dept, received)?;
    Ok(())
}

/// A bucket's move to another department at a moment, by what was read of the vault before.
#[derive(Drop)]
pub struct MovedBucket<'a> {
    pub at: Moment,
    pub name: &'a BucketName,
    /// The number of the move, counted from 1 over the vault.
    pub number: u32,
    /// The department that had the bucket, and the sums that it gets.
    pub owner: &'a DeptName,
    pub handed: Sums,
    /// The department that gets the bucket, and the sums that it gets.
    pub dept: &'a DeptName,
    pub received: Sums,
}

impl<S: Alter> Part<S> for MovedBucket<'_> {
    ghost use Rattle.std.specs.Prelude.{◌≤◌};
    ghost use Rattle.vault_base.specs.Days.{last_moment};
    ghost use Rattle.vault_audit_model.specs.Limits.{IsPlainName};
    ghost use Rattle.vault_store_apply.specs.Parts.{bucket_moved};

    ghost edit = { λ part. bucket_moved part.name.now part.number part.dept.now part.at part.owner.now part.handed part.received };

    ghost limits = { λ part. (part.at ≤ last_moment) × IsPlainName part.dept.now };

    fn make(&self, tx: &mut Transaction<'_, S>) -> Result<(), Error> {
        give_bucket(tx, self.name, self.number, self.dept, self.at)?;
        set_both_sums(tx, self.owner, &self.handed, self.dept, &self.received)?;
        set_last_and_moves(tx, self.at, self.number)?;
        Ok(())
    }
}
