//! Records in the order of their names, each put at its one place.
ghost use Rattle.std.specs.Prelude.{◌≡◌, OnOk, OnErr};
ghost use Rattle.std.specs.List.{prefix_len};
ghost use Rattle.std.specs.Ordering.{is_gt};
ghost use Rattle.std.specs.declared.cmp.Ordering.{Ordering};
ghost use Rattle.vault_core_model.specs.Order.{name_cmp, caller_cmp, bucket_cmp, note_cmp, placed};

use std::alloc::AllocError;
use std::cmp::Ordering;
use vault_base::name::DeptName;
use vault_core_model::records::{Bucket, Caller, Note};

/// A record with a name, by which it is ordered.
pub(crate) trait Named {
    ghost name_order: { Self → Self → Ordering };

    /// How its name compares with another's.
    fn compare_names(&self, other: &Self) -> Ordering
        ensures { result ≡ name_order self.now other.now };
}

impl Named for DeptName {
    ghost name_order = { name_cmp };

    fn compare_names(&self, other: &DeptName) -> Ordering {
        self.cmp(other)
    }
}

impl Named for Caller {
    ghost name_order = { caller_cmp };

    fn compare_names(&self, other: &Caller) -> Ordering {
        self.name.cmp(&other.name)
    }
}

impl Named for Bucket {
    ghost name_order = { bucket_cmp };

    fn compare_names(&self, other: &Bucket) -> Ordering {
        self.name.cmp(&other.name)
    }
}

/// A note goes by its bucket, then its batch, then its line.
impl Named for Note {
    ghost name_order = { note_cmp };

    fn compare_names(&self, other: &Note) -> Ordering {
        let batch = self.batch.cmp(&other.batch);
        let line = self.line.cmp(&other.line);
        self.bucket.cmp(&other.bucket).then(batch.then(line))
    }
}

/// How many of the records come before this one.
fn count_before<T: Named>(records: &[T], item: &T) -> usize
    ensures { result ≡ prefix_len (λ other. is_gt (T.name_order item.now other)) records.now }
{
    records
        .iter()
        .take_while(|other| item.compare_names(*other).is_gt())
        .count()
}

/// Puts a record at its place.
pub(crate) fn place<T: Named + Drop>(records: &mut Vec<T>, item: T) -> Result<(), AllocError>
    ensures ok { OnOk result (records.new.items ≡ placed T.name_order item records.old.items) }
    ensures err { OnErr result (records.new.items ≡ records.old.items) }
{
    let index = count_before(records, &item);
    records.insert(index, item)?;
    Ok(())
}
