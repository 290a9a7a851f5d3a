//! Rows of `tenures`.
ghost use Rattle.std.specs.Prelude.{◌≡◌};
ghost use Rattle.vault_base.specs.declared.refusal.Table.TheVariants as table;
ghost use Rattle.vault_audit_model.specs.Limits.{IsPlainName};
ghost use Rattle.vault_audit_model.specs.Rows.{tenure_row};
ghost use Rattle.vault_store_model.specs.Copies.{with_tenures};
ghost use Rattle.vault_store_model.specs.Edits.{with_row};
ghost use Rattle.vault_store_edits.specs.Inside.{IsEdit};

use crate::parameters::seconds;
use crate::put::{Put, put_row};
use sqlite::{Alter, Error, Transaction, params};
use vault_audit_schema::{insert_text, tenures_columns};
use vault_base::moment::Moment;
use vault_base::name::{BucketName, DeptName, VersionId};
use vault_core_model::records::Tenure;

/// A tenure of a version.
#[derive(Clone, Copy)]
struct NewTenure<'a> {
    id: VersionId,
    tenure: &'a Tenure,
}

impl<'a> Put for NewTenure<'a> {
    ghost use Rattle.std.specs.Prelude.{⊤};
    ghost use Rattle.vault_base.specs.declared.refusal.Table.TheVariants as table;
    ghost use Rattle.vault_audit_model.specs.Rows.{tenure_row};
    ghost use Rattle.vault_store_edits.specs.TenureLaws.{tenure_inserts};

    ghost table = { table.Tenures };

    ghost as_row = { λ x. tenure_row (record { id = x.id; tenure = x.tenure.now }) };

    ghost typed = { λ x r. ⊤ };

    fn insert<S: Alter>(&self, tx: &mut Transaction<'_, S>) -> Result<usize, Error> {
        tx.execute(
            tenures_columns!(insert_text),
            params![
                self.id.number(),
                self.tenure.number,
                self.tenure.dept.as_str(),
                seconds(self.tenure.from),
            ],
        )
    }

    ghost inserts = { λ external there x. tenure_inserts external (record { id = x.id; tenure = x.tenure.now }) };
}

/// Puts in a tenure of a version.
pub fn put_tenure<S: Alter>(
    tx: &mut Transaction<'_, S>,
    id: VersionId,
    tenure: &Tenure,
) -> Result<usize, Error>
    ensures same_reference { tx.new.conn.ghost_name ≡ tx.old.conn.ghost_name }
    ensures edit { IsEdit S.Store tx.old.conn.now tx.new.conn.now result (with_row table.Tenures (tenure_row (record { id = id; tenure = tenure.now }))) }
{
    put_row(tx, &NewTenure { id, tenure })
}

/// Gives each held version of a bucket one tenure more: of that department, from that moment, by the move
/// of that number.
pub fn put_tenures<S: Alter>(
    tx: &mut Transaction<'_, S>,
    bucket: &BucketName,
    number: u32,
    dept: &DeptName,
    at: Moment,
) -> Result<usize, Error>
    ensures same_reference { tx.new.conn.ghost_name ≡ tx.old.conn.ghost_name }
    ensures edit { IsEdit S.Store tx.old.conn.now tx.new.conn.now result (with_tenures bucket.now number dept.now at) }
    ensures limits { IsPlainName dept.now }
{
    tx.execute(
        tenures_columns!(
            insert_text,
            " SELECT id, ?2, ?3, ?4 FROM entries WHERE bucket = ?1 AND marker = 0 AND removed IS NULL"
        ),
        params![bucket.as_str(), number, dept.as_str(), seconds(at)],
    )
}
