//! A new department.
use sqlite::{Alter, Error, Transaction};
use vault_base::moment::Moment;
use vault_base::name::DeptName;
use vault_store_edits::departments::put_department;
use vault_store_edits::meta::set_last;
use vault_store_edits::transaction::Part;

/// A department with nothing admitted, added at a moment.
#[derive(Drop)]
pub struct NewDepartment<'a> {
    pub at: Moment,
    pub name: &'a DeptName,
}

impl<S: Alter> Part<S> for NewDepartment<'_> {
    ghost use Rattle.std.specs.Prelude.{◌≤◌};
    ghost use Rattle.vault_base.specs.Days.{last_moment};
    ghost use Rattle.vault_audit_model.specs.Limits.{IsPlainName};
    ghost use Rattle.vault_store_apply.specs.Parts.{department_added};

    ghost edit = { λ part. department_added part.name.now part.at };

    ghost limits = { λ part. (part.at ≤ last_moment) × IsPlainName part.name.now };

    fn make(&self, tx: &mut Transaction<'_, S>) -> Result<(), Error> {
        put_department(tx, self.name)?;
        set_last(tx, self.at)?;
        Ok(())
    }
}
