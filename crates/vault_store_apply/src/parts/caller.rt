//! New and closed callers.
use sqlite::{Alter, Error, Transaction};
use vault_base::moment::Moment;
use vault_base::name::CallerName;
use vault_core_model::records::Caller;
use vault_store_edits::callers::{close_caller, put_caller};
use vault_store_edits::meta::set_last;
use vault_store_edits::transaction::Part;

/// A caller, added at a moment.
#[derive(Drop)]
pub struct NewCaller<'a> {
    pub at: Moment,
    pub caller: &'a Caller,
}

impl<S: Alter> Part<S> for NewCaller<'_> {
    ghost use Rattle.std.specs.Prelude.{◌≤◌};
    ghost use Rattle.vault_base.specs.Days.{last_moment};
    ghost use Rattle.vault_audit_model.specs.Limits.{IsCaller};
    ghost use Rattle.vault_store_apply.specs.Parts.{caller_added};

    ghost edit = { λ part. caller_added part.caller.now part.at };

    ghost limits = { λ part. (part.at ≤ last_moment) × IsCaller part.caller.now };

    fn make(&self, tx: &mut Transaction<'_, S>) -> Result<(), Error> {
        put_caller(tx, self.caller)?;
        set_last(tx, self.at)?;
        Ok(())
    }
}

/// A caller, closed at a moment.
#[derive(Drop)]
pub struct ClosedCaller<'a> {
    pub at: Moment,
    pub name: &'a CallerName,
}

impl<S: Alter> Part<S> for ClosedCaller<'_> {
    ghost use Rattle.std.specs.Prelude.{◌≤◌};
    ghost use Rattle.vault_base.specs.Days.{last_moment};
    ghost use Rattle.vault_store_apply.specs.Parts.{caller_closed};

    ghost edit = { λ part. caller_closed part.name.now part.at };

    ghost limits = { λ part. part.at ≤ last_moment };

    fn make(&self, tx: &mut Transaction<'_, S>) -> Result<(), Error> {
        close_caller(tx, self.name)?;
        set_last(tx, self.at)?;
        Ok(())
    }
}
