//! New buckets, and their configuration.
use sqlite::{Alter, Error, Transaction};
use vault_base::moment::Moment;
use vault_base::name::{BucketName, DeptName};
use vault_lock::retention::Default;
use vault_rules::rule::Rule;
use vault_store_edits::buckets::{put_bucket, set_default};
use vault_store_edits::meta::set_last;
use vault_store_edits::rules::{delete_rules, put_rules};
use vault_store_edits::transaction::Part;

/// A bucket of a department, added at a moment.
#[derive(Drop)]
pub struct NewBucket<'a> {
    pub at: Moment,
    pub name: &'a BucketName,
    pub dept: &'a DeptName,
}

impl<S: Alter> Part<S> for NewBucket<'_> {
    ghost use Rattle.std.specs.Prelude.{◌≤◌};
    ghost use Rattle.vault_base.specs.Days.{last_moment};
    ghost use Rattle.vault_audit_model.specs.Limits.{IsBucketName, IsPlainName};
    ghost use Rattle.vault_store_apply.specs.Parts.{bucket_added};

    ghost edit = { λ part. bucket_added part.name.now part.dept.now part.at };

    ghost limits = { λ part. (part.at ≤ last_moment) × IsBucketName part.name.now × IsPlainName part.dept.now };

    fn make(&self, tx: &mut Transaction<'_, S>) -> Result<(), Error> {
        put_bucket(tx, self.name, self.dept)?;
        set_last(tx, self.at)?;
        Ok(())
    }
}

/// The default retention of a bucket, or none, from a moment on.
#[derive(Drop)]
pub struct NewDefault<'a> {
    pub at: Moment,
    pub name: &'a BucketName,
    pub default: Option<Default>,
}

impl<S: Alter> Part<S> for NewDefault<'_> {
    ghost use Rattle.std.specs.Prelude.{◌≤◌};
    ghost use Rattle.vault_base.specs.Days.{last_moment};
    ghost use Rattle.vault_store_apply.specs.Parts.{default_set};

    ghost edit = { λ part. default_set part.name.now part.default part.at };

    ghost limits = { λ part. part.at ≤ last_moment };

    fn make(&self, tx: &mut Transaction<'_, S>) -> Result<(), Error> {
        set_default(tx, self.name, self.default)?;
        set_last(tx, self.at)?;
        Ok(())
    }
}

/// The rules of a bucket in place of all that it had, from a moment on.
#[derive(Drop)]
pub struct NewRules<'a> {
    pub at: Moment,
    pub name: &'a BucketName,
    pub rules: &'a [Rule],
}

impl<S: Alter> Part<S> for NewRules<'_> {
    ghost use Rattle.std.specs.Prelude.{◌≤◌};
    ghost use Rattle.std.specs.List.{AllByRecursion};
    ghost use Rattle.vault_base.specs.Days.{last_moment};
    ghost use Rattle.vault_store_edits.specs.Typed.{IsTypedRule};
    ghost use Rattle.vault_store_apply.specs.Parts.{rules_set};

    ghost edit = { λ part. rules_set part.name.now part.rules.now part.at };

    ghost limits = { λ part. (part.at ≤ last_moment) × AllByRecursion IsTypedRule part.rules.now };

    fn make(&self, tx: &mut Transaction<'_, S>) -> Result<(), Error> {
        delete_rules(tx, self.name)?;
        put_rules(tx, self.name, self.rules)?;
        set_last(tx, self.at)?;
        Ok(())
    }
}
