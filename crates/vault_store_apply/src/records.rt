//! Changes of records and of configurations.
//!
//! Each is made in a transaction of its own: where it fails, nothing is changed. That what it brings is in
//! its limits follows from its types and from what the vault allows.
ghost use Rattle.std.specs.Prelude.{◌≡◌, ℕ, List, false, IfSome, OnOk};
ghost use Rattle.sqlite.specs.Held.{state};
ghost use Rattle.sqlite.specs.State.{HasCleanDisk, Survives};
ghost use Rattle.vault_core_model.specs.declared.change.Change.TheVariants as change;
ghost use Rattle.vault_audit_model.specs.Spells.{rules_from, rules_if_given};
ghost use Rattle.vault_store_apply.specs.Applies.{Changes, AreChanged};
ghost use Rattle.vault_store_reads.specs.Quiet.{IsOpenIfOk};
ghost use Rattle.vault_store_edits.specs.Commits.{KeepsIfErr};

use crate::commit::commit_part;
use crate::parts::bucket::{NewBucket, NewDefault, NewRules};
use crate::parts::caller::{ClosedCaller, NewCaller};
use crate::parts::department::NewDepartment;
use sqlite::{Alter, Connection, Error};
use vault_base::moment::Moment;
use vault_base::name::{BucketName, CallerName, DeptName};
use vault_core_model::records::Caller;
use vault_lock::retention::Default;
use vault_rules::rule::Rule;
use vault_rules::rule_set::RuleSet;

/// Adds a department.
pub fn add_department<S: Alter>(
    conn: &mut Connection<S>,
    at: Moment,
    name: &DeptName,
) -> Result<(), Error>
    requires { conn.old.in_transaction ≡ false }
    ensures mode { conn.new.in_transaction ≡ false }
    ensures open { IsOpenIfOk S.Store conn.new result }
    ensures done { HasCleanDisk (state S.Store conn.new) → OnOk result (Changes (state S.Store conn.old) (state S.Store conn.new) at (change.AddDept name.now)) }
    ensures nothing { KeepsIfErr S.Store conn.old conn.new result }
    ensures crash { Survives (state S.Store conn.old) (state S.Store conn.new) (AreChanged (state S.Store conn.old) at (change.AddDept name.now)) }
{
    commit_part(conn, at, &NewDepartment { at, name })
}

/// Adds a caller.
pub fn add_caller<S: Alter>(
    conn: &mut Connection<S>,
    at: Moment,
    caller: &Caller,
) -> Result<(), Error>
    requires { conn.old.in_transaction ≡ false }
    ensures mode { conn.new.in_transaction ≡ false }
    ensures open { IsOpenIfOk S.Store conn.new result }
    ensures done { HasCleanDisk (state S.Store conn.new) → OnOk result (Changes (state S.Store conn.old) (state S.Store conn.new) at (change.AddCaller caller.now)) }
    ensures nothing { KeepsIfErr S.Store conn.old conn.new result }
    ensures crash { Survives (state S.Store conn.old) (state S.Store conn.new) (AreChanged (state S.Store conn.old) at (change.AddCaller caller.now)) }
{
    commit_part(conn, at, &NewCaller { at, caller })
}

/// Closes a caller.
pub fn close_caller<S: Alter>(
    conn: &mut Connection<S>,
    at: Moment,
    name: &CallerName,
) -> Result<(), Error>
    requires { conn.old.in_transaction ≡ false }
    ensures mode { conn.new.in_transaction ≡ false }
    ensures open { IsOpenIfOk S.Store conn.new result }
    ensures done { HasCleanDisk (state S.Store conn.new) → OnOk result (Changes (state S.Store conn.old) (state S.Store conn.new) at (change.CloseCaller name.now)) }
    ensures nothing { KeepsIfErr S.Store conn.old conn.new result }
    ensures crash { Survives (state S.Store conn.old) (state S.Store conn.new) (AreChanged (state S.Store conn.old) at (change.CloseCaller name.now)) }
{
    commit_part(conn, at, &ClosedCaller { at, name })
}

/// Adds a bucket of a department.
pub fn add_bucket<S: Alter>(
    conn: &mut Connection<S>,
    at: Moment,
    name: &BucketName,
    dept: &DeptName,
) -> Result<(), Error>
    requires { conn.old.in_transaction ≡ false }
    ensures mode { conn.new.in_transaction ≡ false }
    ensures open { IsOpenIfOk S.Store conn.new result }
    ensures done { HasCleanDisk (state S.Store conn.new) → OnOk result (Changes (state S.Store conn.old) (state S.Store conn.new) at (change.AddBucket name.now dept.now)) }
    ensures nothing { KeepsIfErr S.Store conn.old conn.new result }
    ensures crash { Survives (state S.Store conn.old) (state S.Store conn.new) (AreChanged (state S.Store conn.old) at (change.AddBucket name.now dept.now)) }
{
    commit_part(conn, at, &NewBucket { at, name, dept })
}

/// Sets the default retention of a bucket, or none.
pub fn set_default<S: Alter>(
    conn: &mut Connection<S>,
    at: Moment,
    name: &BucketName,
    default: Option<Default>,
) -> Result<(), Error>
    requires { conn.old.in_transaction ≡ false }
    ensures mode { conn.new.in_transaction ≡ false }
    ensures open { IsOpenIfOk S.Store conn.new result }
    ensures done { HasCleanDisk (state S.Store conn.new) → OnOk result (Changes (state S.Store conn.old) (state S.Store conn.new) at (change.SetDefault name.now default)) }
    ensures nothing { KeepsIfErr S.Store conn.old conn.new result }
    ensures crash { Survives (state S.Store conn.old) (state S.Store conn.new) (AreChanged (state S.Store conn.old) at (change.SetDefault name.now default)) }
{
    commit_part(conn, at, &NewDefault { at, name, default })
}

/// Sets the rules of a bucket in place of all that it had, or none.
pub fn set_rules<S: Alter>(
    conn: &mut Connection<S>,
    at: Moment,
    name: &BucketName,
    rules: &Option<RuleSet>,
) -> Result<(), Error>
    requires { conn.old.in_transaction ≡ false }
    ensures mode { conn.new.in_transaction ≡ false }
    ensures open { IsOpenIfOk S.Store conn.new result }
    ensures done { HasCleanDisk (state S.Store conn.new) → OnOk result (Changes (state S.Store conn.old) (state S.Store conn.new) at (change.SetRules name.now rules.now)) }
    ensures nothing { KeepsIfErr S.Store conn.old conn.new result }
    ensures crash { Survives (state S.Store conn.old) (state S.Store conn.new) (AreChanged (state S.Store conn.old) at (change.SetRules name.now rules.now)) }
{
    let rules = rules_given(rules);
    commit_part(conn, at, &NewRules { at, name, rules })
}

/// The rules of a set; none where there is no set.
fn rules_given(rules: &Option<RuleSet>) -> &[Rule]
    ensures rows { (name : List ℕ) → rules_from name 1 result.now ≡ rules_if_given name rules.now }
    ensures same { IfSome rules.now (λ rs. result.now ≡ rs) }
{
    match rules {
        Some(rules) => rules.as_slice(),
        None => &[],
    }
}
