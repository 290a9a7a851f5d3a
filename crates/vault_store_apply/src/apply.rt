//! A change of any kind.
ghost use Rattle.std.specs.Prelude.{◌≡◌, ◌≤◌, false, OnOk};
ghost use Rattle.sqlite.specs.Held.{state};
ghost use Rattle.sqlite.specs.State.{HasCleanDisk};
ghost use Rattle.vault_core_model.specs.Allowed.{Allows};
ghost use Rattle.vault_core_model.specs.Change.{changed};
ghost use Rattle.vault_core_model.specs.Vault.{Vault};
ghost use Rattle.vault_store_model.specs.Keeping.{Keeps};
ghost use Rattle.vault_store_apply.specs.Applies.{Changes, MayLeaveChanged};
ghost use Rattle.vault_store_apply.specs.Known.{IsKnownOf};
ghost use Rattle.vault_store_apply.specs.Left.{MayLeave};
ghost use Rattle.vault_store_reads.specs.Quiet.{IsOpenIfOk};
ghost use Rattle.vault_store_edits.specs.Commits.{KeepsIfErr};

use crate::entries::admission::admit;
use crate::entries::moves::move_bucket;
use crate::entries::removal::remove;
use crate::entries::settings::add_setting;
use crate::records::{
    add_bucket, add_caller, add_department, close_caller, set_default, set_rules,
};
use sqlite::{Alter, Connection, Error};
use vault_base::moment::Moment;
use vault_core_model::change::Change;
use vault_store_model::known::Known;

/// Makes a change.
fn make<S: Alter>(
    conn: &mut Connection<S>,
    known: &Known,
    at: Moment,
    change: &Change,
) -> Result<(), Error>
    requires mode { conn.old.in_transaction ≡ false }
    requires known { IsKnownOf S.Store conn.old known.now }
    ensures mode { conn.new.in_transaction ≡ false }
    ensures open { IsOpenIfOk S.Store conn.new result }
    ensures done { HasCleanDisk (state S.Store conn.new) → OnOk result (Changes (state S.Store conn.old) (state S.Store conn.new) at change.now) }
    ensures nothing { KeepsIfErr S.Store conn.old conn.new result }
    ensures honest { HasCleanDisk (state S.Store conn.new) → HasCleanDisk (state S.Store conn.old) }
    ensures crash { MayLeaveChanged S.Store conn.old conn.new at change.now }
{
    match change {
        Change::AddDept(name) => add_department(conn, at, name),
        Change::AddCaller(caller) => add_caller(conn, at, caller),
        Change::CloseCaller(name) => close_caller(conn, at, name),
        Change::AddBucket(name, dept) => add_bucket(conn, at, name, dept),
        Change::MoveBucket(name, dept) => move_bucket(conn, known, at, name, dept),
        Change::SetDefault(name, default) => set_default(conn, at, name, *default),
        Change::SetRules(name, rules) => set_rules(conn, at, name, rules),
        Change::Admit(admission) => admit(conn, known, at, admission),
        Change::AddSetting(id, setting) => add_setting(conn, at, *id, setting),
        Change::Remove(id, removal) => remove(conn, known, at, *id, removal),
    }
}

/// Makes a change at a moment, which becomes the last one; or changes nothing. What is known isn't asked.
///
/// `TooBig` where a number is 2^63 or more, which no column takes, or where a count goes beyond its bits.
/// Out of memory is `OutOfMemory`.
pub fn apply_change<S: Alter>(
    conn: &mut Connection<S>,
    known: &Known,
    at: Moment,
    change: &Change,
) -> Result<(), Error>
    requires mode { conn.old.in_transaction ≡ false }
    requires known { IsKnownOf S.Store conn.old known.now }
    ensures mode { conn.new.in_transaction ≡ false }
    ensures open { IsOpenIfOk S.Store conn.new result }
    // The change is made, and a crash leaves the changed vault alone.
    ensures done { HasCleanDisk (state S.Store conn.new) → OnOk result (Changes (state S.Store conn.old) (state S.Store conn.new) at change.now) }
    ensures nothing { KeepsIfErr S.Store conn.old conn.new result }
    ensures honest { HasCleanDisk (state S.Store conn.new) → HasCleanDisk (state S.Store conn.old) }
    // What a crash may leave, at any moment of the call: what it could leave before, or the changed vault.
    ensures crash { (v : Vault) → Keeps (state S.Store conn.old) v → v.last ≤ at → Allows v at change.now → MayLeave S.Store conn.old conn.new (changed v at change.now) }
{
    make(conn, known, at, change)
}
