//! A transaction that makes a change.
ghost use Rattle.std.specs.Prelude.{◌≡◌, false, OnOk};
ghost use Rattle.sqlite.specs.Held.{state};
ghost use Rattle.sqlite.specs.State.{HasCleanDisk, Survives};
ghost use Rattle.vault_store_apply.specs.Applies.{ChangesBy, AreChangedBy};
ghost use Rattle.vault_store_reads.specs.Quiet.{IsOpenIfOk};
ghost use Rattle.vault_store_edits.specs.Commits.{KeepsIfErr};

use sqlite::{Alter, Connection, Error};
use vault_base::moment::Moment;
use vault_store_edits::transaction::{Part, transact};

/// Makes each change at a moment whose edit of the tables the part makes, if what it brings is in its
/// limits; where that fails, nothing. Where it is made, what the part writes is as its types say.
pub fn commit_part<S: Alter, P: Part<S>>(
    conn: &mut Connection<S>,
    at: Moment,
    part: &P,
) -> Result<(), Error>
    requires { conn.old.in_transaction ≡ false }
    ensures mode { conn.new.in_transaction ≡ false }
    ensures open { IsOpenIfOk S.Store conn.new result }
    ensures done { HasCleanDisk (state S.Store conn.new) → OnOk result (P.limits part.now × ChangesBy (state S.Store conn.old) (state S.Store conn.new) at (P.edit part.now)) }
    ensures nothing { KeepsIfErr S.Store conn.old conn.new result }
    ensures crash { Survives (state S.Store conn.old) (state S.Store conn.new) (λ trees. P.limits part.now × AreChangedBy (state S.Store conn.old) at (P.edit part.now) trees) }
{
    transact(conn, part)
}
