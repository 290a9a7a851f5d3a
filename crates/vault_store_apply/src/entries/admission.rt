//! An entry that is admitted.
ghost use Rattle.std.specs.Prelude.{◌≡◌, false, IfOk, OnOk};
ghost use Rattle.sqlite.specs.Held.{state};
ghost use Rattle.sqlite.specs.State.{HasCleanDisk};
ghost use Rattle.vault_core_model.specs.declared.change.Change.TheVariants as change;
ghost use Rattle.vault_store_model.specs.Changes.{head_with};
ghost use Rattle.vault_store_apply.specs.Applies.{Changes, MayLeaveChanged};
ghost use Rattle.vault_store_apply.specs.Known.{IsKnownOf};
ghost use Rattle.vault_store_reads.specs.Quiet.{IsOpenIfOk};
ghost use Rattle.vault_store_edits.specs.Commits.{KeepsIfErr};

use crate::commit::commit_part;
use crate::entries::context::read_context;
use crate::parts::entry::NewEntry;
use sqlite::{Alter, Connection, Error, ErrorCode};
use vault_base::moment::Moment;
use vault_base::name::VersionId;
use vault_core_model::change::Admission;
use vault_core_model::records::Head;
use vault_store_model::known::{Known, with_version};
use vault_tally::row::Row;

/// The head of a key with one entry more. `TooBig` beyond 64 bits.
fn next_head(id: VersionId, head: Option<Head>) -> Result<Head, Error>
    ensures { IfOk result (λ next. next ≡ head_with id head) }
{
    let Some(head) = head else {
        return Ok(Head {
            newest: id,
            count: 1,
        });
    };
    if head.count == u64::MAX {
        return Err(Error::SqliteFailure(ErrorCode::TooBig));
    }
    Ok(Head {
        newest: id,
        count: head.count + 1,
    })
}

/// Admits an entry, with its note if it came by an intake list.
pub fn admit<S: Alter>(
    conn: &mut Connection<S>,
    known: &Known,
    at: Moment,
    admission: &Admission,
) -> Result<(), Error>
    requires mode { conn.old.in_transaction ≡ false }
    requires known { IsKnownOf S.Store conn.old known.now }
    ensures mode { conn.new.in_transaction ≡ false }
    ensures open { IsOpenIfOk S.Store conn.new result }
    ensures done { HasCleanDisk (state S.Store conn.new) → OnOk result (Changes (state S.Store conn.old) (state S.Store conn.new) at (change.Admit admission.now)) }
    ensures nothing { KeepsIfErr S.Store conn.old conn.new result }
    ensures honest { HasCleanDisk (state S.Store conn.new) → HasCleanDisk (state S.Store conn.old) }
    ensures crash { MayLeaveChanged S.Store conn.old conn.new at (change.Admit admission.now) }
{
    let entry = &admission.history.entry;
    let place = read_context(conn, known, &entry.bucket, &entry.key)?;
    let newest = next_head(entry.id, place.head)?;
    let sums = with_version(place.sums, entry.size, at);
    let next = u64::from(entry.id.number()) + 1;
    let part = NewEntry {
        at,
        admission,
        head: place.head,
        newest,
        dept: &place.config.dept,
        sums,
        next,
    };
    let admitted = commit_part(conn, at, &part);
    drop(place);
    admitted
}
