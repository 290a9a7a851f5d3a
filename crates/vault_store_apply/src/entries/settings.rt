//! One setting more of a version.
ghost use Rattle.std.specs.Prelude.{◌≡◌, ◌+◌, false, IfOk, OnOk};
ghost use Rattle.sqlite.specs.Held.{state};
ghost use Rattle.sqlite.specs.State.{HasCleanDisk};
ghost use Rattle.vault_core_model.specs.declared.change.Change.TheVariants as change;
ghost use Rattle.vault_core_model.specs.Reads.{count_of_settings};
ghost use Rattle.vault_store_apply.specs.Applies.{Changes, MayLeaveChanged};
ghost use Rattle.vault_store_reads.specs.Quiet.{IsOpenIfOk};
ghost use Rattle.vault_store_edits.specs.Commits.{KeepsIfErr};

use crate::commit::commit_part;
use crate::parts::setting::NewSetting;
use sqlite::{Alter, Connection, Error, ErrorCode};
use vault_base::moment::Moment;
use vault_base::name::VersionId;
use vault_core_model::records::{LastSetting, Setting};
use vault_store_reads::rows_in_order::reads::read_setting;

/// The place after the last setting, counted from 1. `TooBig` beyond 32 bits.
fn next_place(last: Option<LastSetting>) -> Result<u32, Error>
    ensures { IfOk result (λ place. place ≡ count_of_settings last + 1) }
{
    let count = match last {
        Some(last) => last.count,
        None => 0,
    };
    if count >= 4_294_967_295 {
        return Err(Error::SqliteFailure(ErrorCode::TooBig));
    }
    Ok((count + 1) as u32)
}

/// Gives a version one setting more. `TooBig` where it has 2^32 - 1 of them.
pub fn add_setting<S: Alter>(
    conn: &mut Connection<S>,
    at: Moment,
    id: VersionId,
    setting: &Setting,
) -> Result<(), Error>
    requires { conn.old.in_transaction ≡ false }
    ensures mode { conn.new.in_transaction ≡ false }
    ensures open { IsOpenIfOk S.Store conn.new result }
    ensures done { HasCleanDisk (state S.Store conn.new) → OnOk result (Changes (state S.Store conn.old) (state S.Store conn.new) at (change.AddSetting id setting.now)) }
    ensures nothing { KeepsIfErr S.Store conn.old conn.new result }
    ensures honest { HasCleanDisk (state S.Store conn.new) → HasCleanDisk (state S.Store conn.old) }
    ensures crash { MayLeaveChanged S.Store conn.old conn.new at (change.AddSetting id setting.now) }
{
    let last = read_setting(conn, id)?;
    let place = next_place(last)?;
    commit_part(
        conn,
        at,
        &NewSetting {
            at,
            id,
            place,
            setting,
        },
    )
}
