//! The row of `meta`.
ghost use Rattle.std.specs.Prelude.{◌≡◌, IfOk, OnOk};
ghost use Rattle.sqlite.specs.Held.{state};
ghost use Rattle.sqlite.specs.State.{HasCleanDisk};
ghost use Rattle.vault_core_model.specs.Sound.{Sound};
ghost use Rattle.vault_core_model.specs.Vault.{Vault, next_id};
ghost use Rattle.vault_audit_model.specs.Spells.{meta_of};
ghost use Rattle.vault_store_model.specs.Keeping.{Keeps};
ghost use Rattle.vault_store_reads.specs.Quiet.{OnlyReads, IsOpenIfOk};
ghost use Rattle.vault_store_reads.specs.Wants.{WantsMemoryIfErr};

use crate::query::{query_rows, unread};
use sqlite::{Alter, Connection, Error};
use vault_audit_model::rows::MetaRow;
use vault_audit_rows::misread::Misread;
use vault_audit_rows::records;
use vault_audit_schema::{meta_columns, third_select_text};
use vault_base::moment::Moment;

/// The last moment, the next id and the number of moves.
pub fn read_meta<S: Alter>(conn: &mut Connection<S>) -> Result<MetaRow, Error>
    ensures value { HasCleanDisk (state S.Store conn.new) → IfOk result (λ meta. (v : Vault) → Keeps (state S.Store conn.old) v → meta ≡ meta_of v) }
    ensures sound { HasCleanDisk (state S.Store conn.new) → OnOk result ((v : Vault) → Keeps (state S.Store conn.old) v → Sound v) }
    ensures read { OnlyReads S.Store conn.old conn.new }
    ensures open { IsOpenIfOk S.Store conn.new result }
    ensures memory { WantsMemoryIfErr S.Store conn.old conn.new result }
{
    let rows = query_rows(conn, meta_columns!(third_select_text), &[])?;
    match rows.first() {
        Some(row) => match records::read_meta(row) {
            Ok(meta) => Ok(meta),
            Err(misread) => Err(unread(misread)),
        },
        None => Err(Error::QueryReturnedNoRows),
    }
}

/// The moment of the last change.
pub fn read_last<S: Alter>(conn: &mut Connection<S>) -> Result<Moment, Error>
    ensures value { HasCleanDisk (state S.Store conn.new) → IfOk result (λ at. (v : Vault) → Keeps (state S.Store conn.old) v → at ≡ v.last) }
    // Every vault that is kept is sound.
    ensures sound { HasCleanDisk (state S.Store conn.new) → OnOk result ((v : Vault) → Keeps (state S.Store conn.old) v → Sound v) }
    ensures read { OnlyReads S.Store conn.old conn.new }
    ensures open { IsOpenIfOk S.Store conn.new result }
    ensures memory { WantsMemoryIfErr S.Store conn.old conn.new result }
{
    let meta = read_meta(conn)?;
    Ok(meta.last)
}

/// The id that the next entry gets.
pub fn read_next_id<S: Alter>(conn: &mut Connection<S>) -> Result<u64, Error>
    ensures value { HasCleanDisk (state S.Store conn.new) → IfOk result (λ id. (v : Vault) → Keeps (state S.Store conn.old) v → id ≡ next_id v) }
    ensures read { OnlyReads S.Store conn.old conn.new }
    ensures open { IsOpenIfOk S.Store conn.new result }
    ensures memory { WantsMemoryIfErr S.Store conn.old conn.new result }
{
    let meta = read_meta(conn)?;
    Ok(meta.next)
}

/// How often a bucket was moved to another department.
pub fn read_moves<S: Alter>(conn: &mut Connection<S>) -> Result<u32, Error>
    ensures value { HasCleanDisk (state S.Store conn.new) → IfOk result (λ moves. (v : Vault) → Keeps (state S.Store conn.old) v → moves ≡ v.moves) }
    ensures read { OnlyReads S.Store conn.old conn.new }
    ensures open { IsOpenIfOk S.Store conn.new result }
    ensures memory { WantsMemoryIfErr S.Store conn.old conn.new result }
{
    let meta = read_meta(conn)?;
    match u32::try_from(meta.moves) {
        Ok(moves) => Ok(moves),
        Err(_) => Err(unread(Misread::Wrong)),
    }
}
