//! Statements of one part, each where there is what it writes.
ghost use Rattle.std.specs.Prelude.{◌≡◌, map, Some, IfSome, OnOk};
ghost use Rattle.vault_base.specs.declared.refusal.Table.TheVariants as table;
ghost use Rattle.vault_audit_model.specs.Rows.{content_row, external_row, note_row};
ghost use Rattle.vault_audit_model.specs.Spells.{content_if_given, external_if_given};
ghost use Rattle.vault_store_model.specs.Changes.{with_row_if_given, with_head};
ghost use Rattle.vault_store_model.specs.Edits.{without, made_if, with_each};
ghost use Rattle.vault_store_model.specs.Tests.{is_numbered};
ghost use Rattle.vault_store_apply.specs.EntryParts.{with_left_head, with_first_setting, with_first_tenure, with_sums_as};
ghost use Rattle.vault_store_apply.specs.Typed.{IsFirstTyped};
ghost use Rattle.vault_store_edits.specs.Inside.{MakesPart};
ghost use Rattle.vault_store_edits.specs.Typed.{IsTypedNote};

use sqlite::{Alter, Error, Transaction};
use vault_base::content::Content;
use vault_base::name::{BucketName, DeptName, ObjectKey, VersionId};
use vault_core_model::records::{Head, Note, Setting, Tenure};
use vault_store_edits::contents::put_content;
use vault_store_edits::departments::set_sums;
use vault_store_edits::external::{delete_external, put_external};
use vault_store_edits::heads::{delete_head, put_head, set_head};
use vault_store_edits::intake::put_note;
use vault_store_edits::settings::put_setting;
use vault_store_edits::tenures::put_tenure;
use vault_tally::row::Row as Sums;

/// Puts in the bytes of an entry, if it has any; a content that is kept outside has none.
pub fn put_content_if_given<S: Alter>(
    tx: &mut Transaction<'_, S>,
    id: VersionId,
    content: &Option<Content>,
) -> Result<(), Error>
    ensures same_reference { tx.new.conn.ghost_name ≡ tx.old.conn.ghost_name }
    ensures part { MakesPart S.Store tx.old.conn.now tx.new.conn.now result (with_each table.Contents (map content_row (content_if_given id content.now))) }
{
    let Some(Content::Inside(inside)) = content else {
        return Ok(());
    };
    put_content(tx, id, inside)?;
    Ok(())
}

/// Puts in that the content of an entry is kept outside, if it is.
pub fn put_external_if_given<S: Alter>(
    tx: &mut Transaction<'_, S>,
    id: VersionId,
    content: &Option<Content>,
) -> Result<(), Error>
    ensures same_reference { tx.new.conn.ghost_name ≡ tx.old.conn.ghost_name }
    ensures part { MakesPart S.Store tx.old.conn.now tx.new.conn.now result (with_each table.External (map external_row (external_if_given id content.now))) }
{
    let Some(Content::External(_)) = content else {
        return Ok(());
    };
    put_external(tx, id)?;
    Ok(())
}

/// Deletes that the content of an entry is kept outside, in a vault that registers such contents.
pub fn delete_external_if<S: Alter>(
    tx: &mut Transaction<'_, S>,
    id: VersionId,
    external: bool,
) -> Result<(), Error>
    ensures same_reference { tx.new.conn.ghost_name ≡ tx.old.conn.ghost_name }
    ensures part { MakesPart S.Store tx.old.conn.now tx.new.conn.now result (made_if external (without table.External (is_numbered id))) }
{
    if !external {
        return Ok(());
    }
    delete_external(tx, id)?;
    Ok(())
}

/// Puts in the note of an accepted line, if there is one.
pub fn put_note_if_given<S: Alter>(
    tx: &mut Transaction<'_, S>,
    note: &Option<Note>,
) -> Result<(), Error>
    ensures same_reference { tx.new.conn.ghost_name ≡ tx.old.conn.ghost_name }
    ensures part { MakesPart S.Store tx.old.conn.now tx.new.conn.now result (with_row_if_given table.Intake note_row note.now) }
    ensures typed { OnOk result (IfSome note.now IsTypedNote) }
{
    let Some(note) = note else {
        return Ok(());
    };
    put_note(tx, note)?;
    Ok(())
}

/// Writes the new head of a key, which had the old one or none.
pub fn put_newest<S: Alter>(
    tx: &mut Transaction<'_, S>,
    bucket: &BucketName,
    key: &ObjectKey,
    old: Option<Head>,
    new: &Head,
) -> Result<(), Error>
    ensures same_reference { tx.new.conn.ghost_name ≡ tx.old.conn.ghost_name }
    ensures part { MakesPart S.Store tx.old.conn.now tx.new.conn.now result (with_head bucket.now key.now old (Some new.now)) }
{
    let Some(_) = old else {
        put_head(tx, bucket, key, new)?;
        return Ok(());
    };
    set_head(tx, bucket, key, new)?;
    Ok(())
}

/// Writes the head that is left of a key, or none.
pub fn leave_head<S: Alter>(
    tx: &mut Transaction<'_, S>,
    bucket: &BucketName,
    key: &ObjectKey,
    left: Option<Head>,
) -> Result<(), Error>
    ensures same_reference { tx.new.conn.ghost_name ≡ tx.old.conn.ghost_name }
    ensures part { MakesPart S.Store tx.old.conn.now tx.new.conn.now result (with_left_head bucket.now key.now left) }
{
    let Some(head) = left else {
        delete_head(tx, bucket, key)?;
        return Ok(());
    };
    set_head(tx, bucket, key, &head)?;
    Ok(())
}

/// Puts in the first of these settings of a version, if there is one.
pub fn put_first_setting<S: Alter>(
    tx: &mut Transaction<'_, S>,
    id: VersionId,
    settings: &[Setting],
) -> Result<(), Error>
    ensures same_reference { tx.new.conn.ghost_name ≡ tx.old.conn.ghost_name }
    ensures part { MakesPart S.Store tx.old.conn.now tx.new.conn.now result (with_first_setting id settings.now) }
    ensures typed { OnOk result (IsFirstTyped settings.now) }
{
    let Some(setting) = settings.first() else {
        return Ok(());
    };
    put_setting(tx, id, 1, setting)?;
    Ok(())
}

/// Puts in the first of these tenures of an entry, if there is one; a marker has none.
pub fn put_first_tenure<S: Alter>(
    tx: &mut Transaction<'_, S>,
    id: VersionId,
    tenures: &[Tenure],
) -> Result<(), Error>
    ensures same_reference { tx.new.conn.ghost_name ≡ tx.old.conn.ghost_name }
    ensures part { MakesPart S.Store tx.old.conn.now tx.new.conn.now result (with_first_tenure id tenures.now) }
{
    let Some(tenure) = tenures.first() else {
        return Ok(());
    };
    put_tenure(tx, id, tenure)?;
    Ok(())
}

/// Writes the sums of a department, but for a marker, which counts in none.
pub fn set_sums_of<S: Alter>(
    tx: &mut Transaction<'_, S>,
    marker: bool,
    dept: &DeptName,
    sums: &Sums,
) -> Result<(), Error>
    ensures same_reference { tx.new.conn.ghost_name ≡ tx.old.conn.ghost_name }
    ensures part { MakesPart S.Store tx.old.conn.now tx.new.conn.now result (with_sums_as marker dept.now sums.now) }
{
    if marker {
        return Ok(());
    }
    set_sums(tx, dept, sums)?;
    Ok(())
}
