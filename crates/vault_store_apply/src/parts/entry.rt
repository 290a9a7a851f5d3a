//! An entry that is added, and one that is removed.
ghost use Rattle.std.specs.Prelude.{◌≡◌, IfSome, OnOk};
ghost use Rattle.vault_audit_model.specs.Limits.{IsCause};
ghost use Rattle.vault_store_apply.specs.EntryParts.{history_put, noted_and_summed, content_dropped};
ghost use Rattle.vault_store_apply.specs.Typed.{IsFirstTyped};
ghost use Rattle.vault_store_edits.specs.Inside.{MakesPart};
ghost use Rattle.vault_store_edits.specs.Typed.{IsTypedEntry, IsTypedNote};

use crate::parts::given::{
    delete_external_if, leave_head, put_content_if_given, put_external_if_given, put_first_setting,
    put_first_tenure, put_newest, put_note_if_given, set_sums_of,
};
use sqlite::{Alter, Error, Transaction};
use vault_base::moment::Moment;
use vault_base::name::{DeptName, VersionId};
use vault_core_model::change::Admission;
use vault_core_model::records::{Entry, Head, History, Note, Removal};
use vault_store_edits::contents::delete_content;
use vault_store_edits::entries::{put_entry, remove_entry};
use vault_store_edits::meta::{set_last, set_last_and_next};
use vault_store_edits::transaction::Part;
use vault_tally::row::Row as Sums;

/// Puts in an entry with its content, its first setting and its first tenure.
fn put_history<S: Alter>(tx: &mut Transaction<'_, S>, history: &History) -> Result<(), Error>
    ensures same_reference { tx.new.conn.ghost_name ≡ tx.old.conn.ghost_name }
    ensures part { MakesPart S.Store tx.old.conn.now tx.new.conn.now result (history_put history.now) }
    ensures typed { OnOk result (IsTypedEntry history.now.entry × IsFirstTyped history.now.settings) }
{
    put_entry(tx, &history.entry)?;
    put_content_if_given(tx, history.entry.id, &history.content)?;
    put_external_if_given(tx, history.entry.id, &history.content)?;
    put_first_setting(tx, history.entry.id, history.settings.as_slice())?;
    put_first_tenure(tx, history.entry.id, history.tenures.as_slice())
}

/// Puts in the note of an admission, and writes the sums of the department.
fn put_beside<S: Alter>(
    tx: &mut Transaction<'_, S>,
    note: &Option<Note>,
    marker: bool,
    dept: &DeptName,
    sums: &Sums,
) -> Result<(), Error>
    ensures same_reference { tx.new.conn.ghost_name ≡ tx.old.conn.ghost_name }
    ensures part { MakesPart S.Store tx.old.conn.now tx.new.conn.now result (noted_and_summed note.now marker dept.now sums.now) }
    ensures typed { OnOk result (IfSome note.now IsTypedNote) }
{
    put_note_if_given(tx, note)?;
    set_sums_of(tx, marker, dept, sums)
}

/// Writes a removal into the row of its entry, and deletes the content, from a vault that registers contents
/// which are kept outside, or doesn't.
fn drop_content<S: Alter>(
    tx: &mut Transaction<'_, S>,
    id: VersionId,
    removal: &Removal,
    external: bool,
) -> Result<(), Error>
    ensures same_reference { tx.new.conn.ghost_name ≡ tx.old.conn.ghost_name }
    ensures part { MakesPart S.Store tx.old.conn.now tx.new.conn.now result (content_dropped external id removal.now) }
    ensures limits { IsCause removal.now.cause }
{
    remove_entry(tx, id, removal)?;
    delete_content(tx, id)?;
    delete_external_if(tx, id, external)
}

/// An admission at a moment, by what was read of the vault before.
#[derive(Drop)]
pub struct NewEntry<'a> {
    pub at: Moment,
    pub admission: &'a Admission,
    /// The head that the key has, and the one that it gets.
    pub head: Option<Head>,
    pub newest: Head,
    /// The department of the bucket, and the sums that it gets; of a marker they stay as they are.
    pub dept: &'a DeptName,
    pub sums: Sums,
    /// The id that the next entry gets.
    pub next: u64,
}

impl<S: Alter> Part<S> for NewEntry<'_> {
    ghost use Rattle.std.specs.Prelude.{◌≤◌};
    ghost use Rattle.vault_base.specs.Days.{last_moment};
    ghost use Rattle.vault_store_apply.specs.Typed.{IsTypedAdmission};
    ghost use Rattle.vault_store_apply.specs.EntryParts.{entry_added};

    ghost edit = { λ part. entry_added part.admission.now part.head part.newest part.dept.now part.sums part.at part.next };

    ghost limits = { λ part. (part.at ≤ last_moment) × IsTypedAdmission part.admission.now };

    fn make(&self, tx: &mut Transaction<'_, S>) -> Result<(), Error> {
        let entry = &self.admission.history.entry;
        put_history(tx, &self.admission.history)?;
        put_newest(tx, &entry.bucket, &entry.key, self.head, &self.newest)?;
        put_beside(
            tx,
            &self.admission.note,
            entry.marker,
            self.dept,
            &self.sums,
        )?;
        set_last_and_next(tx, self.at, self.next)?;
        Ok(())
    }
}

/// The removal of an entry at a moment, by what was read of the vault before.
#[derive(Drop)]
pub struct RemovedEntry<'a> {
    pub at: Moment,
    pub id: VersionId,
    pub entry: &'a Entry,
    pub removal: &'a Removal,
    /// The head that is left of the key; none where this was its last entry.
    pub left: Option<Head>,
    /// The department of the bucket, and the sums that it gets; of a marker they stay as they are.
    pub dept: &'a DeptName,
    pub sums: Sums,
    /// Whether the vault registers contents that are kept outside.
    pub external: bool,
}

impl<S: Alter> Part<S> for RemovedEntry<'_> {
    ghost use Rattle.std.specs.Prelude.{◌≤◌};
    ghost use Rattle.vault_base.specs.Days.{last_moment};
    ghost use Rattle.vault_audit_model.specs.Limits.{IsCause};
    ghost use Rattle.vault_store_apply.specs.EntryParts.{entry_removed};

    ghost edit = { λ part. entry_removed part.external part.entry.now part.id part.removal.now part.left part.dept.now part.sums part.at };

    ghost limits = { λ part. (part.at ≤ last_moment) × IsCause part.removal.now.cause };

    fn make(&self, tx: &mut Transaction<'_, S>) -> Result<(), Error> {
        drop_content(tx, self.id, self.removal, self.external)?;
        set_sums_of(tx, self.entry.marker, self.dept, &self.sums)?;
        leave_head(tx, &self.entry.bucket, &self.entry.key, self.left)?;
        set_last(tx, self.at)?;
        Ok(())
    }
}
