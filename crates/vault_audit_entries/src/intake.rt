//! The second look at `intake`: each note is about a version of its bucket, key, size and digest, and no
//! line of a batch has two.

ghost use Rattle.std.specs.Prelude.{◌≡◌, ◌≢◌, ◌↔◌, false, List, Option, IsTrue, IfOk, IfErr};
ghost use Rattle.sqlite_value.specs.declared.value.Value.TheVariants.{Text, Blob};
ghost use Rattle.sqlite_value.specs.Order.{column};
ghost use Rattle.sqlite.specs.State.{HasCleanDisk};
ghost use Rattle.sqlite.specs.Held.{state};
ghost use Rattle.vault_core_model.specs.declared.records.Entry.{Entry};
ghost use Rattle.vault_core_model.specs.declared.records.Note.{Note as Reported};
ghost use Rattle.vault_core_model.specs.Order.{note_cmp};
ghost use Rattle.vault_core_model.specs.Vault.{Vault};
ghost use Rattle.vault_audit_model.specs.Limits.{IsNote};
ghost use Rattle.vault_audit_model.specs.Relations.{AreEntries, DecidesNotes};
ghost use Rattle.vault_audit_model.specs.Rows.{retention_mode, retention_until};
ghost use Rattle.vault_audit_model.specs.SchemaVersions.{is_external};
ghost use Rattle.vault_audit_model.specs.Spells.{AreSoundAs};
ghost use Rattle.vault_audit_model.specs.Values.{number as value, flag_or_null as hold_value};
ghost use Rattle.vault_audit_entries.specs.Notes.{noted_row, IsAfter};
ghost use Rattle.vault_audit_rows.specs.Health.{IsHealthy, IsMemory, IsOfSchemaVersion, OnlyLooks};

use sqlite::{Alter, Connection, Error, ErrorCode, Row};
use std::cmp::Ordering;
use vault_audit_model::schema::SchemaVersion;
use vault_audit_rows::cell::{
    bytes, digest, flag_or_null, number, number_within, text, version_id,
};
use vault_audit_rows::misread::Misread;
use vault_audit_rows::name::{batch_name, bucket_name, object_key};
use vault_audit_rows::several_columns::{retention, size};
use vault_audit_rows::walk::{Pass, walk};
use vault_core_model::records::Note;

/// The check of notes in their order.
#[derive(Drop)]
pub struct NotePass {
    /// Whether the vault registers contents that are kept outside.
    pub external: bool,
    /// The note that came last.
    pub last: Option<Note>,
}

/// The note that the first ten columns state.
fn note_in(row: &Row, external: bool) -> Result<Note, Misread>
    ensures names { IfOk result (λ n. (column row.now 0 ≡ Text n.bucket) × (column row.now 1 ≡ Text n.batch) × (column row.now 2 ≡ value n.line) × (column row.now 3 ≡ Text n.key)) }
    ensures extent { IfOk result (λ n. (column row.now 4 ≡ value n.size) × (column row.now 5 ≡ Blob n.digest)) }
    ensures lock { IfOk result (λ n. (column row.now 6 ≡ retention_mode n.retention) × (column row.now 7 ≡ retention_until n.retention) × (column row.now 8 ≡ hold_value n.hold)) }
    ensures id { IfOk result (λ n. column row.now 9 ≡ value n.id) }
    ensures fits { IfOk result (IsNote external) }
    ensures wrong { IfErr result (λ e. e ≡ Misread.Wrong → (n : Reported) → IsNote external n → row.now ≢ noted_row n) }
{
    let line = number_within(row, 2, 1, u32::MAX).ok_or(Misread::Wrong)?;
    let size = size(row, 4, external).ok_or(Misread::Wrong)?;
    let digest = digest(row, 5).ok_or(Misread::Wrong)?;
    let retention = retention(row, 6, 7).ok_or(Misread::Wrong)?;
    let hold = flag_or_null(row, 8).ok_or(Misread::Wrong)?;
    let id = version_id(row, 9).ok_or(Misread::Wrong)?;
    let bucket = bucket_name(row, 0)?;
    let batch = batch_name(row, 1)?;
    let key = object_key(row, 3)?;
    Ok(Note {
        bucket,
        batch,
        line,
        key,
        size,
        digest,
        retention,
        hold,
        id,
    })
}

/// The note that a row holds, where the version beside it is of its bucket, key, size and digest.
fn read_noted(row: &Row, external: bool) -> Result<Note, Misread>
    ensures row { IfOk result (λ n. row.now ≡ noted_row n) }
    ensures fits { IfOk result (IsNote external) }
    ensures wrong { IfErr result (λ e. e ≡ Misread.Wrong → (n : Reported) → IsNote external n → row.now ≢ noted_row n) }
{
    if row.column_count() != 14 {
        return Err(Misread::Wrong);
    }
    let bucket = text(row, 10).ok_or(Misread::Wrong)?;
    let key = text(row, 11).ok_or(Misread::Wrong)?;
    let size = number(row, 12).ok_or(Misread::Wrong)?;
    let digest = bytes(row, 13).ok_or(Misread::Wrong)?;
    let note = note_in(row, external)?;
    if note.bucket.as_str() != bucket {
        drop(note);
        return Err(Misread::Wrong);
    }
    if note.key.as_str() != key {
        drop(note);
        return Err(Misread::Wrong);
    }
    if note.size != size {
        drop(note);
        return Err(Misread::Wrong);
    }
    if note.digest.as_slice() != digest {
        drop(note);
        return Err(Misread::Wrong);
    }
    Ok(note)
}

/// How two notes compare: by bucket, then by batch, then by line.
fn compare(first: &Note, second: &Note) -> Ordering
    ensures { result ≡ note_cmp first.now second.now }
{
    let batch = first.batch.cmp(&second.batch);
    let line = first.line.cmp(&second.line);
    first.bucket.cmp(&second.bucket).then(batch.then(line))
}

/// Whether the note comes after the last one.
fn is_after(last: &Option<Note>, note: &Note) -> bool
    ensures { IsTrue result ↔ IsAfter last.now note.now }
{
    match last {
        None => true,
        Some(last) => compare(last, note).is_lt(),
    }
}

impl Pass for NotePass {
    ghost use Rattle.vault_audit_rows.specs.Pass.{Takes, Refuses};
    ghost use Rattle.vault_audit_entries.specs.Notes.{noted_row};
    ghost use Rattle.vault_audit_entries.specs.NotePasses.{ComesAfter, with_note};

    ghost goes = { λ p row q. Takes noted_row ComesAfter with_note p row q };

    ghost stops = { λ p row. Refuses noted_row ComesAfter with_note p row };

    #[tactic(auto, using(crate::proofs::NoteRowLemmas::same_noted))]
    fn take(&mut self, row: &Row) -> Result<bool, Error> {
        let note = match read_noted(row, self.external) {
            Ok(note) => note,
            Err(Misread::Wrong) => return Ok(false),
            Err(Misread::Memory) => return Err(Error::SqliteFailure(ErrorCode::OutOfMemory)),
        };
        if !is_after(&self.last, &note) {
            drop(note);
            return Ok(false);
        }
        self.last = Some(note);
        Ok(true)
    }
}

/// Whether each row of `intake` holds a note of a version of its bucket, key, size and digest, and no
/// two are of one line of a batch. It is meant for entries whose ids are 1, 2, 3 and so on.
pub fn check_notes<S: Alter>(
    conn: &mut Connection<S>,
    schema_version: SchemaVersion,
) -> Result<bool, Error>
    requires { IsOfSchemaVersion S.Store conn.old schema_version }
    ensures reported { HasCleanDisk (state S.Store conn.new) → IfOk result (λ b. (es : List Entry) →
        AreEntries (is_external schema_version) (state S.Store conn.new).now es → DecidesNotes (is_external schema_version) (state S.Store conn.new).now es b) }
    ensures damaged { HasCleanDisk (state S.Store conn.new) → IfOk result (λ found. found ≡ false → (v : Vault) → ¬ AreSoundAs schema_version (state S.Store conn.new).now v) }
    ensures look { OnlyLooks S.Store conn.old conn.new result }
    ensures err { IsHealthy (state S.Store conn.new) → IfErr result IsMemory }
{
    let mut pass = NotePass {
        external: schema_version.is_external(),
        last: None,
    };
    let found = walk(
        conn,
        "SELECT n.bucket, n.batch, n.line, n.key, n.size, n.digest, n.mode, n.until, n.hold, n.id, e.bucket, e.key, e.size, e.digest FROM intake AS n LEFT JOIN entries AS e ON e.id = n.id ORDER BY n.bucket, n.batch, n.line",
        &mut pass,
    )?;
    Ok(found)
}
