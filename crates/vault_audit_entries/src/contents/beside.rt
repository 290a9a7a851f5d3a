//! The rows of `contents`, each beside the entry of its id.
ghost use Rattle.std.specs.Prelude.{◌≡◌, ◌≢◌, ◌↔◌, ◌≤◌, List, IsTrue, IfOk, IfErr};
ghost use Rattle.sqlite.specs.State.{HasCleanDisk};
ghost use Rattle.sqlite.specs.Held.{state};
ghost use Rattle.vault_core_model.specs.declared.records.Entry.{Entry};
ghost use Rattle.vault_audit_model.specs.declared.rows.ContentRow.{ContentRow as Given};
ghost use Rattle.vault_audit_model.specs.Limits.{IsContentRow};
ghost use Rattle.vault_audit_model.specs.Relations.{AreEntries};
ghost use Rattle.vault_audit_model.specs.SchemaVersions.{is_external};
ghost use Rattle.vault_audit_entries.specs.Contents.{held_row, DecidesHeld};
ghost use Rattle.vault_audit_rows.specs.Health.{IsHealthy, IsMemory, IsOfSchemaVersion, OnlyLooks};

use sqlite::{Alter, Connection, Error, ErrorCode, Row};
use vault_audit_model::rows::ContentRow;
use vault_audit_model::schema::SchemaVersion;
use vault_audit_rows::cell::{bytes, content, is_null, number, version_id};
use vault_audit_rows::misread::Misread;
use vault_audit_rows::walk::{Pass, walk};
use vault_base::limits::MOST_CONTENT;

/// The check of bytes by rising id.
#[derive(Drop)]
pub struct ContentPass {
    /// The least id that may come.
    pub next: u64,
    /// How many rows came.
    pub count: u64,
}

/// The bytes that a row shows, where the entry beside them is held and has their size and digest.
fn read_held(row: &Row) -> Result<ContentRow, Misread>
    ensures ok { IfOk result (λ c. (row.now ≡ held_row c) × IsContentRow c) }
    ensures wrong { IfErr result (λ e. e ≡ Misread.Wrong → (c : Given) → IsContentRow c → row.now ≢ held_row c) }
{
    if row.column_count() != 5 {
        return Err(Misread::Wrong);
    }
    let id = version_id(row, 0).ok_or(Misread::Wrong)?;
    let size = number(row, 2).ok_or(Misread::Wrong)?;
    let digest = bytes(row, 3).ok_or(Misread::Wrong)?;
    if !is_null(row, 4) {
        return Err(Misread::Wrong);
    }
    let content = content(row, 1)?;
    if content.len() > MOST_CONTENT {
        return Err(Misread::Wrong);
    }
    if content.len() as u64 != size {
        return Err(Misread::Wrong);
    }
    if content.digest().as_slice() != digest {
        return Err(Misread::Wrong);
    }
    Ok(ContentRow { id, content })
}

impl ContentPass {
    /// Whether the bytes may come now.
    fn fits(&self, found: &ContentRow) -> bool
        ensures { IsTrue result ↔ (self.now.next ≤ found.now.id) }
    {
        self.next <= u64::from(found.id.number())
    }
}

impl Pass for ContentPass {
    ghost use Rattle.vault_audit_rows.specs.Pass.{Takes, Refuses};
    ghost use Rattle.vault_audit_entries.specs.Contents.{held_row};
    ghost use Rattle.vault_audit_entries.specs.ContentPasses.{ComesLater, with_content};

    ghost goes = { λ p row q. Takes held_row ComesLater with_content p row q };

    ghost stops = { λ p row. Refuses held_row ComesLater with_content p row };

    #[tactic(auto, using(crate::proofs::ContentRowLemmas::same_content))]
    fn take(&mut self, row: &Row) -> Result<bool, Error> {
        let found = match read_held(row) {
            Ok(found) => found,
            Err(Misread::Wrong) => return Ok(false),
            Err(Misread::Memory) => return Err(Error::SqliteFailure(ErrorCode::OutOfMemory)),
        };
        if !self.fits(&found) {
            return Ok(false);
        }
        let Some(count) = self.count.checked_add(1) else {
            return Err(Error::SqliteFailure(ErrorCode::OutOfMemory));
        };
        self.next = u64::from(found.id.number()) + 1;
        self.count = count;
        Ok(true)
    }
}

/// How many rows `contents` has, or none where one isn't the bytes of a held version, of its size
/// and digest.
pub fn check_bytes<S: Alter>(
    conn: &mut Connection<S>,
    schema_version: SchemaVersion,
) -> Result<Option<u64>, Error>
    requires { IsOfSchemaVersion S.Store conn.old schema_version }
    ensures reported { HasCleanDisk (state S.Store conn.new) → IfOk result (λ found. (es : List Entry) →
        AreEntries (is_external schema_version) (state S.Store conn.new).now es → DecidesHeld schema_version (state S.Store conn.new).now es found) }
    ensures look { OnlyLooks S.Store conn.old conn.new result }
    ensures err { IsHealthy (state S.Store conn.new) → IfErr result IsMemory }
{
    let mut pass = ContentPass { next: 1, count: 0 };
    let whole = walk(
        conn,
        "SELECT c.id, c.bytes, e.size, e.digest, e.removed FROM contents AS c LEFT JOIN entries AS e ON e.id = c.id ORDER BY c.id",
        &mut pass,
    )?;
    if !whole {
        return Ok(None);
    }
    Ok(Some(pass.count))
}
