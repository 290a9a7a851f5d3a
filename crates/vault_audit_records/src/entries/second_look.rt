//! The second look at `entries`: their ids are 1, 2, 3 .., and no admission goes back.
ghost use Rattle.std.specs.Prelude.{◌≡◌, ◌↔◌, None, IsTrue, IfOk, IfErr, IfSome};
ghost use Rattle.sqlite.specs.State.{HasCleanDisk};
ghost use Rattle.sqlite.specs.Held.{state};
ghost use Rattle.vault_core_model.specs.Vault.{Vault, next_id};
ghost use Rattle.vault_audit_model.specs.SchemaVersions.{is_external};
ghost use Rattle.vault_audit_model.specs.Spells.{AreSoundAs};
ghost use Rattle.vault_audit_model.specs.Relations.{IsNextEntry};
ghost use Rattle.vault_audit_records.specs.EntriesByNumber.{AreEntriesUpTo};
ghost use Rattle.vault_audit_rows.specs.Health.{IsHealthy, IsMemory, IsOfSchemaVersion, OnlyLooks};

use crate::row_check::refused;
use sqlite::{Alter, Connection, Error, Row};
use vault_audit_model::schema::SchemaVersion;
use vault_audit_rows::records::read_entry;
use vault_audit_rows::walk::{Pass, walk};
use vault_audit_schema::{entries_columns, select_text};
use vault_core_model::records::Entry;

/// The check of entries by rising id.
#[derive(Drop)]
pub struct NumberPass {
    /// Whether the vault may register contents that are kept outside.
    pub external: bool,
    /// The id that is to come.
    pub next: u64,
    /// The seconds of the last admission.
    pub low: u64,
}

impl NumberPass {
    /// Whether the entry may come now.
    fn fits(&self, entry: &Entry) -> bool
        ensures { IsTrue result ↔ IsNextEntry self.now.next self.now.low entry.now }
    {
        u64::from(entry.id.number()) == self.next && self.low <= entry.admitted.secs()
    }
}

impl Pass for NumberPass {
    ghost use Rattle.vault_audit_rows.specs.Pass.{Takes, Refuses};
    ghost use Rattle.vault_audit_model.specs.Rows.{entry_row};
    ghost use Rattle.vault_audit_records.specs.EntriesByNumber.{ComesNext, with_entry};

    ghost goes = { λ p row q. Takes entry_row ComesNext with_entry p row q };

    ghost stops = { λ p row. Refuses entry_row ComesNext with_entry p row };

    #[tactic(auto, using(crate::proofs::EntryLemmas::one_entry))]
    fn take(&mut self, row: &Row) -> Result<bool, Error> {
        let entry = match read_entry(row, self.external) {
            Ok(entry) => entry,
            Err(misread) => return refused(misread),
        };
        if !self.fits(&entry) {
            drop(entry);
            return Ok(false);
        }
        self.next = u64::from(entry.id.number()) + 1;
        self.low = entry.admitted.secs();
        drop(entry);
        Ok(true)
    }
}

/// The id that comes after all entries, or none where their ids aren't 1, 2, 3 .. or an admission
/// goes back.
pub fn check_numbers<S: Alter>(
    conn: &mut Connection<S>,
    schema_version: SchemaVersion,
) -> Result<Option<u64>, Error>
    requires { IsOfSchemaVersion S.Store conn.old schema_version }
    ensures reported { HasCleanDisk (state S.Store conn.new) → IfOk result (AreEntriesUpTo (is_external schema_version) (state S.Store conn.new).now) }
    ensures damaged { HasCleanDisk (state S.Store conn.new) → IfOk result (λ found. found ≡ None → (v : Vault) → ¬ AreSoundAs schema_version (state S.Store conn.new).now v) }
    ensures next { HasCleanDisk (state S.Store conn.new) → IfOk result (λ found. IfSome found (λ next. (v : Vault) → AreSoundAs schema_version (state S.Store conn.new).now v → next_id v ≡ next)) }
    ensures look { OnlyLooks S.Store conn.old conn.new result }
    ensures err { IsHealthy (state S.Store conn.new) → IfErr result IsMemory }
{
    let mut pass = NumberPass {
        external: schema_version.is_external(),
        next: 1,
        low: 0,
    };
    let whole = walk(
        conn,
        entries_columns!(select_text, " ORDER BY id"),
        &mut pass,
    )?;
    if !whole {
        return Ok(None);
    }
    Ok(Some(pass.next))
}
