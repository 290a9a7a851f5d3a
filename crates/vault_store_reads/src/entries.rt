//! Entries and their contents, by their ids.
ghost use Rattle.std.specs.Prelude.{◌≡◌, None, IfOk};
ghost use Rattle.sqlite.specs.Held.{state};
ghost use Rattle.sqlite.specs.State.{HasCleanDisk};
ghost use Rattle.vault_core_model.specs.Reads.{content_of, entry_of};
ghost use Rattle.vault_core_model.specs.Sound.{Sound};
ghost use Rattle.vault_core_model.specs.Vault.{Vault};
ghost use Rattle.vault_store_model.specs.Keeping.{Keeps};
ghost use Rattle.vault_store_reads.specs.Quiet.{OnlyReads, ReadsQuietly, IsOpenIfOk, SaysOf};
ghost use Rattle.vault_store_reads.specs.Shown.{bytes_inside, external_of};
ghost use Rattle.vault_store_reads.specs.Wants.{WantsMemoryIfErr};

use crate::query::unread;
use crate::rows_in_order::rows::open_rows;
use sqlite::{Alter, Connection, Error, params};
use vault_audit_rows::records;
use vault_audit_schema::{contents_columns, entries_columns, select_text};
use vault_base::content::{Bytes, Content, Registered};
use vault_base::name::VersionId;
use vault_core_model::records::Entry;

/// What `read_entry` does.
fn find_entry<S: Alter>(conn: &mut Connection<S>, id: VersionId) -> Result<Option<Entry>, Error>
    ensures value { SaysOf S.Store conn.old conn.new result (λ v found. found ≡ entry_of v id) }
    ensures read { ReadsQuietly S.Store conn.old conn.new }
    ensures open { IsOpenIfOk S.Store conn.new result }
    ensures memory { WantsMemoryIfErr S.Store conn.old conn.new result }
{
    let rows = open_rows(
        conn,
        entries_columns!(select_text, " WHERE id = ?1"),
        params![id.number()],
    )?;
    match rows.first() {
        // No vault has a wider limit of sizes.
        Some(row) => match records::read_entry(row, true) {
            Ok(entry) => Ok(Some(entry)),
            Err(misread) => Err(unread(misread)),
        },
        None => Ok(None),
    }
}

/// The entry of an id, held or removed.
pub fn read_entry<S: Alter>(conn: &mut Connection<S>, id: VersionId) -> Result<Option<Entry>, Error>
    ensures value { HasCleanDisk (state S.Store conn.new) → IfOk result (λ found. (v : Vault) → Keeps (state S.Store conn.old) v → found ≡ entry_of v id) }
    ensures read { OnlyReads S.Store conn.old conn.new }
    ensures open { IsOpenIfOk S.Store conn.new result }
    ensures memory { WantsMemoryIfErr S.Store conn.old conn.new result }
{
    find_entry(conn, id)
}

/// The bytes of a held version, where the tables have them.
fn find_bytes<S: Alter>(conn: &mut Connection<S>, id: VersionId) -> Result<Option<Bytes>, Error>
    ensures value { SaysOf S.Store conn.old conn.new result (λ v found. (found ≡ bytes_inside (content_of v id)) × Sound v) }
    ensures read { ReadsQuietly S.Store conn.old conn.new }
    ensures open { IsOpenIfOk S.Store conn.new result }
    ensures memory { WantsMemoryIfErr S.Store conn.old conn.new result }
{
    let rows = open_rows(
        conn,
        contents_columns!(select_text, " WHERE id = ?1"),
        params![id.number()],
    )?;
    match rows.first() {
        Some(row) => match records::read_content(row) {
            Ok(version) => Ok(Some(version.content)),
            Err(misread) => Err(unread(misread)),
        },
        None => Ok(None),
    }
}

/// A content that is kept outside, of the size and digest of its version; a removed version has no content, nor has a marker.
fn external_content(entry: &Entry) -> Option<Content>
    ensures { result ≡ external_of entry.now }
{
    if entry.marker || entry.removal.is_some() {
        return None;
    }
    match &entry.digest {
        Some(digest) => Some(Content::External(Registered {
            size: entry.size,
            digest: *digest,
        })),
        None => None,
    }
}

/// The content of a held version of which the tables have no bytes: its entry says what is registered of them.
fn find_outside<S: Alter>(conn: &mut Connection<S>, id: VersionId) -> Result<Option<Content>, Error>
    ensures value { SaysOf S.Store conn.old conn.new result (λ v found. Sound v → None ≡ bytes_inside (content_of v id) → found ≡ content_of v id) }
    ensures read { ReadsQuietly S.Store conn.old conn.new }
    ensures open { IsOpenIfOk S.Store conn.new result }
    ensures memory { WantsMemoryIfErr S.Store conn.old conn.new result }
{
    match find_entry(conn, id)? {
        Some(entry) => Ok(external_content(&entry)),
        None => Ok(None),
    }
}

/// What `read_content` does.
fn find_content<S: Alter>(conn: &mut Connection<S>, id: VersionId) -> Result<Option<Content>, Error>
    ensures value { SaysOf S.Store conn.old conn.new result (λ v found. found ≡ content_of v id) }
    ensures read { ReadsQuietly S.Store conn.old conn.new }
    ensures open { IsOpenIfOk S.Store conn.new result }
    ensures memory { WantsMemoryIfErr S.Store conn.old conn.new result }
{
    match find_bytes(conn, id)? {
        Some(bytes) => Ok(Some(Content::Inside(bytes))),
        None => find_outside(conn, id),
    }
}

/// The content of a held version: its bytes, or what is registered of bytes that are kept outside.
pub fn read_content<S: Alter>(
    conn: &mut Connection<S>,
    id: VersionId,
) -> Result<Option<Content>, Error>
    ensures value { HasCleanDisk (state S.Store conn.new) → IfOk result (λ found. (v : Vault) → Keeps (state S.Store conn.old) v → found ≡ content_of v id) }
    ensures read { OnlyReads S.Store conn.old conn.new }
    ensures open { IsOpenIfOk S.Store conn.new result }
    ensures memory { WantsMemoryIfErr S.Store conn.old conn.new result }
{
    find_content(conn, id)
}
