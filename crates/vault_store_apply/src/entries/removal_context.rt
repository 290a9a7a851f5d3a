//! What a removal reads of the vault beside its entry and their place.
ghost use Rattle.std.specs.Prelude.{◌≡◌, option_map, unwrap_or, IsTrue, IfOk, OnOk};
ghost use Rattle.sqlite.specs.Held.{state};
ghost use Rattle.sqlite.specs.State.{HasCleanDisk};
ghost use Rattle.vault_core_model.specs.declared.records.Tenure.{Tenure};
ghost use Rattle.vault_core_model.specs.Reads.{head_of};
ghost use Rattle.vault_core_model.specs.Vault.{Vault};
ghost use Rattle.vault_store_model.specs.Keeping.{Keeps};
ghost use Rattle.vault_store_model.specs.Known.{AreKnown};
ghost use Rattle.vault_store_model.specs.Sums.{last_tenure_of};
ghost use Rattle.vault_store_reads.specs.Shown.{newest_but};
ghost use Rattle.vault_store_apply.specs.Heads.{holds_no_other};
ghost use Rattle.vault_store_apply.specs.Known.{IsOpen};
ghost use Rattle.vault_store_reads.specs.Quiet.{OnlyReads, IsOpenIfOk, SaysOf};

use sqlite::{Alter, Connection, Error};
use vault_base::moment::Moment;
use vault_base::name::VersionId;
use vault_core_model::records::{Entry, Head, Tenure};
use vault_store_model::known::{Known, is_external};
use vault_store_reads::meta::read_meta;
use vault_store_reads::rows_in_order::reads::{read_last_tenure, read_newest_but};

/// Whether a key with this head holds no entry but that one.
fn holds_no_other(head: Option<Head>, id: VersionId) -> bool
    ensures { result ≡ holds_no_other head id }
{
    match head {
        Some(head) => head.count < 2 && head.newest == id,
        None => true,
    }
}

/// The newest held entry of a key besides the one of that id; where its head names no other, nothing is asked.
fn find_newest_but<S: Alter>(
    conn: &mut Connection<S>,
    entry: &Entry,
    id: VersionId,
    head: Option<Head>,
) -> Result<Option<VersionId>, Error>
    ensures value { SaysOf S.Store conn.old conn.new result (λ v newest. head ≡ head_of v entry.now.bucket entry.now.key → newest ≡ newest_but v entry.now.bucket entry.now.key id) }
    ensures open { HasCleanDisk (state S.Store conn.new) → IsTrue (state S.Store conn.old).is_open → OnOk result (IsTrue (state S.Store conn.new).is_open) }
    ensures read { OnlyReads S.Store conn.old conn.new }
{
    if holds_no_other(head, id) {
        return Ok(None);
    }
    read_newest_but(conn, &entry.bucket, &entry.key, id)
}

/// Since when a tenure is; where there is none, that moment.
fn begin_of(tenure: Option<Tenure>, admitted: Moment) -> Moment
    ensures { result ≡ unwrap_or (option_map (λ (t : Tenure). t.from) tenure) admitted }
{
    match tenure {
        Some(tenure) => tenure.from,
        None => admitted,
    }
}

/// Since when its department has had a version; of a marker, which no department has, its admission.
fn find_begin<S: Alter>(
    conn: &mut Connection<S>,
    entry: &Entry,
    id: VersionId,
) -> Result<Moment, Error>
    ensures value { SaysOf S.Store conn.old conn.new result (λ v since. since ≡ unwrap_or (option_map (λ (t : Tenure). t.from) (last_tenure_of v id)) entry.now.admitted) }
    ensures read { OnlyReads S.Store conn.old conn.new }
{
    let tenure = read_last_tenure(conn, id)?;
    Ok(begin_of(tenure, entry.admitted))
}

/// Whether the vault registers contents that are kept outside, by the tables.
fn ask_external<S: Alter>(conn: &mut Connection<S>) -> Result<bool, Error>
    ensures value { HasCleanDisk (state S.Store conn.new) → IfOk result (λ external. (v : Vault) → Keeps (state S.Store conn.old) v → external ≡ v.external) }
    ensures open { IsOpenIfOk S.Store conn.new result }
    ensures read { OnlyReads S.Store conn.old conn.new }
{
    let meta = read_meta(conn)?;
    Ok(is_external(meta))
}

/// Whether the vault registers contents that are kept outside.
fn find_external<S: Alter>(conn: &mut Connection<S>, known: &Known) -> Result<bool, Error>
    requires { IsOpen S.Store conn.old }
    ensures value { HasCleanDisk (state S.Store conn.new) → IfOk result (λ external. (v : Vault) → Keeps (state S.Store conn.old) v → AreKnown known.now v → external ≡ v.external) }
    ensures open { IsOpenIfOk S.Store conn.new result }
    ensures read { OnlyReads S.Store conn.old conn.new }
{
    match known.meta() {
        Some(meta) => Ok(is_external(meta)),
        None => ask_external(conn),
    }
}

/// The newest held entry of an entry's key besides it, since when its department has had it, and whether
/// the vault registers contents that are kept outside.
#[derive(Clone, Copy)]
pub struct RemovalContext {
    pub newest: Option<VersionId>,
    pub since: Moment,
    pub external: bool,
}

/// Reads that, by the head of the key.
pub fn read_removal_context<S: Alter>(
    conn: &mut Connection<S>,
    known: &Known,
    entry: &Entry,
    id: VersionId,
    head: Option<Head>,
) -> Result<RemovalContext, Error>
    requires { IsOpen S.Store conn.old }
    ensures value { HasCleanDisk (state S.Store conn.new) → IfOk result (λ beside. (v : Vault) → Keeps (state S.Store conn.old) v → AreKnown known.now v
        → head ≡ head_of v entry.now.bucket entry.now.key
        → (beside.newest ≡ newest_but v entry.now.bucket entry.now.key id) × (beside.since ≡ unwrap_or (option_map (λ (t : Tenure). t.from) (last_tenure_of v id)) entry.now.admitted) × (beside.external ≡ v.external)) }
    ensures read { OnlyReads S.Store conn.old conn.new }
{
    let external = find_external(conn, known)?;
    let newest = find_newest_but(conn, entry, id, head)?;
    let since = find_begin(conn, entry, id)?;
    Ok(RemovalContext {
        newest,
        since,
        external,
    })
}
