//! What a keeper finds of its vault: it asks the tables once, and knows it then.
ghost use Rattle.std.specs.Prelude.{◌≡◌, IfOk};
ghost use Rattle.sqlite.specs.Held.{state};
ghost use Rattle.sqlite.specs.State.{HasCleanDisk};
ghost use Rattle.vault_core_model.specs.Totals.{IsRowFor, bucket_bytes, bucket_weight};
ghost use Rattle.vault_core_model.specs.Vault.{Vault, config_of};
ghost use Rattle.vault_audit_model.specs.Spells.{meta_of};
ghost use Rattle.vault_store_model.specs.Keeping.{Keeps};
ghost use Rattle.vault_store_model.specs.Known.{AreKnown};
ghost use Rattle.vault_store_apply.specs.Known.{IsOpen};
ghost use Rattle.vault_store_reads.specs.Quiet.{OnlyReads, IsOpenIfOk};
ghost use Rattle.vault_store_reads.specs.Wants.{WantsMemoryIfErr};
ghost use Rattle.vault_store.specs.Knows.{StaysKnown};

use sqlite::{Alter, Connection, Error, ErrorCode};
use vault_audit_model::rows::MetaRow;
use vault_audit_model::schema::SchemaVersion;
use vault_base::name::{BucketName, DeptName};
use vault_core_model::records::BucketConfig;
use vault_store_model::known::Known;
use vault_store_reads::meta::{read_meta, read_moves};
use vault_store_reads::names::{read_bucket, read_totals};
use vault_store_walks::held::read_bucket_held;
use vault_tally::row::Row;

/// The row of `meta`, asked of the tables.
fn ask_meta<S: Alter>(conn: &mut Connection<S>, known: &mut Known) -> Result<MetaRow, Error>
    ensures value { HasCleanDisk (state S.Store conn.new) → IfOk result (λ meta. (v : Vault) → Keeps (state S.Store conn.old) v → meta ≡ meta_of v) }
    ensures known { StaysKnown S.Store conn.old conn.new known.old known.new }
    ensures read { OnlyReads S.Store conn.old conn.new }
    ensures open { IsOpenIfOk S.Store conn.new result }
    ensures memory { WantsMemoryIfErr S.Store conn.old conn.new result }
{
    let meta = read_meta(conn)?;
    known.note_meta(MetaRow {
        schema: meta.schema,
        last: meta.last,
        next: meta.next,
        moves: meta.moves,
    });
    Ok(meta)
}

/// The row of `meta`.
pub(crate) fn find_meta<S: Alter>(
    conn: &mut Connection<S>,
    known: &mut Known,
) -> Result<MetaRow, Error>
    requires { IsOpen S.Store conn.old }
    ensures value { HasCleanDisk (state S.Store conn.new) → IfOk result (λ meta. (v : Vault) → Keeps (state S.Store conn.old) v → AreKnown known.old v → meta ≡ meta_of v) }
    ensures known { StaysKnown S.Store conn.old conn.new known.old known.new }
    ensures read { OnlyReads S.Store conn.old conn.new }
    ensures open { IsOpenIfOk S.Store conn.new result }
    ensures memory { WantsMemoryIfErr S.Store conn.old conn.new result }
{
    match known.meta() {
        Some(meta) => Ok(meta),
        None => ask_meta(conn, known),
    }
}

/// Whether the vault registers contents that are kept outside: the schema version in `meta` says so.
pub(crate) fn find_external<S: Alter>(
    conn: &mut Connection<S>,
    known: &mut Known,
) -> Result<bool, Error>
    requires { IsOpen S.Store conn.old }
    ensures value { HasCleanDisk (state S.Store conn.new) → IfOk result (λ external. (v : Vault) → Keeps (state S.Store conn.old) v → AreKnown known.old v → external ≡ v.external) }
    ensures known { StaysKnown S.Store conn.old conn.new known.old known.new }
    ensures read { OnlyReads S.Store conn.old conn.new }
    ensures open { IsOpenIfOk S.Store conn.new result }
    ensures memory { WantsMemoryIfErr S.Store conn.old conn.new result }
{
    let meta = find_meta(conn, known)?;
    Ok(meta.schema == SchemaVersion::Fourth.number())
}

/// How often a bucket was moved.
pub(crate) fn find_moves<S: Alter>(conn: &mut Connection<S>, known: &Known) -> Result<u32, Error>
    requires { IsOpen S.Store conn.old }
    ensures value { HasCleanDisk (state S.Store conn.new) → IfOk result (λ moves. (v : Vault) → Keeps (state S.Store conn.old) v → AreKnown known.now v → moves ≡ v.moves) }
    ensures read { OnlyReads S.Store conn.old conn.new }
    ensures open { IsOpenIfOk S.Store conn.new result }
    ensures memory { WantsMemoryIfErr S.Store conn.old conn.new result }
{
    match known.moves() {
        Some(moves) => Ok(moves),
        None => read_moves(conn),
    }
}

/// The configuration of a bucket, asked of the tables.
fn ask_bucket<S: Alter>(
    conn: &mut Connection<S>,
    known: &mut Known,
    name: &BucketName,
) -> Result<Option<BucketConfig>, Error>
    ensures value { HasCleanDisk (state S.Store conn.new) → IfOk result (λ found. (v : Vault) → Keeps (state S.Store conn.old) v → found ≡ config_of v name.now) }
    ensures known { StaysKnown S.Store conn.old conn.new known.old known.new }
    ensures read { OnlyReads S.Store conn.old conn.new }
    ensures open { IsOpenIfOk S.Store conn.new result }
    ensures memory { WantsMemoryIfErr S.Store conn.old conn.new result }
{
    let found = read_bucket(conn, name)?;
    known.note_bucket(name, &found);
    Ok(found)
}

/// The configuration of a bucket.
pub(crate) fn find_bucket<S: Alter>(
    conn: &mut Connection<S>,
    known: &mut Known,
    name: &BucketName,
) -> Result<Option<BucketConfig>, Error>
    requires { IsOpen S.Store conn.old }
    ensures value { HasCleanDisk (state S.Store conn.new) → IfOk result (λ found. (v : Vault) → Keeps (state S.Store conn.old) v → AreKnown known.old v → found ≡ config_of v name.now) }
    ensures known { StaysKnown S.Store conn.old conn.new known.old known.new }
    ensures read { OnlyReads S.Store conn.old conn.new }
    ensures open { IsOpenIfOk S.Store conn.new result }
    ensures memory { WantsMemoryIfErr S.Store conn.old conn.new result }
{
    match known.config(name) {
        Ok(Some(config)) => Ok(Some(config)),
        Ok(None) => ask_bucket(conn, known, name),
        Err(_) => Err(Error::SqliteFailure(ErrorCode::OutOfMemory)),
    }
}

/// The sums of a department, asked of the tables.
fn ask_sums<S: Alter>(
    conn: &mut Connection<S>,
    known: &mut Known,
    dept: &DeptName,
) -> Result<Row, Error>
    ensures value { HasCleanDisk (state S.Store conn.new) → IfOk result (λ row. (v : Vault) → Keeps (state S.Store conn.old) v → IsRowFor v dept.now row) }
    ensures known { StaysKnown S.Store conn.old conn.new known.old known.new }
    ensures read { OnlyReads S.Store conn.old conn.new }
    ensures open { IsOpenIfOk S.Store conn.new result }
    ensures memory { WantsMemoryIfErr S.Store conn.old conn.new result }
{
    let sums = read_totals(conn, dept)?;
    known.note_sums(dept, sums);
    Ok(sums)
}

/// The sums of a department; those of one that isn't there are 0.
pub(crate) fn find_sums<S: Alter>(
    conn: &mut Connection<S>,
    known: &mut Known,
    dept: &DeptName,
) -> Result<Row, Error>
    requires { IsOpen S.Store conn.old }
    ensures value { HasCleanDisk (state S.Store conn.new) → IfOk result (λ row. (v : Vault) → Keeps (state S.Store conn.old) v → AreKnown known.old v → IsRowFor v dept.now row) }
    ensures known { StaysKnown S.Store conn.old conn.new known.old known.new }
    ensures read { OnlyReads S.Store conn.old conn.new }
    ensures open { IsOpenIfOk S.Store conn.new result }
    ensures memory { WantsMemoryIfErr S.Store conn.old conn.new result }
{
    match known.sums(dept) {
        Some(sums) => Ok(sums),
        None => ask_sums(conn, known, dept),
    }
}

/// The bytes and the weight of a bucket's held versions, asked of the tables.
fn ask_held<S: Alter>(
    conn: &mut Connection<S>,
    known: &mut Known,
    name: &BucketName,
) -> Result<(u64, u64), Error>
    ensures value { HasCleanDisk (state S.Store conn.new) → IfOk result (λ held. (v : Vault) → Keeps (state S.Store conn.old) v
        → (held.0 ≡ bucket_bytes v name.now) × (held.1 ≡ bucket_weight v name.now)) }
    ensures known { StaysKnown S.Store conn.old conn.new known.old known.new }
    ensures read { OnlyReads S.Store conn.old conn.new }
    ensures open { IsOpenIfOk S.Store conn.new result }
    ensures memory { WantsMemoryIfErr S.Store conn.old conn.new result }
{
    let held = read_bucket_held(conn, name)?;
    known.note_load(name, held.0, held.1);
    Ok(held)
}

/// The bytes and the weight of a bucket's held versions.
pub(crate) fn find_held<S: Alter>(
    conn: &mut Connection<S>,
    known: &mut Known,
    name: &BucketName,
) -> Result<(u64, u64), Error>
    requires { IsOpen S.Store conn.old }
    ensures value { HasCleanDisk (state S.Store conn.new) → IfOk result (λ held. (v : Vault) → Keeps (state S.Store conn.old) v → AreKnown known.old v
        → (held.0 ≡ bucket_bytes v name.now) × (held.1 ≡ bucket_weight v name.now)) }
    ensures known { StaysKnown S.Store conn.old conn.new known.old known.new }
    ensures read { OnlyReads S.Store conn.old conn.new }
    ensures open { IsOpenIfOk S.Store conn.new result }
    ensures memory { WantsMemoryIfErr S.Store conn.old conn.new result }
{
    match known.load(name) {
        Some(held) => Ok(held),
        None => ask_held(conn, known, name),
    }
}
