//! What changes read of the vault beside their entry, where it isn't known.
ghost use Rattle.std.specs.Prelude.{◌≡◌, Some, IfOk};
ghost use Rattle.sqlite.specs.Held.{state};
ghost use Rattle.sqlite.specs.State.{HasCleanDisk};
ghost use Rattle.vault_core_model.specs.Reads.{head_of};
ghost use Rattle.vault_core_model.specs.Totals.{IsRowFor};
ghost use Rattle.vault_core_model.specs.Vault.{Vault, config_of};
ghost use Rattle.vault_store_model.specs.Keeping.{Keeps};
ghost use Rattle.vault_store_model.specs.Known.{AreKnown};
ghost use Rattle.vault_store_apply.specs.Known.{IsOpen};
ghost use Rattle.vault_store_reads.specs.Quiet.{OnlyReads, IsOpenIfOk};

use sqlite::{Alter, Connection, Error, ErrorCode};
use vault_base::name::{BucketName, DeptName, ObjectKey};
use vault_core_model::records::{BucketConfig, Head};
use vault_store_model::known::Known;
use vault_store_reads::heads::read_head;
use vault_store_reads::names::{read_bucket, read_totals};
use vault_tally::row::Row;

/// The configuration of a bucket in the tables; an error where there is no such bucket.
fn ask_config<S: Alter>(
    conn: &mut Connection<S>,
    bucket: &BucketName,
) -> Result<BucketConfig, Error>
    ensures value { HasCleanDisk (state S.Store conn.new) → IfOk result (λ config. (v : Vault) → Keeps (state S.Store conn.old) v → Some config ≡ config_of v bucket.now) }
    ensures open { IsOpenIfOk S.Store conn.new result }
    ensures read { OnlyReads S.Store conn.old conn.new }
{
    let found = read_bucket(conn, bucket)?;
    found.ok_or(Error::QueryReturnedNoRows)
}

/// The configuration of a bucket; an error where there is no such bucket.
pub fn read_config<S: Alter>(
    conn: &mut Connection<S>,
    known: &Known,
    bucket: &BucketName,
) -> Result<BucketConfig, Error>
    requires { IsOpen S.Store conn.old }
    ensures value { HasCleanDisk (state S.Store conn.new) → IfOk result (λ config. (v : Vault) → Keeps (state S.Store conn.old) v → AreKnown known.now v → Some config ≡ config_of v bucket.now) }
    ensures open { IsOpenIfOk S.Store conn.new result }
    ensures read { OnlyReads S.Store conn.old conn.new }
{
    match known.config(bucket) {
        Ok(Some(config)) => Ok(config),
        Ok(None) => ask_config(conn, bucket),
        Err(_) => Err(Error::SqliteFailure(ErrorCode::OutOfMemory)),
    }
}

/// The sums of a department; those of one that isn't there are 0.
pub fn read_sums<S: Alter>(
    conn: &mut Connection<S>,
    known: &Known,
    dept: &DeptName,
) -> Result<Row, Error>
    requires { IsOpen S.Store conn.old }
    ensures value { HasCleanDisk (state S.Store conn.new) → IfOk result (λ row. (v : Vault) → Keeps (state S.Store conn.old) v → AreKnown known.now v → IsRowFor v dept.now row) }
    ensures open { IsOpenIfOk S.Store conn.new result }
    ensures read { OnlyReads S.Store conn.old conn.new }
{
    match known.sums(dept) {
        Some(sums) => Ok(sums),
        None => read_totals(conn, dept),
    }
}

/// The configuration of an entry's bucket, the sums of its department, and the head of its key.
#[derive(Drop)]
pub struct EntryContext {
    pub config: BucketConfig,
    pub sums: Row,
    pub head: Option<Head>,
}

/// Reads that; an error where there is no such bucket.
pub fn read_context<S: Alter>(
    conn: &mut Connection<S>,
    known: &Known,
    bucket: &BucketName,
    key: &ObjectKey,
) -> Result<EntryContext, Error>
    requires { IsOpen S.Store conn.old }
    ensures value { HasCleanDisk (state S.Store conn.new) → IfOk result (λ place. (v : Vault) → Keeps (state S.Store conn.old) v → AreKnown known.now v
        → (Some place.config ≡ config_of v bucket.now) × IsRowFor v place.config.dept place.sums × (place.head ≡ head_of v bucket.now key.now)) }
    ensures open { IsOpenIfOk S.Store conn.new result }
    ensures read { OnlyReads S.Store conn.old conn.new }
{
    let config = read_config(conn, known, bucket)?;
    let sums = read_sums(conn, known, &config.dept)?;
    let head = read_head(conn, bucket, key)?;
    Ok(EntryContext { config, sums, head })
}
