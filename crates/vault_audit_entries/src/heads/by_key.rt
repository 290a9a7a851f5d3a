//! Whether the rows of `heads` are heads by rising bucket and key, each of a held entry of its key.
ghost use Rattle.std.specs.Prelude.{◌≡◌, ◌≢◌, ◌↔◌, None, IsTrue, IfOk, IfErr};
ghost use Rattle.sqlite_value.specs.declared.value.Value.TheVariants.{Text};
ghost use Rattle.sqlite_value.specs.Order.{column};
ghost use Rattle.sqlite.specs.State.{HasCleanDisk};
ghost use Rattle.sqlite.specs.Held.{state};
ghost use Rattle.vault_core_model.specs.Vault.{Vault};
ghost use Rattle.vault_audit_model.specs.declared.rows.HeadRow.{HeadRow as Reported};
ghost use Rattle.vault_audit_model.specs.Limits.{IsHeadRow};
ghost use Rattle.vault_audit_model.specs.SchemaVersions.{is_external};
ghost use Rattle.vault_audit_model.specs.Spells.{AreSoundAs};
ghost use Rattle.vault_audit_model.specs.Values.{number as value};
ghost use Rattle.vault_audit_entries.specs.Heads.{headed_row, head_cmp, IsAfter, DecidesHeadRows};
ghost use Rattle.vault_audit_rows.specs.Health.{IsHealthy, IsMemory, IsOfSchemaVersion, OnlyLooks};

use sqlite::{Alter, Connection, Error, ErrorCode, Row};
use std::cmp::Ordering;
use vault_audit_model::rows::HeadRow;
use vault_audit_model::schema::SchemaVersion;
use vault_audit_rows::cell::{is_null, number, text, version_id};
use vault_audit_rows::misread::Misread;
use vault_audit_rows::name::{bucket_name, object_key};
use vault_audit_rows::walk::{Pass, walk};
use vault_core_model::records::Head;

/// The check of heads by rising bucket and key.
#[derive(Drop)]
pub struct HeadPass {
    /// The head that came last.
    pub last: Option<HeadRow>,
    /// The sum of the counts of those that came, which stops at 2^64 - 1.
    pub total: u64,
}

/// The head that the first four columns state.
fn head_in(row: &Row) -> Result<HeadRow, Misread>
    ensures names { IfOk result (λ h. (column row.now 0 ≡ Text h.bucket) × (column row.now 1 ≡ Text h.key)) }
    ensures numbers { IfOk result (λ h. (column row.now 2 ≡ value h.head.newest) × (column row.now 3 ≡ value h.head.count)) }
    ensures fits { IfOk result IsHeadRow }
    ensures wrong { IfErr result (λ e. e ≡ Misread.Wrong → (h : Reported) → IsHeadRow h → row.now ≢ headed_row h) }
{
    let newest = version_id(row, 2).ok_or(Misread::Wrong)?;
    let count = number(row, 3).ok_or(Misread::Wrong)?;
    let bucket = bucket_name(row, 0)?;
    let key = object_key(row, 1)?;
    Ok(HeadRow {
        bucket,
        key,
        head: Head { newest, count },
    })
}

/// The head that a row holds, where the entry beside it is of its bucket and key, and held.
fn read_headed(row: &Row) -> Result<HeadRow, Misread>
    ensures row { IfOk result (λ h. row.now ≡ headed_row h) }
    ensures fits { IfOk result IsHeadRow }
    ensures wrong { IfErr result (λ e. e ≡ Misread.Wrong → (h : Reported) → IsHeadRow h → row.now ≢ headed_row h) }
{
    if row.column_count() != 7 {
        return Err(Misread::Wrong);
    }
    let bucket = text(row, 4).ok_or(Misread::Wrong)?;
    let key = text(row, 5).ok_or(Misread::Wrong)?;
    if !is_null(row, 6) {
        return Err(Misread::Wrong);
    }
    let found = head_in(row)?;
    if found.bucket.as_str() != bucket {
        drop(found);
        return Err(Misread::Wrong);
    }
    if found.key.as_str() != key {
        drop(found);
        return Err(Misread::Wrong);
    }
    Ok(found)
}

/// How two heads compare: by bucket, then by key.
fn compare(first: &HeadRow, second: &HeadRow) -> Ordering
    ensures { result ≡ head_cmp first.now second.now }
{
    let key = first.key.cmp(&second.key);
    first.bucket.cmp(&second.bucket).then(key)
}

/// Whether the head comes after the last one.
fn is_after(last: &Option<HeadRow>, found: &HeadRow) -> bool
    ensures { IsTrue result ↔ IsAfter last.now found.now }
{
    match last {
        None => true,
        Some(last) => compare(last, found).is_lt(),
    }
}

impl Pass for HeadPass {
    ghost use Rattle.vault_audit_rows.specs.Pass.{Takes, Refuses};
    ghost use Rattle.vault_audit_entries.specs.Heads.{headed_row};
    ghost use Rattle.vault_audit_entries.specs.HeadPasses.{ComesAfter, with_head};

    ghost goes = { λ p row q. Takes headed_row ComesAfter with_head p row q };

    ghost stops = { λ p row. Refuses headed_row ComesAfter with_head p row };

    #[tactic(auto, using(crate::proofs::HeadRowLemmas::one_head))]
    fn take(&mut self, row: &Row) -> Result<bool, Error> {
        let found = match read_headed(row) {
            Ok(found) => found,
            Err(Misread::Wrong) => return Ok(false),
            Err(Misread::Memory) => return Err(Error::SqliteFailure(ErrorCode::OutOfMemory)),
        };
        if !is_after(&self.last, &found) {
            drop(found);
            return Ok(false);
        }
        self.total = self.total.saturating_add(found.head.count);
        self.last = Some(found);
        Ok(true)
    }
}

/// How many entries the rows of `heads` count together, up to 2^64 - 1; or none where not each states a head in its
/// limits whose newest is a held entry of its bucket and key, or two are of one key. It is meant for entries whose ids
/// are 1, 2, 3 and so on.
pub fn check_heads_by_key<S: Alter>(
    conn: &mut Connection<S>,
    schema_version: SchemaVersion,
) -> Result<Option<u64>, Error>
    requires { IsOfSchemaVersion S.Store conn.old schema_version }
    ensures reported { HasCleanDisk (state S.Store conn.new) → IfOk result (DecidesHeadRows (is_external schema_version) (state S.Store conn.new).now) }
    ensures damaged { HasCleanDisk (state S.Store conn.new) → IfOk result (λ total. total ≡ None → (v : Vault) → ¬ AreSoundAs schema_version (state S.Store conn.new).now v) }
    ensures look { OnlyLooks S.Store conn.old conn.new result }
    ensures err { IsHealthy (state S.Store conn.new) → IfErr result IsMemory }
{
    let mut pass = HeadPass {
        last: None,
        total: 0,
    };
    let whole = walk(
        conn,
        "SELECT h.bucket, h.key, h.newest, h.count, e.bucket, e.key, e.removed FROM heads AS h LEFT JOIN entries AS e ON e.id = h.newest ORDER BY h.bucket, h.key",
        &mut pass,
    )?;
    if !whole {
        return Ok(None);
    }
    Ok(Some(pass.total))
}
