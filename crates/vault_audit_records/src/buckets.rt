//! Whether the rows of `buckets` are buckets by rising name.
ghost use Rattle.std.specs.Prelude.{◌↔◌, IsTrue, IfOk, IfErr};
ghost use Rattle.sqlite.specs.State.{HasCleanDisk};
ghost use Rattle.sqlite.specs.Held.{state};
ghost use Rattle.vault_audit_records.specs.RulesByPlace.{IsAfter, DecidesBucketRows};
ghost use Rattle.vault_audit_rows.specs.Health.{IsHealthy, IsMemory, IsOfSchemaVersion, OnlyLooks};

use sqlite::{Alter, Connection, Error, ErrorCode, Row};
use std::marker::Model;
use vault_audit_model::schema::SchemaVersion;
use vault_audit_rows::misread::Misread;
use vault_audit_rows::records::read_bucket;
use vault_audit_rows::walk::{Pass, walk};
use vault_audit_schema::{buckets_columns, select_text};
use vault_base::name::BucketName;

/// Whether a name comes after another, or there is no other.
pub(crate) fn is_after(before: &Option<BucketName>, name: &BucketName) -> bool
    ensures { IsTrue result ↔ IsAfter before.now name.now }
{
    match before {
        None => true,
        Some(before) => before < name,
    }
}

/// The check of buckets by rising name.
#[derive(Drop)]
pub struct BucketPass {
    last: Option<BucketName>,
}

impl Model for BucketPass {
    ghost use Rattle.std.specs.Prelude.{ℕ, List, Option};

    ghost Value = { Option (List ℕ) };

    ghost view = { λ p. p.last };
}

impl Pass for BucketPass {
    ghost use Rattle.vault_audit_rows.specs.Pass.{Takes, Refuses};
    ghost use Rattle.vault_audit_model.specs.Rows.{bucket_row};
    ghost use Rattle.vault_audit_records.specs.RulesByPlace.{IsNextBucket, with_bucket};

    ghost goes = { λ p row q. Takes bucket_row IsNextBucket with_bucket p row q };

    ghost stops = { λ p row. Refuses bucket_row IsNextBucket with_bucket p row };

    #[tactic(auto, using(crate::proofs::RuleRowLemmas::one_bucket))]
    fn take(&mut self, row: &Row) -> Result<bool, Error> {
        let bucket = match read_bucket(row) {
            Ok(bucket) => bucket,
            Err(Misread::Wrong) => return Ok(false),
            Err(Misread::Memory) => return Err(Error::SqliteFailure(ErrorCode::OutOfMemory)),
        };
        if !is_after(&self.last, &bucket.name) {
            drop(bucket);
            return Ok(false);
        }
        self.last = Some(bucket.name);
        Ok(true)
    }
}

/// Whether the rows of `buckets` hold buckets in their limits, of which no two have one name.
pub(crate) fn are_buckets<S: Alter>(
    conn: &mut Connection<S>,
    schema_version: SchemaVersion,
) -> Result<bool, Error>
    requires { IsOfSchemaVersion S.Store conn.old schema_version }
    ensures reported { HasCleanDisk (state S.Store conn.new) → IfOk result (DecidesBucketRows (state S.Store conn.new).now) }
    ensures look { OnlyLooks S.Store conn.old conn.new result }
    ensures err { IsHealthy (state S.Store conn.new) → IfErr result IsMemory }
{
    let mut pass = BucketPass { last: None };
    walk(
        conn,
        buckets_columns!(select_text, " ORDER BY name"),
        &mut pass,
    )
}
