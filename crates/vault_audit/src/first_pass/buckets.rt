//! The first look at `buckets`: its rows hold records, with values in their limits.
ghost use Rattle.std.specs.Prelude.{◌≡◌, false, IfOk, IfErr};
ghost use Rattle.sqlite.specs.State.{HasCleanDisk};
ghost use Rattle.sqlite.specs.Held.{state};
ghost use Rattle.vault_base.specs.declared.refusal.Table.TheVariants as table;
ghost use Rattle.vault_core_model.specs.Vault.{Vault};
ghost use Rattle.vault_audit_model.specs.Spells.{AreSoundAs};
ghost use Rattle.vault_audit_schema.specs.Places.{BeginTo};
ghost use Rattle.vault_audit.specs.InOrder.{AreRowsRight};
ghost use Rattle.vault_audit_rows.specs.Health.{IsHealthy, IsMemory, OnlyLooks};

use crate::first_pass::record::{Record, check_table};
use sqlite::{Alter, Connection, Error, Row};
use vault_audit_model::rows::BucketRow;
use vault_audit_model::schema::SchemaVersion;
use vault_audit_rows::misread::Misread;
use vault_audit_rows::records::read_bucket;
use vault_audit_schema::{buckets_columns, select_text};

impl Record for BucketRow {
    ghost use Rattle.std.specs.Prelude.{[], refl, ⊤};
    ghost use Rattle.vault_base.specs.declared.refusal.Table.TheVariants as table;
    ghost use Rattle.vault_audit_model.specs.Limits.{IsBucketRow};
    ghost use Rattle.vault_audit_model.specs.Rows.{bucket_row, bucket_columns};
    ghost use Rattle.vault_audit_model.specs.Tables.{buckets, buckets_tree};
    ghost use Rattle.vault_audit_schema.specs.Texts.{select_text};
    ghost use Rattle.vault_audit.specs.BucketLaws.{bucket_shows_all, bucket_unsound};

    ghost table = { table.Buckets };

    ghost tree = { buckets_tree };

    ghost has_table = { λ _. ⊤ };

    ghost as_row = { bucket_row };

    ghost is_in_limits = { λ _. IsBucketRow };

    ghost columns = { λ _. bucket_columns };

    ghost select = { λ _. select_text buckets [] };

    fn select(_: SchemaVersion) -> &'static str {
        buckets_columns!(select_text)
    }

    fn read(row: &Row, _: SchemaVersion) -> Result<BucketRow, Misread> {
        read_bucket(row)
    }

    ghost shows_all = { bucket_shows_all };

    ghost bare = { λ trees. refl };

    ghost unsound = { bucket_unsound };
}

/// Whether each row of `buckets` holds a record in its limits.
pub fn check_buckets<S: Alter>(
    conn: &mut Connection<S>,
    schema_version: SchemaVersion,
) -> Result<bool, Error>
    requires { HasCleanDisk (state S.Store conn.old) → BeginTo schema_version (state S.Store conn.old).now.schema.tables table.Buckets }
    ensures reported { HasCleanDisk (state S.Store conn.new) → IfOk result (AreRowsRight schema_version (state S.Store conn.new).now table.Buckets) }
    ensures damaged { HasCleanDisk (state S.Store conn.new) → IfOk result (λ stated. stated ≡ false → (v : Vault) → ¬ AreSoundAs schema_version (state S.Store conn.new).now v) }
    ensures look { OnlyLooks S.Store conn.old conn.new result }
    ensures err { IsHealthy (state S.Store conn.new) → IfErr result IsMemory }
{
    check_table::<S, BucketRow>(conn, schema_version)
}
