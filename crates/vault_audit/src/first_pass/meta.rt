//! The first look at `meta`: it is one row, of the schema's number.
ghost use Rattle.std.specs.Prelude.{◌≡◌, codes, None, IfOk, IfErr};
ghost use Rattle.sqlite.specs.State.{HasCleanDisk};
ghost use Rattle.sqlite.specs.Held.{state};
ghost use Rattle.vault_core_model.specs.Vault.{Vault};
ghost use Rattle.vault_audit_model.specs.Spells.{AreSoundAs};
ghost use Rattle.vault_audit_records.specs.Meta.{IsMetaOf};
ghost use Rattle.vault_base.specs.declared.refusal.Table.TheVariants as table;
ghost use Rattle.vault_audit_schema.specs.Places.{BeginTo};
ghost use Rattle.vault_audit_schema.specs.Selects.{meta_select};
ghost use Rattle.vault_audit_rows.specs.Health.{IsHealthy, IsMemory, OnlyLooks};

use sqlite::{Alter, Connection, Error};
use vault_audit_model::rows::MetaRow;
use vault_audit_model::schema::SchemaVersion;
use vault_audit_records::meta::row::MetaPass;
use vault_audit_rows::walk::walk;
use vault_audit_schema::{earlier_select_text, meta_columns, select_text, third_select_text};

/// The query for the rows of `meta`. Where a schema version has no columns for them, no bucket was moved, and no list of
/// commands is followed.
fn meta_query(schema_version: SchemaVersion) -> &'static str
    ensures { result.now ≡ meta_select schema_version (codes " ORDER BY one") }
{
    match schema_version {
        SchemaVersion::First | SchemaVersion::Second => meta_columns!(
            earlier_select_text,
            " ORDER BY one"
        ),
        SchemaVersion::Third => meta_columns!(third_select_text, " ORDER BY one"),
        SchemaVersion::Fourth => meta_columns!(select_text, " ORDER BY one"),
    }
}

/// The one row of `meta`, or none where it isn't one row that holds a moment, an id and a number of moves.
pub fn check_meta<S: Alter>(
    conn: &mut Connection<S>,
    schema_version: SchemaVersion,
) -> Result<Option<MetaRow>, Error>
    requires { HasCleanDisk (state S.Store conn.old) → BeginTo schema_version (state S.Store conn.old).now.schema.tables table.Meta }
    ensures reported { HasCleanDisk (state S.Store conn.new) → IfOk result (IsMetaOf schema_version (state S.Store conn.new).now) }
    ensures damaged { HasCleanDisk (state S.Store conn.new) → IfOk result (λ found. found ≡ None → (v : Vault) → ¬ AreSoundAs schema_version (state S.Store conn.new).now v) }
    ensures look { OnlyLooks S.Store conn.old conn.new result }
    ensures err { IsHealthy (state S.Store conn.new) → IfErr result IsMemory }
{
    let mut pass = MetaPass {
        schema_version,
        found: None,
    };
    let one = walk(conn, meta_query(schema_version), &mut pass)?;
    if !one {
        return Ok(None);
    }
    Ok(pass.found)
}
