//! The query for the rows of `departments`, by schema version.
ghost use Rattle.std.specs.Prelude.{◌≡◌, []};
ghost use Rattle.vault_audit_schema.specs.Selects.{departments_select};

use vault_audit_model::schema::SchemaVersion;
use vault_audit_schema::{departments_columns, earlier_select_text, select_text};

/// The query for all departments. What a schema version has no column for is 0.
pub fn departments_query(schema_version: SchemaVersion) -> &'static str
    ensures { result.now ≡ departments_select schema_version [] }
{
    match schema_version {
        SchemaVersion::First | SchemaVersion::Second => departments_columns!(earlier_select_text),
        SchemaVersion::Third | SchemaVersion::Fourth => departments_columns!(select_text),
    }
}
