//! The statements that read the tables of a schema version, and that put rows into those of a new vault.
ghost use Rattle.std.specs.Prelude.{◌≡◌, []};
ghost use Rattle.vault_store_create.specs.Listings.{meta_listing, tenures_listing, listing_of, putting_of};
ghost use Rattle.vault_audit_schema.specs.Selects.{departments_select, rules_select};

use vault_audit_model::schema::SchemaVersion;
use vault_audit_schema::{
    buckets_columns, callers_columns, contents_columns, departments_columns, earlier_select_text,
    entries_columns, external_columns, heads_columns, insert_text, intake_columns, meta_columns,
    rules_columns, select_text, settings_columns, tenures_columns, third_insert_text,
};
use vault_base::refusal::Table;

/// The query for the row of `meta` with this number of the schema version, this for the number of moves, the place 0, and 1
/// for done.
macro_rules! meta_query {
    ($number:tt, $moves:tt) => {
        concat!(
            "SELECT one, ",
            stringify!($number),
            ", last, next, ",
            stringify!($moves),
            ", 0, 1 FROM meta"
        )
    };
}

/// The query for the row of `meta`, with the number of the new vault's schema version. Where a schema version has no number
/// of moves, there was none.
fn meta_listing(external: bool, schema_version: SchemaVersion) -> &'static str
    ensures { result.now ≡ meta_listing external schema_version }
{
    match (external, schema_version) {
        (false, SchemaVersion::First | SchemaVersion::Second) => meta_query!(3, 0),
        (false, SchemaVersion::Third | SchemaVersion::Fourth) => meta_query!(3, moves),
        (true, SchemaVersion::First | SchemaVersion::Second) => meta_query!(4, 0),
        (true, SchemaVersion::Third | SchemaVersion::Fourth) => meta_query!(4, moves),
    }
}

/// The query for the departments. Where a schema version has no columns for them, no bytes came or went with a
/// bucket.
fn departments_listing(schema_version: SchemaVersion) -> &'static str
    ensures { result.now ≡ departments_select schema_version [] }
{
    match schema_version {
        SchemaVersion::First | SchemaVersion::Second => departments_columns!(earlier_select_text),
        SchemaVersion::Third | SchemaVersion::Fourth => departments_columns!(select_text),
    }
}

/// The query for the tenures. Where a schema version has no table for them, each version has been its bucket's
/// department's since its admission.
fn tenures_listing(schema_version: SchemaVersion) -> &'static str
    ensures { result.now ≡ tenures_listing schema_version }
{
    match schema_version {
        SchemaVersion::First | SchemaVersion::Second => {
            "SELECT e.id, 0, b.dept, e.admitted FROM entries AS e JOIN buckets AS b ON b.name = e.bucket WHERE e.marker = 0"
        }
        SchemaVersion::Third | SchemaVersion::Fourth => tenures_columns!(select_text),
    }
}

/// The query for the rules. What a schema version has no column for is NULL.
fn rules_listing(schema_version: SchemaVersion) -> &'static str
    ensures { result.now ≡ rules_select schema_version [] }
{
    match schema_version {
        SchemaVersion::First => rules_columns!(earlier_select_text),
        SchemaVersion::Second | SchemaVersion::Third | SchemaVersion::Fourth => {
            rules_columns!(select_text)
        },
    }
}

/// The query for the rows of a table of a schema version, each as the newest schema version has it.
pub(crate) fn listing(external: bool, schema_version: SchemaVersion, table: Table) -> &'static str
    ensures { result.now ≡ listing_of external schema_version table }
{
    match table {
        Table::Meta => meta_listing(external, schema_version),
        Table::Departments => departments_listing(schema_version),
        Table::Callers => callers_columns!(select_text),
        Table::Buckets => buckets_columns!(select_text),
        Table::Rules => rules_listing(schema_version),
        Table::Entries => entries_columns!(select_text),
        Table::Contents => contents_columns!(select_text),
        Table::Settings => settings_columns!(select_text),
        Table::Intake => intake_columns!(select_text),
        Table::Heads => heads_columns!(select_text),
        Table::Tenures => tenures_listing(schema_version),
        Table::External => external_columns!(select_text),
    }
}

/// The statement that puts a row into `meta`.
fn meta_putting(external: bool) -> &'static str
    ensures { result.now ≡ putting_of external Table.Meta }
{
    if external {
        return meta_columns!(insert_text);
    }
    meta_columns!(third_insert_text)
}

/// The statement that puts a row into a table of a new vault.
pub(crate) fn putting(external: bool, table: Table) -> &'static str
    ensures { result.now ≡ putting_of external table }
{
    match table {
        Table::Meta => meta_putting(external),
        Table::Departments => departments_columns!(insert_text),
        Table::Callers => callers_columns!(insert_text),
        Table::Buckets => buckets_columns!(insert_text),
        Table::Rules => rules_columns!(insert_text),
        Table::Entries => entries_columns!(insert_text),
        Table::Contents => contents_columns!(insert_text),
        Table::Settings => settings_columns!(insert_text),
        Table::Intake => intake_columns!(insert_text),
        Table::Heads => heads_columns!(insert_text),
        Table::Tenures => tenures_columns!(insert_text),
        Table::External => external_columns!(insert_text),
    }
}
