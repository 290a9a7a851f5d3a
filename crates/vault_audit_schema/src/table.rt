//! The tables of each schema version, and the parts of a table that are no column.

ghost use Rattle.std.specs.Prelude.{◌≡◌, ◌↔◌, [], ◌∷◌, Some, None, IsTrue, map};
ghost use Rattle.vault_audit_model.specs.Order.{made_in};
ghost use Rattle.vault_audit_model.specs.Tables.{schema_of};
ghost use Rattle.sqlite_value.specs.Keys.{plain};
ghost use Rattle.vault_audit_schema.specs.Forms.{table_of, key_of, primary_of, uniques_of, orders_of};
ghost use Rattle.vault_audit_schema.specs.Parts.{HasKey, IsBare};

use crate::column::ColumnForm::{Has, MayHave};
use crate::column::{ColumnForm, ReferenceForm};
use crate::compare::{Form, have_forms};
use crate::{
    buckets_columns, callers_columns, contents_columns, departments_columns, entries_columns,
    external_columns, heads_columns, intake_columns, meta_columns, rules_columns, settings_columns,
    tenures_columns,
};
use sqlite_items::Items;
use sqlite_schema::schema::{self, Kind};
use sqlite_value::keys::Order;
use vault_audit_model::schema::SchemaVersion;
use vault_base::refusal::Table;

/// What distinguishes the rows of a table.
#[derive(Clone, Copy, Debug)]
pub(crate) enum KeyForm {
    /// Its first column, which is a number.
    Number,
    /// The columns at these places, counted from 1.
    Places(&'static [usize]),
    /// Its first column, which is a number; its rows are found by these places too, 0 for the number.
    NumberAnd(&'static [usize]),
}

/// A table, with the number of the tree that its rows are kept in.
#[derive(Clone, Copy, Debug)]
pub(crate) struct TableForm {
    pub(crate) table: Table,
    pub(crate) tree: u32,
    pub(crate) key: KeyForm,
    pub(crate) columns: &'static [ColumnForm],
    pub(crate) references: &'static [ReferenceForm],
    /// The statement that makes it.
    pub(crate) creation: &'static str,
}

/// The kind of a column, by its word in SQL.
macro_rules! kind {
    (INTEGER) => {
        Kind::Integer
    };
    (TEXT) => {
        Kind::Text
    };
    (BLOB) => {
        Kind::Blob
    };
}

/// The form of a column, by the words that define it.
macro_rules! column {
    ($name:ident $kind:ident NOT NULL $($more:ident)*) => {
        Has(stringify!($name), kind!($kind))
    };
    ($name:ident $kind:ident $($more:ident)*) => {
        MayHave(stringify!($name), kind!($kind))
    };
}

/// A table, by what defines its columns: its form, and the statement that makes it.
macro_rules! table {
    (
        $title:ident(
            $first:ident $first_kind:ident $($first_word:ident)* $(($first_at:ident))?
            $(, $name:ident $kind:ident $($word:ident)* $(($at:ident))?)*
            $(; $later:ident $later_kind:ident $($later_word:ident)* = $absent:tt)*
            $(| $newest:ident $newest_kind:ident $($newest_word:ident)* = $none:tt)*
        ),
        $table:expr, $tree:expr, $key:expr, $references:expr $(, $constraint:expr)?
    ) => {
        TableForm {
            table: $table,
            tree: $tree,
            key: $key,
            columns: &[
                column!($first $first_kind $($first_word)*)
                $(, column!($name $kind $($word)*))*
                $(, column!($later $later_kind $($later_word)*))*
                $(, column!($newest $newest_kind $($newest_word)*))*
            ],
            references: $references,
            creation: concat!(
                "CREATE TABLE ", stringify!($title), " (",
                stringify!($first), " ", stringify!($first_kind),
                $(" ", stringify!($first_word),)* $(" (", stringify!($first_at), ")",)?
                $(
                    ", ", stringify!($name), " ", stringify!($kind),
                    $(" ", stringify!($word),)* $(" (", stringify!($at), ")",)?
                )*
                $(
                    ", ", stringify!($later), " ", stringify!($later_kind),
                    $(" ", stringify!($later_word),)*
                )*
                $(
                    ", ", stringify!($newest), " ", stringify!($newest_kind),
                    $(" ", stringify!($newest_word),)*
                )*
                $(", ", $constraint,)? ") STRICT"
            ),
        }
    };
}

/// The same of schema versions that lack the later columns.
macro_rules! earlier_table {
    (
        $title:ident(
            $first:ident $first_kind:ident $($first_word:ident)* $(($first_at:ident))?
            $(, $name:ident $kind:ident $($word:ident)* $(($at:ident))?)*
            $(; $later:ident $later_kind:ident $($later_word:ident)* = $absent:tt)*
            $(| $newest:ident $newest_kind:ident $($newest_word:ident)* = $none:tt)*
        )
        $(, $more:expr)*
    ) => {
        table!(
            $title(
                $first $first_kind $($first_word)* $(($first_at))?
                $(, $name $kind $($word)* $(($at))?)*
            )
            $(, $more)*
        )
    };
}

/// The same of the third schema version, which lacks the columns of the fourth.
macro_rules! third_table {
    (
        $title:ident(
            $first:ident $first_kind:ident $($first_word:ident)* $(($first_at:ident))?
            $(, $name:ident $kind:ident $($word:ident)* $(($at:ident))?)*
            $(; $later:ident $later_kind:ident $($later_word:ident)* = $absent:tt)*
            $(| $newest:ident $newest_kind:ident $($newest_word:ident)* = $none:tt)*
        )
        $(, $more:expr)*
    ) => {
        table!(
            $title(
                $first $first_kind $($first_word)* $(($first_at))?
                $(, $name $kind $($word)* $(($at))?)*
                $(; $later $later_kind $($later_word)* = $absent)*
            )
            $(, $more)*
        )
    };
}

/// A column, by its number, that refers to a column of another table.
macro_rules! refers {
    ($at:literal, $parent:ident, $column:literal) => {
        ReferenceForm {
            at: $at,
            parent: Table::$parent,
            column: $column,
        }
    };
}

/// `meta` of the first two schema versions.
const FIRST_META: TableForm = meta_columns!(earlier_table, Table::Meta, 0, KeyForm::Number, &[]);

/// `meta` of the third schema version.
pub(crate) const THIRD_META: TableForm = meta_columns!(
    third_table,
    Table::Meta,
    0,
    KeyForm::Number,
    &[]
);

pub(crate) const META: TableForm = meta_columns!(table, Table::Meta, 0, KeyForm::Number, &[]);

/// The departments of the first two schema versions.
const FIRST_DEPARTMENTS: TableForm = departments_columns!(
    earlier_table,
    Table::Departments,
    1,
    KeyForm::Places(&[1]),
    &[],
    "PRIMARY KEY (name)"
);

pub(crate) const DEPARTMENTS: TableForm = departments_columns!(
    table,
    Table::Departments,
    1,
    KeyForm::Places(&[1]),
    &[],
    "PRIMARY KEY (name)"
);

pub(crate) const CALLERS: TableForm = callers_columns!(
    table,
    Table::Callers,
    3,
    KeyForm::Places(&[1]),
    &[refers!(2, Departments, "name")],
    "PRIMARY KEY (name)"
);

pub(crate) const BUCKETS: TableForm = buckets_columns!(
    table,
    Table::Buckets,
    5,
    KeyForm::Places(&[1]),
    &[refers!(2, Departments, "name")],
    "PRIMARY KEY (name)"
);

/// The rules of the first schema version.
const FIRST_RULES: TableForm = rules_columns!(
    earlier_table,
    Table::Rules,
    7,
    KeyForm::Places(&[1, 2]),
    &[refers!(1, Buckets, "name")],
    "PRIMARY KEY (bucket, n)"
);

pub(crate) const RULES: TableForm = rules_columns!(
    table,
    Table::Rules,
    7,
    KeyForm::Places(&[1, 2]),
    &[refers!(1, Buckets, "name")],
    "PRIMARY KEY (bucket, n)"
);

pub(crate) const ENTRIES: TableForm = entries_columns!(
    table,
    Table::Entries,
    9,
    KeyForm::NumberAnd(&[2, 3, 0]),
    &[refers!(2, Buckets, "name")],
    "UNIQUE (bucket, key, id)"
);

pub(crate) const CONTENTS: TableForm = contents_columns!(
    table,
    Table::Contents,
    11,
    KeyForm::Number,
    &[refers!(0, Entries, "id")]
);

pub(crate) const SETTINGS: TableForm = settings_columns!(
    table,
    Table::Settings,
    12,
    KeyForm::Places(&[1, 2]),
    &[refers!(1, Entries, "id")],
    "PRIMARY KEY (id, n)"
);

pub(crate) const INTAKE: TableForm = intake_columns!(
    table,
    Table::Intake,
    14,
    KeyForm::Places(&[1, 2, 3]),
    &[refers!(1, Buckets, "name"), refers!(10, Entries, "id")],
    "PRIMARY KEY (bucket, batch, line)"
);

pub(crate) const HEADS: TableForm = heads_columns!(
    table,
    Table::Heads,
    16,
    KeyForm::Places(&[1, 2]),
    &[refers!(1, Buckets, "name"), refers!(3, Entries, "id")],
    "PRIMARY KEY (bucket, key)"
);

pub(crate) const TENURES: TableForm = tenures_columns!(
    table,
    Table::Tenures,
    18,
    KeyForm::Places(&[1, 2]),
    &[refers!(1, Entries, "id"), refers!(3, Departments, "name")],
    "PRIMARY KEY (id, n)"
);

pub(crate) const EXTERNAL: TableForm = external_columns!(
    table,
    Table::External,
    21,
    KeyForm::Number,
    &[refers!(0, Entries, "id")]
);

/// The tables in the order in which they are made: those of which schema versions have forms of their own, between the others,
/// and after them those that a schema version has besides.
macro_rules! tables {
    ($meta:ident, $departments:ident, $rules:ident $(, $later:ident)*) => {
        [
            $meta, $departments, CALLERS, BUCKETS, $rules, ENTRIES, CONTENTS, SETTINGS, INTAKE, HEADS,
            $($later),*
        ]
    };
}

static FIRST_TABLES: [TableForm; 10] = tables!(FIRST_META, FIRST_DEPARTMENTS, FIRST_RULES);

static SECOND_TABLES: [TableForm; 10] = tables!(FIRST_META, FIRST_DEPARTMENTS, RULES);

static THIRD_TABLES: [TableForm; 11] = tables!(THIRD_META, DEPARTMENTS, RULES, TENURES);

static FOURTH_TABLES: [TableForm; 12] = tables!(META, DEPARTMENTS, RULES, TENURES, EXTERNAL);

/// The tables of a schema version, in the order in which they are made.
pub(crate) fn tables_of(schema_version: SchemaVersion) -> &'static [TableForm]
    ensures forms { map table_of result.now ≡ (schema_of schema_version).tables }
    ensures names { map (λ form. form.table) result.now ≡ made_in schema_version }
{
    match schema_version {
        SchemaVersion::First => &FIRST_TABLES,
        SchemaVersion::Second => &SECOND_TABLES,
        SchemaVersion::Third => &THIRD_TABLES,
        SchemaVersion::Fourth => &FOURTH_TABLES,
    }
}

fn is_one_unique(uniques: &[Items<usize>], places: &[usize]) -> bool
    ensures { IsTrue result ↔ (uniques.now ≡ places.now ∷ []) }
{
    match uniques {
        [only] => only.as_slice() == places,
        _ => false,
    }
}

fn is_one_plain_order(orders: &[Order]) -> bool
    ensures { IsTrue result ↔ (orders.now ≡ plain ∷ []) }
{
    match orders {
        [only] => *only == Order::PLAIN,
        _ => false,
    }
}

fn has_number(it: &schema::Table) -> bool
    ensures { IsTrue result ↔ HasKey it.now (Some 0) (0 ∷ []) [] [] }
{
    it.key == Some(0)
        && it.primary.as_slice() == [0usize].as_slice()
        && it.uniques.is_empty()
        && it.orders.is_empty()
}

fn has_places(it: &schema::Table, places: &[usize]) -> bool
    ensures { IsTrue result ↔ HasKey it.now None places.now (places.now ∷ []) (plain ∷ []) }
{
    it.key == None
        && it.primary.as_slice() == places
        && is_one_unique(it.uniques.as_slice(), places)
        && is_one_plain_order(it.orders.as_slice())
}

fn has_number_and(it: &schema::Table, places: &[usize]) -> bool
    ensures { IsTrue result ↔ HasKey it.now (Some 0) (0 ∷ []) (places.now ∷ []) (plain ∷ []) }
{
    it.key == Some(0)
        && it.primary.as_slice() == [0usize].as_slice()
        && is_one_unique(it.uniques.as_slice(), places)
        && is_one_plain_order(it.orders.as_slice())
}

/// Whether this is what distinguishes the rows of the table.
fn has_key(it: &schema::Table, key: KeyForm) -> bool
    ensures { IsTrue result ↔ HasKey it.now (key_of key) (primary_of key) (uniques_of key) (orders_of key) }
{
    match key {
        KeyForm::Number => has_number(it),
        KeyForm::Places(places) => has_places(it, places),
        KeyForm::NumberAnd(places) => has_number_and(it, places),
    }
}

/// Whether a table has no CHECK, no computed default and no count.
fn is_bare(it: &schema::Table) -> bool
    ensures { IsTrue result ↔ IsBare it.now }
{
    it.checks.roots.is_empty()
        && it.computed.is_empty()
        && it.stamps.places.is_empty()
        && it.stamps.terms.roots.is_empty()
        && it.stamps.formats.is_empty()
        && !it.is_counted
}

impl Form<schema::Table> for TableForm {
    ghost shape = { table_of };

    fn is_form_of(&self, part: &schema::Table) -> bool {
        part.name.as_slice() == self.table.name().as_bytes()
            && part.tree == self.tree
            && have_forms(part.columns.as_slice(), self.columns)
            && have_forms(part.references.as_slice(), self.references)
            && has_key(part, self.key)
            && is_bare(part)
    }
}
