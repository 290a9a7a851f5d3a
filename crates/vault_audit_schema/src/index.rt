//! The indexes of the tables: those that the tables bring, and one that is made for itself.

ghost use Rattle.std.specs.Prelude.{◌≡◌, map};
ghost use Rattle.vault_audit_model.specs.Tables.{schema_of};
ghost use Rattle.vault_audit_schema.specs.Forms.{index_of};

use crate::compare::Form;
use crate::table::{
    BUCKETS, CALLERS, DEPARTMENTS, ENTRIES, HEADS, INTAKE, RULES, SETTINGS, TENURES, TableForm,
};
use sqlite_schema::schema::Index;
use sqlite_value::keys::Order;
use vault_audit_model::schema::SchemaVersion;

/// The index of the places by which a table's rows are found.
#[derive(Clone, Copy, Debug)]
pub(crate) struct IndexForm {
    /// The table that it is on.
    pub(crate) of: TableForm,
    pub(crate) name: &'static str,
    pub(crate) tree: u32,
    pub(crate) places: &'static [usize],
    pub(crate) order: Order,
    /// Whether it distinguishes the rows, as one that its table brings does.
    pub(crate) is_unique: bool,
}

/// The index that a table brings, by whose places its rows are distinguished or found. Its tree follows the table's.
macro_rules! brought_by {
    ($table:ident, $name:literal, $places:expr) => {
        IndexForm {
            of: $table,
            name: concat!("sqlite_autoindex_", $name, "_1"),
            tree: $table.tree + 1,
            places: $places,
            order: Order::PLAIN,
            is_unique: true,
        }
    };
}

/// The entries of a key by their removals, the latest first: of its three places the last descends.
const ENTRIES_HELD: IndexForm = IndexForm {
    of: ENTRIES,
    name: "entries_held",
    tree: 20,
    places: &[2, 3, 10],
    order: Order { digits: 64 },
    is_unique: false,
};

/// The indexes in the order in which they are made, the last two since the third schema version.
static INDEXES: [IndexForm; 10] = [
    brought_by!(DEPARTMENTS, "departments", &[1]),
    brought_by!(CALLERS, "callers", &[1]),
    brought_by!(BUCKETS, "buckets", &[1]),
    brought_by!(RULES, "rules", &[1, 2]),
    brought_by!(ENTRIES, "entries", &[2, 3, 0]),
    brought_by!(SETTINGS, "settings", &[1, 2]),
    brought_by!(INTAKE, "intake", &[1, 2, 3]),
    brought_by!(HEADS, "heads", &[1, 2]),
    brought_by!(TENURES, "tenures", &[1, 2]),
    ENTRIES_HELD,
];

/// The indexes of a schema version, in the order in which they are made.
pub(crate) fn indexes_of(schema_version: SchemaVersion) -> &'static [IndexForm]
    ensures { map index_of result.now ≡ (schema_of schema_version).indexes }
{
    match schema_version {
        SchemaVersion::First | SchemaVersion::Second => &INDEXES[..8],
        SchemaVersion::Third | SchemaVersion::Fourth => &INDEXES,
    }
}

impl Form<Index> for IndexForm {
    ghost shape = { index_of };

    fn is_form_of(&self, part: &Index) -> bool {
        part.name.as_slice() == self.name.as_bytes()
            && part.tree == self.tree
            && part.table == self.of.tree
            && part.columns.as_slice() == self.places
            && part.order == self.order
            && part.is_unique == self.is_unique
    }
}
