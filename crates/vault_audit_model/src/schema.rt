//! The schema versions of the schema.
ghost use Rattle.std.specs.Prelude.{◌≡◌};
ghost use Rattle.vault_audit_model.specs.SchemaVersions as spec;

/// A schema version of the schema. New vaults have the third, or the fourth where they register contents that are kept
/// outside; a file with an earlier one is not opened, and may be migrated.
#[derive(Clone, Copy, Debug, PartialEq, Eq)]
pub enum SchemaVersion {
    First,
    /// Rules have bounds of sizes.
    Second,
    /// Versions have tenures, the moves of buckets are counted, and the held entries of a key are found by an index.
    Third,
    /// Bytes of versions may be kept outside, and a vault has its place in a list of commands.
    Fourth,
}

/// The newest schema version: no other has a table or a column that it lacks.
pub const NEWEST: SchemaVersion = SchemaVersion::Fourth;

impl SchemaVersion {
    /// The number of the schema, as `meta` has it.
    pub fn number(self) -> u64
        ensures { result ≡ spec.number_of self }
    {
        match self {
            SchemaVersion::First => 1,
            SchemaVersion::Second => 2,
            SchemaVersion::Third => 3,
            SchemaVersion::Fourth => 4,
        }
    }

    /// Whether its vaults register contents that are kept outside.
    pub fn is_external(self) -> bool
        ensures { result ≡ spec.is_external self }
    {
        matches!(self, SchemaVersion::Fourth)
    }

    /// That of a vault's file, new or opened: it follows from whether the vault registers such contents.
    pub fn of(external: bool) -> SchemaVersion
        ensures { result ≡ spec.edition_of external }
    {
        if external {
            SchemaVersion::Fourth
        } else {
            SchemaVersion::Third
        }
    }
}
