//! Laws of a connection to the tables. Each hands on what a connection promises, and reads no row.
ghost use Rattle.std.specs.Prelude.{◌≡◌, IsTrue};
ghost use Rattle.sqlite.specs.Held.{state};
ghost use Rattle.sqlite.specs.State.{IsLive};
ghost use Rattle.vault_audit_model.specs.Tables.{schema_of};
ghost use Rattle.vault_audit_laws.specs.Ties.{AreTied};

use sqlite::{Alter, Connection};
use vault_audit_model::schema::SchemaVersion;

/// The tables of an open connection obey their schema, and so do those of its last commit.
pub fn tables_obey_their_schema<S: Alter>(conn: &Connection<S>)
    ensures { IsLive (state S.Store conn.now) }
{
    let _schema = conn.schema();
}

/// A connection keeps the foreign keys of its schema. So in a file with a vault's schema, what a row names
/// is in its table.
pub fn references_hold<S: Alter>(conn: &Connection<S>, schema_version: SchemaVersion)
    ensures { IsTrue (state S.Store conn.now).is_open → (state S.Store conn.now).now.schema ≡ schema_of schema_version → AreTied schema_version (state S.Store conn.now).now }
{
    tables_obey_their_schema(conn);
}
