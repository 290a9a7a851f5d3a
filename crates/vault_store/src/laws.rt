//! What holds of every connection, handed on from what a connection promises.
ghost use Rattle.std.specs.Prelude.{◌≡◌, false};
ghost use Rattle.sqlite.specs.Held.{state};
ghost use Rattle.vault_store.specs.Tables.{IsAtRest};

use sqlite::{Alter, Connection};
use vault_audit_laws::connection::tables_obey_their_schema;

/// Outside a transaction all is committed, and the tables obey their schema.
pub(crate) fn connection_is_at_rest<S: Alter>(conn: &Connection<S>)
    ensures { conn.now.in_transaction ≡ false → IsAtRest (state S.Store conn.now) }
{
    tables_obey_their_schema(conn);
    let _settled = conn.is_autocommit();
}
