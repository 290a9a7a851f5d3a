//! Which vault a store stood for when it was opened. Only proofs read it: it takes no memory and no time.

ghost use Rattle.std.specs.Prelude.{◌≡◌};
ghost use Rattle.sqlite.specs.Held.{state};
ghost use Rattle.sqlite.specs.State.{HasCleanDisk};
ghost use Rattle.vault_core_model.specs.Vault.{Vault};
ghost use Rattle.vault_audit_model.specs.Spells.{AreSound};
ghost use Rattle.vault_store.specs.Opening.{AreSomeVault, IsKnown, IsKnown-prop, noted_vault};

use http_server::Log;
use sqlite::{Alter, Connection};

/// A connection as it was when its tables were found sound.
#[derive(Drop)]
pub struct Opening<S: Alter> {
    pub at: Log<Connection<S>, bool>,
    pub ghost known: { IsKnown S.Store at.items } by { IsKnown-prop S.Store at.items },
}

/// The connection as it stands, whose tables are sound.
pub fn remember<S: Alter>(conn: &Connection<S>) -> Opening<S>
    requires { HasCleanDisk (state S.Store conn.now) → AreSomeVault (state S.Store conn.now).now }
    ensures { HasCleanDisk (state S.Store conn.now) → (v : Vault) → AreSound (state S.Store conn.now).now v → noted_vault S.Store result.at.items result.known ≡ v }
{
    Opening {
        at: Log::new().and(conn, &true),
    }
}
