//! The first look at `entries`: its rows hold entries, none after the last moment.
ghost use Rattle.std.specs.Prelude.{◌≡◌, false, map, IfOk, IfErr};
ghost use Rattle.sqlite.specs.State.{HasCleanDisk};
ghost use Rattle.sqlite.specs.Held.{state};
ghost use Rattle.vault_audit_rows.specs.Records.{AreRecords};
ghost use Rattle.vault_audit_model.specs.Tables.{entries_tree};
ghost use Rattle.vault_audit_model.specs.Rows.{entry_row, entry_columns};
ghost use Rattle.vault_audit_model.specs.SchemaVersions.{is_external};
ghost use Rattle.vault_core_model.specs.Vault.{Vault};
ghost use Rattle.vault_audit_model.specs.Spells.{AreSoundAs};
ghost use Rattle.vault_audit_records.specs.Entries.{IsEntryBy};
ghost use Rattle.vault_base.specs.declared.refusal.Table.TheVariants as table;
ghost use Rattle.vault_audit_schema.specs.Places.{BeginTo};
ghost use Rattle.vault_audit_rows.specs.Health.{IsHealthy, IsMemory, OnlyLooks};

use sqlite::{Alter, Connection, Error};
use vault_audit_model::schema::SchemaVersion;
use vault_audit_records::entries::row::EntryCheck;
use vault_audit_rows::check::check_rows;
use vault_audit_schema::{entries_columns, select_text};
use vault_base::moment::Moment;

/// Whether each row of `entries` holds an entry in its limits, none after the last moment and none
/// removed before it was admitted.
pub fn check_entries<S: Alter>(
    conn: &mut Connection<S>,
    schema_version: SchemaVersion,
    last: Moment,
) -> Result<bool, Error>
    requires { HasCleanDisk (state S.Store conn.old) → BeginTo schema_version (state S.Store conn.old).now.schema.tables table.Entries }
    ensures reported { HasCleanDisk (state S.Store conn.new) → IfOk result (AreRecords entry_row
        (IsEntryBy (is_external schema_version) last) (map entry_columns ((state S.Store conn.new).now.trees entries_tree))) }
    ensures damaged { HasCleanDisk (state S.Store conn.new) → IfOk result (λ stated. stated ≡ false → (v : Vault) → v.last ≡ last → ¬ AreSoundAs schema_version (state S.Store conn.new).now v) }
    ensures look { OnlyLooks S.Store conn.old conn.new result }
    ensures err { IsHealthy (state S.Store conn.new) → IfErr result IsMemory }
{
    let external = schema_version.is_external();
    check_rows(
        conn,
        entries_columns!(select_text),
        &EntryCheck { external, last },
    )
}
