//! Whether the rows of `callers` are callers, by rising name.
ghost use Rattle.std.specs.Prelude.{◌≡◌, ◌↔◌, false, IsTrue, IfOk, IfErr};
ghost use Rattle.sqlite.specs.State.{HasCleanDisk};
ghost use Rattle.sqlite.specs.Held.{state};
ghost use Rattle.vault_core_model.specs.Vault.{Vault};
ghost use Rattle.vault_audit_model.specs.Spells.{AreSoundAs};
ghost use Rattle.vault_audit_model.specs.Relations.{IsAfter};
ghost use Rattle.vault_audit_records.specs.ByName.{DecidesCallers};
ghost use Rattle.vault_audit_rows.specs.Health.{IsHealthy, IsMemory, IsOfSchemaVersion, OnlyLooks};

use crate::row_check::refused;
use sqlite::{Alter, Connection, Error, Row};
use std::marker::Model;
use vault_audit_model::schema::SchemaVersion;
use vault_audit_rows::records::read_caller;
use vault_audit_rows::walk::{Pass, walk};
use vault_audit_schema::{callers_columns, select_text};
use vault_base::name::CallerName;

/// The check of callers by rising name.
#[derive(Drop)]
pub struct CallerPass {
    last: Option<CallerName>,
}

impl Model for CallerPass {
    ghost use Rattle.std.specs.Prelude.{ℕ, List, Option};

    ghost Value = { Option (List ℕ) };

    ghost view = { λ p. p.last };
}

/// Whether a name comes after another, or there is no other.
fn is_after(before: &Option<CallerName>, name: &CallerName) -> bool
    ensures { IsTrue result ↔ IsAfter before.now name.now }
{
    match before {
        None => true,
        Some(before) => before < name,
    }
}

impl Pass for CallerPass {
    ghost use Rattle.vault_audit_rows.specs.Pass.{Takes, Refuses};
    ghost use Rattle.vault_audit_model.specs.Rows.{caller_row};
    ghost use Rattle.vault_audit_records.specs.ByName.{IsNextCaller, with_caller};

    ghost goes = { λ p row q. Takes caller_row IsNextCaller with_caller p row q };

    ghost stops = { λ p row. Refuses caller_row IsNextCaller with_caller p row };

    #[tactic(auto, using(crate::proofs::NameRowLemmas::one_caller))]
    fn take(&mut self, row: &Row) -> Result<bool, Error> {
        let found = match read_caller(row) {
            Ok(found) => found,
            Err(misread) => return refused(misread),
        };
        if !is_after(&self.last, &found.name) {
            drop(found);
            return Ok(false);
        }
        self.last = Some(found.name);
        Ok(true)
    }
}

/// Whether the rows of `callers` hold callers with values in their limits, of which no two have one name.
pub fn check_callers_by_name<S: Alter>(
    conn: &mut Connection<S>,
    schema_version: SchemaVersion,
) -> Result<bool, Error>
    requires { IsOfSchemaVersion S.Store conn.old schema_version }
    ensures reported { HasCleanDisk (state S.Store conn.new) → IfOk result (DecidesCallers (state S.Store conn.new).now) }
    ensures damaged { HasCleanDisk (state S.Store conn.new) → IfOk result (λ stated. stated ≡ false → (v : Vault) → ¬ AreSoundAs schema_version (state S.Store conn.new).now v) }
    ensures look { OnlyLooks S.Store conn.old conn.new result }
    ensures err { IsHealthy (state S.Store conn.new) → IfErr result IsMemory }
{
    let mut pass = CallerPass { last: None };
    walk(
        conn,
        callers_columns!(select_text, " ORDER BY name"),
        &mut pass,
    )
}
