//! The first look at `rules`: its rows hold records, with values in their limits.
ghost use Rattle.std.specs.Prelude.{◌≡◌, false, IfOk, IfErr};
ghost use Rattle.sqlite.specs.State.{HasCleanDisk};
ghost use Rattle.sqlite.specs.Held.{state};
ghost use Rattle.vault_base.specs.declared.refusal.Table.TheVariants as table;
ghost use Rattle.vault_core_model.specs.Vault.{Vault};
ghost use Rattle.vault_audit_model.specs.Spells.{AreSoundAs};
ghost use Rattle.vault_audit_schema.specs.Places.{BeginTo};
ghost use Rattle.vault_audit.specs.InOrder.{AreRowsRight};
ghost use Rattle.vault_audit_rows.specs.Health.{IsHealthy, IsMemory, OnlyLooks};

use crate::first_pass::record::{Record, check_table};
use sqlite::{Alter, Connection, Error, Row};
use vault_audit_model::rows::RuleRow;
use vault_audit_model::schema::SchemaVersion;
use vault_audit_rows::misread::Misread;
use vault_audit_rows::records::read_rule;
use vault_audit_schema::{earlier_select_text, rules_columns, select_text};

impl Record for RuleRow {
    ghost use Rattle.std.specs.Prelude.{[], refl, ⊤};
    ghost use Rattle.vault_base.specs.declared.refusal.Table.TheVariants as table;
    ghost use Rattle.vault_audit_model.specs.Limits.{IsRuleRow};
    ghost use Rattle.vault_audit_model.specs.Rows.{rule_row, rule_columns_as};
    ghost use Rattle.vault_audit_model.specs.Tables.{rules_tree};
    ghost use Rattle.vault_audit_schema.specs.Selects.{rules_select};
    ghost use Rattle.vault_audit.specs.RuleLaws.{rule_shows_all, rule_unsound};

    ghost table = { table.Rules };

    ghost tree = { rules_tree };

    ghost has_table = { λ _. ⊤ };

    ghost as_row = { rule_row };

    ghost is_in_limits = { λ _. IsRuleRow };

    ghost columns = { rule_columns_as };

    ghost select = { λ n. rules_select n [] };

    fn select(schema_version: SchemaVersion) -> &'static str {
        match schema_version {
            SchemaVersion::First => rules_columns!(earlier_select_text),
            SchemaVersion::Second | SchemaVersion::Third | SchemaVersion::Fourth => {
                rules_columns!(select_text)
            }
        }
    }

    fn read(row: &Row, _: SchemaVersion) -> Result<RuleRow, Misread> {
        read_rule(row)
    }

    ghost shows_all = { rule_shows_all };

    ghost bare = { λ trees. refl };

    ghost unsound = { rule_unsound };
}

/// Whether each row of `rules` holds a record in its limits.
pub fn check_rules<S: Alter>(
    conn: &mut Connection<S>,
    schema_version: SchemaVersion,
) -> Result<bool, Error>
    requires { HasCleanDisk (state S.Store conn.old) → BeginTo schema_version (state S.Store conn.old).now.schema.tables table.Rules }
    ensures reported { HasCleanDisk (state S.Store conn.new) → IfOk result (AreRowsRight schema_version (state S.Store conn.new).now table.Rules) }
    ensures damaged { HasCleanDisk (state S.Store conn.new) → IfOk result (λ stated. stated ≡ false → (v : Vault) → ¬ AreSoundAs schema_version (state S.Store conn.new).now v) }
    ensures look { OnlyLooks S.Store conn.old conn.new result }
    ensures err { IsHealthy (state S.Store conn.new) → IfErr result IsMemory }
{
    check_table::<S, RuleRow>(conn, schema_version)
}
