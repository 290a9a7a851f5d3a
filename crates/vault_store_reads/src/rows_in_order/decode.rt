//! All rows of an ordered read, as what they say.
ghost use Rattle.std.specs.Prelude.{◌≡◌, List, map, IfOk, IfErr, IfSome, IsTrue};
ghost use Rattle.vault_rules.specs.Rules.{is_rule_set};
ghost use Rattle.vault_audit_model.specs.declared.rows.RuleRow.{RuleRow};
ghost use Rattle.vault_audit_model.specs.declared.rows.SettingRow.{SettingRow};
ghost use Rattle.vault_audit_model.specs.declared.rows.TenureRow.{TenureRow};
ghost use Rattle.vault_audit_model.specs.Rows.{rule_row, setting_row, tenure_row};
ghost use Rattle.vault_audit_model.specs.Limits.{IsObjectKey, IsRuleRow, IsSettingRow, IsTenureRow};
ghost use Rattle.vault_audit_rows.specs.Health.{IsMemory};
ghost use Rattle.vault_audit_rows.specs.Records.{ReportsOne};
ghost use Rattle.vault_store_reads.specs.Readable.{AreReadable, IsHeldRow};
ghost use Rattle.vault_store_reads.specs.Shown.{held_row, key_row, set_of};

use crate::query::{UNREADABLE, unread};
use crate::rows_in_order::shown::{HeldRow, read_held, read_key};
use sqlite::{Error, Row};
use std::alloc::Global;
use vault_audit_rows::records::{read_rule, read_setting, read_tenure};
use vault_base::name::ObjectKey;
use vault_core_model::records::{Setting, Settings, Tenure, Tenures};
use vault_rules::rule::Rule;
use vault_rules::rule_set::RuleSet;

/// Held entries, without their locks.
pub fn decode_held(alloc: Global, rows: &[Row]) -> Result<Vec<HeldRow>, Error>
    ensures ok { IfOk result (λ held. map held_row held.items ≡ rows.now) }
    ensures memory { AreReadable held_row IsHeldRow rows.now → IfErr result IsMemory }
{
    let mut held = Vec::new(alloc);
    for row in rows {
        let Some(one) = read_held(row) else {
            return Err(UNREADABLE);
        };
        held.push(one)?;
    }
    Ok(held)
}

/// The key of a row.
fn decode_key(row: &Row) -> Result<ObjectKey, Error>
    ensures ok { IfOk result (λ key. row.now ≡ key_row key) }
    ensures memory { ReportsOne key_row IsObjectKey row.now → IfErr result IsMemory }
{
    match read_key(row) {
        Ok(key) => Ok(key),
        Err(misread) => Err(unread(misread)),
    }
}

/// Keys.
pub fn decode_keys(alloc: Global, rows: &[Row]) -> Result<Vec<ObjectKey>, Error>
    ensures ok { IfOk result (λ keys. map key_row keys.items ≡ rows.now) }
    ensures memory { AreReadable key_row IsObjectKey rows.now → IfErr result IsMemory }
{
    let mut keys = Vec::new(alloc);
    for row in rows {
        let one = decode_key(row)?;
        keys.push(one)?;
    }
    Ok(keys)
}

/// The rule of a row.
fn decode_rule(row: &Row) -> Result<Rule, Error>
    ensures ok { IfOk result (λ rule. (x : RuleRow) × (row.now ≡ rule_row x) × (rule ≡ x.rule)) }
    ensures memory { ReportsOne rule_row IsRuleRow row.now → IfErr result IsMemory }
{
    match read_rule(row) {
        Ok(rule_row) => Ok(rule_row.rule),
        Err(misread) => Err(unread(misread)),
    }
}

/// The rules of these rows.
fn decode_each_rule(alloc: Global, rows: &[Row]) -> Result<Vec<Rule>, Error>
    ensures ok { IfOk result (λ rules. (xs : List RuleRow) × (rows.now ≡ map rule_row xs) × (rules.items ≡ map (λ x. x.rule) xs)) }
    ensures memory { AreReadable rule_row IsRuleRow rows.now → IfErr result IsMemory }
{
    let mut rules = Vec::new(alloc);
    for row in rows {
        let one = decode_rule(row)?;
        rules.push(one)?;
    }
    Ok(rules)
}

/// The set of rules of these rows; no row is no set.
pub fn decode_rules(alloc: Global, rows: &[Row]) -> Result<Option<RuleSet>, Error>
    ensures ok { IfOk result (λ found. (xs : List RuleRow) × (rows.now ≡ map rule_row xs) × (found ≡ set_of xs)) }
    ensures memory { AreReadable rule_row IsRuleRow rows.now → ((xs : List RuleRow) → rows.now ≡ map rule_row xs → IfSome (set_of xs) (λ rules. IsTrue (is_rule_set rules))) → IfErr result IsMemory }
{
    let rules = decode_each_rule(alloc, rows)?;
    if rules.is_empty() {
        return Ok(None);
    }
    match RuleSet::read(rules) {
        Ok(set) => Ok(Some(set)),
        Err(_) => Err(UNREADABLE),
    }
}

/// The tenure of a row.
pub fn decode_tenure(row: &Row) -> Result<Tenure, Error>
    ensures ok { IfOk result (λ tenure. (x : TenureRow) × (row.now ≡ tenure_row x) × (tenure ≡ x.tenure)) }
    ensures memory { ReportsOne tenure_row IsTenureRow row.now → IfErr result IsMemory }
{
    match read_tenure(row) {
        Ok(tenure_row) => Ok(tenure_row.tenure),
        Err(misread) => Err(unread(misread)),
    }
}

/// The tenures of these rows.
pub fn decode_tenures(alloc: Global, rows: &[Row]) -> Result<Tenures, Error>
    ensures ok { IfOk result (λ tenures. (xs : List TenureRow) × (rows.now ≡ map tenure_row xs) × (tenures ≡ map (λ x. x.tenure) xs)) }
    ensures memory { AreReadable tenure_row IsTenureRow rows.now → IfErr result IsMemory }
{
    let mut tenures = Tenures::new(alloc);
    for row in rows {
        let one = decode_tenure(row)?;
        tenures.push(one)?;
    }
    Ok(tenures)
}

/// The setting of a row.
fn decode_setting(row: &Row) -> Result<Setting, Error>
    ensures ok { IfOk result (λ setting. (x : SettingRow) × (row.now ≡ setting_row x) × (setting ≡ x.setting)) }
    ensures memory { ReportsOne setting_row IsSettingRow row.now → IfErr result IsMemory }
{
    match read_setting(row) {
        Ok(setting_row) => Ok(setting_row.setting),
        Err(misread) => Err(unread(misread)),
    }
}

/// The settings of these rows.
pub fn decode_settings(alloc: Global, rows: &[Row]) -> Result<Settings, Error>
    ensures ok { IfOk result (λ settings. (xs : List SettingRow) × (rows.now ≡ map setting_row xs) × (settings ≡ map (λ x. x.setting) xs)) }
    ensures memory { AreReadable setting_row IsSettingRow rows.now → IfErr result IsMemory }
{
    let mut settings = Settings::new(alloc);
    for row in rows {
        let one = decode_setting(row)?;
        settings.push(one)?;
    }
    Ok(settings)
}
