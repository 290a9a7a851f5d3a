//! Whether the rules of each bucket stand at the places 1, 2, 3 .. and are a set.
ghost use Rattle.std.specs.Prelude.{◌≡◌, ◌↔◌, ◌+◌, codes, Some, [], length, IsTrue, IfOk, IfErr};
ghost use Rattle.sqlite.specs.State.{HasCleanDisk};
ghost use Rattle.sqlite.specs.Held.{state};
ghost use Rattle.vault_audit_records.specs.RulesByPlace.{IsWhole, DecidesRuns};
ghost use Rattle.vault_audit_schema.specs.Selects.{rules_select};
ghost use Rattle.vault_audit_rows.specs.Health.{IsHealthy, IsMemory, IsOfSchemaVersion, OnlyLooks};

use crate::buckets::is_after;
use sqlite::{Alter, Connection, Error, ErrorCode, Row};
use std::alloc::Global;
use std::marker::Model;
use std::mem;
use vault_audit_model::rows::RuleRow;
use vault_audit_model::schema::SchemaVersion;
use vault_audit_rows::misread::Misread;
use vault_audit_rows::records::read_rule;
use vault_audit_rows::walk::{Pass, walk};
use vault_audit_schema::{earlier_select_text, rules_columns, select_text};
use vault_base::name::BucketName;
use vault_rules::rule::Rule;
use vault_rules::rule_set::RuleSet;

/// The check of rules by rising bucket and place.
#[derive(Drop)]
pub struct RulePass {
    alloc: Global,
    bucket: Option<BucketName>,
    rules: Vec<Rule>,
}

impl Model for RulePass {
    ghost use Rattle.vault_audit_records.specs.RulesByPlace.{RulesSoFar};

    ghost Value = { RulesSoFar };

    ghost view = { λ p. record { bucket = p.bucket; rules = p.rules.items } };
}

impl RulePass {
    /// Whether the rule stands next among those of its bucket.
    fn goes_on(&self, rule: &RuleRow) -> bool
        ensures { IsTrue result ↔ ((self.now.bucket ≡ Some rule.now.bucket) × (rule.now.place ≡ length self.now.rules + 1)) }
    {
        match &self.bucket {
            None => false,
            Some(bucket) => {
                *bucket == rule.bucket && u64::from(rule.place) == self.rules.len() as u64 + 1
            }
        }
    }

    /// Whether the rules so far are a set that their bucket may have, or there is no bucket yet.
    /// No rules are left.
    fn close(&mut self) -> bool
        ensures whole { IsTrue result ↔ IsWhole self.old }
        ensures bucket { self.new.bucket ≡ self.old.bucket }
        ensures rules { self.new.rules ≡ [] }
    {
        let rules = mem::replace(&mut self.rules, Vec::new(self.alloc));
        self.bucket.is_none() || RuleSet::read(rules).is_ok()
    }
}

impl Pass for RulePass {
    ghost use Rattle.vault_audit_rows.specs.Pass.{Takes, Refuses};
    ghost use Rattle.vault_audit_model.specs.Rows.{rule_row};
    ghost use Rattle.vault_audit_records.specs.RulesByPlace.{ComesNext, with_rule};

    ghost goes = { λ p row q. Takes rule_row ComesNext with_rule p row q };

    ghost stops = { λ p row. Refuses rule_row ComesNext with_rule p row };

    #[tactic(auto, using(crate::proofs::RuleRowLemmas::one_rule, crate::proofs::RuleRiseLemmas::joined, crate::proofs::RuleRiseLemmas::begun))]
    fn take(&mut self, row: &Row) -> Result<bool, Error> {
        let rule = match read_rule(row) {
            Ok(rule) => rule,
            Err(Misread::Wrong) => return Ok(false),
            Err(Misread::Memory) => return Err(Error::SqliteFailure(ErrorCode::OutOfMemory)),
        };
        if self.goes_on(&rule) {
            let RuleRow { bucket, rule, .. } = rule;
            drop(bucket);
            if self.rules.push(rule).is_err() {
                return Err(Error::SqliteFailure(ErrorCode::OutOfMemory));
            }
            return Ok(true);
        }
        if rule.place != 1 || !is_after(&self.bucket, &rule.bucket) || !self.close() {
            drop(rule);
            return Ok(false);
        }
        let RuleRow { bucket, rule, .. } = rule;
        if self.rules.push(rule).is_err() {
            drop(bucket);
            return Err(Error::SqliteFailure(ErrorCode::OutOfMemory));
        }
        self.bucket = Some(bucket);
        Ok(true)
    }
}

/// The query for the rules by bucket and place. What a schema version has no column for is NULL.
fn rules_walk(schema_version: SchemaVersion) -> &'static str
    ensures { result.now ≡ rules_select schema_version (codes " ORDER BY bucket, n") }
{
    match schema_version {
        SchemaVersion::First => rules_columns!(earlier_select_text, " ORDER BY bucket, n"),
        SchemaVersion::Second | SchemaVersion::Third | SchemaVersion::Fourth => {
            rules_columns!(select_text, " ORDER BY bucket, n")
        }
    }
}

/// Whether the rows of `rules` hold rules in their limits, which stand at the places 1, 2, 3 ..
/// of each bucket that has any, and are a set that a bucket may have.
pub(crate) fn are_runs<S: Alter>(
    alloc: Global,
    conn: &mut Connection<S>,
    schema_version: SchemaVersion,
) -> Result<bool, Error>
    requires { IsOfSchemaVersion S.Store conn.old schema_version }
    ensures reported { HasCleanDisk (state S.Store conn.new) → IfOk result (DecidesRuns schema_version (state S.Store conn.new).now) }
    ensures look { OnlyLooks S.Store conn.old conn.new result }
    ensures err { IsHealthy (state S.Store conn.new) → IfErr result IsMemory }
{
    let mut pass = RulePass {
        alloc,
        bucket: None,
        rules: Vec::new(alloc),
    };
    let whole = walk(conn, rules_walk(schema_version), &mut pass)?;
    if !whole {
        return Ok(false);
    }
    Ok(pass.close())
}
