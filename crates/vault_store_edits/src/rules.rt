//! Rows of `rules`.
ghost use Rattle.std.specs.Prelude.{◌≡◌, Bool, map, IsTrue, OnOk};
ghost use Rattle.std.specs.List.{AllByRecursion};
ghost use Rattle.sqlite.specs.Effect.{IsDatabase};
ghost use Rattle.sqlite.specs.State.{HasCleanDisk, Survives};
ghost use Rattle.sqlite.specs.Held.{state};
ghost use Rattle.vault_base.specs.declared.refusal.Table.TheVariants as table;
ghost use Rattle.vault_audit_model.specs.Rows.{rule_row};
ghost use Rattle.vault_audit_model.specs.Spells.{rules_from};
ghost use Rattle.vault_audit_model.specs.Tables.{vault_schema};
ghost use Rattle.vault_store_model.specs.Edits.{with_row, without, Edits, with_each};
ghost use Rattle.vault_store_model.specs.Tests.{is_named};
ghost use Rattle.vault_store_edits.specs.Inside.{CommitsNothing, IsEdit};
ghost use Rattle.vault_store_edits.specs.Typed.{IsTypedRule};

use crate::parameters::{bound, noncurrent_days, noncurrent_newer};
use crate::put::{Put, put_row};
use crate::rowids::check_rowids;
use sqlite::{Alter, Error, ErrorCode, Transaction, params};
use vault_audit_schema::{insert_text, rules_columns};
use vault_base::name::BucketName;
use vault_base::refusal::Table;
use vault_rules::rule::Rule;

/// Deletes the rules of a bucket.
pub fn delete_rules<S: Alter>(
    tx: &mut Transaction<'_, S>,
    bucket: &BucketName,
) -> Result<usize, Error>
    ensures same_reference { tx.new.conn.ghost_name ≡ tx.old.conn.ghost_name }
    ensures edit { IsEdit S.Store tx.old.conn.now tx.new.conn.now result (without table.Rules (is_named bucket.now)) }
{
    check_rowids(
        tx,
        Table::Rules,
        "SELECT rowid FROM rules WHERE bucket = ?1",
        params![bucket.as_str()],
    )?;
    tx.execute(
        "DELETE FROM rules WHERE bucket = ?1",
        params![bucket.as_str()],
    )
}

/// A rule of a bucket, at its place.
#[derive(Clone, Copy)]
struct NewRule<'a> {
    bucket: &'a BucketName,
    place: u32,
    rule: &'a Rule,
}

impl<'a> Put for NewRule<'a> {
    ghost use Rattle.std.specs.Prelude.{OnOk};
    ghost use Rattle.vault_base.specs.declared.refusal.Table.TheVariants as table;
    ghost use Rattle.vault_audit_model.specs.Rows.{rule_row};
    ghost use Rattle.vault_store_edits.specs.RuleLaws.{rule_inserts};
    ghost use Rattle.vault_store_edits.specs.Typed.{IsTypedRule};

    ghost table = { table.Rules };

    ghost as_row = { λ x. rule_row (record { bucket = x.bucket.now; place = x.place; rule = x.rule.now }) };

    ghost typed = { λ x r. OnOk r (IsTypedRule x.rule.now) };

    fn insert<S: Alter>(&self, tx: &mut Transaction<'_, S>) -> Result<usize, Error> {
        let larger = bound(self.rule.larger)?;
        let smaller = bound(self.rule.smaller)?;
        tx.execute(
            rules_columns!(insert_text),
            params![
                self.bucket.as_str(),
                self.place,
                self.rule.id.as_str(),
                self.rule.prefix.as_str(),
                self.rule.enabled,
                self.rule.days,
                self.rule.lone_markers,
                noncurrent_days(self.rule.noncurrent),
                noncurrent_newer(self.rule.noncurrent),
                larger,
                smaller,
            ],
        )
    }

    ghost inserts = { λ external there x. rule_inserts external (record { bucket = x.bucket.now; place = x.place; rule = x.rule.now }) };
}

/// Puts in a rule of a bucket at its place, counted from 1.
pub fn put_rule<S: Alter>(
    tx: &mut Transaction<'_, S>,
    bucket: &BucketName,
    place: u32,
    rule: &Rule,
) -> Result<usize, Error>
    ensures same_reference { tx.new.conn.ghost_name ≡ tx.old.conn.ghost_name }
    ensures edit { IsEdit S.Store tx.old.conn.now tx.new.conn.now result (with_row table.Rules (rule_row (record { bucket = bucket.now; place = place; rule = rule.now }))) }
    ensures limits { OnOk result (IsTypedRule rule.now) }
{
    let what = NewRule {
        bucket,
        place,
        rule,
    };
    put_row(tx, &what)
}

/// Puts in the rules of a bucket, at the places 1, 2, 3 and so on.
///
/// Without a rule there is no statement, so the store has to be open.
pub fn put_rules<S: Alter>(
    tx: &mut Transaction<'_, S>,
    bucket: &BucketName,
    rules: &[Rule],
) -> Result<(), Error>
    ensures same_reference { tx.new.conn.ghost_name ≡ tx.old.conn.ghost_name }
    ensures edits { (external : Bool) → HasCleanDisk (state S.Store tx.new.conn.now) → IsTrue tx.old.conn.now.in_transaction → IsTrue (state S.Store tx.old.conn.now).is_open
        → OnOk result (Edits external (state S.Store tx.old.conn.now) (state S.Store tx.new.conn.now) (with_each table.Rules (map rule_row (rules_from bucket.now 1 rules.now)))) }
    ensures sound { (external : Bool) → HasCleanDisk (state S.Store tx.new.conn.now) → IsTrue tx.old.conn.now.in_transaction
        → (state S.Store tx.old.conn.now).now.schema ≡ vault_schema external → IsDatabase (state S.Store tx.old.conn.now).now → OnOk result (IsDatabase (state S.Store tx.new.conn.now).now) }
    ensures kept { CommitsNothing S.Store tx.old.conn.now tx.new.conn.now result }
    ensures survives { Survives (state S.Store tx.old.conn.now) (state S.Store tx.new.conn.now) (λ _. ⊥) }
    ensures limits { OnOk result (AllByRecursion IsTypedRule rules.now) }
{
    let mut place = 0u32;
    for rule in rules {
        if place == u32::MAX {
            return Err(Error::SqliteFailure(ErrorCode::TooBig));
        }
        place = place + 1;
        put_rule(tx, bucket, place, rule)?;
    }
    Ok(())
}
