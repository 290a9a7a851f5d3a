//! Rows of the tables, each read as the record that it states.
ghost use Rattle.std.specs.Prelude.{◌≡◌, ◌≢◌, ◌↔◌, ℕ, IsTrue, IfOk, IfErr, MatchOption};
ghost use Rattle.sqlite_value.specs.Order.{column};
ghost use Rattle.vault_tally.specs.declared.row.Row.{Row as SumsOf};
ghost use Rattle.vault_audit_model.specs.Values.{number as value};
ghost use Rattle.vault_core_model.specs.declared.records.Caller.{Caller};
ghost use Rattle.vault_core_model.specs.declared.records.Entry.{Entry};
ghost use Rattle.vault_core_model.specs.declared.records.Note.{Note};
ghost use Rattle.vault_audit_model.specs.declared.rows.MetaRow.{MetaRow};
ghost use Rattle.vault_audit_model.specs.declared.rows.DepartmentRow.{DepartmentRow};
ghost use Rattle.vault_audit_model.specs.declared.rows.BucketRow.{BucketRow};
ghost use Rattle.vault_audit_model.specs.declared.rows.RuleRow.{RuleRow};
ghost use Rattle.vault_audit_model.specs.declared.rows.ContentRow.{ContentRow};
ghost use Rattle.vault_audit_model.specs.declared.rows.SettingRow.{SettingRow};
ghost use Rattle.vault_audit_model.specs.declared.rows.HeadRow.{HeadRow};
ghost use Rattle.vault_audit_model.specs.declared.rows.TenureRow.{TenureRow};
ghost use Rattle.vault_audit_model.specs.Limits.{IsMetaRow, IsDepartmentRow, IsCaller, IsBucketRow, IsRuleRow, IsEntry, IsContentRow, IsSettingRow, IsNote, IsHeadRow, IsTenureRow, IsExternalRow};
ghost use Rattle.vault_audit_model.specs.Rows.{meta_row, department_row, caller_row, bucket_row, rule_row, entry_row, content_row, setting_row, note_row, head_row, tenure_row, external_row};

use crate::cell::{content, digest, flag, flag_or_null, moment, number, number_within, version_id};
use crate::misread::Misread;
use crate::name::{
    batch_name, bucket_name, caller_name, dept_name, dept_name_or_null, key_prefix, object_key,
    rule_id,
};
use crate::several_columns::{
    Bounds, Extent, author, bounds_of, days_or_null, default, extent_of, noncurrent, removal,
    retention, rights, size,
};
use sqlite::Row;
use vault_audit_model::rows::{
    BucketRow, ContentRow, DepartmentRow, HeadRow, MetaRow, RuleRow, SettingRow, TenureRow,
};
use vault_base::limits::{MOST_CONTENT, MOST_MOVES, MOST_RULES, MOST_SETTINGS};
use vault_base::name::VersionId;
use vault_core_model::records::{BucketConfig, Caller, Entry, Head, Note, Setting, Tenure};
use vault_lock::lock::Lock;
use vault_rules::rule::Rule;
use vault_tally::row::Row as Sums;

/// Whether the vault follows no list of commands: it is at place 0, and that is done.
fn follows_no_list(row: &Row) -> bool
    ensures { IsTrue result ↔ ((column row.now 5 ≡ value 0) × (column row.now 6 ≡ value 1)) }
{
    number(row, 5) == Some(0) && number(row, 6) == Some(1)
}

/// The row of `meta`, of any schema version.
pub fn read_meta(row: &Row) -> Result<MetaRow, Misread>
    ensures ok { IfOk result (λ x. (row.now ≡ meta_row x) × IsMetaRow x) }
    ensures wrong { IfErr result (λ e. e ≡ Misread.Wrong → (x : MetaRow) → IsMetaRow x → row.now ≢ meta_row x) }
{
    if row.column_count() != 7 {
        return Err(Misread::Wrong);
    }
    let one = number(row, 0).ok_or(Misread::Wrong)?;
    let schema = number(row, 1).ok_or(Misread::Wrong)?;
    let last = moment(row, 2).ok_or(Misread::Wrong)?;
    let next = number(row, 3).ok_or(Misread::Wrong)?;
    let moves = number_within(row, 4, 0, MOST_MOVES).ok_or(Misread::Wrong)?;
    if one != 1 || !follows_no_list(row) {
        return Err(Misread::Wrong);
    }
    Ok(MetaRow {
        schema,
        last,
        next,
        moves: u64::from(moves),
    })
}

/// The seven numbers of a department.
fn sums(row: &Row) -> Option<Sums>
    ensures { MatchOption result
        ((s : SumsOf) → column row.now 1 ≡ value s.admitted → column row.now 2 ≡ value s.held → column row.now 3 ≡ value s.removed → column row.now 4 ≡ value s.weighted → column row.now 5 ≡ value s.closed → column row.now 6 ≡ value s.received → column row.now 7 ≢ value s.handed)
        (λ s. (column row.now 1 ≡ value s.admitted) × (column row.now 2 ≡ value s.held) × (column row.now 3 ≡ value s.removed) × (column row.now 4 ≡ value s.weighted) × (column row.now 5 ≡ value s.closed) × (column row.now 6 ≡ value s.received) × (column row.now 7 ≡ value s.handed)) }
{
    let admitted = number(row, 1)?;
    let held = number(row, 2)?;
    let removed = number(row, 3)?;
    let weighted = number(row, 4)?;
    let closed = number(row, 5)?;
    let received = number(row, 6)?;
    let handed = number(row, 7)?;
    Some(Sums {
        admitted,
        received,
        held,
        removed,
        handed,
        weighted,
        closed,
    })
}

/// A row of `departments`.
#[tactic(auto, using(crate::proofs::RowLemmas::row_of_8))]
pub fn read_department(row: &Row) -> Result<DepartmentRow, Misread>
    ensures ok { IfOk result (λ x. (row.now ≡ department_row x) × IsDepartmentRow x) }
    ensures wrong { IfErr result (λ e. e ≡ Misread.Wrong → (x : DepartmentRow) → IsDepartmentRow x → row.now ≢ department_row x) }
{
    if row.column_count() != 8 {
        return Err(Misread::Wrong);
    }
    let name = dept_name(row, 0)?;
    let sums = sums(row).ok_or(Misread::Wrong)?;
    Ok(DepartmentRow { name, sums })
}

/// A row of `callers`.
pub fn read_caller(row: &Row) -> Result<Caller, Misread>
    ensures ok { IfOk result (λ x. (row.now ≡ caller_row x) × IsCaller x) }
    ensures wrong { IfErr result (λ e. e ≡ Misread.Wrong → (x : Caller) → IsCaller x → row.now ≢ caller_row x) }
{
    if row.column_count() != 4 {
        return Err(Misread::Wrong);
    }
    let rights = rights(row, 2).ok_or(Misread::Wrong)?;
    let closed = flag(row, 3).ok_or(Misread::Wrong)?;
    let name = caller_name(row, 0)?;
    let dept = dept_name_or_null(row, 1)?;
    Ok(Caller {
        name,
        dept,
        rights,
        closed,
    })
}

/// A row of `buckets`.
pub fn read_bucket(row: &Row) -> Result<BucketRow, Misread>
    ensures ok { IfOk result (λ x. (row.now ≡ bucket_row x) × IsBucketRow x) }
    ensures wrong { IfErr result (λ e. e ≡ Misread.Wrong → (x : BucketRow) → IsBucketRow x → row.now ≢ bucket_row x) }
{
    if row.column_count() != 5 {
        return Err(Misread::Wrong);
    }
    let default = default(row, 2, 3, 4).ok_or(Misread::Wrong)?;
    let name = bucket_name(row, 0)?;
    let dept = dept_name(row, 1)?;
    Ok(BucketRow {
        name,
        config: BucketConfig { dept, default },
    })
}

/// A row of `rules`.
#[tactic(auto, using(crate::proofs::RowLemmas::row_of_11))]
pub fn read_rule(row: &Row) -> Result<RuleRow, Misread>
    ensures ok { IfOk result (λ x. (row.now ≡ rule_row x) × IsRuleRow x) }
    ensures wrong { IfErr result (λ e. e ≡ Misread.Wrong → (x : RuleRow) → IsRuleRow x → row.now ≢ rule_row x) }
{
    if row.column_count() != 11 {
        return Err(Misread::Wrong);
    }
    let place = number_within(row, 1, 1, MOST_RULES as u32).ok_or(Misread::Wrong)?;
    let enabled = flag(row, 4).ok_or(Misread::Wrong)?;
    let days = days_or_null(row, 5).ok_or(Misread::Wrong)?;
    let lone_markers = flag(row, 6).ok_or(Misread::Wrong)?;
    let noncurrent = noncurrent(row, 7, 8).ok_or(Misread::Wrong)?;
    let Bounds { larger, smaller } = bounds_of(row, 9, 10).ok_or(Misread::Wrong)?;
    let bucket = bucket_name(row, 0)?;
    let id = rule_id(row, 2)?;
    let prefix = key_prefix(row, 3)?;
    Ok(RuleRow {
        bucket,
        place,
        rule: Rule {
            id,
            prefix,
            enabled,
            days,
            lone_markers,
            noncurrent,
            larger,
            smaller,
        },
    })
}

/// A row of `entries`, of a vault that may register contents that are kept outside.
#[tactic(auto, using(crate::proofs::RowLemmas::row_of_12))]
pub fn read_entry(row: &Row, external: bool) -> Result<Entry, Misread>
    ensures row { IfOk result (λ x. row.now ≡ entry_row x) }
    ensures fits { IfOk result (IsEntry external) }
    ensures wrong { IfErr result (λ e. e ≡ Misread.Wrong → (x : Entry) → IsEntry external x → row.now ≢ entry_row x) }
{
    if row.column_count() != 12 {
        return Err(Misread::Wrong);
    }
    let id = version_id(row, 0).ok_or(Misread::Wrong)?;
    let Extent {
        marker,
        size,
        digest,
    } = extent_of(row, external, 3, 4, 5).ok_or(Misread::Wrong)?;
    let admitted = moment(row, 6).ok_or(Misread::Wrong)?;
    let bucket = bucket_name(row, 1)?;
    let key = object_key(row, 2)?;
    let by = author(row, 7, 8)?;
    let removal = removal(row, 9, 10, 11)?;
    Ok(Entry {
        id,
        bucket,
        key,
        marker,
        size,
        digest,
        admitted,
        by,
        removal,
    })
}

/// A row of `contents`.
pub fn read_content(row: &Row) -> Result<ContentRow, Misread>
    ensures ok { IfOk result (λ x. (row.now ≡ content_row x) × IsContentRow x) }
    ensures wrong { IfErr result (λ e. e ≡ Misread.Wrong → (x : ContentRow) → IsContentRow x → row.now ≢ content_row x) }
{
    if row.column_count() != 2 {
        return Err(Misread::Wrong);
    }
    let id = version_id(row, 0).ok_or(Misread::Wrong)?;
    let content = content(row, 1)?;
    if content.len() > MOST_CONTENT {
        return Err(Misread::Wrong);
    }
    Ok(ContentRow { id, content })
}

/// A row of `external`: the id of a version whose bytes are kept outside.
pub fn read_external(row: &Row) -> Result<VersionId, Misread>
    ensures ok { IfOk result (λ x. (row.now ≡ external_row x) × IsExternalRow x) }
    ensures wrong { IfErr result (λ e. e ≡ Misread.Wrong → (x : ℕ) → IsExternalRow x → row.now ≢ external_row x) }
{
    if row.column_count() != 1 {
        return Err(Misread::Wrong);
    }
    version_id(row, 0).ok_or(Misread::Wrong)
}

/// A row of `settings`.
#[tactic(auto, using(crate::proofs::RowLemmas::row_of_8))]
pub fn read_setting(row: &Row) -> Result<SettingRow, Misread>
    ensures ok { IfOk result (λ x. (row.now ≡ setting_row x) × IsSettingRow x) }
    ensures wrong { IfErr result (λ e. e ≡ Misread.Wrong → (x : SettingRow) → IsSettingRow x → row.now ≢ setting_row x) }
{
    if row.column_count() != 8 {
        return Err(Misread::Wrong);
    }
    let id = version_id(row, 0).ok_or(Misread::Wrong)?;
    let place = number_within(row, 1, 1, MOST_SETTINGS as u32).ok_or(Misread::Wrong)?;
    let at = moment(row, 2).ok_or(Misread::Wrong)?;
    let retention = retention(row, 4, 5).ok_or(Misread::Wrong)?;
    let hold = flag(row, 6).ok_or(Misread::Wrong)?;
    let bypass = flag(row, 7).ok_or(Misread::Wrong)?;
    let by = caller_name(row, 3)?;
    Ok(SettingRow {
        id,
        place,
        setting: Setting {
            at,
            by,
            lock: Lock { retention, hold },
            bypass,
        },
    })
}

/// A row of `intake`, of a vault that may register contents that are kept outside.
#[tactic(auto, using(crate::proofs::RowLemmas::row_of_10))]
pub fn read_note(row: &Row, external: bool) -> Result<Note, Misread>
    ensures row { IfOk result (λ x. row.now ≡ note_row x) }
    ensures fits { IfOk result (IsNote external) }
    ensures wrong { IfErr result (λ e. e ≡ Misread.Wrong → (x : Note) → IsNote external x → row.now ≢ note_row x) }
{
    if row.column_count() != 10 {
        return Err(Misread::Wrong);
    }
    let line = number_within(row, 2, 1, u32::MAX).ok_or(Misread::Wrong)?;
    let size = size(row, 4, external).ok_or(Misread::Wrong)?;
    let digest = digest(row, 5).ok_or(Misread::Wrong)?;
    let retention = retention(row, 6, 7).ok_or(Misread::Wrong)?;
    let hold = flag_or_null(row, 8).ok_or(Misread::Wrong)?;
    let id = version_id(row, 9).ok_or(Misread::Wrong)?;
    let bucket = bucket_name(row, 0)?;
    let batch = batch_name(row, 1)?;
    let key = object_key(row, 3)?;
    Ok(Note {
        bucket,
        batch,
        line,
        key,
        size,
        digest,
        retention,
        hold,
        id,
    })
}

/// A row of `heads`.
pub fn read_head(row: &Row) -> Result<HeadRow, Misread>
    ensures ok { IfOk result (λ x. (row.now ≡ head_row x) × IsHeadRow x) }
    ensures wrong { IfErr result (λ e. e ≡ Misread.Wrong → (x : HeadRow) → IsHeadRow x → row.now ≢ head_row x) }
{
    if row.column_count() != 4 {
        return Err(Misread::Wrong);
    }
    let newest = version_id(row, 2).ok_or(Misread::Wrong)?;
    let count = number(row, 3).ok_or(Misread::Wrong)?;
    let bucket = bucket_name(row, 0)?;
    let key = object_key(row, 1)?;
    Ok(HeadRow {
        bucket,
        key,
        head: Head { newest, count },
    })
}

/// A row of `tenures`.
pub fn read_tenure(row: &Row) -> Result<TenureRow, Misread>
    ensures ok { IfOk result (λ x. (row.now ≡ tenure_row x) × IsTenureRow x) }
    ensures wrong { IfErr result (λ e. e ≡ Misread.Wrong → (x : TenureRow) → IsTenureRow x → row.now ≢ tenure_row x) }
{
    if row.column_count() != 4 {
        return Err(Misread::Wrong);
    }
    let id = version_id(row, 0).ok_or(Misread::Wrong)?;
    let number = number_within(row, 1, 0, MOST_MOVES).ok_or(Misread::Wrong)?;
    let from = moment(row, 3).ok_or(Misread::Wrong)?;
    let dept = dept_name(row, 2)?;
    Ok(TenureRow {
        id,
        tenure: Tenure { dept, from, number },
    })
}
