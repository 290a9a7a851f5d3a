//! Names in the columns of a row.
ghost use Rattle.std.specs.Prelude.{◌≡◌, ◌≢◌, ℕ, List, Option, IfOk, IfErr, IfSome};
ghost use Rattle.sqlite_value.specs.declared.value.Value.TheVariants.{Text};
ghost use Rattle.sqlite_value.specs.Order.{column};
ghost use Rattle.vault_audit_model.specs.Limits.{IsBucketName, IsObjectKey, IsKeyPrefix, IsPlainName, IsRuleId};
ghost use Rattle.vault_audit_model.specs.Values.{text_or_null};

use crate::cell::{is_null, memory_of, text};
use crate::misread::Misread;
use sqlite::Row;
use vault_base::name::{BatchName, BucketName, CallerName, DeptName, KeyPrefix, ObjectKey, RuleId};

/// The bucket's name in a column.
pub fn bucket_name(row: &Row, at: usize) -> Result<BucketName, Misread>
    ensures ok { IfOk result (λ n. (column row.now at ≡ Text n) × IsBucketName n) }
    ensures wrong { IfErr result (λ e. e ≡ Misread.Wrong → (n : List ℕ) → IsBucketName n → column row.now at ≢ Text n) }
{
    let Some(text) = text(row, at) else {
        return Err(Misread::Wrong);
    };
    match BucketName::read(memory_of(row)?, text)? {
        Ok(name) => Ok(name),
        Err(_) => Err(Misread::Wrong),
    }
}

/// The key in a column.
pub fn object_key(row: &Row, at: usize) -> Result<ObjectKey, Misread>
    ensures ok { IfOk result (λ n. (column row.now at ≡ Text n) × IsObjectKey n) }
    ensures wrong { IfErr result (λ e. e ≡ Misread.Wrong → (n : List ℕ) → IsObjectKey n → column row.now at ≢ Text n) }
{
    let Some(text) = text(row, at) else {
        return Err(Misread::Wrong);
    };
    match ObjectKey::read(memory_of(row)?, text)? {
        Ok(name) => Ok(name),
        Err(_) => Err(Misread::Wrong),
    }
}

/// The prefix in a column.
pub fn key_prefix(row: &Row, at: usize) -> Result<KeyPrefix, Misread>
    ensures ok { IfOk result (λ n. (column row.now at ≡ Text n) × IsKeyPrefix n) }
    ensures wrong { IfErr result (λ e. e ≡ Misread.Wrong → (n : List ℕ) → IsKeyPrefix n → column row.now at ≢ Text n) }
{
    let Some(text) = text(row, at) else {
        return Err(Misread::Wrong);
    };
    match KeyPrefix::read(memory_of(row)?, text)? {
        Ok(name) => Ok(name),
        Err(_) => Err(Misread::Wrong),
    }
}

/// The caller's name in a column.
pub fn caller_name(row: &Row, at: usize) -> Result<CallerName, Misread>
    ensures ok { IfOk result (λ n. (column row.now at ≡ Text n) × IsPlainName n) }
    ensures wrong { IfErr result (λ e. e ≡ Misread.Wrong → (n : List ℕ) → IsPlainName n → column row.now at ≢ Text n) }
{
    let Some(text) = text(row, at) else {
        return Err(Misread::Wrong);
    };
    match CallerName::read(memory_of(row)?, text)? {
        Ok(name) => Ok(name),
        Err(_) => Err(Misread::Wrong),
    }
}

/// The department's name in a column.
pub fn dept_name(row: &Row, at: usize) -> Result<DeptName, Misread>
    ensures ok { IfOk result (λ n. (column row.now at ≡ Text n) × IsPlainName n) }
    ensures wrong { IfErr result (λ e. e ≡ Misread.Wrong → (n : List ℕ) → IsPlainName n → column row.now at ≢ Text n) }
{
    let Some(text) = text(row, at) else {
        return Err(Misread::Wrong);
    };
    match DeptName::read(memory_of(row)?, text)? {
        Ok(name) => Ok(name),
        Err(_) => Err(Misread::Wrong),
    }
}

/// The batch's name in a column.
pub fn batch_name(row: &Row, at: usize) -> Result<BatchName, Misread>
    ensures ok { IfOk result (λ n. (column row.now at ≡ Text n) × IsPlainName n) }
    ensures wrong { IfErr result (λ e. e ≡ Misread.Wrong → (n : List ℕ) → IsPlainName n → column row.now at ≢ Text n) }
{
    let Some(text) = text(row, at) else {
        return Err(Misread::Wrong);
    };
    match BatchName::read(memory_of(row)?, text)? {
        Ok(name) => Ok(name),
        Err(_) => Err(Misread::Wrong),
    }
}

/// The rule's id in a column.
pub fn rule_id(row: &Row, at: usize) -> Result<RuleId, Misread>
    ensures ok { IfOk result (λ n. (column row.now at ≡ Text n) × IsRuleId n) }
    ensures wrong { IfErr result (λ e. e ≡ Misread.Wrong → (n : List ℕ) → IsRuleId n → column row.now at ≢ Text n) }
{
    let Some(text) = text(row, at) else {
        return Err(Misread::Wrong);
    };
    match RuleId::read(memory_of(row)?, text)? {
        Ok(name) => Ok(name),
        Err(_) => Err(Misread::Wrong),
    }
}

/// The department's name in a column, or NULL.
pub fn dept_name_or_null(row: &Row, at: usize) -> Result<Option<DeptName>, Misread>
    ensures ok { IfOk result (λ o. (column row.now at ≡ text_or_null o) × IfSome o IsPlainName) }
    ensures wrong { IfErr result (λ e. e ≡ Misread.Wrong → (o : Option (List ℕ)) → IfSome o IsPlainName → column row.now at ≢ text_or_null o) }
{
    if is_null(row, at) {
        return Ok(None);
    }
    let name = dept_name(row, at)?;
    Ok(Some(name))
}
