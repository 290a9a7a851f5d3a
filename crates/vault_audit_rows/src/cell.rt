//! Numbers, truth values and bytes in the columns of a row.
ghost use Rattle.std.specs.Prelude.{◌≡◌, ◌≢◌, ◌↔◌, ◌^◌, ℕ, Bool, List, Option, ◌≤◌, ◌<◌, length, IsTrue, IsUtf8, IfOk, IfErr, IfSome, MatchOption};
ghost use Rattle.sqlite_value.specs.declared.value.Value.TheVariants.{Null, Text, Blob};
ghost use Rattle.sqlite_value.specs.Order.{column};
ghost use Rattle.vault_base.specs.Days.{last_moment};
ghost use Rattle.vault_base.specs.Name.{is_version_id};
ghost use Rattle.vault_audit_model.specs.Values.{number, number_or_null, bytes_or_null, flag, flag_or_null};
ghost use Rattle.vault_audit_rows.specs.Cells.{Shows};

use crate::misread::Misread;
use sqlite::Row;
use sqlite::types::{FromSql, FromSqlError, ValueRef};
use std::alloc::Global;
use vault_base::content::{Bytes, Digest};
use vault_base::moment::Moment;
use vault_base::name::VersionId;

/// The memory that a row's values are copied into: any column reads as it.
#[derive(Drop)]
struct Memory {
    alloc: Global,
}

impl FromSql for Memory {
    ghost use Rattle.std.specs.Prelude.{⊤};

    ghost reads_as = { λ _ _. ⊤ };

    ghost is_readable = { λ _. ⊤ };

    fn column_result(alloc: Global, _: ValueRef<'_>) -> Result<Memory, FromSqlError> {
        Ok(Memory { alloc })
    }
}

/// The memory that a row's values are copied into.
pub fn memory_of(row: &Row) -> Result<Global, Misread>
    ensures { IfErr result (λ e. e ≢ Misread.Wrong) }
{
    match row.get::<Memory>(0) {
        Ok(memory) => Ok(memory.alloc),
        Err(_) => Err(Misread::Memory),
    }
}

/// The text in a column.
pub fn text(row: &Row, at: usize) -> Option<&str>
    ensures { MatchOption result ((t : List ℕ) → IsUtf8 t → column row.now at ≢ Text t) (λ s. (column row.now at ≡ Text s.now) × IsUtf8 s.now) }
{
    match row.get_ref(at) {
        Ok(ValueRef::Text(bytes)) => std::str::from_utf8(bytes).ok(),
        _ => None,
    }
}

/// The bytes in a column.
pub fn bytes(row: &Row, at: usize) -> Option<&[u8]>
    ensures { MatchOption result ((b : List ℕ) → column row.now at ≢ Blob b) (λ b. column row.now at ≡ Blob b.now) }
{
    match row.get_ref(at) {
        Ok(ValueRef::Blob(bytes)) => Some(bytes),
        _ => None,
    }
}

/// Whether a column is NULL.
pub fn is_null(row: &Row, at: usize) -> bool
    ensures { IsTrue result ↔ (column row.now at ≡ Null) }
{
    match row.get_ref(at) {
        Ok(ValueRef::Null) => true,
        Ok(_) => false,
        Err(_) => true,
    }
}

/// The number in a column.
pub fn number(row: &Row, at: usize) -> Option<u64>
    ensures { MatchOption result ((n : ℕ) → column row.now at ≢ number n) (λ n. column row.now at ≡ number n) }
{
    match row.get_ref(at) {
        Ok(ValueRef::Int(n)) => u64::try_from(n).ok(),
        _ => None,
    }
}

/// The number in a column, where it is below 2^32.
pub fn small_number(row: &Row, at: usize) -> Option<u32>
    ensures { MatchOption result ((n : ℕ) → n < 2 ^ 32 → column row.now at ≢ number n) (λ n. column row.now at ≡ number n) }
{
    u32::try_from(number(row, at)?).ok()
}

/// The number in a column, where it is from one number to another.
pub fn number_within(row: &Row, at: usize, least: u32, most: u32) -> Option<u32>
    ensures { MatchOption result ((n : ℕ) → least ≤ n → n ≤ most → column row.now at ≢ number n) (λ n. (column row.now at ≡ number n) × (least ≤ n) × (n ≤ most)) }
{
    let n = small_number(row, at)?;
    if n < least || most < n {
        return None;
    }
    Some(n)
}

/// The number in a column, where it is this at most.
pub fn number_up_to(row: &Row, at: usize, most: u64) -> Option<u64>
    ensures { MatchOption result ((n : ℕ) → n ≤ most → column row.now at ≢ number n) (λ n. (column row.now at ≡ number n) × (n ≤ most)) }
{
    let n = number(row, at)?;
    if most < n {
        return None;
    }
    Some(n)
}

/// The number in a column, where it is below 2^32, or NULL.
pub fn small_number_or_null(row: &Row, at: usize) -> Option<Option<u32>>
    ensures { MatchOption result ((o : Option ℕ) → IfSome o (λ n. n < 2 ^ 32) → column row.now at ≢ number_or_null o) (λ o. column row.now at ≡ number_or_null o) }
{
    if is_null(row, at) {
        return Some(None);
    }
    let n = small_number(row, at)?;
    Some(Some(n))
}

/// The truth value or hold in a column.
pub fn flag(row: &Row, at: usize) -> Option<bool>
    ensures { MatchOption result ((b : Bool) → column row.now at ≢ flag b) (λ b. column row.now at ≡ flag b) }
{
    match number(row, at)? {
        0 => Some(false),
        1 => Some(true),
        _ => None,
    }
}

/// The same, or NULL.
pub fn flag_or_null(row: &Row, at: usize) -> Option<Option<bool>>
    ensures { MatchOption result ((o : Option Bool) → column row.now at ≢ flag_or_null o) (λ o. column row.now at ≡ flag_or_null o) }
{
    if is_null(row, at) {
        return Some(None);
    }
    let b = flag(row, at)?;
    Some(Some(b))
}

/// The moment in a column.
pub fn moment(row: &Row, at: usize) -> Option<Moment>
    ensures { Shows number (λ t. t ≤ last_moment) (column row.now at) result }
{
    match row.get_ref(at) {
        Ok(ValueRef::Int(n)) => Moment::from_secs(n),
        _ => None,
    }
}

/// The same, or NULL.
pub fn moment_or_null(row: &Row, at: usize) -> Option<Option<Moment>>
    ensures { Shows number_or_null (λ o. IfSome o (λ t. t ≤ last_moment)) (column row.now at) result }
{
    if is_null(row, at) {
        return Some(None);
    }
    let moment = moment(row, at)?;
    Some(Some(moment))
}

/// The version id in a column.
pub fn version_id(row: &Row, at: usize) -> Option<VersionId>
    ensures { Shows number (λ n. IsTrue (is_version_id n)) (column row.now at) result }
{
    VersionId::new(small_number(row, at)?)
}

/// The digest in a column.
pub fn digest(row: &Row, at: usize) -> Option<Digest>
    ensures { Shows Blob (λ b. length b ≡ 32) (column row.now at) result }
{
    Digest::from_slice(bytes(row, at)?)
}

/// The same, or NULL.
pub fn digest_or_null(row: &Row, at: usize) -> Option<Option<Digest>>
    ensures { Shows bytes_or_null (λ o. IfSome o (λ b. length b ≡ 32)) (column row.now at) result }
{
    if is_null(row, at) {
        return Some(None);
    }
    let d = digest(row, at)?;
    Some(Some(d))
}

/// The bytes of a content in a column.
pub fn content(row: &Row, at: usize) -> Result<Bytes, Misread>
    ensures ok { IfOk result (λ c. column row.now at ≡ Blob c) }
    ensures wrong { IfErr result (λ e. e ≡ Misread.Wrong → (b : List ℕ) → column row.now at ≢ Blob b) }
{
    let Some(bytes) = bytes(row, at) else {
        return Err(Misread::Wrong);
    };
    let copy = Vec::from_slice(memory_of(row)?, bytes)?;
    Ok(Bytes::new(copy))
}
