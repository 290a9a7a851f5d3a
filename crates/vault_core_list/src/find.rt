//! Records found by name or id, going over a whole list.
ghost use Rattle.std.specs.Prelude.{◌≡◌, ◌==◌, ◌&&◌, [], IfOk, find, map, option_map, option_and_then, unwrap_or, filter, take};
ghost use Rattle.std.specs.List.{list_any};
ghost use Rattle.std.specs.Option.{option_copied};
ghost use Rattle.std.specs.Str.{bytes_eq};
ghost use Rattle.vault_core_model.specs.Places.{comes_after, is_held_at};
ghost use Rattle.vault_core_model.specs.Reads.{head_over, held_of, last_setting};
ghost use Rattle.vault_core_model.specs.Vault.{bucket_in, config_in, last_lock};

use std::alloc::{AllocError, Global};
use vault_base::content::Content;
use vault_base::name::{BatchName, BucketName, CallerName, DeptName, ObjectKey, VersionId};
use vault_core_model::held::is_held_at;
use vault_core_model::records::{
    Bucket, BucketConfig, Caller, Entry, Head, History, LastSetting, Note, Settings, Tenures,
};
use vault_lock::lock::Lock;
use vault_rules::plan::Held;
use vault_rules::rule_set::RuleSet;

/// Whether that department is among them.
pub(crate) fn has_department(departments: &[DeptName], name: &DeptName) -> bool
    ensures { result ≡ list_any (λ d. bytes_eq d name.now) departments.now }
{
    departments.iter().any(|dept| *dept == *name)
}

fn named_caller<'a>(callers: &'a [Caller], name: &CallerName) -> Option<&'a Caller>
    ensures { option_copied result ≡ find (λ c. bytes_eq c.name name.now) callers.now }
{
    callers.iter().find(|caller| caller.name == *name)
}

/// The caller of that name.
pub(crate) fn caller(callers: &[Caller], name: &CallerName) -> Result<Option<Caller>, AllocError>
    ensures { IfOk result (λ found. found ≡ find (λ c. bytes_eq c.name name.now) callers.now) }
{
    let Some(caller) = named_caller(callers, name) else {
        return Ok(None);
    };
    Ok(Some(caller.clone()?))
}

/// The bucket of that name.
pub(crate) fn bucket<'a>(buckets: &'a [Bucket], name: &BucketName) -> Option<&'a Bucket>
    ensures { option_copied result ≡ bucket_in buckets.now name.now }
{
    buckets.iter().find(|bucket| bucket.name == *name)
}

/// Whose the bucket of that name is, and its default retention.
pub(crate) fn config(
    buckets: &[Bucket],
    name: &BucketName,
) -> Result<Option<BucketConfig>, AllocError>
    ensures { IfOk result (λ found. found ≡ config_in buckets.now name.now) }
{
    let Some(bucket) = bucket(buckets, name) else {
        return Ok(None);
    };
    Ok(Some(bucket.config.clone()?))
}

/// The lifecycle rules of the bucket of that name, where it has any.
pub(crate) fn rules(buckets: &[Bucket], name: &BucketName) -> Result<Option<RuleSet>, AllocError>
    ensures { IfOk result (λ found. found ≡ option_and_then (λ b. b.rules) (bucket_in buckets.now name.now)) }
{
    let Some(bucket) = bucket(buckets, name) else {
        return Ok(None);
    };
    Ok(bucket.rules.clone()?)
}

fn noted<'a>(
    notes: &'a [Note],
    bucket: &BucketName,
    batch: &BatchName,
    line: u32,
) -> Option<&'a Note>
    ensures { option_copied result ≡ find (λ n. bytes_eq n.bucket bucket.now && (bytes_eq n.batch batch.now && n.line == line)) notes.now }
{
    notes.iter().find(|note| note.bucket == *bucket && note.batch == *batch && note.line == line)
}

/// The note of that line of an intake batch.
pub(crate) fn note(
    notes: &[Note],
    bucket: &BucketName,
    batch: &BatchName,
    line: u32,
) -> Result<Option<Note>, AllocError>
    ensures { IfOk result (λ found. found ≡ find (λ n. bytes_eq n.bucket bucket.now && (bytes_eq n.batch batch.now && n.line == line)) notes.now) }
{
    let Some(note) = noted(notes, bucket, batch, line) else {
        return Ok(None);
    };
    Ok(Some(note.clone()?))
}

/// The history of that id, held or removed.
pub(crate) fn history(histories: &[History], id: VersionId) -> Option<&History>
    ensures { option_copied result ≡ find (λ h. h.entry.id == id) histories.now }
{
    histories.iter().find(|history| history.entry.id == id)
}

/// The entry of that id, held or removed.
pub(crate) fn entry(histories: &[History], id: VersionId) -> Result<Option<Entry>, AllocError>
    ensures { IfOk result (λ found. found ≡ option_map (λ h. h.entry) (find (λ h. h.entry.id == id) histories.now)) }
{
    let Some(history) = history(histories, id) else {
        return Ok(None);
    };
    Ok(Some(history.entry.clone()?))
}

/// The bytes of the held version of that id.
pub(crate) fn content(histories: &[History], id: VersionId) -> Result<Option<Content>, AllocError>
    ensures { IfOk result (λ found. found ≡ option_and_then (λ h. h.content) (find (λ h. h.entry.id == id) histories.now)) }
{
    let Some(history) = history(histories, id) else {
        return Ok(None);
    };
    history.content.clone()
}

/// The tenures of the entry of that id; none where no entry has it.
pub(crate) fn tenures(
    alloc: Global,
    histories: &[History],
    id: VersionId,
) -> Result<Tenures, AllocError>
    ensures { IfOk result (λ found. found ≡ unwrap_or (option_map (λ h. h.tenures) (find (λ h. h.entry.id == id) histories.now)) []) }
{
    let Some(history) = history(histories, id) else {
        return Ok(Tenures::new(alloc));
    };
    history.tenures.clone()
}

/// The settings of the entry of that id; none where no entry has it.
pub(crate) fn settings(
    alloc: Global,
    histories: &[History],
    id: VersionId,
) -> Result<Settings, AllocError>
    ensures { IfOk result (λ found. found ≡ unwrap_or (option_map (λ h. h.settings) (find (λ h. h.entry.id == id) histories.now)) []) }
{
    let Some(history) = history(histories, id) else {
        return Ok(Settings::new(alloc));
    };
    history.settings.clone()
}

/// The last setting of the version of that id.
pub(crate) fn setting(histories: &[History], id: VersionId) -> Option<LastSetting>
    ensures { result ≡ option_and_then (λ h. last_setting h.settings) (find (λ h. h.entry.id == id) histories.now) }
{
    let Some(history) = history(histories, id) else {
        return None;
    };
    last_of(&history.settings)
}

fn last_of(settings: &Settings) -> Option<LastSetting>
    ensures { result ≡ last_setting settings.now }
{
    let settings = settings.as_slice();
    let Some(last) = settings.last() else {
        return None;
    };
    Some(LastSetting {
        lock: last.lock,
        count: settings.len() as u64,
    })
}

/// The newest held entry of a key, and how many are held.
pub(crate) fn head(histories: &[History], bucket: &BucketName, key: &ObjectKey) -> Option<Head>
    ensures { result ≡ head_over (filter (λ h. is_held_at bucket.now key.now h.entry) histories.now) }
{
    let mut newest = None;
    let mut count = 0;
    for history in histories {
        if is_held_at(bucket, key, &history.entry) {
            newest = Some(history.entry.id);
            count += 1;
        }
    }
    newest.map(|newest| Head { newest, count })
}

/// The lock of the last setting; a marker has none.
fn last_lock(settings: &Settings) -> Lock
    ensures { result ≡ last_lock settings.now }
{
    let Some(last) = settings.as_slice().last() else {
        return Lock {
            retention: None,
            hold: false,
        };
    };
    last.lock
}

/// What a lifecycle run looks at of a held entry.
fn held_of(history: &History) -> Held
    ensures { result ≡ held_of history.now }
{
    let entry = &history.entry;
    Held {
        id: entry.id,
        marker: entry.marker,
        size: entry.size,
        admitted: entry.admitted,
        lock: last_lock(&history.settings),
    }
}

/// The held entries of a key, oldest first.
pub(crate) fn entries(
    alloc: Global,
    histories: &[History],
    bucket: &BucketName,
    key: &ObjectKey,
) -> Result<Vec<Held>, AllocError>
    ensures { IfOk result (λ held. held.items ≡ map held_of (filter (λ h. is_held_at bucket.now key.now h.entry) histories.now)) }
{
    histories
        .iter()
        .filter(|history| is_held_at(bucket, key, &history.entry))
        .map(held_of)
        .collect(alloc)
}

/// Whether the name comes after that text; every name comes after the empty one.
fn comes_after(name: &BucketName, after: &str) -> bool
    ensures { result ≡ comes_after name.now after.now }
{
    after.is_empty() || name.as_str() > after
}

/// The names of these buckets.
fn names(alloc: Global, buckets: &[Bucket]) -> Result<Vec<BucketName>, AllocError>
    ensures { IfOk result (λ list. list.items ≡ map (λ b. b.name) buckets.now) }
{
    let mut list = Vec::new(alloc);
    for bucket in buckets {
        list.push(bucket.name.clone()?)?;
    }
    Ok(list)
}

/// The names of the first buckets after `after`: at most `most`.
pub(crate) fn bucket_names(
    alloc: Global,
    buckets: &[Bucket],
    after: &str,
    most: u32,
) -> Result<Vec<BucketName>, AllocError>
    ensures { IfOk result (λ names. names.items ≡ take most (filter (λ name. comes_after name after.now) (map (λ b. b.name) buckets.now))) }
{
    let names = names(alloc, buckets)?;
    names
        .into_iter()
        .filter(|name| comes_after(name, after))
        .take(most as usize)
        .collect(alloc)
}
