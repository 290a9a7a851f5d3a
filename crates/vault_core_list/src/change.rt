//! Changes of the list of histories.
ghost use Rattle.std.specs.Prelude.{◌≡◌, ◌==◌, [], ◌∷◌, ◌++◌, map, position, IfOk, OnOk, OnErr};
ghost use Rattle.vault_core_model.specs.Change.{closed_if, removed_if, tenured_if, with_default, with_department, with_rules, with_setting};
ghost use Rattle.vault_core_model.specs.Order.{note_cmp, placed_if_given};
ghost use Rattle.vault_core_model.specs.Sound.{AreIdsFrom};

use crate::{bucket, place};
use std::alloc::{AllocError, Global};
use vault_base::name::{BucketName, CallerName, DeptName, VersionId};
use vault_core_model::change::Admission;
use vault_core_model::records::{
    Bucket, BucketConfig, Caller, History, Note, Removal, Setting, Settings, Tenure,
};
use vault_lock::retention::Default;
use vault_rules::rule_set::RuleSet;

/// Puts a history after the others, and its note, where it has one, at its place: both or neither.
pub(crate) fn admit(
    histories: &mut Vec<History>,
    notes: &mut Vec<Note>,
    admission: &Admission,
) -> Result<(), AllocError>
    ensures admitted { OnOk result (histories.new.items ≡ histories.old.items ++ admission.now.history ∷ []) }
    ensures noted { OnOk result (notes.new.items ≡ placed_if_given note_cmp admission.now.note notes.old.items) }
    ensures no_history { OnErr result (histories.new.items ≡ histories.old.items) }
    ensures no_note { OnErr result (notes.new.items ≡ notes.old.items) }
{
    // With the room taken first, nothing fails once the note stands.
    histories.reserve(1)?;
    let history = admission.history.clone()?;
    match place_note(notes, &admission.note) {
        Ok(()) => {
            histories.push(history)?;
            Ok(())
        }
        Err(error) => {
            drop(history);
            Err(error)
        }
    }
}

/// Puts the note, where there is one, at its place.
fn place_note(notes: &mut Vec<Note>, note: &Option<Note>) -> Result<(), AllocError>
    ensures ok { OnOk result (notes.new.items ≡ placed_if_given note_cmp note.now notes.old.items) }
    ensures err { OnErr result (notes.new.items ≡ notes.old.items) }
{
    let Some(note) = note else {
        return Ok(());
    };
    place::place(notes, note.clone()?)
}

/// Where the history of that id stands.
fn index_of(histories: &[History], id: VersionId) -> Option<usize>
    ensures { result ≡ position (λ h. h.entry.id == id) histories.now }
{
    histories.iter().position(|history| history.entry.id == id)
}

/// Removes the entry of that id: its removal is kept, and its bytes are dropped.
pub(crate) fn remove(histories: &mut Vec<History>, id: VersionId, removal: Removal)
    requires { AreIdsFrom 1 histories.old.items }
    ensures { histories.new.items ≡ map (removed_if id removal) histories.old.items }
{
    remove_among(histories, id, removal);
}

fn remove_among(histories: &mut [History], id: VersionId, removal: Removal)
    requires { AreIdsFrom 1 histories.old }
    ensures { histories.new ≡ map (removed_if id removal) histories.old }
{
    let Some(index) = index_of(histories, id) else {
        return;
    };
    let history = &mut histories[index];
    history.content = None;
    history.entry.removal = Some(removal);
}

/// The settings of a version and one more.
fn settings_with(settings: &Settings, setting: &Setting) -> Result<Settings, AllocError>
    ensures { IfOk result (λ list. list ≡ settings.now ++ setting.now ∷ []) }
{
    let mut list = settings.clone()?;
    list.push(setting.clone()?)?;
    Ok(list)
}

/// Adds a setting to the version of that id.
pub(crate) fn add_setting(
    histories: &mut Vec<History>,
    id: VersionId,
    setting: &Setting,
) -> Result<(), AllocError>
    requires { AreIdsFrom 1 histories.old.items }
    ensures ok { OnOk result (histories.new.items ≡ map (with_setting id setting.now) histories.old.items) }
    ensures err { OnErr result (histories.new.items ≡ histories.old.items) }
{
    add_setting_among(histories, id, setting)
}

fn add_setting_among(
    histories: &mut [History],
    id: VersionId,
    setting: &Setting,
) -> Result<(), AllocError>
    requires { AreIdsFrom 1 histories.old }
    ensures ok { OnOk result (histories.new ≡ map (with_setting id setting.now) histories.old) }
    ensures err { OnErr result (histories.new ≡ histories.old) }
{
    let Some(index) = index_of(histories, id) else {
        return Ok(());
    };
    let history = &mut histories[index];
    history.settings = settings_with(&history.settings, setting)?;
    Ok(())
}

/// The callers, with the one of that name closed.
pub(crate) fn closed(
    alloc: Global,
    callers: &[Caller],
    name: &CallerName,
) -> Result<Vec<Caller>, AllocError>
    ensures { IfOk result (λ list. list.items ≡ map (closed_if name.now) callers.now) }
{
    let mut list = Vec::new(alloc);
    for caller in callers {
        list.push(closed_if(caller, name)?)?;
    }
    Ok(list)
}

fn closed_if(caller: &Caller, name: &CallerName) -> Result<Caller, AllocError>
    ensures { IfOk result (λ found. found ≡ closed_if name.now caller.now) }
{
    Ok(Caller {
        name: caller.name.clone()?,
        dept: caller.dept.clone()?,
        rights: caller.rights,
        closed: caller.closed || caller.name == *name,
    })
}

/// The buckets, with the one of that name as that department's.
fn with_department(
    alloc: Global,
    buckets: &[Bucket],
    name: &BucketName,
    dept: &DeptName,
) -> Result<Vec<Bucket>, AllocError>
    ensures { IfOk result (λ list. list.items ≡ map (with_department name.now dept.now) buckets.now) }
{
    let mut list = Vec::new(alloc);
    for bucket in buckets {
        list.push(with_department_if(bucket, name, dept)?)?;
    }
    Ok(list)
}

fn with_department_if(
    bucket: &Bucket,
    name: &BucketName,
    dept: &DeptName,
) -> Result<Bucket, AllocError>
    ensures { IfOk result (λ found. found ≡ with_department name.now dept.now bucket.now) }
{
    let owner = if bucket.name == *name {
        dept
    } else {
        &bucket.config.dept
    };
    Ok(Bucket {
        name: bucket.name.clone()?,
        config: BucketConfig {
            dept: owner.clone()?,
            default: bucket.config.default,
        },
        rules: bucket.rules.clone()?,
    })
}

/// Gives the bucket to the department of that tenure, and each version that it holds the tenure: all or
/// nothing.
pub(crate) fn move_bucket(
    alloc: Global,
    buckets: &mut Vec<Bucket>,
    histories: &mut Vec<History>,
    name: &BucketName,
    tenure: Tenure,
) -> Result<(), AllocError>
    ensures owned { OnOk result (buckets.new.items ≡ map (with_department name.now tenure.dept) buckets.old.items) }
    ensures tenured { OnOk result (histories.new.items ≡ map (tenured_if name.now tenure) histories.old.items) }
    ensures no_bucket { OnErr result (buckets.new.items ≡ buckets.old.items) }
    ensures no_tenure { OnErr result (histories.new.items ≡ histories.old.items) }
{
    let mut longer = bucket::longer(alloc, histories, name, &tenure)?;
    *buckets = with_department(alloc, buckets, name, &tenure.dept)?;
    // Only what is there by now is put in, so nothing fails once the bucket is given.
    bucket::put_in(histories, &mut longer);
    Ok(())
}

/// The buckets, with that default at the one of that name.
pub(crate) fn with_default(
    alloc: Global,
    buckets: &[Bucket],
    name: &BucketName,
    default: Option<Default>,
) -> Result<Vec<Bucket>, AllocError>
    ensures { IfOk result (λ list. list.items ≡ map (with_default name.now default) buckets.now) }
{
    let mut list = Vec::new(alloc);
    for bucket in buckets {
        list.push(with_default_if(bucket, name, default)?)?;
    }
    Ok(list)
}

fn with_default_if(
    bucket: &Bucket,
    name: &BucketName,
    default: Option<Default>,
) -> Result<Bucket, AllocError>
    ensures { IfOk result (λ found. found ≡ with_default name.now default bucket.now) }
{
    let is_named = bucket.name == *name;
    Ok(Bucket {
        name: bucket.name.clone()?,
        config: BucketConfig {
            dept: bucket.config.dept.clone()?,
            default: if is_named {
                default
            } else {
                bucket.config.default
            },
        },
        rules: bucket.rules.clone()?,
    })
}

/// The buckets, with those rules at the one of that name.
pub(crate) fn with_rules(
    alloc: Global,
    buckets: &[Bucket],
    name: &BucketName,
    rules: &Option<RuleSet>,
) -> Result<Vec<Bucket>, AllocError>
    ensures { IfOk result (λ list. list.items ≡ map (with_rules name.now rules.now) buckets.now) }
{
    let mut list = Vec::new(alloc);
    for bucket in buckets {
        list.push(with_rules_if(bucket, name, rules)?)?;
    }
    Ok(list)
}

fn with_rules_if(
    bucket: &Bucket,
    name: &BucketName,
    rules: &Option<RuleSet>,
) -> Result<Bucket, AllocError>
    ensures { IfOk result (λ found. found ≡ with_rules name.now rules.now bucket.now) }
{
    let rules = if bucket.name == *name {
        rules
    } else {
        &bucket.rules
    };
    Ok(Bucket {
        name: bucket.name.clone()?,
        config: bucket.config.clone()?,
        rules: rules.clone()?,
    })
}
