//! Content versions that are read, with their content or without.
ghost use Rattle.std.specs.Prelude.{◌≡◌, [], IfOk, unwrap_or};
ghost use Rattle.vault_base.specs.declared.content.Content.TheVariants.{Inside};
ghost use Rattle.vault_core_model.specs.Leaves.{Leaves, ReadsAs};
ghost use Rattle.vault_core_model.specs.Halts.{AnswersAs, is_device};
ghost use Rattle.vault_core_model.specs.EntryOutcomes as outcome;
ghost use Rattle.vault_core_model.specs.Reads.{content_of};

use std::alloc::Global;
use vault_base::content::{Bytes, Content};
use vault_base::moment::Moment;
use vault_base::name::{CallerName, VersionId};
use vault_base::right::Right;
use vault_core_checks::caller::find_access;
use vault_core_checks::entry::{find_setting, find_version};
use vault_core_model::command::{Get, Head};
use vault_core_model::halt::{Fault, Halt};
use vault_core_model::keeper::Keeper;
use vault_core_model::reply::{Answer, Version};

/// Reads a content version: its entry, the lock that counts and its content.
pub fn get<K: Keeper>(
    alloc: Global,
    keeper: &mut K,
    at: Moment,
    who: &CallerName,
    command: &Get,
) -> Result<Answer, Halt>
    ensures meets { K.is_honest keeper.new → AnswersAs result (K.vault keeper.old) (K.vault keeper.new) (outcome.get (K.vault keeper.old) at who.now command.now) }
    ensures leaves { Leaves K.Kept keeper.old keeper.new (is_device result) }
{
    drop(find_access(keeper, at, who, &command.bucket, Right::Get)?);
    let entry = find_version(keeper, &command.bucket, &command.key, command.id)?;
    let lock = find_setting(keeper, entry.id)?.lock;
    let content = read_content(alloc, keeper, entry.id)?;
    Ok(Answer::Version(Version { entry, lock }, content))
}

/// The content of the entry of that id; no bytes where it has none.
fn read_content<K: Keeper>(alloc: Global, keeper: &mut K, id: VersionId) -> Result<Content, Fault>
    ensures value { K.is_honest keeper.new → IfOk result (λ content. content ≡ unwrap_or (content_of (K.vault keeper.old) id) (Inside [])) }
    ensures leaves { ReadsAs K.Kept keeper.old keeper.new result }
{
    match keeper.content(id)? {
        Some(content) => Ok(content),
        None => Ok(Content::Inside(Bytes::new(Vec::new(alloc)))),
    }
}

/// Reads a content version without its content.
pub fn head<K: Keeper>(
    keeper: &mut K,
    at: Moment,
    who: &CallerName,
    command: &Head,
) -> Result<Answer, Halt>
    ensures meets { K.is_honest keeper.new → AnswersAs result (K.vault keeper.old) (K.vault keeper.new) (outcome.head (K.vault keeper.old) at who.now command.now) }
    ensures leaves { Leaves K.Kept keeper.old keeper.new (is_device result) }
{
    drop(find_access(keeper, at, who, &command.bucket, Right::Get)?);
    let entry = find_version(keeper, &command.bucket, &command.key, command.id)?;
    let lock = find_setting(keeper, entry.id)?.lock;
    Ok(Answer::Head(Version { entry, lock }))
}
