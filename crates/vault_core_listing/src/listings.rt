//! Listings of a bucket's versions: keys by their bytes, within a key newest first.
ghost use Rattle.std.specs.Prelude.{◌≡◌, ◌&&◌, IfOk, Err, is_some, flat_map, false};
ghost use Rattle.vault_core_model.specs.Leaves.{Leaves, ReadsAs};
ghost use Rattle.vault_core_model.specs.Halts.{ChecksAs, AnswersAs, is_device};
ghost use Rattle.vault_core_model.specs.Checks.{check};
ghost use Rattle.std.specs.Str.{bytes_eq};
ghost use Rattle.vault_core_model.specs.Places.{comes_after};
ghost use Rattle.vault_core_model.specs.ListingOutcome as outcome;
ghost use Rattle.vault_core_listing.specs.Walk.{EndsOrAdvances, GrowsBy, IsFirstAsked, asked_at, asked_first, beginning, completed, filled, has_first, has_prefix, ids_read, is_key_asked, is_past, is_prefix_later, newest_id, older_than, page_of};

use std::alloc::{AllocError, Global};
use vault_base::limits::{MOST_IDS, MOST_KEYS, MOST_LISTED};
use vault_base::moment::Moment;
use vault_base::name::{CallerName, KeyPrefix, ObjectKey, VersionId};
use vault_base::refusal::Refusal;
use vault_base::right::Right;
use vault_core_checks::caller::find_access;
use vault_core_model::command::ListVersions;
use vault_core_model::halt::{Fault, Halt};
use vault_core_model::keeper::Keeper;
use vault_core_model::records::Entry;
use vault_core_model::reply::{Answer, Listed, Listing, Page};

/// So many pages of keys hold a key for each id that there is.
const MOST_PAGES: u32 = MOST_IDS / MOST_KEYS + 1;

/// Lists the held entries of a bucket that are asked for, and says whether there are more.
pub fn list_versions<K: Keeper>(
    alloc: Global,
    keeper: &mut K,
    at: Moment,
    who: &CallerName,
    command: &ListVersions,
) -> Result<Answer, Halt>
    ensures meets { K.is_honest keeper.new → AnswersAs result (K.vault keeper.old) (K.vault keeper.new) (outcome.list_versions (K.vault keeper.old) at who.now command.now) }
    ensures leaves { Leaves K.Kept keeper.old keeper.new (is_device result) }
{
    drop(find_access(keeper, at, who, &command.bucket, Right::List)?);
    check_most(command.most)?;
    Ok(Answer::Versions(find_page(alloc, keeper, command)?))
}

/// A page of a listing has 1 to 1,000 entries.
fn check_most(most: u32) -> Result<(), Halt>
    ensures found { ChecksAs result (check (outcome.is_page_size most) Refusal.InvalidArgument) }
    ensures device { is_device result ≡ false }
{
    if most >= 1 && most <= MOST_LISTED {
        Ok(())
    } else {
        Err(Halt::Refused(Refusal::InvalidArgument))
    }
}

/// The page that is asked for: first what is asked for of the key at which the listing begins, then the
/// keys after it.
fn find_page<K: Keeper>(
    alloc: Global,
    keeper: &mut K,
    command: &ListVersions,
) -> Result<Page, Fault>
    ensures value { K.is_honest keeper.new → IfOk result (λ page. page ≡ page_of (K.vault keeper.old) command.now) }
    ensures leaves { ReadsAs K.Kept keeper.old keeper.new result }
{
    let mut page = Page {
        entries: Listing::new(alloc),
        more: false,
    };
    list_first(keeper, &mut page, command)?;
    list_after(keeper, &mut page, command)?;
    Ok(page)
}

/// The key at which the listing begins, whether or not the bucket has it: what is asked for of the keys
/// before it is nothing, and no such key is read.
fn beginning(command: &ListVersions) -> Result<KeyPrefix, AllocError>
    ensures { IfOk result (λ key. key ≡ beginning command.now) }
{
    if is_prefix_later(command) {
        command.prefix.clone()
    } else {
        command.after_key.clone()
    }
}

/// Whether the prefix comes after the key after which the listing begins.
fn is_prefix_later(command: &ListVersions) -> bool
    ensures { result ≡ is_prefix_later command.now }
{
    command.prefix.as_str() > command.after_key.as_str()
}

/// Whether something may be asked for of the key at which the listing begins.
fn has_first(command: &ListVersions) -> bool
    ensures { result ≡ has_first command.now }
{
    command.after_id.is_some() || is_prefix_later(command)
}

/// Lists what is asked for of the key at which the listing begins.
fn list_first<K: Keeper>(
    keeper: &mut K,
    page: &mut Page,
    command: &ListVersions,
) -> Result<(), Fault>
    ensures value { K.is_honest keeper.new → IfOk result (λ _. page.new ≡ filled command.now.most page.old (asked_first (K.vault keeper.old) command.now)) }
    ensures leaves { ReadsAs K.Kept keeper.old keeper.new result }
{
    if !has_first(command) {
        return Ok(());
    }
    let begun = beginning(command)?;
    let Some(key) = begun.to_key()? else {
        return Ok(());
    };
    list_key(keeper, page, command, &key)
}

/// Lists what is asked for of the keys after the one at which the listing begins, a page of keys at a
/// time, up to the first entry that finds the page full.
fn list_after<K: Keeper>(
    keeper: &mut K,
    page: &mut Page,
    command: &ListVersions,
) -> Result<(), Fault>
    ensures value { K.is_honest keeper.new → IfOk result (λ _. page.new ≡ completed (K.vault keeper.old) command.now page.old (beginning command.now)) }
    ensures leaves { ReadsAs K.Kept keeper.old keeper.new result }
{
    let mut after = beginning(command)?;
    for _ in 0..MOST_PAGES {
        let Some(next) = list_keys_after(keeper, page, command, &after)? else {
            return Ok(());
        };
        after = next;
    }
    Ok(())
}

/// Lists what is asked for of the next page of keys, and states after which key to go on.
fn list_keys_after<K: Keeper>(
    keeper: &mut K,
    page: &mut Page,
    command: &ListVersions,
    after: &KeyPrefix,
) -> Result<Option<KeyPrefix>, Fault>
    ensures value { K.is_honest keeper.new → IfOk result (λ next. EndsOrAdvances (K.vault keeper.old) command.now page.old after.now page.new next) }
    ensures leaves { ReadsAs K.Kept keeper.old keeper.new result }
{
    if page.more {
        return Ok(None);
    }
    let keys = keeper.keys(&command.bucket, after, MOST_KEYS)?;
    list_keys(keeper, page, command, keys.as_slice())?;
    let Some(last) = keys.last() else {
        return Ok(None);
    };
    if keys.len() < MOST_KEYS as usize || is_past(command, last) {
        return Ok(None);
    }
    Ok(Some(last.to_prefix()?))
}

/// Lists what is asked for of these keys.
fn list_keys<K: Keeper>(
    keeper: &mut K,
    page: &mut Page,
    command: &ListVersions,
    keys: &[ObjectKey],
) -> Result<(), Fault>
    ensures value { K.is_honest keeper.new → IfOk result (λ _. page.new ≡ filled command.now.most page.old (flat_map (asked_at (K.vault keeper.old) command.now) keys.now)) }
    ensures leaves { ReadsAs K.Kept keeper.old keeper.new result }
{
    for key in keys {
        list_key(keeper, page, command, key)?;
    }
    Ok(())
}

/// Lists what is asked for of a key, newest first.
fn list_key<K: Keeper>(
    keeper: &mut K,
    page: &mut Page,
    command: &ListVersions,
    key: &ObjectKey,
) -> Result<(), Fault>
    ensures value { K.is_honest keeper.new → IfOk result (λ _. page.new ≡ filled command.now.most page.old (asked_at (K.vault keeper.old) command.now key.now)) }
    ensures leaves { ReadsAs K.Kept keeper.old keeper.new result }
{
    if page.more || !is_key_asked(command, key) {
        return Ok(());
    }
    let than = older_than(command, key);
    let ids = keeper.ids(&command.bucket, key, than, ids_read(command, page))?;
    let Some(first) = ids.first() else {
        return Ok(());
    };
    let newest = find_newest(keeper, command, key, *first)?;
    for id in &ids {
        list_entry(keeper, page, command, *id, newest == Some(*id))?;
    }
    Ok(())
}

/// The newest held entry of a key, of which `first` is the first that is asked for: that one, where each is.
fn find_newest<K: Keeper>(
    keeper: &mut K,
    command: &ListVersions,
    key: &ObjectKey,
    first: VersionId,
) -> Result<Option<VersionId>, Fault>
    ensures value { K.is_honest keeper.new → IsFirstAsked (K.vault keeper.old) command.now key.now first → IfOk result (λ newest. newest ≡ newest_id (K.vault keeper.old) command.now.bucket key.now) }
    ensures leaves { ReadsAs K.Kept keeper.old keeper.new result }
{
    if older_than(command, key).is_none() {
        return Ok(Some(first));
    }
    let newest = keeper.ids(&command.bucket, key, None, 1)?;
    Ok(newest.first().copied())
}

/// Lists an entry that is asked for, while the page takes one; then it is known that there are more.
fn list_entry<K: Keeper>(
    keeper: &mut K,
    page: &mut Page,
    command: &ListVersions,
    id: VersionId,
    current: bool,
) -> Result<(), Fault>
    ensures value { K.is_honest keeper.new → IfOk result (λ _. GrowsBy (K.vault keeper.old) id current command.now.most page.old page.new) }
    ensures leaves { ReadsAs K.Kept keeper.old keeper.new result }
{
    if page.more {
        return Ok(());
    }
    if page.entries.as_slice().len() as u64 >= u64::from(command.most) {
        page.more = true;
        return Ok(());
    }
    if let Some(entry) = keeper.entry(id)? {
        page.entries.push(Listed { entry, current })?;
    }
    Ok(())
}

/// How many ids of a key are read: one for each entry that the page still takes, and one by which it is known
/// that there are more.
fn ids_read(command: &ListVersions, page: &Page) -> u32
    ensures { result ≡ ids_read command.now page.now }
{
    let listed = page.entries.as_slice().len() as u64;
    let room = u64::from(command.most).saturating_sub(listed);
    room.min(u64::from(MOST_IDS)) as u32 + 1
}

/// Whether a key begins as asked.
fn has_prefix(command: &ListVersions, key: &ObjectKey) -> bool
    ensures { result ≡ has_prefix command.now key.now }
{
    let prefix = command.prefix.as_str().as_bytes();
    key.as_str().as_bytes().starts_with(prefix)
}

/// Whether all keys after this one begin otherwise.
fn is_past(command: &ListVersions, key: &ObjectKey) -> bool
    ensures { result ≡ is_past command.now key.now }
{
    key.as_str() > command.prefix.as_str() && !has_prefix(command, key)
}

/// Whether something of the key may be asked for.
fn is_key_asked(command: &ListVersions, key: &ObjectKey) -> bool
    ensures { result ≡ is_key_asked command.now key.now }
{
    has_prefix(command, key) && (comes_after(&command.after_key, key) || is_left_of(command, key))
}

/// Whether the key comes after that one; every key comes after the empty text.
fn comes_after(after: &KeyPrefix, key: &ObjectKey) -> bool
    ensures { result ≡ comes_after key.now after.now }
{
    let after = after.as_str();
    after.is_empty() || key.as_str() > after
}

/// Whether the listing begins within the key, after an entry that is given.
fn is_left_of(command: &ListVersions, key: &ObjectKey) -> bool
    ensures { result ≡ (bytes_eq key.now command.now.after_key && is_some command.now.after_id) }
{
    key.as_str() == command.after_key.as_str() && command.after_id.is_some()
}

/// The entry than which those that are asked for of a key are older; each is asked for where there is none.
fn older_than(command: &ListVersions, key: &ObjectKey) -> Option<VersionId>
    ensures { result ≡ older_than command.now key.now }
{
    if comes_after(&command.after_key, key) {
        None
    } else {
        command.after_id
    }
}
