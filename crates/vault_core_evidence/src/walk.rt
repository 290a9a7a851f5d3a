//! The first entry that breaks a law, of a vault or of a part of it: a walk over ids.
ghost use Rattle.std.specs.Prelude.{◌≡◌, ◌≤◌, ◌-◌, IfOk, None, Ok, Some, length};
ghost use Rattle.vault_core_model.specs.Leaves.{ReadsAs};
ghost use Rattle.vault_core_model.specs.Reads.{entry_of, settings_of, tenures_of};
ghost use Rattle.vault_core_evidence.specs.declared.breach.Law.TheVariants as law;
ghost use Rattle.vault_core_evidence.specs.Breaches.{first_breach};
ghost use Rattle.vault_core_evidence.specs.Departments.{removed_at};
ghost use Rattle.vault_core_evidence.specs.Parts.{judged_part, range, range_breach};
ghost use Rattle.vault_core_evidence.specs.Shown.{last_shown, shown_in};
ghost use Rattle.vault_core_evidence.specs.Walk.{FindsAt, FindsDepartments, FindsMoves, ShowsAt};

use crate::breach::{Breach, Law};
use crate::history::rule_breach;
use crate::holders::Holders;
use crate::parts::{count_entries, most_of, next_of};
use crate::rights::{is_first_caller, registrar_name};
use crate::seen_moves::SeenMoves;
use crate::shown::{first_moment, later, shown_by};
use std::alloc::{AllocError, Global};
use vault_base::moment::Moment;
use vault_base::name::VersionId;
use vault_core_model::halt::Fault;
use vault_core_model::keeper::Keeper;
use vault_core_model::records::{Entry, Settings, Tenure, Tenures};

/// The settings of the entry of that id. A marker has none, which needs no look.
fn settings_of<K: Keeper>(
    alloc: Global,
    keeper: &mut K,
    id: VersionId,
    entry: &Entry,
) -> Result<Settings, Fault>
    requires its { K.is_honest keeper.old → entry_of (K.vault keeper.old) id ≡ Some entry.now }
    ensures value { K.is_honest keeper.new → IfOk result (λ found. found ≡ settings_of (K.vault keeper.old) id) }
    ensures leaves { ReadsAs K.Kept keeper.old keeper.new result }
{
    if entry.marker {
        return Ok(Settings::new(alloc));
    }
    keeper.settings(id)
}

/// The tenures of the entry of that id. A marker has none, which needs no look.
fn tenures_of<K: Keeper>(
    alloc: Global,
    keeper: &mut K,
    id: VersionId,
    entry: &Entry,
) -> Result<Tenures, Fault>
    requires its { K.is_honest keeper.old → entry_of (K.vault keeper.old) id ≡ Some entry.now }
    ensures value { K.is_honest keeper.new → IfOk result (λ found. found ≡ tenures_of (K.vault keeper.old) id) }
    ensures leaves { ReadsAs K.Kept keeper.old keeper.new result }
{
    if entry.marker {
        return Ok(Tenures::new(alloc));
    }
    keeper.tenures(id)
}

/// What the tenures of an entry break, after those that were seen.
fn move_breach(
    seen: &mut SeenMoves,
    entry: &Entry,
    tenures: &[Tenure],
) -> Result<Option<Law>, AllocError>
    ensures { IfOk result (λ found. FindsMoves seen.old entry.now.bucket tenures.now found seen.new) }
{
    if seen.see_all(&entry.bucket, tenures)? {
        Ok(None)
    } else {
        Ok(Some(Law::Move))
    }
}

/// When an entry was removed, if it was.
fn removed_at(entry: &Entry) -> Option<Moment>
    ensures { result ≡ removed_at entry.now }
{
    match &entry.removal {
        Some(removal) => Some(removal.at),
        None => None,
    }
}

/// What an entry with these tenures breaks beside the versions that were seen.
fn department_breach(
    holders: &mut Holders,
    entry: &Entry,
    tenures: Tenures,
) -> Result<Option<Law>, AllocError>
    ensures { IfOk result (λ found. FindsDepartments holders.old entry.now tenures found holders.new) }
{
    if holders.see(&entry.bucket, tenures, removed_at(entry))? {
        Ok(None)
    } else {
        Ok(Some(Law::Department))
    }
}

/// The first law that an entry breaks, and the last moment that it shows.
#[derive(Clone, Copy)]
struct Found {
    law: Option<Law>,
    shown: Moment,
}

/// The first law that the entry of that id breaks, after the moves and the versions that were seen, and the last moment
/// that it shows. `now` is the last moment.
fn breach_of<K: Keeper>(
    alloc: Global,
    keeper: &mut K,
    seen: &mut SeenMoves,
    holders: &mut Holders,
    now: Moment,
    id: VersionId,
) -> Result<Found, Fault>
    requires now { K.is_honest keeper.old → now ≡ (K.vault keeper.old).last }
    ensures value { K.is_honest keeper.new → IfOk result (λ found. FindsAt (K.vault keeper.old) seen.old holders.old id found.law seen.new holders.new) }
    ensures shown { K.is_honest keeper.new → IfOk result (λ found. ShowsAt (K.vault keeper.old) id found.shown) }
    ensures leaves { ReadsAs K.Kept keeper.old keeper.new result }
{
    let Some(entry) = keeper.entry(id)? else {
        return Ok(Found {
            law: None,
            shown: now,
        });
    };
    let settings = settings_of(alloc, keeper, id, &entry)?;
    let tenures = tenures_of(alloc, keeper, id, &entry)?;
    let shown = shown_by(&entry, settings.as_slice(), tenures.as_slice());
    let law = rule_breach(keeper, now, &entry, settings.as_slice(), tenures.as_slice())?;
    if law.is_some() {
        return Ok(Found { law, shown });
    }
    let law = move_breach(seen, &entry, tenures.as_slice())?;
    if law.is_some() {
        return Ok(Found { law, shown });
    }
    let law = department_breach(holders, &entry, tenures)?;
    Ok(Found { law, shown })
}

/// What is said of a vault, or of a part of it.
#[derive(Clone, Copy)]
pub struct Judged {
    /// The first entry that breaks a law, and which.
    pub breach: Option<Breach>,
    /// Where none does, the last moment at which an entry was admitted, set, moved or removed; 1970 without an entry.
    pub shown: Moment,
    /// The vault's last moment.
    pub last: Moment,
}

/// What is said of a vault without the caller whom a new vault has.
fn without_registrar(last: Moment) -> Result<Judged, Fault>
    ensures { result ≡ Ok (record { breach = Some (record { id = 1; law = law.Registrar }); shown = last; last = last }) }
{
    let Some(id) = VersionId::new(1) else {
        return Err(Fault::Memory);
    };
    let law = Law::Registrar;
    Ok(Judged {
        breach: Some(Breach { id, law }),
        shown: last,
        last,
    })
}

/// The first of the `most` entries after an id that breaks a law, beside what these entries show; without one the last
/// moment that they show. `now` is the last moment.
fn find_breach<K: Keeper>(
    alloc: Global,
    keeper: &mut K,
    now: Moment,
    after: u32,
    most: u32,
) -> Result<Judged, Fault>
    requires now { K.is_honest keeper.old → now ≡ (K.vault keeper.old).last }
    requires range { K.is_honest keeper.old → most ≤ length (K.vault keeper.old).histories - after }
    ensures value { K.is_honest keeper.new → IfOk result (λ found. found.breach ≡ range_breach (K.vault keeper.old) after most) }
    ensures shown { K.is_honest keeper.new → IfOk result (λ found. found.breach ≡ None → found.shown ≡ shown_in (range (K.vault keeper.old) after most)) }
    ensures last { IfOk result (λ found. found.last ≡ now) }
    ensures leaves { ReadsAs K.Kept keeper.old keeper.new result }
{
    let registrar = registrar_name(alloc)?;
    let caller = keeper.caller(&registrar)?;
    if !is_first_caller(&caller) {
        return without_registrar(now);
    }
    let mut seen = SeenMoves::new(alloc);
    let mut holders = Holders::new(alloc);
    let mut shown = first_moment();
    for place in 0..most {
        let Some(number) = after.checked_add(place + 1) else {
            return Err(Fault::Memory);
        };
        let Some(id) = VersionId::new(number) else {
            return Err(Fault::Memory);
        };
        let found = breach_of(alloc, keeper, &mut seen, &mut holders, now, id)?;
        if let Some(law) = found.law {
            return Ok(Judged {
                breach: Some(Breach { id, law }),
                shown,
                last: now,
            });
        }
        shown = later(shown, found.shown);
    }
    Ok(Judged {
        breach: None,
        shown,
        last: now,
    })
}

/// The first entry that breaks a law, and the first law that it breaks; none where the history is one that
/// commands can have made, as far as its admissions, settings, removals and tenures show. Without the caller `registrar`
/// of a new vault it is entry 1, whether it is there or not. Where no entry breaks a law, the last moment that an entry
/// shows: the vault's own may be later, as that of a command which changed no entry.
///
/// It goes over the entries by rising id and has one of them in memory, beside a record of each move of a
/// bucket, and the tenures of one version of each bucket.
pub fn lawful<K: Keeper>(alloc: Global, keeper: &mut K) -> Result<Judged, Fault>
    ensures value { K.is_honest keeper.new → IfOk result (λ found. found.breach ≡ first_breach (K.vault keeper.old)) }
    ensures shown { K.is_honest keeper.new → IfOk result (λ found. found.breach ≡ None → found.shown ≡ last_shown (K.vault keeper.old)) }
    ensures last { K.is_honest keeper.new → IfOk result (λ found. found.last ≡ (K.vault keeper.old).last) }
    ensures leaves { ReadsAs K.Kept keeper.old keeper.new result }
{
    let now = keeper.last()?;
    let entries = count_entries(keeper)?;
    find_breach(alloc, keeper, now, 0, entries)
}

/// What `lawful` says of a part of the entries, and where the next part begins.
#[derive(Clone, Copy)]
pub struct JudgedPart {
    /// The first entry of the part that breaks a law, and which.
    pub breach: Option<Breach>,
    /// The id after which the next part begins; none after the last entry.
    pub next: Option<u32>,
}

/// Judges the entries after an id, 1,000 of them at most, as `lawful` does, beside what these entries show. The part after
/// 0 is the first.
pub fn lawful_part<K: Keeper>(
    alloc: Global,
    keeper: &mut K,
    after: u32,
) -> Result<JudgedPart, Fault>
    ensures value { K.is_honest keeper.new → IfOk result (λ found. found ≡ judged_part after (K.vault keeper.old)) }
    ensures leaves { ReadsAs K.Kept keeper.old keeper.new result }
{
    let now = keeper.last()?;
    let entries = count_entries(keeper)?;
    let found = find_breach(alloc, keeper, now, after, most_of(entries, after))?;
    Ok(JudgedPart {
        breach: found.breach,
        next: next_of(entries, after),
    })
}
