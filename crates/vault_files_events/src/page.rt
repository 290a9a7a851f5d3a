//! A part of the text of events: the records of some entries, by rising id.
ghost use Rattle.std.specs.Prelude.{◌≡◌, ◌≤◌, ◌-◌, ◌==◌, ◌++◌, [], if◌then◌else◌, IfOk, OnOk, Err, length, take, drop};
ghost use Rattle.vault_base.specs.declared.refusal.Refusal.{Refusal as AnyRefusal};
ghost use Rattle.vault_base.specs.declared.refusal.Refusal.TheVariants.{InvalidArgument};
ghost use Rattle.vault_core_model.specs.Halts.{is_device};
ghost use Rattle.vault_core_model.specs.Leaves.{LeavesSame, ReadsAs};
ghost use Rattle.vault_files_events.specs.EventsText.{asked_in, event_rows};
ghost use Rattle.vault_files_events.specs.Page as spec;
ghost use Rattle.vault_files_events.specs.Past.{asked_of_past};

use crate::past::{Past, read_past};
use crate::rows::rows_of;
use crate::walk::HEADER;
use std::alloc::{AllocError, Global};
use vault_base::content::Bytes;
use vault_base::moment::Moment;
use vault_base::name::VersionId;
use vault_base::refusal::Refusal;
use vault_core_evidence::parts::{count_entries, most_of, next_of};
use vault_core_model::halt::{Fault, Halt};
use vault_core_model::keeper::Keeper;

/// A part of a text, which has the records of some entries, and where the next one begins.
#[derive(Drop)]
pub struct TextPage {
    pub text: Bytes,
    /// The id after which the next part begins; none after the last entry.
    pub next: Option<u32>,
}

/// The header of a text, which comes with its first part.
pub(crate) fn header_if_first(
    alloc: Global,
    header: &[u8],
    after: u32,
) -> Result<Vec<u8>, AllocError>
    ensures { IfOk result (λ text. text.items ≡ (if after == 0 then header.now else [])) }
{
    if after == 0 {
        Vec::from_slice(alloc, header)
    } else {
        Ok(Vec::new(alloc))
    }
}

/// Adds the records of what was found of an entry, and lets go of it.
fn push_found(
    alloc: Global,
    text: &mut Vec<u8>,
    before: &Option<Moment>,
    found: Option<Past>,
) -> Result<(), AllocError>
    ensures { OnOk result (text.new.items ≡ text.old.items ++ event_rows (asked_of_past before.now found)) }
{
    let Some(past) = found else {
        return Ok(());
    };
    let Past {
        entry,
        settings,
        tenures,
    } = past;
    let rows = rows_of(
        alloc,
        before,
        &entry,
        settings.as_slice(),
        tenures.as_slice(),
    )?;
    text.extend_from_slice(rows.text.as_slice())?;
    Ok(())
}

/// Adds the records of `most` entries after an id.
fn push_range<K: Keeper>(
    alloc: Global,
    keeper: &mut K,
    text: &mut Vec<u8>,
    before: &Option<Moment>,
    after: u32,
    most: u32,
) -> Result<(), Fault>
    requires range { K.is_honest keeper.old → most ≤ length (K.vault keeper.old).histories - after }
    ensures ok { K.is_honest keeper.new → OnOk result (text.new.items ≡ text.old.items ++ event_rows (asked_in before.now (take most (drop after (K.vault keeper.old).histories)))) }
    ensures leaves { ReadsAs K.Kept keeper.old keeper.new result }
{
    for place in 0..most {
        let Some(number) = after.checked_add(place + 1) else {
            return Err(Fault::Memory);
        };
        let Some(id) = VersionId::new(number) else {
            return Err(Fault::Memory);
        };
        let found = read_past(keeper, id)?;
        push_found(alloc, text, before, found)?;
    }
    Ok(())
}

/// A part of the text of what happened before a moment: the records of the entries after an id, 1,000 of them at most,
/// by rising id. The part after 0 is the first, and begins with the header.
///
/// The parts of one moment, each after the id that the one before it names, are together the text of which the seal of
/// that moment is made, also where the vault changes in between: what was before its last moment stays.
///
/// `InvalidArgument` comes where the vault hasn't reached the moment, and no other refusal. `Memory` comes where room was
/// refused, and `Device` where the vault's device failed, and there always. The vault is never changed.
pub fn events_page<K: Keeper>(
    alloc: Global,
    keeper: &mut K,
    after: u32,
    before: Moment,
) -> Result<TextPage, Halt>
    ensures page { K.is_honest keeper.new → spec.PagesAs result before after (K.vault keeper.old) }
    ensures leaves { LeavesSame K.Kept keeper.old keeper.new (is_device result) }
    // Whatever the device does, nothing else is refused.
    ensures refused { (r : AnyRefusal) → result ≡ Err (Halt.Refused r) → r ≡ InvalidArgument }
{
    let last = keeper.last()?;
    if last < before {
        return Err(Halt::Refused(Refusal::InvalidArgument));
    }
    let entries = count_entries(keeper)?;
    let mut text = header_if_first(alloc, HEADER, after)?;
    let most = most_of(entries, after);
    push_range(alloc, keeper, &mut text, &Some(before), after, most)?;
    Ok(TextPage {
        text: Bytes::new(text),
        next: next_of(entries, after),
    })
}
