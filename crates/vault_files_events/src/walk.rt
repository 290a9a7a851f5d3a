//! A walk over all entries of a vault, one at a time, that has the text of their events taken.
ghost use Rattle.std.specs.Prelude.{◌≡◌, ◌+◌, IfOk, IfSome, OnErr, Err, false, length};
ghost use Rattle.vault_core_evidence.specs.Events.{events_asked};
ghost use Rattle.vault_core_model.specs.Leaves.{LeavesSame};
ghost use Rattle.vault_core_model.specs.Vault.{history_of};
ghost use Rattle.vault_files_events.specs.EventsText.{asked_found, event_rows, events_text};
ghost use Rattle.vault_files_events.specs.Past.{asked_past};
ghost use Rattle.vault_files_events.specs.Taking.{TookCounted, TookSome};
ghost use Rattle.vault_files_events.specs.Typed.{AreTyped, IsTyped};
ghost use Rattle.vault_files_texts.specs.Faults.{is_device_met};

use crate::counted::Counted;
use crate::past::{Past, read_past};
use crate::rows::rows_of;
use crate::taker::Taker;
use std::alloc::Global;
use vault_base::moment::Moment;
use vault_base::name::VersionId;
use vault_core_evidence::parts::count_entries;
use vault_core_model::keeper::Keeper;
use vault_files_texts::ExportFault;

/// The names of the columns.
pub(crate) const HEADER: &[u8] =
    b"version,event,moment,by,bucket,key,kind,size,sha256,mode,until,hold,bypass,cause,department,move\n";

/// Has the records of one entry taken, and lets go of it.
fn take_past<T: Taker>(
    alloc: Global,
    taker: &mut T,
    before: &Option<Moment>,
    past: Past,
) -> Result<Counted, ExportFault>
    ensures ok { IfOk result (TookCounted T.took taker.old taker.new event_rows (asked_past before.now past)) }
    ensures err { OnErr result (TookSome T.took taker.old (event_rows (asked_past before.now past)) taker.new) }
    ensures kind { is_device_met result ≡ false }
{
    let Past {
        entry,
        settings,
        tenures,
    } = past;
    let rows = rows_of(
        alloc,
        before,
        &entry,
        settings.as_slice(),
        tenures.as_slice(),
    )?;
    taker.take(rows.text.as_slice())?;
    Ok(rows.counted)
}

/// Has the records of the entry of an id taken.
#[tactic(auto, using(crate::proofs::TypedWalk::on_ok, crate::proofs::TypedWalk::typed_found))]
fn take_entry<K: Keeper, T: Taker>(
    alloc: Global,
    keeper: &mut K,
    taker: &mut T,
    before: &Option<Moment>,
    id: VersionId,
) -> Result<Counted, ExportFault>
    ensures ok { K.is_honest keeper.new → IfOk result (TookCounted T.took taker.old taker.new event_rows (asked_found before.now (history_of (K.vault keeper.old) id))) }
    ensures err { K.is_honest keeper.new → OnErr result (TookSome T.took taker.old (event_rows (asked_found before.now (history_of (K.vault keeper.old) id))) taker.new) }
    ensures typed { K.is_honest keeper.new → IfOk result (λ n. IfSome (history_of (K.vault keeper.old) id) (λ h. IsTyped h.entry)) }
    ensures leaves { LeavesSame K.Kept keeper.old keeper.new (is_device_met result) }
{
    let Some(past) = read_past(keeper, id)? else {
        return Ok(Counted::none());
    };
    take_past(alloc, taker, before, past)
}

/// Has the records of each entry taken, by rising id.
fn take_each<K: Keeper, T: Taker>(
    alloc: Global,
    keeper: &mut K,
    taker: &mut T,
    before: &Option<Moment>,
    entries: u32,
) -> Result<Counted, ExportFault>
    requires entries { K.is_honest keeper.old → entries ≡ length (K.vault keeper.old).histories }
    ensures ok { K.is_honest keeper.new → IfOk result (TookCounted T.took taker.old taker.new event_rows (events_asked before.now (K.vault keeper.old))) }
    ensures err { K.is_honest keeper.new → OnErr result (TookSome T.took taker.old (event_rows (events_asked before.now (K.vault keeper.old))) taker.new) }
    ensures typed { K.is_honest keeper.new → IfOk result (λ n. AreTyped (K.vault keeper.old)) }
    ensures leaves { LeavesSame K.Kept keeper.old keeper.new (is_device_met result) }
{
    let mut counted = Counted::none();
    for place in 0..entries {
        let Some(id) = VersionId::new(place + 1) else {
            return Err(ExportFault::Memory);
        };
        let more = take_entry(alloc, keeper, taker, before, id)?;
        let Some(sum) = counted.and(more) else {
            return Err(ExportFault::Memory);
        };
        counted = sum;
    }
    Ok(counted)
}

/// Has the text of all events taken: the header, and the record of each, one entry after another.
pub(crate) fn take_events<K: Keeper, T: Taker>(
    alloc: Global,
    keeper: &mut K,
    taker: &mut T,
    before: &Option<Moment>,
) -> Result<Counted, ExportFault>
    ensures ok { K.is_honest keeper.new → IfOk result (TookCounted T.took taker.old taker.new events_text (events_asked before.now (K.vault keeper.old))) }
    ensures err { K.is_honest keeper.new → OnErr result (TookSome T.took taker.old (events_text (events_asked before.now (K.vault keeper.old))) taker.new) }
    ensures typed { K.is_honest keeper.new → IfOk result (λ n. AreTyped (K.vault keeper.old)) }
    ensures leaves { LeavesSame K.Kept keeper.old keeper.new (is_device_met result) }
{
    taker.take(HEADER)?;
    let entries = count_entries(keeper)?;
    take_each(alloc, keeper, taker, before, entries)
}
