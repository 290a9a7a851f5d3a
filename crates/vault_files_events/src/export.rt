//! All that happened to each entry, as CSV.
//!
//! ```text
//! version,event,moment,by,bucket,key,kind,size,sha256,mode,until,hold,bypass,cause,department,move
//! 1,admitted,2024-01-15T10:30:00Z,ann,docs,a,version,5,(64 hex digits),,,,,,records,
//! 1,locked,2024-01-15T10:30:00Z,ann,docs,a,version,5,(64 hex digits),GOVERNANCE,2030-01-01T00:00:00Z,OFF,false,,,
//! 1,moved,2024-03-01T00:00:00Z,,docs,a,version,5,(64 hex digits),,,,,,court,1
//! 1,removed,2024-04-01T00:00:00Z,gov,docs,a,version,5,(64 hex digits),,,,,bypass,,
//! ```
ghost use Rattle.std.specs.Prelude.{◌≡◌, ◌≢◌, IfOk, OnOk, OnErr, Err, false};
ghost use Rattle.std.specs.Io.KnownBytes.{Appends, Keeps};
ghost use Rattle.vault_core_evidence.specs.Events.{events_asked};
ghost use Rattle.vault_files_events.specs.Counts.{counts};
ghost use Rattle.vault_files_events.specs.EventsText.{events_text};
ghost use Rattle.vault_files_texts.specs.Faults.{is_device_met};
ghost use Rattle.vault_io.specs.Begins.{Begins};
ghost use Rattle.vault_core_model.specs.Leaves.{LeavesSame};

use crate::counted::Counted;
use crate::takers::ToWriter;
use crate::walk::take_events;
use std::alloc::Global;
use std::io::Write;
use vault_base::moment::Moment;
use vault_core_model::keeper::Keeper;
use vault_files_texts::ExportFault;

/// Hands on what the writer holds back.
fn flush<W: Write>(writer: &mut W) -> Result<(), ExportFault>
    ensures keeps { Keeps (W.contents writer.old) (W.contents writer.new) }
    ensures kind { result ≢ Err ExportFault.Device }
{
    match writer.flush() {
        Ok(()) => Ok(()),
        Err(_) => Err(ExportFault::Write),
    }
}

#[tactic(auto, using(crate::proofs::Written::written_err))]
fn write_events<K: Keeper, W: Write>(
    alloc: Global,
    keeper: &mut K,
    writer: &mut W,
    before: Option<Moment>,
) -> Result<Counted, ExportFault>
    ensures ok { K.is_honest keeper.new → OnOk result (Appends (W.contents writer.old) (W.contents writer.new) (events_text (events_asked before (K.vault keeper.old)))) }
    ensures tally { K.is_honest keeper.new → IfOk result (λ n. n ≡ counts (events_asked before (K.vault keeper.old))) }
    ensures err { K.is_honest keeper.new → OnErr result (Begins (W.contents writer.old) (W.contents writer.new) (events_text (events_asked before (K.vault keeper.old)))) }
    ensures leaves { LeavesSame K.Kept keeper.old keeper.new (is_device_met result) }
{
    let mut taker = ToWriter::new(writer);
    take_events(alloc, keeper, &mut taker, &before)
}

/// Writes all that happened to each entry of a vault, by rising id: the header, and a record for its admission, for each
/// setting of its lock, for each move to another department, and for its removal, in the default form of CSV. With a
/// moment only what was before that moment is written. The answer is how many records these are, and how many of them
/// are admissions. Each entry's records are written before the next entry is read.
///
/// `Write` comes where the writer fails, `Memory` where room for an entry's records was refused, and `Device` where the
/// vault's device failed, and there always. The vault is never changed. What stands written after a fault is a beginning
/// of the text.
pub fn export_events<K: Keeper, W: Write>(
    alloc: Global,
    keeper: &mut K,
    writer: &mut W,
    before: Option<Moment>,
) -> Result<Counted, ExportFault>
    ensures ok { K.is_honest keeper.new → OnOk result (Appends (W.contents writer.old) (W.contents writer.new) (events_text (events_asked before (K.vault keeper.old)))) }
    ensures tally { K.is_honest keeper.new → IfOk result (λ n. n ≡ counts (events_asked before (K.vault keeper.old))) }
    ensures err { K.is_honest keeper.new → OnErr result (Begins (W.contents writer.old) (W.contents writer.new) (events_text (events_asked before (K.vault keeper.old)))) }
    ensures leaves { LeavesSame K.Kept keeper.old keeper.new (is_device_met result) }
{
    let counted = write_events(alloc, keeper, writer, before)?;
    flush(writer)?;
    Ok(counted)
}
