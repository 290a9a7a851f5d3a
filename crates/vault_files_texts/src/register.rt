//! The register of removals.
//!
//! ```text
//! version,bucket,key,kind,size,sha256,admitted,admitted_by,removed,cause,cause_by,days
//! 2,docs,k,marker,0,,2024-03-01T08:00:01Z,ann,2024-03-01T08:00:03Z,rule,r1,0
//! ```
ghost use Rattle.std.specs.Prelude.{◌≡◌, ◌≢◌, OnOk, OnErr, true, Ok};
ghost use Rattle.std.specs.List.{flat_map};
ghost use Rattle.std.specs.Io.KnownBytes.{Appends};
ghost use Rattle.vault_core_model.specs.Leaves.{LeavesSame, ReadsAs};
ghost use Rattle.vault_core_model.specs.Reads.{removed_entries};
ghost use Rattle.vault_files_texts.specs.Faults.{is_device_met};
ghost use Rattle.vault_files_texts.specs.Register as spec;
ghost use Rattle.vault_io.specs.Begins.{Begins};

use crate::fault::ExportFault;
pub use crate::record::row;
use crate::rows::RegisterRows;
use crate::writing::{flush, write_bytes};
use std::alloc::Global;
use std::io::Write;
use vault_core_model::halt::Fault;
use vault_core_model::keeper::Keeper;

/// The names of the columns.
pub const HEADER: &[u8] =
    b"version,bucket,key,kind,size,sha256,admitted,admitted_by,removed,cause,cause_by,days\n";

/// Has each removed entry written: whether all were.
#[tactic(auto, using(crate::proofs::Walked::handed_name, crate::proofs::Walked::handed_all, crate::proofs::Walked::handed_some))]
fn walk_rows<K: Keeper, W: Write>(
    keeper: &mut K,
    rows: &mut RegisterRows<'_, W>,
) -> Result<bool, Fault>
    ensures name { K.is_honest keeper.new → rows.new.writer.ghost_name ≡ rows.old.writer.ghost_name }
    ensures all { K.is_honest keeper.new → result ≡ Ok true → Appends (W.contents rows.old.writer.now) (W.contents rows.new.writer.now) (flat_map spec.row (removed_entries (K.vault keeper.old))) }
    ensures some { K.is_honest keeper.new → result ≢ Ok true → Begins (W.contents rows.old.writer.now) (W.contents rows.new.writer.now) (flat_map spec.row (removed_entries (K.vault keeper.old))) }
    ensures leaves { ReadsAs K.Kept keeper.old keeper.new result }
{
    keeper.walk_removed(rows)
}

/// Writes a record for each removed entry.
fn write_rows<K: Keeper, W: Write>(
    alloc: Global,
    keeper: &mut K,
    writer: &mut W,
) -> Result<(), ExportFault>
    ensures ok { K.is_honest keeper.new → OnOk result (Appends (W.contents writer.old) (W.contents writer.new) (flat_map spec.row (removed_entries (K.vault keeper.old)))) }
    ensures err { K.is_honest keeper.new → OnErr result (Begins (W.contents writer.old) (W.contents writer.new) (flat_map spec.row (removed_entries (K.vault keeper.old)))) }
    ensures leaves { LeavesSame K.Kept keeper.old keeper.new (is_device_met result) }
{
    let mut rows = RegisterRows::new(alloc, writer);
    if walk_rows(keeper, &mut rows)? {
        Ok(())
    } else {
        Err(rows.fault())
    }
}

/// Writes the register of a vault: the header, and a record for each removed entry by rising id, in the
/// default form of CSV. Each entry's record is written before the next entry is read.
///
/// `Write` comes where the writer fails, `Memory` where room for a record was refused, and `Device` where the
/// vault's device failed, and there always. The vault is never changed. What stands written after a fault is a beginning of the
/// register.
pub fn export_register<K: Keeper, W: Write>(
    alloc: Global,
    keeper: &mut K,
    writer: &mut W,
) -> Result<(), ExportFault>
    ensures ok { K.is_honest keeper.new → OnOk result (Appends (W.contents writer.old) (W.contents writer.new) (spec.register (removed_entries (K.vault keeper.old)))) }
    ensures err { K.is_honest keeper.new → OnErr result (Begins (W.contents writer.old) (W.contents writer.new) (spec.register (removed_entries (K.vault keeper.old)))) }
    ensures leaves { LeavesSame K.Kept keeper.old keeper.new (is_device_met result) }
{
    write_bytes(writer, HEADER)?;
    write_rows(alloc, keeper, writer)?;
    flush(writer)
}
