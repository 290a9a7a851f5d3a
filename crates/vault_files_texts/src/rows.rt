//! The records of entries, written as they are handed on.
ghost use Rattle.std.specs.Prelude.{◌≡◌, ◌≢◌, OnOk, OnErr};
ghost use Rattle.std.specs.Io.KnownBytes.{Appends};
ghost use Rattle.vault_files_texts.specs.Register as spec;
ghost use Rattle.vault_io.specs.Begins.{Begins};

use crate::fault::ExportFault;
use crate::record::row;
use crate::writing::write_bytes;
use std::alloc::Global;
use std::io::Write;
use vault_core_model::keeper::Sink;
use vault_core_model::records::Entry;

/// Writes the record of each entry that it is handed.
#[derive(Drop)]
pub(crate) struct RegisterRows<'w, W> {
    alloc: Global,
    writer: &'w mut W,
    /// Whether room for a record was refused.
    short: bool,
}

impl<'w, W: Write> RegisterRows<'w, W> {
    pub(crate) fn new(alloc: Global, writer: &'w mut W) -> RegisterRows<'w, W>
        ensures name { result.writer.ghost_name ≡ writer.entry.ghost_name }
        ensures writer { result.writer.now ≡ writer.old }
    {
        RegisterRows {
            alloc,
            writer,
            short: false,
        }
    }

    /// Why it refused an entry.
    pub(crate) fn fault(&self) -> ExportFault
        ensures { result ≢ ExportFault.Device }
    {
        if self.short {
            ExportFault::Memory
        } else {
            ExportFault::Write
        }
    }
}

/// Writes the record of an entry.
fn write_row<W: Write>(alloc: Global, writer: &mut W, entry: &Entry) -> Result<(), ExportFault>
    ensures ok { OnOk result (Appends (W.contents writer.old) (W.contents writer.new) (spec.row entry.now)) }
    ensures err { OnErr result (Begins (W.contents writer.old) (W.contents writer.new) (spec.row entry.now)) }
{
    let bytes = row(alloc, entry)?;
    write_bytes(writer, bytes.as_slice())
}

impl<W: Write> Sink for RegisterRows<'_, W> {
    ghost use Rattle.vault_files_texts.specs.Rows.{WritesRow};

    ghost takes = { WritesRow W.contents };

    fn take(&mut self, entry: &Entry) -> bool {
        match write_row(self.alloc, self.writer, entry) {
            Ok(()) => true,
            Err(fault) => {
                self.short = fault == ExportFault::Memory;
                false
            }
        }
    }
}
