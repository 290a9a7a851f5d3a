//! A writer and a digest, which take the text of events.
ghost use Rattle.std.specs.Prelude.{◌≡◌, [], List, ℕ};
ghost use Rattle.sha2.specs.Hashers.{Holds256};
ghost use Rattle.sha2.specs.Sha256.{sha256};

use crate::taker::Taker;
use sha2::{Digest, Sha256};
use std::io::Write;
use vault_files_texts::ExportFault;
use vault_io::writing::write_bytes;

/// Hands the bytes on to a writer.
#[derive(Drop)]
pub(crate) struct ToWriter<'w, W> {
    writer: &'w mut W,
}

impl<'w, W: Write> ToWriter<'w, W> {
    pub(crate) fn new(writer: &'w mut W) -> ToWriter<'w, W>
        ensures name { result.writer.ghost_name ≡ writer.entry.ghost_name }
        ensures writer { result.writer.now ≡ writer.old }
    {
        ToWriter { writer }
    }
}

impl<W: Write> Taker for ToWriter<'_, W> {
    ghost use Rattle.vault_files_events.specs.Takers.{WritesOn, writes_in_turn};

    ghost took = { WritesOn W.contents };

    fn take(&mut self, bytes: &[u8]) -> Result<(), ExportFault> {
        match write_bytes(self.writer, bytes) {
            Ok(()) => Ok(()),
            Err(_) => Err(ExportFault::Write),
        }
    }

    ghost in_turn = { writes_in_turn W.contents };
}

/// Keeps of the bytes nothing but their digest.
#[derive(Drop)]
pub(crate) struct Digesting {
    hasher: Sha256,
}

impl Digesting {
    /// The digest of no byte.
    pub(crate) fn new() -> Digesting
        ensures { Holds256 result.hasher [] }
    {
        Digesting {
            hasher: Sha256::new(),
        }
    }

    /// The digest of all bytes that it took.
    pub(crate) fn digest(self) -> [u8; 32]
        ensures { (text : List ℕ) → Holds256 self.hasher text → result ≡ sha256 text }
    {
        let Digesting { hasher } = self;
        hasher.finalize()
    }
}

impl Taker for Digesting {
    ghost use Rattle.vault_files_events.specs.Takers.{DigestsOn, digests_in_turn};

    ghost took = { DigestsOn };

    fn take(&mut self, bytes: &[u8]) -> Result<(), ExportFault> {
        self.hasher.update(bytes);
        Ok(())
    }

    ghost in_turn = { digests_in_turn };
}
