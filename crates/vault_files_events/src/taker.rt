//! What takes the text of events.
ghost use Rattle.std.specs.Prelude.{◌≡◌, ◌≢◌, OnOk, OnErr, Err};
ghost use Rattle.vault_files_events.specs.Taking.{Took, TookSome, TakesInTurn};

use vault_files_texts::ExportFault;

/// What takes the bytes of a text, one part after another.
pub(crate) trait Taker {
    /// What it was, the bytes that it took, and what it is afterwards.
    ghost took: { Took Self };

    /// Takes all these bytes; what it took at an `Err` is a beginning of them.
    fn take(&mut self, bytes: &[u8]) -> Result<(), ExportFault>
        ensures ok { OnOk result (took self.old bytes.now self.new) }
        ensures err { OnErr result (TookSome took self.old bytes.now self.new) }
        ensures kind { result ≢ Err ExportFault.Device };

    ghost in_turn: { TakesInTurn took };
}
