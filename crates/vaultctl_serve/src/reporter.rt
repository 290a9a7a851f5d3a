//! Who hears what becomes of a server.
ghost use Rattle.std.specs.Prelude.{ℕ, List};
ghost use Rattle.vault_io.specs.Begins.{Begins};

use std::io::Write;
use std::net::Ipv4Addr;
use vault_io::writing::write_bytes;

/// What is reported where the vault's device failed.
const FAILED: &[u8] =
    b"serve: the vault's file failed: where requests are answered 500, start the server anew\n";

/// Hears what becomes of a server. Whatever it does with it, the server goes on.
pub trait Reporter {
    /// What it does where a server listens: the reporter before, the vault's file, the port, the reporter after.
    ghost listens: { Self → List ℕ → ℕ → Self → Type 0 };

    /// What it does where the vault's device failed: the reporter before and after.
    ghost fails: { Self → Self → Type 0 };

    /// The server listens at this port of 127.0.0.1.
    fn listening(&mut self, file: &str, port: u16)
        ensures { listens self.old file.now port self.new };

    /// The vault's device failed: what failed may be shut, and then requests are refused until the vault is opened
    /// anew.
    fn failed(&mut self)
        ensures { fails self.old self.new };
}

/// A writer gets a line of each report; one that can't be written is lost.
impl<W: Write> Reporter for W {
    ghost use Rattle.vaultctl_serve.specs.declared.reporter.TheConstants.{FAILED};

    ghost listens = { λ _ _ _ _. Unit {0} };

    ghost fails = { λ before after. Begins (W.contents before) (W.contents after) FAILED.now };

    fn listening(&mut self, file: &str, port: u16) {
        let _ = writeln!(self, "serving {file} at {}:{port}", Ipv4Addr::LOCALHOST);
    }

    fn failed(&mut self) {
        let _ = write_bytes(self, FAILED);
    }
}
