//! Who hears what becomes of a server with two doors.
ghost use Rattle.std.specs.Prelude.{ℕ, List};

use crate::place::LinePlace;
use std::io::Write;
use std::net::Ipv4Addr;
use vaultctl_serve::reporter::Reporter;

/// Hears what becomes of a server with two doors. Whatever it does with it, the server goes on.
pub trait DoorReporter: Reporter {
    /// What it does where a server listens at both doors: the reporter before, the vault's file, the port of requests,
    /// the reporter after.
    ghost listens_at_both: { Self → List ℕ → ℕ → Self → Type 0 };

    /// The server listens for requests at this port of 127.0.0.1, and for lines at that place.
    fn listening_at_both(&mut self, file: &str, port: u16, lines: LinePlace<'_>)
        ensures { listens_at_both self.old file.now port self.new };
}

/// A writer gets a line of it; one that can't be written is lost.
impl<W: Write> DoorReporter for W {
    ghost listens_at_both = { λ _ _ _ _. Unit {0} };

    fn listening_at_both(&mut self, file: &str, port: u16, lines: LinePlace<'_>) {
        let here = Ipv4Addr::LOCALHOST;
        let _ = match lines {
            LinePlace::Port(second) => {
                writeln!(
                    self,
                    "serving {file} at {here}:{port}, lines at {here}:{second}"
                )
            }
            LinePlace::Path(path) => {
                writeln!(self, "serving {file} at {here}:{port}, lines at {path}")
            }
        };
    }
}
