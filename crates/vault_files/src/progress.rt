//! How far a long job has come, reported on a terminal while it goes on.
ghost use Rattle.std.specs.Prelude.{◌≡◌};

use std::io::{Stderr, Write};
use vault_core_model::halt::Fault;
use vault_files_intake::file_name::FileName;
use vault_files_intake::folder::Folder;

/// After how many things a line is written.
const THINGS_A_LINE: u64 = 1_000;

/// A folder of which a line is written after each thousand files that were asked for, as `1000 files`.
///
/// What it reads is what the folder within it reads. That a line can't be written is no failure of it, and
/// is reported to nobody; without a terminal nothing is written.
#[derive(Drop)]
pub struct ProgressFolder<F: Drop> {
    folder: F,
    terminal: Option<Stderr>,
    asked: u64,
}

impl<F: Drop> ProgressFolder<F> {
    ghost use Rattle.std.specs.Prelude.{◌≡◌};

    /// A folder of which no file was asked for yet, and the terminal that is reported.
    pub fn new(folder: F, terminal: Option<Stderr>) -> ProgressFolder<F>
        ensures folder { result.folder ≡ folder }
        ensures terminal { result.terminal ≡ terminal }
        ensures asked { result.asked ≡ 0 }
    {
        ProgressFolder {
            folder,
            terminal,
            asked: 0,
        }
    }
}

/// Writes how many things there were, after each thousand of them, as `1000 files`.
///
/// That a line can't be written is reported to nobody.
pub fn show_count<W: Write>(writer: &mut W, count: u64, things: &str) {
    if count != 0 && count % THINGS_A_LINE == 0 {
        let _ = writeln!(writer, "{count} {things}");
    }
}

impl<F: Folder + Drop> Folder for ProgressFolder<F> {
    ghost files = { λ f. F.Folder.files f.folder };

    ghost count = { λ f. F.Folder.count f.folder };

    fn faults(&self) -> u64 {
        self.folder.faults()
    }

    fn read(&mut self, name: &FileName) -> Result<Option<Vec<u8>>, Fault> {
        self.asked = self.asked.saturating_add(1);
        if let Some(terminal) = &mut self.terminal {
            show_count(terminal, self.asked, "files");
        }
        self.folder.read(name)
    }
}
