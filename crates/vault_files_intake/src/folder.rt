//! Where the files of an intake lie.
ghost use Rattle.std.specs.Prelude.{◌≡◌, ◌≤◌, ℕ, List, Option, IfOk, option_map};
ghost use Rattle.vault_core_model.specs.Leaves.{RoseOrIsFull};
ghost use Rattle.vault_files_intake.specs.Folder.{Holds};
ghost use Rattle.vault_files_intake.specs.declared.folder.File.{File as KnownFile};

use crate::file_name::FileName;
use vault_base::content::Bytes;
use vault_core_model::halt::Fault;

/// A file with its bytes.
#[derive(Drop)]
pub struct File {
    pub name: FileName,
    pub bytes: Bytes,
}

/// A folder of files.
///
/// `Device` comes only where the count of failures rose, or stands at its greatest value.
pub trait Folder {
    /// The files that it holds, where they are known; what a disk holds isn't.
    ghost files: { Self → Option (List KnownFile) };

    /// How often its device failed.
    ghost count: { Self → ℕ };

    /// How often its device failed, up to the greatest number.
    fn faults(&self) -> u64
        ensures { result ≡ count self.now };

    /// The bytes of the file of that name; none where there is no such file.
    fn read(&mut self, name: &FileName) -> Result<Option<Vec<u8>>, Fault>
        ensures value { IfOk result (λ found. Holds (files self.old) name.now (option_map (λ f. f.items) found)) }
        ensures files { files self.new ≡ files self.old }
        ensures counted_there { count self.old ≤ count self.new }
        ensures device { result ≡ Err Fault.Device → RoseOrIsFull (count self.old) (count self.new) };
}
