//! A folder in memory, for tests.
ghost use Rattle.std.specs.Prelude.{◌≡◌, ◌∷◌, ◌++◌, [], IfOk, OnOk, OnErr, find, option_map};
ghost use Rattle.std.specs.Option.{option_copied};
ghost use Rattle.std.specs.Str.{bytes_eq};
ghost use Rattle.vault_files_intake.specs.Folder.{file_in};

use crate::file_name::FileName;
use crate::folder::{File, Folder};
use std::alloc::{AllocError, Global};
use vault_core_model::halt::Fault;

fn named<'a>(files: &'a [File], name: &FileName) -> Option<&'a File>
    ensures { option_copied result ≡ find (λ f. bytes_eq f.name name.now) files.now }
{
    files.iter().find(|file| file.name == *name)
}

/// The bytes of the file of that name.
fn bytes_of(alloc: Global, files: &[File], name: &FileName) -> Result<Option<Vec<u8>>, AllocError>
    ensures { IfOk result (λ found. option_map (λ f. f.items) found ≡ file_in files.now name.now) }
{
    let Some(file) = named(files, name) else {
        return Ok(None);
    };
    Ok(Some(Vec::from_slice(alloc, file.bytes.as_slice())?))
}

/// A list of files. It refuses one read with `Device`, where that is asked for, and answers all others.
#[derive(Drop)]
pub struct ListFolder {
    alloc: Global,
    files: Vec<File>,
    /// How many reads are still answered before the one that is refused.
    left: Option<u64>,
    failures: u64,
}

impl ListFolder {
    /// An empty folder. With a number it refuses the read after n.
    pub fn new(alloc: Global, left: Option<u64>) -> ListFolder
        ensures files { result.files.items ≡ [] }
        ensures left { result.left ≡ left }
        ensures failures { result.failures ≡ 0 }
    {
        ListFolder {
            alloc,
            files: Vec::new(alloc),
            left,
            failures: 0,
        }
    }

    /// Adds a file.
    pub fn push(&mut self, file: File) -> Result<(), AllocError>
        ensures ok { OnOk result (self.new.files.items ≡ self.old.files.items ++ file ∷ []) }
        ensures err { OnErr result (self.new.files.items ≡ self.old.files.items) }
        ensures left { self.new.left ≡ self.old.left }
        ensures failures { self.new.failures ≡ self.old.failures }
    {
        self.files.push(file)?;
        Ok(())
    }
}

impl Folder for ListFolder {
    ghost use Rattle.std.specs.Prelude.{Some};

    ghost files = { λ f. Some f.files.items };

    ghost count = { λ f. f.failures };

    fn faults(&self) -> u64 {
        self.failures
    }

    fn read(&mut self, name: &FileName) -> Result<Option<Vec<u8>>, Fault> {
        if self.left == Some(0) {
            self.left = None;
            self.failures = self.failures.saturating_add(1);
            return Err(Fault::Device);
        }
        self.left = self.left.map(|left| left.saturating_sub(1));
        Ok(bytes_of(self.alloc, self.files.as_slice(), name)?)
    }
}
