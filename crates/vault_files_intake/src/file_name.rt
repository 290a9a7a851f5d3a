//! Names of files.
ghost use Rattle.std.proofs.Common.{rules};
ghost use Rattle.std.specs.Prelude.{◌≡◌, option_map};
ghost use Rattle.std.specs.List.{list_all};
ghost use Rattle.vault_files_intake.specs.FileName as spec;

use std::str;
use vault_base::grammar::Grammar;
use vault_base::name::{Name, NameFault};

/// The text that bytes are, if they are UTF-8.
pub(crate) fn text(bytes: &[u8]) -> Option<&str>
    ensures { option_map (λ t. t.now) result ≡ spec.text_of bytes.now }
{
    match str::from_utf8(bytes) {
        Ok(text) => Some(text),
        Err(_) => None,
    }
}

fn has_name_bytes(bytes: &[u8]) -> bool
    ensures { result ≡ list_all spec.is_name_byte bytes.now }
{
    bytes.iter().all(|b| *b != b'/' && *b != 0)
}

fn is_folder_name(text: &str) -> bool
    ensures { result ≡ spec.is_folder_name text.now }
{
    text == "." || text == ".."
}

fn is_file_name(text: &str) -> bool
    ensures { result ≡ spec.is_file_name text.now }
{
    !text.is_empty()
        && text.len() <= 255
        && has_name_bytes(text.as_bytes())
        && !is_folder_name(text)
}

/// The names of files in one folder.
pub struct InFolder;

impl Grammar for InFolder {
    ghost allows = { spec.is_file_name };

    ghost name_of = { spec.file_name_of };

    fn is_allowed(text: &str) -> bool {
        is_file_name(text)
    }

    fn fault(text: &str) -> NameFault {
        NameFault::of_size(text.len(), 255)
    }

    ghost reads_allowed = { Prim.search rules };
}

/// The name of a file in a folder: 1 to 255 bytes of UTF-8 with no `/` and no NUL, and neither `.` nor `..`.
/// So it names no file of another folder.
pub type FileName = Name<InFolder>;
