//! Why a vault isn't opened or made, in words.

/// Why a vault isn't opened or made, as far as the files say.
#[derive(Clone, Copy, Debug, PartialEq, Eq)]
pub enum Cause {
    /// No file is there.
    NoFile,
    /// The file is empty.
    Empty,
    /// The file is missing or empty, and changes may be in its log.
    LostFile,
    /// The folder of the file isn't there.
    NoFolder,
    /// This user may not look into the folder of the file, or make a file there.
    ClosedFolder,
    /// No log can be made beside the file.
    NoLog,
    /// A folder is there.
    Folder,
    /// Something is there that is neither a file nor a folder.
    NoPlainFile,
    /// This user may not read the file.
    Unreadable,
    /// This user may not write the file or its log.
    Unwritable,
    /// The file or its log has a second name.
    HardLink,
    /// A rollback journal is beside the file.
    Journal,
    /// The file isn't one of SQLite.
    OtherFile,
    /// The file is one of SQLite, and its tables are no vault's.
    OtherTables,
    /// The tables are those of a vault of an earlier schema.
    Earlier,
    /// A vault of this program's schema was to be copied by `migrate`.
    Newest,
    /// The file that is copied and the one that gets the copy are one.
    SameFile,
    /// Another program has the file that was to get a copy.
    NewHeld,
    /// Something is in the file that was to get a vault.
    Taken,
    /// The file can't be read as tables, or a table of the vault isn't sound.
    Damaged,
    /// The disk has no room.
    Full,
    /// Reading or writing failed.
    Failed,
}

impl Cause {
    /// The cause in words, with what to do about it.
    pub fn words(self) -> &'static str {
        match self {
            Cause::NoFile => "no file is there: check the path, or make a vault by init",
            Cause::Empty => "the file is empty: check the path, or make a vault by init",
            Cause::LostFile => {
                "the file is missing or empty, and its log may have its last changes: put the file back beside the log"
            }
            Cause::NoFolder =>
                "the folder of the file isn't there: check the path, or make the folder",
            Cause::ClosedFolder =>
                "this user may not read or make files in the folder of the file: run as the folder's owner, or change its mode",
            Cause::NoLog => {
                "no log can be made beside the file: let this user make files in its folder, or make room on the disk"
            }
            Cause::Folder => "a folder is there: give the path of a file",
            Cause::NoPlainFile => "a pipe, socket or device is there: give the path of a file",
            Cause::Unreadable =>
                "this user may not read the file: run as its owner, or change its mode",
            Cause::Unwritable =>
                "this user may not write the file or its log: run as its owner, or change their modes",
            Cause::HardLink =>
                "the file or its log has a second name, a hard link: remove that name",
            Cause::Journal =>
                "another program left a journal beside the file: open the file once by sqlite3",
            Cause::OtherFile => "the file is no vault, and none of SQLite: check the path",
            Cause::OtherTables => "the file is one of SQLite, and no vault: check the path",
            Cause::Earlier =>
                "the vault is of an earlier version: copy it into another file by migrate",
            Cause::Newest =>
                "the tables are of this version, so there is nothing to copy: check the file by verify",
            Cause::SameFile => "both paths lead to one file: give another path for the copy",
            Cause::NewHeld =>
                "another program has the file for the copy open: end it, or give another path",
            Cause::Taken => "something is in that file, and was left as it is: give another path",
            Cause::Damaged => "the file is damaged: put the last sound backup back",
            Cause::Full => "the disk has no room: make room, and give the command again",
            Cause::Failed =>
                "reading or writing the file failed, as on a disk that is full or broken: look at its free space, and into the system's log",
        }
    }
}
