//! Which commit the program was built from.

/// The commit's number, in hexadecimal digits. It is empty in the sources: `./vault` writes it into its copy of them,
/// where they are those of a commit.
pub(crate) const COMMIT: &str = "";
