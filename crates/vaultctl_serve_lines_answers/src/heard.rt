//! A line as it was heard.

/// A line as it was heard.
#[derive(Drop)]
pub struct Heard {
    /// The bytes of the line before its LF.
    pub bytes: Vec<u8>,
    /// Its LF came; else the connection ended after these bytes.
    pub is_ended: bool,
}
