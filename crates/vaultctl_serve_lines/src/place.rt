//! Where lines come in.

/// Where lines come in.
#[derive(Clone, Copy)]
pub enum LinePlace<'a> {
    /// A port of 127.0.0.1.
    Port(u16),
    /// The path of a Unix socket.
    Path(&'a str),
}

impl<'a> LinePlace<'a> {
    /// The place that a text names: digits alone a port, any other text a path. None where it has no character, or
    /// where the digits are no number from 1 to 65535.
    pub fn read(text: &'a str) -> Option<LinePlace<'a>> {
        if text.is_empty() {
            return None;
        }
        if !text.bytes().all(|byte| byte.is_ascii_digit()) {
            return Some(LinePlace::Path(text));
        }
        match text.parse::<u16>() {
            Ok(port) if port > 0 => Some(LinePlace::Port(port)),
            _ => None,
        }
    }
}
