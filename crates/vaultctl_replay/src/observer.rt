//! Who hears of the lines of a script.
use std::alloc::Global;
use vault_core::hearing::{Hears, Nobody};
use vault_lines_read::read_line::Line;

/// Hears of each line of a script, in their order, before it is answered, and of its command once that was carried out.
pub trait Observer: Hears {
    /// A line, as it stands before its LF, and what it asks for.
    fn line(&mut self, alloc: Global, line: &[u8], asked: &Line);
}

impl Observer for Nobody {
    fn line(&mut self, _alloc: Global, _line: &[u8], _asked: &Line) {}
}
