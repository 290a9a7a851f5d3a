//! The machine's terminal.
use std::io::{IsTerminal, Stderr};

/// Standard error, where it is a terminal; none where it is a file or a pipe.
pub fn terminal(rt: &HostRuntime) -> Option<Stderr> {
    let err = rt.stderr();
    if err.is_terminal() { Some(err) } else { None }
}

/// The same for a job that prints much; none where that is shown on a terminal too, so that its lines stand alone.
pub fn terminal_apart(rt: &HostRuntime) -> Option<Stderr> {
    if rt.stdout().is_terminal() {
        return None;
    }
    terminal(rt)
}
