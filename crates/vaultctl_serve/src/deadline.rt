//! How long a client may keep the others waiting.
ghost use Rattle.std.specs.Prelude.{◌≡◌, ◌+◌, ◌<◌, ◌≤◌, ◌↔◌, IsErr, IfOk};
ghost use Rattle.std.specs.Duration.{as_nanos};

use std::io::{self, ErrorKind};
use std::time::Duration;

/// Milliseconds from when a connection was taken in which the head of its request has to come.
pub const HEAD: u64 = 5_000;

/// Milliseconds from when a connection was taken in which all of its request has to come.
pub const REQUEST: u64 = 30_000;

/// Milliseconds that one waits in all for a client to take its answer.
pub const ANSWER: u64 = 10_000;

/// Milliseconds after an answer in which what still comes is read.
pub const LINGERING: u64 = 5_000;

/// Milliseconds after an answer that one waits for the next bytes.
pub const QUIET: u64 = 500;

/// Milliseconds from one connection that can't be taken to the next try.
pub const BETWEEN_TRIES: u64 = 100;

/// What is left of an allowance. The error, `TimedOut`, says that nothing is.
pub fn time_left(allowed: Duration, used: Duration) -> io::Result<Duration>
    ensures left { IfOk result (λ left. (0 < as_nanos left) × (as_nanos left + as_nanos used ≡ as_nanos allowed)) }
    ensures spent { IsErr result ↔ (as_nanos allowed ≤ as_nanos used) }
{
    let Some(left) = allowed.checked_sub(used) else {
        return Err(io::Error::from(ErrorKind::TimedOut));
    };
    if left.is_zero() {
        return Err(io::Error::from(ErrorKind::TimedOut));
    }
    Ok(left)
}
