//! Lines as they come on a connection.
ghost use Rattle.std.specs.Prelude.{◌≡◌, ◌==◌, ◌+◌, ◌++◌, ℕ, List, IfOk, OnErr, length, take};
ghost use Rattle.std.specs.Duration.{as_nanos};
ghost use Rattle.std.specs.List.{position};
ghost use Rattle.vaultctl_serve_lines.specs.Hearing.{Cuts, Gave, line_allowed, news_of};
ghost use Rattle.vault_base.specs.Limits.{longest_line};

use std::alloc::{AllocError, Global};
use std::time::Duration;
use std::{io, mem};
use vault_base::limits::LONGEST_LINE;
use vaultctl_serve::deadline::{HEAD, REQUEST, time_left};
use vaultctl_serve::inbound::Inbound;
use vaultctl_serve_lines_answers::heard::Heard;

/// As many bytes of a line have to come in the time of a request's head; a longer one has that of a whole request.
const SHORT: usize = 16_384;

/// How many bytes of a line are kept: one more than a line may have, so that a longer one is seen to be too long.
const KEPT: usize = LONGEST_LINE + 1;

/// What a read of a connection of lines gave.
#[derive(Clone, Copy, Debug, PartialEq, Eq)]
pub enum News {
    /// Nothing, as the connection is at its end.
    End,
    /// Bytes without an LF.
    Part,
    /// Bytes with one.
    Line,
}

/// The time from its first byte in which the next byte of a line has to come, where `come` bytes of it have come.
pub fn allowed(come: usize) -> Duration
    ensures { as_nanos result ≡ line_allowed come }
{
    if come <= SHORT {
        Duration::from_millis(HEAD)
    } else {
        Duration::from_millis(REQUEST)
    }
}

/// The place of the first LF.
fn first_lf(bytes: &[u8]) -> Option<usize>
    ensures { result ≡ position (λ b. b == 10) bytes.now }
{
    bytes.iter().position(|byte| *byte == b'\n')
}

/// What these bytes are, which a read gave.
fn news_in(bytes: &[u8]) -> News
    ensures { result ≡ news_of bytes.now }
{
    if bytes.is_empty() {
        News::End
    } else if first_lf(bytes).is_some() {
        News::Line
    } else {
        News::Part
    }
}

/// Reads what has come of a line, or waits for it in the time that is left from its first byte, which came at `begun`.
///
/// The bytes are put to those that have come. What is late is an error, as is out of memory; then none is put there.
pub fn hear<I: Inbound>(inbound: &mut I, part: &mut Vec<u8>, begun: Duration) -> io::Result<News>
    // What is new of a line came in time.
    ensures heard { IfOk result (λ news. (given : List ℕ) × (part.new.items ≡ part.old.items ++ given) × (news ≡ news_of given)
        × Gave (I.coming inbound.old) (I.coming inbound.new) given (as_nanos begun + line_allowed (length part.old.items))) }
    ensures unheard { OnErr result (part.new.items ≡ part.old.items) }
{
    let used = inbound.passed()?.saturating_sub(begun);
    let left = time_left(allowed(part.len()), used)?;
    let mut buf = [0u8; SHORT];
    let count = inbound.read_within(&mut buf, left)?;
    part.extend_from_slice(&buf[..count])?;
    Ok(news_in(&buf[..count]))
}

/// Cuts a line that is longer than it may be: it is still too long.
pub fn cut(part: &mut Vec<u8>)
    ensures { part.new.items ≡ take (longest_line + 1) part.old.items }
{
    part.truncate(KEPT);
}

/// Takes the first line, if it has its LF; what comes after it stays.
///
/// Without an LF all stays. The error is out of memory.
pub fn take_line(alloc: Global, part: &mut Vec<u8>) -> Result<Option<Heard>, AllocError>
    ensures ok { IfOk result (λ found. Cuts part.old.items found part.new.items) }
    ensures err { OnErr result (part.new.items ≡ part.old.items) }
{
    let Some(place) = first_lf(part.as_slice()) else {
        return Ok(None);
    };
    let rest = Vec::from_slice(alloc, &part.as_slice()[place + 1..])?;
    let mut bytes = mem::replace(part, rest);
    bytes.truncate(place);
    Ok(Some(Heard {
        bytes,
        is_ended: true,
    }))
}
