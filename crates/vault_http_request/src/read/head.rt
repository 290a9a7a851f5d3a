//! The head of a request: its first line, its headers and the blank line (RFC 9112, section 2.1).
ghost use Rattle.std.specs.Prelude.{◌≡◌, ◌≤◌, [], IfOk, IsTrue, OnErr, OnOk, length, take};
ghost use Rattle.std.specs.Io.KnownBytes.{Consumes};
ghost use Rattle.httparse.specs.Grammar.{HasNoRequest, LineEnd, MayBecomeRequest, print_end};
ghost use Rattle.httparse.specs.Outcome.{IfComplete, OnPartial};
ghost use Rattle.httparse.specs.Spans.{IsRequestOf, IsRequestWithin, RequestOverflows};
ghost use Rattle.vault_http_request.specs.Head.{Came, HasBytes, IsBlank, IsPrompt, IsWithin};

use crate::read::bytes::{ReadFault, next_byte};
use httparse::Status;
use httparse::spans::{HeaderSpan, RequestSpans, parse_request};
use std::io::Read;

/// What stands at the front of what a reader gives.
#[derive(Clone, Copy)]
pub enum Front {
    /// Not one byte.
    Nothing,
    /// No head of HTTP/1.0 or 1.1 within 16,384 bytes and 64 headers.
    NoHead,
    /// A head, whose parts lie here.
    Head(RequestSpans),
}

/// Whether a line that has come to its end is empty.
fn is_blank_line(line: &[u8]) -> bool
    ensures { IsTrue result → (end : LineEnd) × (line.now ≡ print_end end) }
{
    line == b"\n".as_slice() || line == b"\r\n".as_slice()
}

/// The head that these bytes are, up to the end of a line; `Partial` where it may still come.
///
/// The first `blank` bytes are empty lines. While no other line has come, `blank` alone moves on: to parse them anew
/// with each line would cost the square of their number.
fn parse_lines(
    buf: &[u8],
    blank: &mut usize,
    headers: &mut [HeaderSpan],
) -> httparse::Result<RequestSpans>
    requires front { blank.old ≤ length buf.now }
    requires blank { IsBlank (take blank.old buf.now) }
    ensures front { blank.new ≤ length buf.now }
    ensures blank { IsBlank (take blank.new buf.now) }
    ensures room { length headers.new ≡ length headers.old }
    ensures within { IfComplete result (IsRequestWithin buf.now headers.new) }
    ensures complete { IfComplete result (IsRequestOf buf.now headers.new) }
    ensures partial { OnPartial result (HasNoRequest buf.now) }
    ensures unfinished { OnPartial result (MayBecomeRequest buf.now) }
    ensures no_room { OnErr result (RequestOverflows (length headers.old) buf.now) }
{
    if is_blank_line(&buf[*blank..]) {
        *blank = buf.len();
        return Ok(Status::Partial);
    }
    parse_request(buf, headers)
}

/// Reads the head at the front of what a reader gives, and not a byte more.
///
/// `buf` gets just the bytes that were taken. `Read` comes where the reader fails, `Memory` where
/// room for a byte was refused.
pub fn read_head<R: Read>(
    reader: &mut R,
    buf: &mut Vec<u8>,
    headers: &mut [HeaderSpan],
) -> Result<Front, ReadFault>
    requires empty { buf.old.items ≡ [] }
    requires room { length headers.old ≡ 64 }
    ensures front { IfOk result (Came (R.remaining reader.old) buf.new.items headers.new) }
    ensures within { IfOk result (IsWithin buf.new.items headers.new) }
    ensures some { IfOk result (λ front. HasBytes front buf.new.items) }
    ensures taken { OnOk result (Consumes (R.remaining reader.old) (R.remaining reader.new) buf.new.items) }
    // With each line but the last one that was taken, a head could still come.
    ensures prompt { IsPrompt buf.new.items }
{
    let mut blank = 0;
    for turn in 0..16_384usize {
        let byte = match next_byte(reader) {
            Err(_) => return Err(ReadFault::Read),
            Ok(None) => {
                return Ok(if buf.is_empty() {
                    Front::Nothing
                } else {
                    Front::NoHead
                });
            }
            Ok(Some(byte)) => byte,
        };
        if buf.push(byte).is_err() {
            return Err(ReadFault::Memory);
        }
        if byte == b'\n' {
            match parse_lines(buf.as_slice(), &mut blank, headers) {
                Ok(Status::Complete(spans)) => return Ok(Front::Head(spans)),
                Ok(Status::Partial) => {}
                Err(_) => return Ok(Front::NoHead),
            }
        }
    }
    Ok(Front::NoHead)
}
