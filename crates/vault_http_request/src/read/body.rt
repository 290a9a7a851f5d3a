//! The body of a request.
ghost use Rattle.std.specs.Prelude.{◌≤◌, ◌<◌, IfOk, IfSome, OnOk, ℕ, List, length};
ghost use Rattle.std.specs.Io.KnownBytes.{Consumes};
ghost use Rattle.vault_http_request.specs.Body.{Came, Moved};

use crate::read::bytes::{ReadFault, next_bytes};
use std::alloc::Global;
use std::io::Read;
use vault_base::content::Bytes;

/// How many bytes a reader is asked for at once.
const PIECE: usize = 16_384;

/// Moves the next bytes of a reader after those of a body, no more than n. False where it has ended.
fn move_piece<R: Read>(
    reader: &mut R,
    body: &mut Vec<u8>,
    piece: &mut [u8],
    left: u64,
) -> Result<bool, ReadFault>
    requires room { 0 < length piece.old }
    requires some { 0 < left }
    ensures moved { IfOk result (Moved left (R.remaining reader.old) (R.remaining reader.new) body.old.items body.new.items) }
{
    let size = left.min(piece.len() as u64) as usize;
    let part = &mut piece[..size];
    match next_bytes(reader, part) {
        Err(_) => Err(ReadFault::Read),
        Ok(0) => Ok(false),
        Ok(count) => {
            if body.extend_from_slice(&part[..count]).is_err() {
                return Err(ReadFault::Memory);
            }
            Ok(true)
        }
    }
}

/// The next n bytes, or none where the reader ends before.
///
/// `Read` comes where the reader fails, `Memory` where room for a piece was refused.
pub fn read_body<R: Read>(
    alloc: Global,
    reader: &mut R,
    size: u64,
) -> Result<Option<Bytes>, ReadFault>
    ensures body { IfOk result (λ body. IfSome (R.remaining reader.old) (λ rest. Came size rest body)) }
    ensures taken { OnOk result ((taken : List ℕ) × Consumes (R.remaining reader.old) (R.remaining reader.new) taken × (length taken ≤ size)) }
{
    let mut body = Vec::new(alloc);
    let mut piece = [0u8; PIECE];
    while (body.len() as u64) < size {
        let left = size - body.len() as u64;
        if !move_piece(reader, &mut body, &mut piece, left)? {
            return Ok(None);
        }
    }
    Ok(Some(Bytes::new(body)))
}
