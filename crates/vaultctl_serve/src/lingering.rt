//! What a client still sends after its answer.
use crate::deadline::{LINGERING, QUIET, time_left};
use crate::peer::Peer;
use std::io;
use std::time::{Clock, Duration, Instant};

/// How many reads are made at most: of 16,384 bytes each, they take a gibibyte.
const READS: u32 = 65_536;

/// States the peer that its answer is whole, and throws away what it still sends.
///
/// A connection that is closed before all was read from it is reset, and then the client may lose its answer. So
/// one reads up to the peer's end, but for no more than 5 seconds, half a second in which nothing comes, or a
/// gibibyte. An error says that more may come.
pub fn linger<C: Clock, P: Peer>(clock: &C, peer: &P) -> io::Result<()> {
    peer.end()?;
    let since = Instant::now(clock)?;
    let mut buf = [0u8; 16_384];
    for _ in 0..READS {
        let left = time_left(Duration::from_millis(LINGERING), since.elapsed(clock)?)?;
        if peer.read_within(&mut buf, left.min(Duration::from_millis(QUIET)))? == 0 {
            return Ok(());
        }
    }
    Err(io::Error::from(io::ErrorKind::FileTooLarge))
}
