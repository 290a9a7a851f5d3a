//! Bytes that go by.
ghost use Rattle.std.specs.Prelude.{◌≡◌, []};

use std::alloc::Global;

/// The front of bytes that went by, and how many there were.
#[derive(Drop)]
pub struct Seen {
    /// The front of them.
    pub front: Vec<u8>,
    /// How many bytes of the front are kept; none more where there was no room for some.
    pub most: usize,
    /// How many bytes went by.
    pub count: u64,
}

impl Seen {
    ghost use Rattle.vaultctl_log.specs.Noting.{Notes};

    /// No byte went by. Of those that do, `most` are kept.
    pub fn new(alloc: Global, most: usize) -> Seen
        ensures front { result.front.items ≡ [] }
        ensures most { result.most ≡ most }
        ensures count { result.count ≡ 0 }
    {
        Seen {
            front: Vec::new(alloc),
            most,
            count: 0,
        }
    }

    /// These went by. Where there is no room for them no more are kept.
    pub fn see(&mut self, bytes: &[u8])
        ensures { Notes self.old self.new bytes.now }
    {
        let added = u64::try_from(bytes.len()).unwrap_or(u64::MAX);
        self.count = self.count.saturating_add(added);
        let kept = bytes.len().min(self.most.saturating_sub(self.front.len()));
        if self.front.extend_from_slice(&bytes[..kept]).is_err() {
            self.most = 0;
        }
    }
}
