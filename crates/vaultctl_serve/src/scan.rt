//! Where the head of a request ends, as its bytes come in.
ghost use Rattle.std.specs.Prelude.{◌≡◌, fold};
ghost use Rattle.vaultctl_serve.specs.Scan as spec;

/// How far a request has come: its head ends with the first empty line after one that isn't.
#[derive(Clone, Copy, Debug, PartialEq, Eq)]
pub enum Scan {
    /// Nothing but ends of lines has come.
    Leading,
    /// The line at hand has something in it.
    Within,
    /// The line at hand is empty so far.
    Fresh,
    /// The head has come to its end.
    Ended,
}

impl Scan {
    /// How far it has come with one byte more.
    fn next(self, byte: u8) -> Scan
        ensures { result ≡ spec.next self byte }
    {
        match (self, byte) {
            (Scan::Ended, _) => Scan::Ended,
            (Scan::Fresh, b'\n') => Scan::Ended,
            (Scan::Within, b'\n') => Scan::Fresh,
            (_, b'\n' | b'\r') => self,
            _ => Scan::Within,
        }
    }

    /// How far it has come with these bytes more.
    pub fn after(self, bytes: &[u8]) -> Scan
        ensures { result ≡ fold spec.next self bytes.now }
    {
        bytes.iter().fold(self, |scan, byte| scan.next(*byte))
    }
}
