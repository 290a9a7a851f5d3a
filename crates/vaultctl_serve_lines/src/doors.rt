//! Where requests and lines come in.
ghost use Rattle.std.specs.Prelude.{◌≡◌, ℕ, Bool, List, Option, is_ok};
ghost use Rattle.vault_base.specs.Days.{moment_at};
ghost use Rattle.vaultctl_log.specs.declared.entry.Facts.{Facts};
ghost use Rattle.vaultctl_serve.specs.Serving.{ReadsAs, Try};
ghost use Rattle.vaultctl_serve_lines.specs.Doors.{HasArrived};

use std::io;
use vault_http::Hosts;
use vaultctl_log::entry::Entry;
use vaultctl_serve::peer::Peer;
use vaultctl_serve_lines_answers::heard::Heard;

/// What came in.
#[derive(Drop)]
pub enum Arrived<P: Drop, Q: Drop> {
    /// A connection with a request.
    Request(P),
    /// A line, and the connection on which it came.
    Line(Heard, Q),
    /// Nothing that asks for anything.
    Nothing,
}

/// Where requests and lines come in, and the clock that is read as one of them is taken.
pub trait Doors {
    /// The other side of a connection with a request.
    type Request: Peer + Drop;

    /// The other side of a connection of lines.
    type Talker: Peer + Drop;

    /// The turns to come, where they are known: in which of them a request or a line is taken, and what the clock will
    /// show then.
    ghost tries: { Self → Option (List Try) };

    /// What the clock shows now: a moment, or none.
    ghost shown: { Self → Option ℕ };

    /// That no entry was heard of but of what couldn't be taken: who hears before and after.
    ghost silent: { Self → Self → Type 0 };

    /// Waits for what comes next, and takes it.
    fn next(&mut self) -> Arrived<Self::Request, Self::Talker>
        ensures arrived { HasArrived (tries self.old) (tries self.new) (shown self.new) result }
        ensures silent { silent self.old self.new };

    /// The clock's reading now.
    fn reading(&self) -> i64
        ensures { ReadsAs (tries self.now) (shown self.now) (moment_at result) };

    /// The hosts that requests may be for.
    fn hosts(&self) -> &Hosts;

    /// What hears of an entry: who hears it, the entry's facts, the fronts of what was asked and answered, whether all of
    /// it was written, who heard it.
    ghost logs: { Self → Facts → List ℕ → List ℕ → Bool → Self → Type 0 };

    /// Hears what became of a request or a line. Whatever it does with that, what comes is the same. The error is that the
    /// entry can't be written.
    fn log(&mut self, entry: &Entry<'_>) -> io::Result<()>
        ensures tries { tries self.new ≡ tries self.old }
        ensures logs { logs self.old entry.now.facts entry.now.asked.now entry.now.answered.now (is_ok result) self.new };

    /// Keeps the connection of a line that was answered: more lines may come on it.
    fn keep(&mut self, talker: Self::Talker)
        ensures tries { tries self.new ≡ tries self.old }
        // What was heard stays so.
        ensures logs { (before : Self) (f : Facts) (asked answered : List ℕ) (whole : Bool) → logs before f asked answered whole self.old → logs before f asked answered whole self.new };
}
