//! Script lines from any reader, carried out over any keeper, with their replies to any writer; and a journal: of each
//! command that changed a vault the line that makes the change again.
#![tactic(auto)]

ghost use Rattle.std.specs.Prelude.{◌≡◌, ℕ, List, OnOk, OnErr};
ghost use Rattle.std.specs.Io.KnownBytes.{Consumes, IsAtEnd};
ghost use Rattle.vault_core_model.specs.LeavesMany.{LeavesSteady};
ghost use Rattle.vault_core_model.specs.Step.{Reached};
ghost use Rattle.vaultctl_replay.specs.Runs.{AnswersAll, AnswersEnded, AnswersSome, Steady};

pub mod answer;
mod changes;
mod entry;
mod fault;
pub mod journal;
pub mod journal_laws;
pub mod laws;
mod lines;
pub mod observer;
pub mod state;
mod writing;

use crate::lines::{Room, feed, finish};
use crate::observer::Observer;
use crate::writing::flush;
pub use fault::ReplayFault;
pub use journal::Journal;
pub use state::JournalState;
use std::alloc::Global;
use std::io::{Read, Write};
use vault_base::limits::LONGEST_LINE;
use vault_core::hearing::Nobody;
use vault_core_model::keeper::Keeper;
use vault_io::retry::read_retrying;

/// How many bytes of a line are kept: one more than a line may have, so that a longer one is seen
/// to be too long.
const KEPT: usize = LONGEST_LINE + 1;

/// Answers the whole input, a line at a time; the observer hears of each line, and of each command once it was carried out.
///
/// The writer is flushed before each read, so that whoever waits for replies before they write on has them,
/// and at the end. A line ends with LF; the last one may lack it. However the reader cuts the input into pieces,
/// the answer is the same. `Read` comes where the reader fails, or gives `u64::MAX` pieces without
/// an end; `Write` where the writer fails; `Memory` where room for a line or a reply was refused.
pub fn replay_observed<R: Read, W: Write, K: Keeper, O: Observer>(
    alloc: Global,
    reader: &mut R,
    writer: &mut W,
    keeper: &mut K,
    observer: &mut O,
) -> Result<(), ReplayFault>
    // What is read is the whole input, and what is written is the replies to its lines. The reply to a command says
    // that the device failed just where its count of failures rose, or stands at its greatest value.
    ensures ok { OnOk result ((input : List ℕ) × Consumes (R.remaining reader.old) (R.remaining reader.new) input
        × IsAtEnd (R.remaining reader.new)
        × AnswersAll (K.is_honest keeper.new) (K.vault keeper.old) (K.count keeper.old) (W.contents writer.old) input (K.vault keeper.new) (K.count keeper.new) (W.contents writer.new)) }
    // The first lines were carried out and their replies written, and of at most one more a beginning of its reply.
    // What is read after the last LF is a line only where the reader is at its end.
    ensures err { OnErr result ((taken : List ℕ) × Consumes (R.remaining reader.old) (R.remaining reader.new) taken
        × AnswersSome (K.is_honest keeper.new) (IsAtEnd (R.remaining reader.new)) (K.vault keeper.old) (K.count keeper.old) (W.contents writer.old) taken (K.vault keeper.new) (K.count keeper.new) (W.contents writer.new)) }
    // Where the reader failed, that beginning is each line whose LF was read, and all their replies are written.
    ensures read { result ≡ Err ReplayFault.Read → (taken : List ℕ) × Consumes (R.remaining reader.old) (R.remaining reader.new) taken
        × AnswersEnded (K.is_honest keeper.new) (K.vault keeper.old) (K.count keeper.old) (W.contents writer.old) taken (K.vault keeper.new) (K.count keeper.new) (W.contents writer.new) }
    // Whatever comes of the input, of the device and of the writer: there is a reply to each command that was carried
    // out, which says that the device failed just where the count of its failures rose, or stands at its greatest
    // value. What is written is the lines of those replies, or a beginning of them; where none says that the device
    // failed, the count is as it was.
    ensures leaves { LeavesSteady K.Kept keeper.old keeper.new ((taken : List ℕ) × Consumes (R.remaining reader.old) (R.remaining reader.new) taken
        × Steady (K.is_honest keeper.new) (IsAtEnd (R.remaining reader.new)) (K.vault keeper.old) (K.count keeper.old) (W.contents writer.old) taken (K.vault keeper.new) (K.count keeper.new) (W.contents writer.new)) }
    // Whatever comes of the input, a vault that runs lead to from a new one is left as such a vault.
    ensures reached { K.is_honest keeper.new → Reached (K.vault keeper.old) → Reached (K.vault keeper.new) }
{
    let room = Room { alloc, most: KEPT };
    let mut part = Vec::new(alloc);
    let mut piece = [0u8; 65_536];
    for _turn in 0..u64::MAX {
        flush(writer)?;
        match read_retrying(reader, &mut piece) {
            Ok(0) => return finish(alloc, keeper, writer, observer, part.as_slice()),
            Ok(n) => feed(room, keeper, writer, observer, &mut part, &piece[..n])?,
            Err(_) => return Err(ReplayFault::Read),
        }
    }
    Err(ReplayFault::Read)
}

/// Answers the whole input, a line at a time.
///
/// The writer is flushed before each read, so that whoever waits for replies before they write on has them,
/// and at the end. A line ends with LF; the last one may lack it. However the reader cuts the input into pieces,
/// the answer is the same. `Read` comes where the reader fails, or gives `u64::MAX` pieces without
/// an end; `Write` where the writer fails; `Memory` where room for a line or a reply was refused.
pub fn replay<R: Read, W: Write, K: Keeper>(
    alloc: Global,
    reader: &mut R,
    writer: &mut W,
    keeper: &mut K,
) -> Result<(), ReplayFault>
    // What is read is the whole input, and what is written is the replies to its lines. The reply to a command says
    // that the device failed just where its count of failures rose, or stands at its greatest value.
    ensures ok { OnOk result ((input : List ℕ) × Consumes (R.remaining reader.old) (R.remaining reader.new) input
        × IsAtEnd (R.remaining reader.new)
        × AnswersAll (K.is_honest keeper.new) (K.vault keeper.old) (K.count keeper.old) (W.contents writer.old) input (K.vault keeper.new) (K.count keeper.new) (W.contents writer.new)) }
    // The first lines were carried out and their replies written, and of at most one more a beginning of its reply.
    // What is read after the last LF is a line only where the reader is at its end.
    ensures err { OnErr result ((taken : List ℕ) × Consumes (R.remaining reader.old) (R.remaining reader.new) taken
        × AnswersSome (K.is_honest keeper.new) (IsAtEnd (R.remaining reader.new)) (K.vault keeper.old) (K.count keeper.old) (W.contents writer.old) taken (K.vault keeper.new) (K.count keeper.new) (W.contents writer.new)) }
    // Where the reader failed, that beginning is each line whose LF was read, and all their replies are written.
    ensures read { result ≡ Err ReplayFault.Read → (taken : List ℕ) × Consumes (R.remaining reader.old) (R.remaining reader.new) taken
        × AnswersEnded (K.is_honest keeper.new) (K.vault keeper.old) (K.count keeper.old) (W.contents writer.old) taken (K.vault keeper.new) (K.count keeper.new) (W.contents writer.new) }
    // Whatever comes of the input, of the device and of the writer: there is a reply to each command that was carried
    // out, which says that the device failed just where the count of its failures rose, or stands at its greatest
    // value. What is written is the lines of those replies, or a beginning of them; where none says that the device
    // failed, the count is as it was.
    ensures leaves { LeavesSteady K.Kept keeper.old keeper.new ((taken : List ℕ) × Consumes (R.remaining reader.old) (R.remaining reader.new) taken
        × Steady (K.is_honest keeper.new) (IsAtEnd (R.remaining reader.new)) (K.vault keeper.old) (K.count keeper.old) (W.contents writer.old) taken (K.vault keeper.new) (K.count keeper.new) (W.contents writer.new)) }
    // Whatever comes of the input, a vault that runs lead to from a new one is left as such a vault.
    ensures reached { K.is_honest keeper.new → Reached (K.vault keeper.old) → Reached (K.vault keeper.new) }
{
    replay_observed(alloc, reader, writer, keeper, &mut Nobody)
}
