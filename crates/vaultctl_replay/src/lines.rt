//! The lines of an input, whatever pieces it comes in.
ghost use Rattle.std.specs.Prelude.{◌≡◌, ◌≤◌, [], ◌∷◌, ◌++◌, take, IfErr, OnOk, OnErr, vec_len};
ghost use Rattle.vault_core_model.specs.LeavesMany.{LeavesNoLess};
ghost use Rattle.vaultctl_replay.specs.Lines.{advance, asked_in, last_of};
ghost use Rattle.vaultctl_replay.specs.Runs.{BeganBy, FinishedBy};

use crate::answer::{answer_line, answer_unended};
use crate::fault::ReplayFault;
use crate::observer::Observer;
use crate::writing::flush;
use std::alloc::Global;
use std::io::Write;
use vault_core_model::keeper::Keeper;

/// Where the bytes of a line are kept, and how many of them at most.
#[derive(Clone, Copy)]
pub struct Room {
    pub alloc: Global,
    pub most: usize,
}

/// Adds a byte to a line, of which n bytes are kept.
fn push_within(part: &mut Vec<u8>, byte: u8, most: usize) -> Result<(), ReplayFault>
    requires { vec_len part.old ≤ most }
    ensures ok { OnOk result (part.new.items ≡ take most (part.old.items ++ byte ∷ [])) }
    ensures bound { vec_len part.new ≤ most }
    ensures kind { ¬ (result ≡ Err ReplayFault.Read) }
    ensures memory { IfErr result (λ e. e ≡ ReplayFault.Memory) }
{
    if part.len() < most && part.push(byte).is_err() {
        return Err(ReplayFault::Memory);
    }
    Ok(())
}

/// Takes the next byte of the input, and answers the line that ends with it.
fn take_byte<K: Keeper, W: Write, O: Observer>(
    room: Room,
    keeper: &mut K,
    writer: &mut W,
    observer: &mut O,
    part: &mut Vec<u8>,
    byte: u8,
) -> Result<(), ReplayFault>
    requires { vec_len part.old ≤ room.most }
    ensures ok { OnOk result (FinishedBy K.Kept keeper.old keeper.new W.Write writer.old writer.new (asked_in room.most part.old.items (byte ∷ []))) }
    ensures part { OnOk result (part.new.items ≡ (advance room.most part.old.items (byte ∷ [])).1) }
    ensures err { OnErr result (BeganBy K.Kept keeper.old keeper.new W.Write writer.old writer.new (asked_in room.most part.old.items (byte ∷ []))) }
    ensures bound { vec_len part.new ≤ room.most }
    ensures kind { ¬ (result ≡ Err ReplayFault.Read) }
    ensures leaves { LeavesNoLess K.Kept keeper.old keeper.new }
{
    if byte == b'\n' {
        answer_line(room.alloc, keeper, writer, observer, part.as_slice())?;
        part.clear();
        Ok(())
    } else {
        push_within(part, byte, room.most)
    }
}

/// Takes the next bytes of the input, and answers each line that ends in them.
pub fn feed<K: Keeper, W: Write, O: Observer>(
    room: Room,
    keeper: &mut K,
    writer: &mut W,
    observer: &mut O,
    part: &mut Vec<u8>,
    piece: &[u8],
) -> Result<(), ReplayFault>
    requires { vec_len part.old ≤ room.most }
    ensures ok { OnOk result (FinishedBy K.Kept keeper.old keeper.new W.Write writer.old writer.new (asked_in room.most part.old.items piece.now)) }
    ensures part { OnOk result (part.new.items ≡ (advance room.most part.old.items piece.now).1) }
    ensures err { OnErr result (BeganBy K.Kept keeper.old keeper.new W.Write writer.old writer.new (asked_in room.most part.old.items piece.now)) }
    ensures bound { vec_len part.new ≤ room.most }
    ensures kind { ¬ (result ≡ Err ReplayFault.Read) }
    ensures leaves { LeavesNoLess K.Kept keeper.old keeper.new }
{
    for byte in piece {
        take_byte(room, keeper, writer, observer, part, *byte)?;
    }
    Ok(())
}

/// Answers a last line that lacks its LF, if there is one.
fn answer_last<K: Keeper, W: Write, O: Observer>(
    alloc: Global,
    keeper: &mut K,
    writer: &mut W,
    observer: &mut O,
    part: &[u8],
) -> Result<(), ReplayFault>
    ensures ok { OnOk result (FinishedBy K.Kept keeper.old keeper.new W.Write writer.old writer.new (last_of part.now)) }
    ensures err { OnErr result (BeganBy K.Kept keeper.old keeper.new W.Write writer.old writer.new (last_of part.now)) }
    ensures kind { ¬ (result ≡ Err ReplayFault.Read) }
    ensures leaves { LeavesNoLess K.Kept keeper.old keeper.new }
{
    if part.is_empty() {
        Ok(())
    } else {
        answer_unended(alloc, keeper, writer, observer, part)
    }
}

/// Answers a last line that lacks its LF, and hands on what the writer holds back.
pub fn finish<K: Keeper, W: Write, O: Observer>(
    alloc: Global,
    keeper: &mut K,
    writer: &mut W,
    observer: &mut O,
    part: &[u8],
) -> Result<(), ReplayFault>
    ensures ok { OnOk result (FinishedBy K.Kept keeper.old keeper.new W.Write writer.old writer.new (last_of part.now)) }
    ensures err { OnErr result (BeganBy K.Kept keeper.old keeper.new W.Write writer.old writer.new (last_of part.now)) }
    ensures kind { ¬ (result ≡ Err ReplayFault.Read) }
    ensures leaves { LeavesNoLess K.Kept keeper.old keeper.new }
{
    answer_last(alloc, keeper, writer, observer, part)?;
    flush(writer)
}
