//! The vault's program: reads its words, carries out what they ask for, and answers the status.
#![tactic(auto)]

ghost use Rattle.std.specs.Prelude.{◌≡◌, ◌≢◌, true, []};

mod commit;

use crate::commit::COMMIT;
use sqlite::{Start, Unknown};
use std::io::{self, BufWriter, ErrorKind, Read, Write};
use std::process::ExitCode;
use vaultctl_job::words::version_asked;
use vaultctl_machine::starts::Starts;
use vaultctl_machine::vaults::{FileMachine, Machine};
use vaultctl_perform::answer_words;
use vaultctl_perform::version::answer_version;

/// How many bytes of replies are held back until they are written together.
const HELD_BACK: usize = 65_536;

/// The same as `Unknown`, as a type of its own: two openings of one type could be shown to disagree.
#[derive(Drop)]
struct UnknownToo;

impl Start for UnknownToo {
    ghost log = { [] };

    ghost db = { [] };

    ghost is_mixing = { true };

    fn mixes() -> bool {
        true
    }
}

fn main(rt: HostRuntime) -> ExitCode {
    let mut err = rt.stderr();
    // Here alone the types have names. What is proved of the calls below holds for any contents of the files.
    let starts = Starts {
        first: Unknown,
        second: UnknownToo,
    };
    let mut machine = Machine::new(&rt);
    match answer_given_words(&mut machine, starts, &mut err) {
        Ok(status) => ExitCode::from(status),
        Err(error) => ExitCode::from(print_unread(&mut err, error.kind())),
    }
}

/// Says why the program's words weren't read, and answers the status. Where even this can't be written, the status says
/// alone.
fn print_unread<E: Write>(err: &mut E, kind: ErrorKind) -> u8
    ensures words { kind ≡ ErrorKind.InvalidData → result ≡ 2 }
    ensures memory { kind ≢ ErrorKind.InvalidData → result ≡ 1 }
{
    if kind == ErrorKind::InvalidData {
        let _ = writeln!(err, "error: a word is not UTF-8");
        return 2;
    }
    let _ = writeln!(err, "words: Memory");
    1
}

/// The status of what the words ask for; a program that knows its commit prints it after the version. No clause stands
/// here: one would have the call's proof carry all that the machine's reader and writer hold.
fn answer<A: Start, B: Start, R: Read, W: Write, E: Write>(
    machine: &mut FileMachine<'_, A, B>,
    starts: Starts<A, B>,
    words: &[String],
    reader: &mut R,
    out: &mut W,
    err: &mut E,
) -> u8 {
    match version_asked(words) {
        Some(version) => answer_version(machine.runtime().alloc(), version, COMMIT, out, err),
        None => answer_words(machine, starts, words, reader, out, err),
    }
}

/// The same of the program's words. `InvalidData` where one isn't UTF-8; any other error is out of memory.
fn answer_given_words<A: Start, B: Start, E: Write>(
    machine: &mut FileMachine<'_, A, B>,
    starts: Starts<A, B>,
    err: &mut E,
) -> io::Result<u8> {
    let rt = machine.runtime();
    let words: Vec<String> = std::env::args(rt)?.collect(rt.alloc())?;
    let mut out = BufWriter::with_capacity(rt.alloc(), HELD_BACK, io::writer(rt))?;
    let mut reader = rt.reader();
    Ok(answer(
        machine,
        starts,
        words.as_slice(),
        &mut reader,
        &mut out,
        err,
    ))
}
