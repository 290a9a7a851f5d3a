//! The words of a command line.
ghost use Rattle.std.specs.Prelude.{◌≡◌, ◌≢◌, [], IfOk, IfErr, IfSome, None, Some, is_some, map, string_bytes, true};
ghost use Rattle.clap.specs.Words.{app_of, fault_of, kind_of, subcommand_rows_of};
ghost use Rattle.vaultctl_job.specs.Words.{vaultctl, job_for, job_in, needing_subcommand, IsRefusal};
ghost use Rattle.vaultctl_job.specs.Words as spec;

use crate::fault::WordsFault;
use crate::job::Job;
use crate::reading::job_named;
use crate::subcommands::{named, with_all};
use clap::error::ErrorKind;
use clap::{ArgMatches, Command, Error};
use std::alloc::{AllocError, Global};

/// The version of the program, and the schema versions of the tables that it writes.
pub const VERSION: &str = "0.9.0 (schemas 3 and 4)";

fn needs_subcommand<'a>(command: Command<'a>) -> Command<'a>
    ensures { app_of result ≡ needing_subcommand (app_of command.entry) }
{
    command
        .version(VERSION)
        .subcommand_required(true)
        .disable_help_subcommand(true)
}

fn command<'a>(alloc: Global) -> Result<Command<'a>, AllocError>
    ensures { IfOk result (λ c. app_of c ≡ vaultctl) }
{
    let top = named(
        alloc,
        "vaultctl",
        "A records vault: what is put in stays until its retention ends",
        "'vaultctl COMMAND --help' and 'vaultctl help COMMAND' show the words of a\ncommand, and how it refuses.\n\nExample:\n  vaultctl init records.vault\n  vaultctl dept records.vault records --as registrar\n  vaultctl verify records.vault\n\nStatus: 0 done; 1 refused, stopped, or a fault; 2 the words aren't understood,\nor ask for help.\n\nMore: man vaultctl, and the manual: docs/MANUAL.md, in the package\nhtml/MANUAL.html.",
    );
    with_all(alloc, needs_subcommand(top))
}

/// The job of the subcommand that was met.
fn met<'a>(alloc: Global, matches: &ArgMatches<'a>) -> Result<Option<Job>, AllocError>
    ensures { IfOk result (λ job. job ≡ job_in (subcommand_rows_of matches.now)) }
{
    match matches.subcommand() {
        Some((name, words)) => job_named(alloc, name, words),
        None => Ok(None),
    }
}

fn refusal(alloc: Global, error: Error) -> WordsFault
    ensures { IsRefusal result → kind_of error ≢ ErrorKind.OutOfMemory }
{
    if error.kind() == ErrorKind::OutOfMemory {
        return WordsFault::Memory;
    }
    match error.to_string(alloc) {
        Ok(text) => WordsFault::Refused(text),
        Err(_) => WordsFault::Memory,
    }
}

/// What `help` and `help SUBCOMMAND` ask help of, as a word in front of `--help`.
fn help_asked(words: &[String]) -> Option<&str> {
    if words.len() > 3 || words.get(1)?.as_str() != "help" {
        return None;
    }
    match words.get(2) {
        Some(subcommand) => Some(subcommand.as_str()),
        None => Some("--help"),
    }
}

/// The text of the help that is asked for. The error is out of memory.
fn help_text(alloc: Global, program: &str, topic: &str) -> Result<String, AllocError> {
    let command = command(alloc)?;
    match command.try_get_matches_from(&[program, topic, "--help"]) {
        Ok(_) => Ok(String::new(alloc)),
        Err(error) => error.to_string(alloc),
    }
}

/// Why the words are refused, by clap's error; words that ask for help by `help` have the text of that help.
fn refusal_of(alloc: Global, words: &[String], error: Error) -> WordsFault
    ensures { IsRefusal result → kind_of error ≢ ErrorKind.OutOfMemory }
{
    if error.kind() == ErrorKind::OutOfMemory {
        return WordsFault::Memory;
    }
    let Some(topic) = help_asked(words) else {
        return refusal(alloc, error);
    };
    let Some(program) = words.first() else {
        return refusal(alloc, error);
    };
    match help_text(alloc, program.as_str(), topic) {
        Ok(text) => WordsFault::Refused(text),
        Err(_) => WordsFault::Memory,
    }
}

fn is_version_asked(words: &[String]) -> bool
    ensures { result ≡ spec.asks_version (map string_bytes words.now) }
{
    match words {
        [_, word] => word.as_str() == "--version" || word.as_str() == "-V",
        _ => false,
    }
}

/// The version, where the words ask for it by `--version` or `-V` alone.
#[tactic(auto, using(crate::proofs::WordsLemmas::no_job))]
pub fn version_asked(words: &[String]) -> Option<&'static str>
    ensures exact { is_some result ≡ spec.asks_version (map string_bytes words.now) }
    // Such words are no job.
    ensures none { IfSome result (λ _. job_for (map string_bytes words.now) ≡ None) }
{
    if is_version_asked(words) {
        Some(VERSION)
    } else {
        None
    }
}

/// The job that the words ask for; the first word is the program's name.
///
/// `Refused` comes exactly where `clap`'s meaning of the command refuses the words, and has the text
/// that says why; help and the version are asked for by words that are refused.
pub fn job_of(alloc: Global, words: &[String]) -> Result<Job, WordsFault>
    ensures ok { IfOk result (λ job. job_for (map string_bytes words.now) ≡ Some job) }
    ensures taken { IfOk result (λ _. fault_of vaultctl (map string_bytes words.now) ≡ []) }
    ensures refused { IfErr result (λ e. IsRefusal e → fault_of vaultctl (map string_bytes words.now) ≢ []) }
{
    let Ok(command) = command(alloc) else {
        return Err(WordsFault::Memory);
    };
    let matches = match command.try_get_matches_from(words) {
        Ok(matches) => matches,
        Err(error) => return Err(refusal_of(alloc, words, error)),
    };
    match met(alloc, &matches) {
        Ok(Some(job)) => Ok(job),
        Ok(None) => unreachable!(),
        Err(_) => Err(WordsFault::Memory),
    }
}
