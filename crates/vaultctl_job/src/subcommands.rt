//! The subcommands, each with its words and its help.
ghost use Rattle.std.specs.Prelude.{◌≡◌, IfOk, false, fold, map};
ghost use Rattle.clap.specs.Words.{app_of, new_app, with_subcommand};
ghost use Rattle.clap.specs.declared.builder.command.Command.TheViews.{out-Command};
ghost use Rattle.vaultctl_job.specs.Forms.{app_for, shape_for};
ghost use Rattle.vaultctl_job.specs.Words as spec;

/// What stands below the words of a subcommand: notes and an example, what its exit status says and how it refuses,
/// and where more is said of it.
macro_rules! below {
    ($name:literal, $notes:literal, $status:literal) => {
        concat!(
            $notes,
            "\n\nStatus: ",
            $status,
            "\n\nMore: man vaultctl-",
            $name,
            ", and the manual: docs/MANUAL.md, in the package\nhtml/MANUAL.html."
        )
    };
}

mod files;
mod records;
mod work;

use crate::arguments::{Argument, with_arguments};
use clap::Command;
use std::alloc::{AllocError, Global};

/// A subcommand, as it is reported to clap.
#[derive(Clone, Copy)]
pub(crate) struct Subcommand {
    name: &'static str,
    /// What it does.
    about: &'static str,
    /// What stands below its words in its help.
    below: &'static str,
    /// How it is used, where the words take more than a line.
    usage: Option<&'static str>,
    arguments: &'static [Argument],
}

/// A command of that name, with what it does and what stands below its words in help, and as yet no words.
pub(crate) fn named<'a>(alloc: Global, name: &'a str, about: &'a str, below: &'a str) -> Command<'a>
    ensures app { app_of result ≡ new_app name.entry.now }
    ensures local { (out-Command result).has_globals ≡ false }
{
    Command::new(alloc, name).about(about).after_help(below)
}

fn with_usage<'a>(command: Command<'a>, usage: Option<&'a str>) -> Command<'a>
    ensures app { app_of result ≡ app_of command.entry }
    ensures local { (out-Command result).has_globals ≡ (out-Command command.entry).has_globals }
{
    match usage {
        Some(usage) => command.override_usage(usage),
        None => command,
    }
}

/// The subcommand as clap has it.
fn made<'a>(alloc: Global, subcommand: Subcommand) -> Result<Command<'a>, AllocError>
    ensures app { IfOk result (λ c. app_of c ≡ app_for subcommand) }
    ensures local { IfOk result (λ c. (out-Command c).has_globals ≡ false) }
{
    let command = named(alloc, subcommand.name, subcommand.about, subcommand.below);
    with_arguments(
        alloc,
        with_usage(command, subcommand.usage),
        subcommand.arguments,
    )
}

/// The command with one subcommand more.
fn with_subcommand<'a>(
    alloc: Global,
    command: Command<'a>,
    subcommand: Subcommand,
) -> Result<Command<'a>, AllocError>
    ensures { IfOk result (λ c. app_of c ≡ with_subcommand (app_of command.entry) (shape_for subcommand)) }
{
    match made(alloc, subcommand) {
        Ok(made) => command.subcommand(made),
        Err(error) => {
            drop(command);
            Err(error)
        }
    }
}

/// The command with these subcommands after those that it has, in their order.
fn with_subcommands<'a>(
    alloc: Global,
    mut command: Command<'a>,
    subcommands: &[Subcommand],
) -> Result<Command<'a>, AllocError>
    ensures { IfOk result (λ c. app_of c ≡ fold with_subcommand (app_of command.entry) (map shape_for subcommands.now)) }
{
    for subcommand in subcommands {
        command = with_subcommand(alloc, command, *subcommand)?;
    }
    Ok(command)
}

/// The command with all subcommands after those that it has, in the order in which help shows them.
pub(crate) fn with_all<'a>(alloc: Global, command: Command<'a>) -> Result<Command<'a>, AllocError>
    ensures { IfOk result (λ c. app_of c ≡ fold with_subcommand (app_of command.entry) spec.subcommands) }
{
    let command = with_subcommands(alloc, command, records::all())?;
    let command = with_subcommands(alloc, command, work::all())?;
    with_subcommands(alloc, command, files::all())
}
