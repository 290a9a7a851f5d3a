//! The words that subcommands take, each with what help says of it.
ghost use Rattle.std.specs.Prelude.{◌≡◌, IfOk, false, fold, map};
ghost use Rattle.clap.specs.Words.{app_of, rule_of, with_rule};
ghost use Rattle.clap.specs.declared.builder.command.Command.TheViews.{out-Command};
ghost use Rattle.vaultctl_job.specs.Arguments as spec;
ghost use Rattle.vaultctl_job.specs.Forms.{rule_for};

use clap::{Arg, ArgAction, Command, value_parser};
use std::alloc::{AllocError, Global};

/// A word that a subcommand takes.
#[derive(Clone, Copy)]
pub(crate) enum Argument {
    /// It has to be there, by its place.
    Place {
        name: &'static str,
        help: &'static str,
    },
    /// It may be left out, by its place.
    OptionalPlace {
        name: &'static str,
        help: &'static str,
    },
    /// Any number of them, by their place.
    Places {
        name: &'static str,
        help: &'static str,
    },
    /// The port on which requests are taken.
    Port,
    /// How many requests are served.
    Count,
    /// It may be left out, after `--NAME`.
    Option {
        name: &'static str,
        value: &'static str,
        help: &'static str,
    },
    /// It has to be there, after `--NAME`.
    RequiredOption {
        name: &'static str,
        value: &'static str,
        help: &'static str,
    },
    /// Any number of them, each after `--NAME`.
    Options {
        name: &'static str,
        value: &'static str,
        help: &'static str,
    },
    /// `--NAME` alone.
    Flag {
        name: &'static str,
        help: &'static str,
    },
}

pub(crate) const FILE: Argument = Argument::Place {
    name: "FILE",
    help: "The vault's file",
};

/// The caller who asks.
pub(crate) const ASKER: Argument = Argument::RequiredOption {
    name: "as",
    value: "CALLER",
    help: "The name of the caller who asks",
};

/// The moment at which it is asked.
pub(crate) const MOMENT: Argument = Argument::Option {
    name: "at",
    value: "MOMENT",
    help: "When it is asked, as 2024-01-15T10:30:00Z\nor 2024-01-15T11:30:00+01:00; left out: now",
};

fn option<'a>(alloc: Global, name: &'a str, value: &'a str, help: &'a str) -> Arg<'a>
    ensures rule { rule_of result ≡ spec.option name.entry.now }
    ensures local { result.global ≡ false }
{
    Arg::new(alloc, name)
        .long(name)
        .value_name(value)
        .help(help)
}

fn port<'a>(alloc: Global) -> Arg<'a>
    ensures rule { rule_of result ≡ spec.port }
    ensures local { result.global ≡ false }
{
    Arg::new(alloc, "PORT")
        .required(true)
        .value_parser(value_parser!(u16).range(1..))
        .help("The port on 127.0.0.1: a number from 1 to 65535")
}

fn count<'a>(alloc: Global) -> Arg<'a>
    ensures rule { rule_of result ≡ spec.count }
    ensures local { result.global ≡ false }
{
    option(alloc, "count", "N", "Ends after N requests, 1 to 1000000")
        .default_value("1000000")
        .value_parser(value_parser!(u32).range(1..=1_000_000))
}

/// The argument as clap has it.
fn made<'a>(alloc: Global, argument: Argument) -> Arg<'a>
    ensures rule { rule_of result ≡ rule_for argument }
    ensures local { result.global ≡ false }
{
    match argument {
        Argument::Place { name, help } => Arg::new(alloc, name).required(true).help(help),
        Argument::OptionalPlace { name, help } => Arg::new(alloc, name).help(help),
        Argument::Places { name, help } => {
            Arg::new(alloc, name).action(ArgAction::Append).help(help)
        }
        Argument::Port => port(alloc),
        Argument::Count => count(alloc),
        Argument::Option { name, value, help } => option(alloc, name, value, help),
        Argument::RequiredOption { name, value, help } => {
            option(alloc, name, value, help).required(true)
        }
        Argument::Options { name, value, help } => {
            option(alloc, name, value, help).action(ArgAction::Append)
        }
        Argument::Flag { name, help } => Arg::new(alloc, name)
            .long(name)
            .action(ArgAction::SetTrue)
            .help(help),
    }
}

/// The command with these words after those that it has, in their order.
pub(crate) fn with_arguments<'a>(
    alloc: Global,
    mut command: Command<'a>,
    arguments: &[Argument],
) -> Result<Command<'a>, AllocError>
    ensures app { IfOk result (λ c. app_of c ≡ fold with_rule (app_of command.entry) (map rule_for arguments.now)) }
    ensures local { IfOk result (λ c. (out-Command c).has_globals ≡ (out-Command command.entry).has_globals) }
{
    for argument in arguments {
        command = command.arg(made(alloc, *argument))?;
    }
    Ok(command)
}
