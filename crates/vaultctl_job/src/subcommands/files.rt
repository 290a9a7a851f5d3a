//! Subcommands on a vault's file as a whole.
ghost use Rattle.std.specs.Prelude.{◌≡◌, map};
ghost use Rattle.vaultctl_job.specs.Forms.{shape_for};
ghost use Rattle.vaultctl_job.specs.Words as spec;

use super::Subcommand;
use crate::arguments::{Argument, FILE};

static ALL: [Subcommand; 8] = [
    REGISTER, VERIFY, EVENTS, SEAL, LAWFUL, REPLAY, SERVE, MIGRATE,
];

/// All of them, in the order in which help shows them.
pub(super) fn all() -> &'static [Subcommand]
    ensures { map shape_for result.now ≡ spec.on_files }
{
    &ALL
}

const REGISTER: Subcommand = Subcommand {
    name: "register",
    about: "Prints the register of all removals as CSV",
    below: below!(
        "register",
        "Example:\n  vaultctl register records.vault > register.csv",
        "0 done; 1 refused, as 'open: Damaged entries' on standard error, or a\nfault, as 'register: Device' there; 2 the words aren't understood, or ask for\nhelp."
    ),
    usage: None,
    arguments: &[FILE],
};

const VERIFY: Subcommand = Subcommand {
    name: "verify",
    about: "Audits a vault's file",
    below: below!(
        "verify",
        "Prints 'sound', or 'damaged TABLE' with the first table that isn't.\n\nExample:\n  vaultctl verify records.vault",
        "0 sound; 1 damaged, or a fault, named on standard error, as\n'open: Device'; 2 the words aren't understood, or ask for help."
    ),
    usage: None,
    arguments: &[FILE],
};

const EVENTS: Subcommand = Subcommand {
    name: "events",
    about: "Prints all that ever happened to each entry as CSV",
    below: below!(
        "events",
        "Each version and delete marker has a row for its admission, one for each\nretention and hold that was set, one for each move to another department, and\none for its removal.\n\nExample:\n  vaultctl events records.vault > events.csv",
        "0 done; 1 refused, with a line of JSON on standard output, as\n{\"error\":{\"code\":\"InvalidArgument\",\"n\":10}}, or a fault, named on standard\nerror, as 'open: Device'; 2 the words aren't understood, or ask for help."
    ),
    usage: None,
    arguments: &[
        FILE,
        Argument::Option {
            name: "before",
            value: "MOMENT",
            help: "Leaves out what isn't before this moment, as\n2024-01-15T10:30:00Z; left out: prints all",
        },
    ],
};

const SEAL: Subcommand = Subcommand {
    name: "seal",
    about: "Prints a seal over all that was before a moment, to be deposited",
    below: below!(
        "seal",
        "Prints the moment, how many entries and events were before it, and the SHA-256\nof what 'events' prints for that moment. From then on 'seal' with that moment\nhas to print the same four lines.\n\nExample:\n  vaultctl seal records.vault --before 2024-02-01T00:00:00Z",
        "0 done; 1 refused, with a line of JSON on standard output, as\n{\"error\":{\"code\":\"InvalidArgument\",\"n\":10}} of a moment after the last change,\nor a fault, named on standard error, as 'open: Device'; 2 the words aren't\nunderstood, or ask for help."
    ),
    usage: None,
    arguments: &[
        FILE,
        Argument::Option {
            name: "before",
            value: "MOMENT",
            help: "Leaves out what isn't before this moment, as\n2024-01-15T10:30:00Z; left out: the last change's",
        },
    ],
};

const LAWFUL: Subcommand = Subcommand {
    name: "lawful",
    about: "Checks that each setting and each removal keeps the lock rules",
    below: below!(
        "lawful",
        "Prints 'lawful', or 'unlawful ID RULE' with the first entry that breaks a rule\nand which one. What was made up within the rules it can't tell: for that compare\na seal of before.\n\nExample:\n  vaultctl lawful records.vault",
        "0 lawful; 1 unlawful, or a fault, named on standard error, as\n'open: Device'; 2 the words aren't understood, or ask for help."
    ),
    usage: None,
    arguments: &[FILE],
};

const REPLAY: Subcommand = Subcommand {
    name: "replay",
    about: "Answers a script of commands on standard input",
    below: below!(
        "replay",
        "A script has one command a line, as a JSON object; each gets a line of reply.\n\nExample:\n  vaultctl replay records.vault < day.jsonl > replies.jsonl",
        "0 every line was answered, one that was refused by a reply as\n{\"error\":{\"code\":\"NoSuchBucket\",\"n\":4}}; 1 a fault, named on standard error, as\n'open: Device' or 'replay: Read'; 2 the words aren't understood, or ask for\nhelp."
    ),
    usage: None,
    arguments: &[Argument::OptionalPlace {
        name: "FILE",
        help: "The vault's file; left out: a new vault in memory",
    }],
};

const SERVE: Subcommand = Subcommand {
    name: "serve",
    about: "Serves HTTP requests on 127.0.0.1",
    below: below!(
        "serve",
        "Example:\n  vaultctl serve records.vault 8080 --count 1000",
        "0 all requests were answered, one that was refused by a status as 404\nand a body as {\"code\":\"NoSuchBucket\",\"n\":4}; 1 a fault, named on standard\nerror, as 'open: Device', 'serve: Device' where the port or the journal can't be\nhad, or 'serve: Write' where the journal doesn't go on; 2 the words aren't\nunderstood, or ask for help."
    ),
    usage: None,
    arguments: &[
        FILE,
        Argument::Port,
        Argument::Count,
        Argument::Option {
            name: "lines",
            value: "WHERE",
            help: "Takes script lines too, without \"at\": at the path of a\nUnix socket, or a port of 127.0.0.1 if WHERE is digits",
        },
        Argument::Options {
            name: "host",
            value: "NAME",
            help: "Refuses requests for other hosts than this name, those\nof further --host, localhost, 127.0.0.1 and [::1]",
        },
        Argument::Flag {
            name: "log",
            help: "Writes a line of JSON for each request and each line to\nstandard error: who asked for what, and what came of it",
        },
        Argument::Option {
            name: "journal",
            value: "FILE",
            help: "Appends each change as the script line that makes it\nagain to this file, which may not be there yet",
        },
    ],
};

const MIGRATE: Subcommand = Subcommand {
    name: "migrate",
    about: "Copies the vault of an earlier version into a new file",
    below: below!(
        "migrate",
        "OLD isn't changed. Prints 'migrated' once the copy is whole.\n\nExample:\n  vaultctl migrate records.vault records-2.vault",
        "0 done; 1 refused, as 'migrate: NameTaken' on standard error, or a\nfault, as 'migrate: Device' there; 2 the words aren't understood, or ask for\nhelp."
    ),
    usage: None,
    arguments: &[
        Argument::Place {
            name: "OLD",
            help: "The vault's file, made by an earlier version",
        },
        Argument::Place {
            name: "NEW",
            help: "The file to make; it may not hold a vault yet",
        },
        Argument::Flag {
            name: "external",
            help: "The copy registers contents that are kept outside it, by\ntheir sizes and digests; OLD may be made by this version\nwithout --external",
        },
    ],
};
