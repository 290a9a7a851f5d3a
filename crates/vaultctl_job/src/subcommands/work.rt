//! Subcommands for a day's work with buckets and departments.
ghost use Rattle.std.specs.Prelude.{◌≡◌, ◌∷◌, [], map};
ghost use Rattle.vaultctl_job.specs.Forms.{shape_for};
ghost use Rattle.vaultctl_job.specs.Words as spec;

use super::Subcommand;
use crate::arguments::{ASKER, Argument, FILE, MOMENT};

static ALL: [Subcommand; 4] = [INTAKE, RUN, REPORT, CERTIFICATE];

/// All of them, in the order in which help shows them.
pub(super) fn all() -> &'static [Subcommand]
    ensures { map shape_for result.now ≡ spec.intake_app.top ∷ spec.run_app.top ∷ spec.report_app.top ∷ spec.certificate_app.top ∷ [] }
{
    &ALL
}

const INTAKE: Subcommand = Subcommand {
    name: "intake",
    about: "Takes in files of a folder by a list",
    below: below!(
        "intake",
        "A list is CSV with the first line file,key,mode,until,hold. Each further line\nis answered by a line: its number, and 'admitted ID', 'again ID' (it was taken\nin before) or 'refused NAME'.\n\nExample:\n  vaultctl intake records.vault docs 2024-01 list.csv scans --as ann",
        "0 every row was taken in, now or before; 1 refused, with a line of JSON\non standard output, as {\"error\":{\"code\":\"InvalidBucketName\",\"n\":15}}, or a row\nwas, as '3 refused InvalidArgument', or stopped, with 'stopped NAME' as the\nlast line, or a fault, named on standard error, as 'open: Device'; 2 the words\naren't understood, or ask for help."
    ),
    usage: Some(
        "vaultctl intake [OPTIONS] --as <CALLER> <FILE> <BUCKET> <BATCH>\n                       <LIST> <FOLDER>",
    ),
    arguments: &[
        FILE,
        Argument::Place {
            name: "BUCKET",
            help: "The bucket that gets the files",
        },
        Argument::Place {
            name: "BATCH",
            help: "A name for this delivery: 1 to 64 of a-z, 0-9, '-', '_',\n'.'; given again, no line is taken in twice",
        },
        Argument::Place {
            name: "LIST",
            help: "The list's file",
        },
        Argument::Place {
            name: "FOLDER",
            help: "The folder of the files that it names",
        },
        ASKER,
        MOMENT,
    ],
};

const RUN: Subcommand = Subcommand {
    name: "run",
    about: "Carries out the lifecycle rules of a bucket",
    below: below!(
        "run",
        "Example:\n  vaultctl run records.vault docs --as ann",
        "0 done; 1 refused, with a line of JSON on standard output, as\n{\"error\":{\"code\":\"NoSuchBucket\",\"n\":4}}, or stopped, as\n{\"stopped\":{\"changes\":2,\"fault\":\"Device\"}}, or a fault, named on standard\nerror, as 'open: Device'; 2 the words aren't understood, or ask for help."
    ),
    usage: None,
    arguments: &[
        FILE,
        Argument::Place {
            name: "BUCKET",
            help: "The bucket's name",
        },
        ASKER,
        MOMENT,
    ],
};

const REPORT: Subcommand = Subcommand {
    name: "report",
    about: "Prints the sums of a department",
    below: below!(
        "report",
        "Sizes are in bytes; byte-days are bytes times whole days held.\n\nExample:\n  vaultctl report records.vault records --as ann",
        "0 done; 1 refused, with a line of JSON on standard output, as\n{\"error\":{\"code\":\"AccessDenied\",\"n\":3,\"reason\":\"department\"}}, or a fault,\nnamed on standard error, as 'open: Device'; 2 the words aren't understood, or\nask for help."
    ),
    usage: None,
    arguments: &[
        FILE,
        Argument::Place {
            name: "DEPT",
            help: "The department's name",
        },
        ASKER,
        MOMENT,
    ],
};

const CERTIFICATE: Subcommand = Subcommand {
    name: "certificate",
    about: "Prints the certificate of destruction of a removed version",
    below: below!(
        "certificate",
        "Example:\n  vaultctl certificate records.vault docs 1 --as ann",
        "0 done; 1 refused, with a line of JSON on standard output, as\n{\"error\":{\"code\":\"NoSuchVersion\",\"n\":6}}, or a fault, named on standard error,\nas 'open: Device'; 2 the words aren't understood, or ask for help."
    ),
    usage: None,
    arguments: &[
        FILE,
        Argument::Place {
            name: "BUCKET",
            help: "The bucket that the version was in",
        },
        Argument::Place {
            name: "VERSION",
            help: "The version's id: a number from 1 to 1000000000",
        },
        ASKER,
        MOMENT,
    ],
};
