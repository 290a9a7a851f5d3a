//! Subcommands that make a vault and its records, and change who has them.
ghost use Rattle.std.specs.Prelude.{◌≡◌, ◌∷◌, [], map};
ghost use Rattle.vaultctl_job.specs.Forms.{shape_for};
ghost use Rattle.vaultctl_job.specs.Words as spec;

use super::Subcommand;
use crate::arguments::{ASKER, Argument, FILE, MOMENT};

static ALL: [Subcommand; 5] = [INIT, DEPT, CALLER, BUCKET, MOVE];

/// All of them, in the order in which help shows them.
pub(super) fn all() -> &'static [Subcommand]
    ensures { map shape_for result.now ≡ spec.init_app.top ∷ spec.dept_app.top ∷ spec.caller_app.top ∷ spec.bucket_app.top ∷ spec.move_app.top ∷ [] }
{
    &ALL
}

const INIT: Subcommand = Subcommand {
    name: "init",
    about: "Makes a new vault in a file",
    below: below!(
        "init",
        "The new vault has one caller, registrar, with the right admin.\n\nExample:\n  vaultctl init records.vault",
        "0 done; 1 refused, as 'init: NameTaken' on standard error, or a fault,\nas 'init: Device' there; 2 the words aren't understood, or ask for help."
    ),
    usage: None,
    arguments: &[
        Argument::Place {
            name: "FILE",
            help: "The file to make; it may not hold a vault yet",
        },
        Argument::Flag {
            name: "external",
            help: "The vault registers contents that are kept outside it,\nby their sizes and digests; this can't be changed later",
        },
    ],
};

const DEPT: Subcommand = Subcommand {
    name: "dept",
    about: "Adds a department",
    below: below!(
        "dept",
        "Example:\n  vaultctl dept records.vault records --as registrar",
        "0 done; 1 refused, with a line of JSON on standard output, as\n{\"error\":{\"code\":\"NameTaken\",\"n\":9}}, or a fault, named on standard error, as\n'open: Device'; 2 the words aren't understood, or ask for help."
    ),
    usage: None,
    arguments: &[
        FILE,
        Argument::Place {
            name: "NAME",
            help: "Its name: 1 to 64 of a-z, 0-9, '-', '_', '.'",
        },
        ASKER,
        MOMENT,
    ],
};

const CALLER: Subcommand = Subcommand {
    name: "caller",
    about: "Adds a caller with rights, or closes one for good",
    below: below!(
        "caller",
        "Example:\n  vaultctl caller records.vault ann put get --as registrar --dept records\n  vaultctl caller records.vault ann --as registrar --close",
        "0 done; 1 refused, with a line of JSON on standard output, as\n{\"error\":{\"code\":\"NameTaken\",\"n\":9}}, or a fault, named on standard error, as\n'open: Device'; 2 the words aren't understood, or ask for help."
    ),
    usage: None,
    arguments: &[
        FILE,
        Argument::Place {
            name: "NAME",
            help: "The caller's name: 1 to 64 of a-z, 0-9, '-', '_', '.'",
        },
        Argument::Places {
            name: "RIGHT",
            help: "Any of admin, config, put, retain, hold, get, list,\ndelete, delete-version, run, report, bypass",
        },
        ASKER,
        MOMENT,
        Argument::Option {
            name: "dept",
            value: "DEPT",
            help: "The department that the caller belongs to",
        },
        Argument::Flag {
            name: "close",
            help: "Closes the caller for good; rights and --dept are\nnot looked at",
        },
    ],
};

const BUCKET: Subcommand = Subcommand {
    name: "bucket",
    about: "Adds a bucket to a department",
    below: below!(
        "bucket",
        "Example:\n  vaultctl bucket records.vault docs records --as registrar",
        "0 done; 1 refused, with a line of JSON on standard output, as\n{\"error\":{\"code\":\"BucketAlreadyExists\",\"n\":8}}, or a fault, named on standard\nerror, as 'open: Device'; 2 the words aren't understood, or ask for help."
    ),
    usage: None,
    arguments: &[
        FILE,
        Argument::Place {
            name: "NAME",
            help: "Its name: 3 to 63 of a-z, 0-9, '-', no '-' at an end",
        },
        Argument::Place {
            name: "DEPT",
            help: "The department that it belongs to",
        },
        ASKER,
        MOMENT,
    ],
};

const MOVE: Subcommand = Subcommand {
    name: "move",
    about: "Moves a bucket with what it holds to another department",
    below: below!(
        "move",
        "From then on the bucket is for callers of that department, and what it holds\ncounts for it. Answers with the bytes that moved.\n\nExample:\n  vaultctl move records.vault docs court --as registrar",
        "0 done; 1 refused, with a line of JSON on standard output, as\n{\"error\":{\"code\":\"QuotaExceeded\",\"n\":19}}, or a fault, named on standard error,\nas 'open: Device'; 2 the words aren't understood, or ask for help."
    ),
    usage: None,
    arguments: &[
        FILE,
        Argument::Place {
            name: "BUCKET",
            help: "The bucket's name",
        },
        Argument::Place {
            name: "DEPT",
            help: "The department that gets it",
        },
        ASKER,
        MOMENT,
    ],
};
