//! What is printed of replies.
ghost use Rattle.std.specs.Prelude.{◌≡◌, IfOk, string_bytes};
ghost use Rattle.vaultctl_commands.specs.Printed as spec;

use crate::outcome::Outcome;
use std::alloc::{AllocError, Global};
use vault_core_model::reply::{Answer, Reply};
use vault_files::certificate::certificate;
use vault_files::report_text::report_text;
use vault_lines_reply::reply_line::reply_line;

/// What is printed of a reply: a report and a certificate as text, and any other as its line.
///
/// The error is out of memory.
pub fn reply_text(alloc: Global, reply: &Reply) -> Result<String, AllocError>
    ensures { IfOk result (λ text. string_bytes text ≡ spec.printed reply.now) }
{
    match reply {
        Reply::Done(Answer::Report(report)) => report_text(alloc, report),
        Reply::Done(Answer::Certificate(entry, tenures)) => {
            certificate(alloc, entry, tenures.as_slice())
        }
        _ => reply_line(alloc, reply),
    }
}

/// Whether a command of that reply was done.
pub fn outcome(reply: &Reply) -> Outcome
    ensures { result ≡ spec.outcome_of reply.now }
{
    match reply {
        Reply::Done(_) => Outcome::Done,
        Reply::Refused(_) => Outcome::Refused,
        Reply::Stopped(_, _) => Outcome::Refused,
    }
}
