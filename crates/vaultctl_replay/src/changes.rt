//! What a reply says of the vault: whether its command changed it, and whether a line makes the change again.
ghost use Rattle.std.specs.Prelude.{◌≡◌};
ghost use Rattle.vaultctl_replay.specs.Changes as spec;

use vault_core_model::reply::{Answer, Reply, Stop};

/// Whether an answer is that of a command that changed the vault.
fn is_change_answer(answer: &Answer) -> bool
    ensures { result ≡ spec.is_change_answer answer.now }
{
    match answer {
        Answer::Nothing => true,
        Answer::Admitted(_) => true,
        Answer::Marked(_) => true,
        Answer::Removed(_) => true,
        Answer::Moved(_) => true,
        Answer::Ran(counts) => counts.changes > 0,
        Answer::TakenIn(taken) => !taken.again,
        _ => false,
    }
}

/// Whether a reply reports a change of the vault.
pub fn is_change(reply: &Reply) -> bool
    ensures { result ≡ spec.is_change reply.now }
{
    match reply {
        Reply::Done(answer) => is_change_answer(answer),
        Reply::Refused(_) => false,
        Reply::Stopped(changes, _) => *changes > 0,
    }
}

/// Whether a fault made a part of a lifecycle run, which no line makes again.
pub fn is_cut(reply: &Reply) -> bool
    ensures { result ≡ spec.is_cut reply.now }
{
    match reply {
        Reply::Stopped(changes, Stop::Memory) => *changes > 0,
        Reply::Stopped(changes, Stop::Device) => *changes > 0,
        _ => false,
    }
}
