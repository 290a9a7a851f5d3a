//! The JSON bodies of answers: what a reply line has within its one member.
ghost use Rattle.std.specs.Prelude.{◌≡◌, ◌≤◌, ◌+◌, ◌-◌, IfOk, length, take, drop, string_bytes};
ghost use Rattle.vault_lines_reply.specs.ReplyLine.{reply_text};
ghost use Rattle.vault_http.specs.Reply as spec;

use std::alloc::{AllocError, Global};
use vault_base::refusal::Refusal;
use vault_core_model::reply::{Answer, Reply};
use vault_lines_reply::reply_line::reply_line;

/// What stands after that many bytes, but for the last two.
fn within(line: &[u8], front: usize) -> &[u8]
    requires { front + 2 ≤ length line.now }
    ensures { result.now ≡ take (length line.now - 2 - front) (drop front line.now) }
{
    &line[front..line.len() - 2]
}

/// The line of a reply, which is dropped.
fn line_of(alloc: Global, reply: Reply) -> Result<String, AllocError>
    ensures { IfOk result (λ line. string_bytes line ≡ reply_text reply) }
{
    let line = reply_line(alloc, &reply);
    drop(reply);
    line
}

/// A refusal as JSON: its name, its number, and what else it says. The error is out of memory.
pub fn refusal_text(alloc: Global, refusal: Refusal) -> Result<Vec<u8>, AllocError>
    ensures { IfOk result (λ text. text.items ≡ spec.refusal_text refusal) }
{
    let line = line_of(alloc, Reply::Refused(refusal))?;
    Vec::from_slice(alloc, within(line.as_bytes(), 9))
}

/// An answer as JSON. The error is out of memory.
pub fn answer_text(alloc: Global, answer: Answer) -> Result<Vec<u8>, AllocError>
    ensures { IfOk result (λ text. text.items ≡ spec.answer_text answer) }
{
    let line = line_of(alloc, Reply::Done(answer))?;
    Vec::from_slice(alloc, within(line.as_bytes(), 6))
}
