//! The body of a request, and the command that it makes.
ghost use Rattle.std.specs.Prelude.{◌≡◌, ℕ, List, Ok, Err, IfErr, IfOk, IfSome, OnOk};
ghost use Rattle.std.specs.Io.KnownBytes.{Consumes};
ghost use Rattle.vault_base.specs.declared.refusal.Refusal.TheVariants.{MalformedBody};
ghost use Rattle.vault_http.specs.Command as spec;
ghost use Rattle.vault_http.specs.declared.fault.ServeFault.TheVariants as faults;

use crate::fault::ServeFault;
use std::alloc::Global;
use std::io::Read;
use vault_base::content::Bytes;
use vault_base::refusal::Refusal;
use vault_core_model::command::Command;
use vault_http_request::command::command_of;
use vault_http_request::operation::Operation;
use vault_http_request::read::body::read_body;
use vault_http_request::read::bytes::ReadFault;
use vault_http_request::request_headers::Locks;
use vault_values::fault::LineFault;

/// The body of that length, which is empty where there is none; or nothing where it is cut.
#[tactic(auto, unfolding(crate::specs::Command::body_of))]
fn body_of<R: Read>(
    alloc: Global,
    reader: &mut R,
    size: Option<u64>,
) -> Result<Option<Bytes>, ReadFault>
    ensures body { IfOk result (λ body. IfSome (R.remaining reader.old) (λ rest. body ≡ spec.body_of size rest)) }
    ensures taken { OnOk result ((taken : List ℕ) × Consumes (R.remaining reader.old) (R.remaining reader.new) taken × spec.IsWithinLength size taken) }
{
    match size {
        None => Ok(Some(Bytes::new(Vec::new(alloc)))),
        Some(size) => read_body(alloc, reader, size),
    }
}

/// The command of a body that is there. The error is out of memory.
fn command_with(
    alloc: Global,
    operation: Operation,
    locks: Locks,
    body: Bytes,
) -> Result<Result<Command, Refusal>, ServeFault>
    ensures command { IfOk result (λ judged. judged ≡ spec.command_with operation locks body) }
    ensures kind { IfErr result (λ fault. fault ≡ faults.Memory) }
{
    match command_of(alloc, operation, locks, body) {
        Ok(command) => Ok(Ok(command)),
        Err(LineFault::Refused(refusal)) => Ok(Err(refusal)),
        Err(LineFault::Memory) => Err(ServeFault::Memory),
    }
}

/// The body is cut. The operation is dropped.
fn cut(operation: Operation) -> Result<Command, Refusal>
    ensures { result ≡ Err MalformedBody }
{
    drop(operation);
    Err(Refusal::MalformedBody)
}

/// A fault came first. The operation is dropped.
fn faulted(operation: Operation, fault: ServeFault) -> Result<Result<Command, Refusal>, ServeFault>
    ensures { result ≡ Err fault }
{
    drop(operation);
    Err(fault)
}

/// The command that an operation makes with the body that came, or why it makes none.
fn command_of_body(
    alloc: Global,
    operation: Operation,
    locks: Locks,
    body: Option<Bytes>,
) -> Result<Result<Command, Refusal>, ServeFault>
    ensures command { IfOk result (λ judged. judged ≡ spec.command_of_body operation locks body) }
    ensures kind { ¬ (result ≡ Err faults.Write) }
{
    match body {
        Some(body) => command_with(alloc, operation, locks, body),
        None => Ok(cut(operation)),
    }
}

/// The command that an operation makes with the body that comes, or why it makes none, where the client was
/// told to go on or didn't wait. No more bytes are taken than the body may have.
pub fn command_after<R: Read>(
    alloc: Global,
    reader: &mut R,
    operation: Operation,
    locks: Locks,
    size: Option<u64>,
    stated: Result<(), ServeFault>,
) -> Result<Result<Command, Refusal>, ServeFault>
    ensures command { IfOk result (λ judged. IfSome (R.remaining reader.old) (λ rest. judged ≡ spec.command_after operation locks size rest)) }
    ensures reported { OnOk result (stated ≡ Ok tt) }
    ensures fault { IfErr stated (λ f. result ≡ Err f) }
    ensures err { result ≡ Err faults.Write → stated ≡ Err faults.Write }
    ensures unread { result ≡ Err faults.Write → R.remaining reader.new ≡ R.remaining reader.old }
    ensures taken { OnOk result ((taken : List ℕ) × Consumes (R.remaining reader.old) (R.remaining reader.new) taken × spec.IsWithinLength size taken) }
{
    if let Err(fault) = stated {
        return faulted(operation, fault);
    }
    match body_of(alloc, reader, size) {
        Ok(body) => command_of_body(alloc, operation, locks, body),
        Err(fault) => faulted(operation, ServeFault::from(fault)),
    }
}
