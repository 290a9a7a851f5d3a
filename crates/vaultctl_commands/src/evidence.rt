//! What a vault shows to somebody who doesn't trust the machine that it is kept on, printed.
ghost use Rattle.std.specs.Prelude.{◌≡◌, ◌≢◌, IfOk, Err, string_bytes};
ghost use Rattle.std.specs.Io.KnownBytes.{Appends};
ghost use Rattle.vault_core_evidence.specs.Breaches.{first_breach};
ghost use Rattle.vault_core_model.specs.Leaves.{LeavesSame};
ghost use Rattle.vault_core_model.specs.declared.reply.Reply.TheVariants.{Refused};
ghost use Rattle.vault_files_events.specs.Seal.{seal_text as seal_lines};
ghost use Rattle.vaultctl_commands.specs.Evidence as spec;
ghost use Rattle.vaultctl_commands.specs.Faults.{reports_device};
ghost use Rattle.vaultctl_commands.specs.Printed.{printed};

use crate::asked::AskedSeal;
use crate::carrying::print_refusal;
use crate::fault::JobFault;
use crate::outcome::Outcome;
use crate::printing::print;
use std::alloc::{AllocError, Global};
use std::io::Write;
use vault_base::refusal::Refusal;
use vault_core_evidence::breach::{Breach, Law};
use vault_core_evidence::walk::{Judged, lawful};
use vault_core_model::halt::{Fault, Halt};
use vault_core_model::keeper::Keeper;
use vault_files_events::{Seal, seal, seal_text};

/// Prints the lines of a seal.
fn print_seal<W: Write>(alloc: Global, seal: &Seal, out: &mut W) -> Result<Outcome, JobFault>
    ensures ok { IfOk result (λ stated. (stated ≡ Outcome.Done) × Appends (W.contents out.old) (W.contents out.new) (seal_lines seal.now)) }
    ensures reader { result ≢ Err JobFault.Read }
    ensures device { result ≢ Err JobFault.Device }
{
    let Ok(text) = seal_text(alloc, seal) else {
        return Err(JobFault::Memory);
    };
    print(out, text.as_str())?;
    Ok(Outcome::Done)
}

/// Prints the refusal of a moment that the vault hasn't reached, and says in words on `err` which one it may be.
fn print_unreached<W: Write, E: Write>(
    alloc: Global,
    refusal: Refusal,
    out: &mut W,
    err: &mut E,
) -> Result<Outcome, JobFault>
    ensures ok { IfOk result (λ stated. (stated ≡ Outcome.Refused) × Appends (W.contents out.old) (W.contents out.new) (printed (Refused refusal))) }
    ensures reader { result ≢ Err JobFault.Read }
    ensures device { result ≢ Err JobFault.Device }
{
    let stated = print_refusal(alloc, refusal, out);
    let _ = writeln!(err, "{UNREACHED}");
    stated
}

/// What is said of a moment after the vault's last change.
const UNREACHED: &str =
    "--before lies after the vault's last change, so more may still be done before it: leave it out, or give a moment up to that change";

/// Prints the seal of what was before a moment; or the refusal of a moment after the vault's last change, and says in
/// words on `err` which one it may be.
pub fn answer_seal<K: Keeper, W: Write, E: Write>(
    alloc: Global,
    keeper: &mut K,
    asked: &AskedSeal,
    out: &mut W,
    err: &mut E,
) -> Result<Outcome, JobFault>
    // What is printed is the seal of the moment that is asked for, or of the last one; refused is one after that alone.
    ensures ok { K.is_honest keeper.new → IfOk result (λ stated. spec.IsSealed asked.now.before (K.vault keeper.old) stated (W.contents out.old) (W.contents out.new)) }
    // Whatever the device does, what is answered is what was printed.
    ensures printed { IfOk result (λ stated. spec.PrintsSeal stated (W.contents out.old) (W.contents out.new)) }
    ensures leaves { LeavesSame K.Kept keeper.old keeper.new (reports_device result) }
    ensures reader { result ≢ Err JobFault.Read }
{
    match seal(alloc, keeper, asked.before) {
        Ok(seal) => print_seal(alloc, &seal, out),
        Err(Halt::Fault(Fault::Memory)) => Err(JobFault::Memory),
        Err(Halt::Fault(Fault::Device)) => Err(JobFault::Device),
        Err(Halt::Refused(refusal)) => print_unreached(alloc, refusal, out, err),
    }
}

/// The line that names an entry and the law that it breaks. The error is out of memory.
fn breach_line(alloc: Global, breach: &Breach) -> Result<String, AllocError>
    ensures { IfOk result (λ line. string_bytes line ≡ spec.unlawful_line breach.now) }
{
    let id = breach.id.number().to_string(alloc)?;
    let mut line = String::new(alloc);
    line.push_str("unlawful ")?;
    line.push_str(id.as_str())?;
    line.push_str(" ")?;
    line.push_str(breach.law.name())?;
    line.push_str("\n")?;
    Ok(line)
}

/// Prints that each setting and each removal keeps the rules.
fn print_lawful<W: Write>(out: &mut W) -> Result<Outcome, JobFault>
    ensures ok { IfOk result (λ stated. (stated ≡ Outcome.Done) × Appends (W.contents out.old) (W.contents out.new) spec.lawful_line) }
    ensures reader { result ≢ Err JobFault.Read }
    ensures device { result ≢ Err JobFault.Device }
{
    print(out, "lawful\n")?;
    Ok(Outcome::Done)
}

/// Prints which entry breaks which rule.
fn print_breach<W: Write>(alloc: Global, breach: &Breach, out: &mut W) -> Result<Outcome, JobFault>
    ensures ok { IfOk result (λ stated. (stated ≡ Outcome.Refused) × Appends (W.contents out.old) (W.contents out.new) (spec.unlawful_line breach.now)) }
    ensures reader { result ≢ Err JobFault.Read }
    ensures device { result ≢ Err JobFault.Device }
{
    let Ok(line) = breach_line(alloc, breach) else {
        return Err(JobFault::Memory);
    };
    print(out, line.as_str())?;
    Ok(Outcome::Refused)
}

/// What an entry that breaks a law shows.
fn shown(law: Law) -> &'static str {
    match law {
        Law::Admission => {
            "who admitted it is no caller who may admit such an entry, or is not of the department that the entry names"
        }
        Law::FirstSetting => {
            "its first setting is of another moment or another caller than its admission, or by a bypass, or gives a retention that does not end after it"
        }
        Law::Order => {
            "a setting is before the one before it, or something is after its removal or after the vault's last change"
        }
        Law::Setting => "a retention or a hold was set that the lock before it doesn't permit",
        Law::Setter => "who set a retention or a hold is no caller with the right to it",
        Law::Removal => "it was removed while its lock didn't permit that",
        Law::Remover => "who removed it is no caller who may remove versions",
        Law::Move => {
            "a move of its bucket has another moment or another department than other entries show"
        }
        Law::Department => {
            "its bucket was of another department in a second, as a version shows that was held then"
        }
        Law::Registrar => {
            "the vault lacks the caller registrar of no department, with the right admin alone, that each vault begins with"
        }
    }
}

/// Says in words what an entry that breaks a law shows. Where this can't be written, the line says it alone.
fn say_breach<E: Write>(breach: &Breach, err: &mut E) {
    let id = breach.id.number();
    let shown = shown(breach.law);
    let _ = writeln!(
        err,
        "entry {id}: {shown}; no command does that, so something else wrote to the file"
    );
}

/// The last moment of a vault, and the last that an entry shows, in words. The error is out of memory.
fn last_words(alloc: Global, judged: &Judged) -> Result<String, AllocError> {
    let last = judged.last.text(alloc)?;
    let shown = judged.shown.text(alloc)?;
    format!(in alloc;
        "the vault's last change is of {last}, and the last that an entry shows of {shown}"
    )
}

/// Says both moments where the vault's last one is after all that entries show: a last moment that another program raised
/// passes every test. Where this can't be written, nothing is said.
fn say_last<E: Write>(alloc: Global, judged: &Judged, err: &mut E) {
    if judged.last <= judged.shown {
        return;
    }
    let _ = match last_words(alloc, judged) {
        Ok(words) => writeln!(err, "{words}"),
        Err(_) => writeln!(err, "no memory for the words on the vault's last change"),
    };
}

/// Prints `lawful`, and says on `err` where the vault's last moment isn't one that an entry shows; or `unlawful` with the
/// first entry that breaks a rule and which, and says on `err` in words what the entry shows.
fn print_judged<W: Write, E: Write>(
    alloc: Global,
    judged: &Judged,
    out: &mut W,
    err: &mut E,
) -> Result<Outcome, JobFault>
    ensures ok { IfOk result (λ stated. spec.IsJudged judged.now.breach stated (W.contents out.old) (W.contents out.new)) }
    ensures printed { IfOk result (λ stated. spec.PrintsLawful stated (W.contents out.old) (W.contents out.new)) }
    ensures reader { result ≢ Err JobFault.Read }
    ensures device { result ≢ Err JobFault.Device }
{
    match &judged.breach {
        None => {
            let printed = print_lawful(out);
            say_last(alloc, judged, err);
            printed
        }
        Some(breach) => {
            let printed = print_breach(alloc, breach, out);
            say_breach(breach, err);
            printed
        }
    }
}

/// Prints `lawful` of a vault of which each setting and each removal keeps the rules; else `unlawful` with the first entry
/// that breaks one and which. On `err` it says in words what that entry shows, or where a lawful vault's last moment isn't
/// one that an entry shows.
pub fn answer_lawful<K: Keeper, W: Write, E: Write>(
    alloc: Global,
    keeper: &mut K,
    out: &mut W,
    err: &mut E,
) -> Result<Outcome, JobFault>
    ensures ok { K.is_honest keeper.new → IfOk result (λ stated. spec.IsJudged (first_breach (K.vault keeper.old)) stated (W.contents out.old) (W.contents out.new)) }
    // Whatever the device does, what is answered is what was printed.
    ensures printed { IfOk result (λ stated. spec.PrintsLawful stated (W.contents out.old) (W.contents out.new)) }
    ensures leaves { LeavesSame K.Kept keeper.old keeper.new (reports_device result) }
    ensures reader { result ≢ Err JobFault.Read }
{
    match lawful(alloc, keeper) {
        Ok(judged) => print_judged(alloc, &judged, out, err),
        Err(Fault::Memory) => Err(JobFault::Memory),
        Err(Fault::Device) => Err(JobFault::Device),
    }
}
