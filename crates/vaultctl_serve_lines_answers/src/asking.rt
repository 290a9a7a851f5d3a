//! What only the second door has: the vault stays, and what is answered is read of it.
ghost use Rattle.std.specs.Prelude.{◌≡◌, IfOk, IsOk, OnErr, OnOk, Ok, Result as AnyResult, string_bytes};
ghost use Rattle.std.specs.Io.KnownBytes.{Appends};
ghost use Rattle.vault_base.specs.declared.refusal.Refusal.{Refusal as AnyRefusal};
ghost use Rattle.vault_core_model.specs.Checks.{administrator};
ghost use Rattle.vault_core_model.specs.Halts.{ChecksAs, is_device};
ghost use Rattle.vault_core_model.specs.Leaves.{LeavesSame, standing};
ghost use Rattle.vault_core_model.specs.declared.reply.Reply.TheVariants.{Refused};
ghost use Rattle.vault_core_model.specs.LeavesMany.{LeavesNoLess};
ghost use Rattle.vault_lines_reply.specs.ReplyLine.{reply_text};
ghost use Rattle.vaultctl_serve_lines_answers.specs.PageLine.{page_line_text};
ghost use Rattle.vault_io.specs.Begins.{Begins};
ghost use Rattle.vaultctl_serve_lines_answers.specs.Asking as spec;
ghost use Rattle.vaultctl_serve_lines_answers.specs.Asking.{buckets_page, Given, stated_text, status_of, Written};
ghost use Rattle.vaultctl_serve_lines_answers.specs.declared.asking.Found.{Found as AnyFound};

use crate::asked::{DoorRequest, Wanted};
use crate::buckets_line::{BucketNames, BucketsPage, buckets_line};
use crate::inquiry::{About, After};
use crate::lawful_line::{breach_line, clean_line};
use crate::line::Next;
use crate::page_line::page_line;
use crate::service::Service;
use crate::status_line::{Status, status_line};
use std::alloc::{AllocError, Global};
use std::io::Write;
use vault_base::moment::Moment;
use vault_base::name::BucketName;
use vault_base::refusal::Refusal;
use vault_core_checks::caller::find_administrator;
use vault_core_evidence::walk::{JudgedPart, lawful_part};
use vault_core_model::halt::{Fault, Halt};
use vault_core_model::keeper::Keeper;
use vault_core_model::reply::{Answer, Reply};
use vault_files_events::page::{TextPage, events_page};
use vault_files_events::register_page::register_page;
use vault_io::writing::write_bytes;
use vault_lines_reply::reply_line::reply_line;
use vaultctl_replay::ReplayFault;

/// What is answered to what only this door has.
#[derive(Drop)]
pub enum Found {
    /// The server ends.
    End,
    /// How the vault and its server are.
    Status(Status),
    /// The names of some buckets.
    Buckets(BucketsPage),
    /// A part of a text: what happened to some entries, or which of them were removed.
    Page(TextPage),
    /// Whether some entries keep the rules.
    Judged(JudgedPart),
}

/// How many names of buckets one line has at most.
const MOST_NAMES: usize = 1_000;

/// How many names are read for one line: one more than it has shows that there are more.
const NAMES_READ: u32 = 1_001;

/// How the vault is, whose device failed that often, and its server, which began at that moment.
fn find_status<K: Keeper>(
    keeper: &mut K,
    failures: u64,
    since: Option<Moment>,
) -> Result<Found, Halt>
    ensures found { K.is_honest keeper.new → ChecksAs result (Ok (Found.Status (status_of (K.vault keeper.old) failures since))) }
    ensures leaves { LeavesSame K.Kept keeper.old keeper.new (is_device result) }
{
    let last = keeper.last()?;
    let next = keeper.next_id()?;
    Ok(Found::Status(Status {
        entries: next.saturating_sub(1),
        failures,
        last,
        since,
    }))
}

/// The first names, and whether names after them were left out.
fn cut_names(names: Vec<BucketName>) -> BucketsPage
    ensures { result ≡ spec.first_names names.items }
{
    let mut names = names;
    let more = names.len() > MOST_NAMES;
    names.truncate(MOST_NAMES);
    BucketsPage {
        names: BucketNames::new(names),
        more,
    }
}

/// The names of the first buckets after that text.
#[tactic(auto, using(crate::proofs::NamesLemmas::names_of))]
fn find_buckets<K: Keeper>(keeper: &mut K, after: &After) -> Result<Found, Halt>
    ensures found { K.is_honest keeper.new → ChecksAs result (Ok (Found.Buckets (buckets_page (K.vault keeper.old) after.now))) }
    ensures leaves { LeavesSame K.Kept keeper.old keeper.new (is_device result) }
{
    let names = keeper.buckets(after.as_str(), NAMES_READ)?;
    Ok(Found::Buckets(cut_names(names)))
}

/// What a caller asks for who may administer, of a server.
///
/// ClockBack; AccessDenied `unknown-caller`; AccessDenied `admin`; and the refusals of what is asked for.
fn find<K: Keeper>(
    alloc: Global,
    keeper: &mut K,
    since: Option<Moment>,
    asked: &DoorRequest,
) -> Result<Found, Halt>
    ensures found { K.is_honest keeper.new → ChecksAs result (spec.judged (K.vault keeper.old) (K.count keeper.old) since asked.now) }
    ensures leaves { LeavesSame K.Kept keeper.old keeper.new (is_device result) }
{
    let failures = keeper.faults();
    drop(find_administrator(keeper, asked.at, &asked.who)?);
    match &asked.what {
        Wanted::End => Ok(Found::End),
        Wanted::About(About::Status) => find_status(keeper, failures, since),
        Wanted::About(About::Buckets(after)) => find_buckets(keeper, after),
        Wanted::About(About::Events(part)) => {
            let page = events_page(alloc, keeper, part.after, part.before)?;
            Ok(Found::Page(page))
        }
        Wanted::About(About::Register(after)) => {
            Ok(Found::Page(register_page(alloc, keeper, *after)?))
        }
        Wanted::About(About::Lawful(after)) => {
            Ok(Found::Judged(lawful_part(alloc, keeper, *after)?))
        }
    }
}

/// What is answered, where that was found: a fault of the keeper is a refusal.
fn stated(found: Result<Found, Halt>) -> Result<Found, Refusal>
    ensures answers { (judged : AnyResult AnyFound AnyRefusal) → ChecksAs found judged → spec.StatedAs result judged }
    ensures failed { spec.is_device_stated result ≡ is_device found }
{
    match found {
        Ok(found) => Ok(found),
        Err(Halt::Refused(refusal)) => Err(refusal),
        Err(Halt::Fault(Fault::Memory)) => Err(Refusal::Memory),
        Err(Halt::Fault(Fault::Device)) => Err(Refusal::Device),
    }
}

/// The line of a reply. The error is out of memory.
fn line_of(alloc: Global, reply: Reply) -> Result<String, AllocError>
    ensures { IfOk result (λ text. string_bytes text ≡ reply_text reply) }
{
    let line = reply_line(alloc, &reply);
    drop(reply);
    line
}

/// The line of a part of a text, which is text throughout. The error is out of memory.
fn text_line(alloc: Global, page: &TextPage) -> Result<String, AllocError>
    ensures { IfOk result (λ line. string_bytes line ≡ page_line_text page.now.text page.now.next) }
{
    match str::from_utf8(page.text.as_slice()) {
        Ok(text) => page_line(alloc, text, page.next),
        Err(_) => Err(AllocError),
    }
}

/// The line of a judgement. The error is out of memory.
fn judged_line(alloc: Global, part: &JudgedPart) -> Result<String, AllocError>
    ensures { IfOk result (λ line. string_bytes line ≡ spec.judged_text part.now.breach part.now.next) }
{
    match part.breach {
        None => clean_line(alloc, part.next),
        Some(breach) => breach_line(alloc, breach.id, breach.law.name(), part.next),
    }
}

/// The line of what is answered. The error is out of memory.
fn stated_line(
    alloc: Global,
    version: &str,
    stated: &Result<Found, Refusal>,
) -> Result<String, AllocError>
    ensures { IfOk result (λ text. string_bytes text ≡ stated_text version.now stated.now) }
{
    match stated {
        Ok(Found::End) => line_of(alloc, Reply::Done(Answer::Nothing)),
        Ok(Found::Status(status)) => status_line(alloc, version, status),
        Ok(Found::Buckets(page)) => buckets_line(alloc, page),
        Ok(Found::Page(page)) => text_line(alloc, page),
        Ok(Found::Judged(part)) => judged_line(alloc, part),
        Err(refusal) => line_of(alloc, Reply::Refused(*refusal)),
    }
}

/// Writes the line of what is answered. `Write` comes where the writer fails, and `Memory` where room was refused.
fn write_stated<W: Write>(
    alloc: Global,
    writer: &mut W,
    version: &str,
    stated: &Result<Found, Refusal>,
) -> Result<(), ReplayFault>
    ensures begun { Begins (W.contents writer.old) (W.contents writer.new) (stated_text version.now stated.now) }
    ensures whole { OnOk result (Appends (W.contents writer.old) (W.contents writer.new) (stated_text version.now stated.now)) }
{
    let Ok(line) = stated_line(alloc, version, stated) else {
        return Err(ReplayFault::Memory);
    };
    match write_bytes(writer, line.as_bytes()) {
        Ok(()) => Ok(()),
        Err(_) => Err(ReplayFault::Write),
    }
}

/// Whether the server ends.
fn is_end(stated: &Result<Found, Refusal>) -> bool
    ensures { result ≡ spec.is_end stated.now }
{
    match stated {
        Ok(Found::End) => true,
        Ok(Found::Status(_)) => false,
        Ok(Found::Buckets(_)) => false,
        Ok(Found::Page(_)) => false,
        Ok(Found::Judged(_)) => false,
        Err(_) => false,
    }
}

/// Answers what only this door has: where a caller asks for the end who may, the server ends, also where the reply
/// isn't taken. The faults are those of `write_stated`.
pub fn give<W: Write, K: Keeper>(
    service: &Service,
    writer: &mut W,
    keeper: &mut K,
    asked: &DoorRequest,
) -> Result<Next, ReplayFault>
    ensures ok { IfOk result (λ next. Given (Written next (W.contents writer.old) (W.contents writer.new)) (standing K.Kept keeper.old) (standing K.Kept keeper.new) service.now asked.now) }
    ensures err { OnErr result (Given (Begins (W.contents writer.old) (W.contents writer.new)) (standing K.Kept keeper.old) (standing K.Kept keeper.new) service.now asked.now) }
    ensures end { result ≡ Ok Next.End → K.is_honest keeper.new → (asked.now.what ≡ Wanted.End) × IsOk (administrator (K.vault keeper.new) asked.now.at asked.now.who) }
    ensures leaves { LeavesNoLess K.Kept keeper.old keeper.new }
{
    let found = find(service.alloc, keeper, service.since, asked);
    let answer = stated(found);
    let written = write_stated(service.alloc, writer, service.version, &answer);
    let ends = is_end(&answer);
    drop(answer);
    if ends {
        return Ok(Next::End);
    }
    match written {
        Ok(()) => Ok(Next::On),
        Err(fault) => Err(fault),
    }
}
