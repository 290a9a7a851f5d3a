//! Replies to lines.
ghost use Rattle.std.specs.Prelude.{◌≡◌, IfOk, OnOk, map, option_map, string_bytes};
ghost use Rattle.serde_json.specs.View.{view, members_view};
ghost use Rattle.vault_base.specs.declared.refusal.Refusal.TheVariants.{AccessDenied, NoSuchKey};
ghost use Rattle.vault_core_model.specs.declared.reply.Answer.TheVariants as answer;
ghost use Rattle.vault_lines_reply.specs.Putting.{put_held};
ghost use Rattle.vault_lines_reply.specs.ReplyLine as spec;

use crate::object::{Plain, object_of, plain_object, put_plain};
use crate::rule_value::rules_value;
use serde_json::{Map, Value, json, put};
use std::alloc::{AllocError, Global};
use vault_base::content::{Content, Digest};
use vault_base::name::VersionId;
use vault_base::refusal::{Reason, Refusal};
use vault_core_model::records::{Entry, Tenure};
use vault_core_model::reply::{
    Answer, Counts, Listed, Page, Removed, Reply, Report, Stop, TakenIn, Version,
};
use vault_files_texts::certificate::certificate;
use vault_lock::lock::Permit;
use vault_lock::retention::{Default, Mode, Period, Retention};
use vault_values::words::{hold_name, mode_name};

fn cause_name(permit: Permit) -> &'static str
    ensures { result.now ≡ spec.cause_name permit }
{
    match permit {
        Permit::Free => "request",
        Permit::Bypass => "bypass",
    }
}

fn retention_value(alloc: Global, retention: Option<Retention>) -> Result<Value, AllocError>
    ensures { IfOk result (λ value. view value ≡ spec.retention_value retention) }
{
    let Some(retention) = retention else {
        return Ok(Value::Null);
    };
    let until = retention.until.text(alloc)?;
    retention_members(alloc, retention.mode, until.as_str())
}

/// The members of a retention whose text is made.
fn retention_members(alloc: Global, mode: Mode, until: &str) -> Result<Value, AllocError>
    ensures { IfOk result (λ value. view value ≡ spec.retention_members mode until.now) }
{
    plain_object(
        alloc,
        &[
            ("mode", Plain::Text(mode_name(mode))),
            ("until", Plain::Text(until)),
        ],
    )
}

fn digest_value(alloc: Global, digest: Option<&Digest>) -> Result<Value, AllocError>
    ensures { IfOk result (λ value. view value ≡ spec.digest_value (option_map (λ d. d.now) digest.entry)) }
{
    let Some(digest) = digest else {
        return Ok(Value::Null);
    };
    let digits = hex::encode(alloc, digest.as_slice())?;
    json!(in alloc; digits.as_str())
}

/// Puts in what is said of a version whether its bytes are printed or not.
fn put_held(
    members: &mut Map<String, Value>,
    alloc: Global,
    version: &Version,
) -> Result<(), AllocError>
    ensures { OnOk result (members_view members.new.entries ≡ put_held version.now (members_view members.old.entries)) }
{
    let entry = &version.entry;
    put_plain(
        members,
        alloc,
        &[
            ("hold", Plain::Text(hold_name(version.lock.hold))),
            ("size", Plain::Whole(entry.size)),
            ("version_id", Plain::Whole(u64::from(entry.id.number()))),
        ],
    )?;
    let retention = retention_value(alloc, version.lock.retention)?;
    put(members, alloc, "retention", retention)?;
    let sha256 = digest_value(alloc, entry.digest.as_ref())?;
    put(members, alloc, "sha256", sha256)
}

fn version_value(alloc: Global, version: &Version, content: &Content) -> Result<Value, AllocError>
    ensures { IfOk result (λ value. view value ≡ spec.version_value version.now content.now) }
{
    let admitted = version.entry.admitted.text(alloc)?;
    match content {
        Content::Inside(bytes) => {
            let digits = hex::encode(alloc, bytes.as_slice())?;
            version_texts(alloc, version, admitted.as_str(), digits.as_str())
        }
        Content::External(_) => external_texts(alloc, version, admitted.as_str()),
    }
}

/// A version whose texts are made.
fn version_texts<'a>(
    alloc: Global,
    version: &Version,
    admitted: &'a str,
    digits: &'a str,
) -> Result<Value, AllocError>
    ensures { IfOk result (λ value. view value ≡ spec.version_texts version.now admitted.now digits.now) }
{
    let mut members = Map::new(alloc);
    let texts = [
        ("admitted", Plain::Text(admitted)),
        ("hex", Plain::Text(digits)),
    ];
    put_plain(&mut members, alloc, &texts)?;
    put_held(&mut members, alloc, version)?;
    Ok(Value::Object(members))
}

/// A version whose bytes are kept outside, and whose text is made.
fn external_texts(alloc: Global, version: &Version, admitted: &str) -> Result<Value, AllocError>
    ensures { IfOk result (λ value. view value ≡ spec.external_texts version.now admitted.now) }
{
    let mut members = Map::new(alloc);
    let plain = [
        ("admitted", Plain::Text(admitted)),
        ("external", Plain::Flag(true)),
    ];
    put_plain(&mut members, alloc, &plain)?;
    put_held(&mut members, alloc, version)?;
    Ok(Value::Object(members))
}

fn head_value(alloc: Global, version: &Version) -> Result<Value, AllocError>
    ensures { IfOk result (λ value. view value ≡ spec.head_value version.now) }
{
    let admitted = version.entry.admitted.text(alloc)?;
    head_texts(alloc, version, admitted.as_str())
}

/// A head whose text is made.
fn head_texts(alloc: Global, version: &Version, admitted: &str) -> Result<Value, AllocError>
    ensures { IfOk result (λ value. view value ≡ spec.head_texts version.now admitted.now) }
{
    let mut members = Map::new(alloc);
    put_plain(&mut members, alloc, &[("admitted", Plain::Text(admitted))])?;
    put_held(&mut members, alloc, version)?;
    Ok(Value::Object(members))
}

fn period_value(alloc: Global, mode: Mode, period: Period) -> Result<Value, AllocError>
    ensures { IfOk result (λ value. view value ≡ spec.period_value mode period) }
{
    let mode = ("mode", Plain::Text(mode_name(mode)));
    match period {
        Period::Days(days) => plain_object(alloc, &[mode, ("days", Plain::Whole(u64::from(days)))]),
        Period::Years(years) => {
            plain_object(alloc, &[mode, ("years", Plain::Whole(u64::from(years)))])
        }
    }
}

fn default_value(alloc: Global, default: Option<Default>) -> Result<Value, AllocError>
    ensures { IfOk result (λ value. view value ≡ spec.default_value default) }
{
    let Some(default) = default else {
        return Ok(Value::Null);
    };
    period_value(alloc, default.mode, default.period)
}

fn removed_value(alloc: Global, removed: Removed) -> Result<Value, AllocError>
    ensures { IfOk result (λ value. view value ≡ spec.removed_value removed) }
{
    plain_object(
        alloc,
        &[
            ("cause", Plain::Text(cause_name(removed.permit))),
            ("delete_marker", Plain::Flag(removed.marker)),
            ("version_id", Plain::Whole(u64::from(removed.id.number()))),
        ],
    )
}

fn report_value(alloc: Global, report: &Report) -> Result<Value, AllocError>
    ensures { IfOk result (λ value. view value ≡ spec.report_value report.now) }
{
    let at = report.at.text(alloc)?;
    report_members(alloc, report, at.as_str())
}

/// The members of a report whose text is made.
fn report_members<'a>(alloc: Global, report: &'a Report, at: &'a str) -> Result<Value, AllocError>
    ensures { IfOk result (λ value. view value ≡ spec.report_members report.now at.now) }
{
    plain_object(
        alloc,
        &[
            ("admitted", Plain::Whole(report.admitted)),
            ("at", Plain::Text(at)),
            ("byte_days", Plain::Whole(report.byte_days)),
            ("dept", Plain::Text(report.dept.as_str())),
            ("handed", Plain::Whole(report.handed)),
            ("held", Plain::Whole(report.held)),
            ("received", Plain::Whole(report.received)),
            ("removed", Plain::Whole(report.removed)),
        ],
    )
}

fn listed_value(alloc: Global, listed: &Listed) -> Result<Value, AllocError>
    ensures { IfOk result (λ value. view value ≡ spec.listed_value listed.now) }
{
    let admitted = listed.entry.admitted.text(alloc)?;
    listed_members(alloc, listed, admitted.as_str())
}

/// The members of a listed entry whose text is made.
fn listed_members<'a>(
    alloc: Global,
    listed: &'a Listed,
    admitted: &'a str,
) -> Result<Value, AllocError>
    ensures { IfOk result (λ value. view value ≡ spec.listed_members listed.now admitted.now) }
{
    let entry = &listed.entry;
    plain_object(
        alloc,
        &[
            ("admitted", Plain::Text(admitted)),
            ("current", Plain::Flag(listed.current)),
            ("delete_marker", Plain::Flag(entry.marker)),
            ("key", Plain::Text(entry.key.as_str())),
            ("size", Plain::Whole(entry.size)),
            ("version_id", Plain::Whole(u64::from(entry.id.number()))),
        ],
    )
}

fn listed_values(alloc: Global, entries: &[Listed]) -> Result<Vec<Value>, AllocError>
    ensures { IfOk result (λ list. map view list.items ≡ map spec.listed_value entries.now) }
{
    let mut list = Vec::new(alloc);
    for listed in entries {
        list.push(listed_value(alloc, listed)?)?;
    }
    Ok(list)
}

fn page_value(alloc: Global, page: &Page) -> Result<Value, AllocError>
    ensures { IfOk result (λ value. view value ≡ spec.page_value page.now) }
{
    let list = Value::Array(listed_values(alloc, page.entries.as_slice())?);
    let mut members = Map::new(alloc);
    put(&mut members, alloc, "entries", list)?;
    put_plain(&mut members, alloc, &[("more", Plain::Flag(page.more))])?;
    Ok(Value::Object(members))
}

fn counts_value(alloc: Global, counts: Counts) -> Result<Value, AllocError>
    ensures { IfOk result (λ value. view value ≡ spec.counts_value counts) }
{
    plain_object(
        alloc,
        &[
            ("changes", Plain::Whole(counts.changes)),
            ("lone", Plain::Whole(counts.lone)),
            ("marked", Plain::Whole(counts.marked)),
            ("removed", Plain::Whole(counts.removed)),
        ],
    )
}

fn taken_in_value(alloc: Global, taken: TakenIn) -> Result<Value, AllocError>
    ensures { IfOk result (λ value. view value ≡ spec.taken_in_value taken) }
{
    plain_object(
        alloc,
        &[
            ("again", Plain::Flag(taken.again)),
            ("version_id", Plain::Whole(u64::from(taken.id.number()))),
        ],
    )
}

fn certificate_value(alloc: Global, entry: &Entry, tenures: &[Tenure]) -> Result<Value, AllocError>
    ensures { IfOk result (λ value. view value ≡ spec.certificate_value entry.now tenures.now) }
{
    let text = certificate(alloc, entry, tenures)?;
    text_member(alloc, text.as_str())
}

fn text_member(alloc: Global, text: &str) -> Result<Value, AllocError>
    ensures { IfOk result (λ value. view value ≡ spec.text_member text.now) }
{
    plain_object(alloc, &[("text", Plain::Text(text))])
}

fn moved_value(alloc: Global, bytes: u64) -> Result<Value, AllocError>
    ensures { IfOk result (λ value. view value ≡ spec.moved_value bytes) }
{
    plain_object(alloc, &[("bytes", Plain::Whole(bytes))])
}

fn default_answer(alloc: Global, default: Option<Default>) -> Result<Value, AllocError>
    ensures { IfOk result (λ value. view value ≡ spec.answer_value (answer.Default default)) }
{
    let default = default_value(alloc, default)?;
    object_of(alloc, "default", default)
}

fn admitted_value(alloc: Global, id: VersionId) -> Result<Value, AllocError>
    ensures { IfOk result (λ value. view value ≡ spec.answer_value (answer.Admitted id)) }
{
    plain_object(
        alloc,
        &[("version_id", Plain::Whole(u64::from(id.number())))],
    )
}

fn marked_value(alloc: Global, id: VersionId) -> Result<Value, AllocError>
    ensures { IfOk result (λ value. view value ≡ spec.answer_value (answer.Marked id)) }
{
    plain_object(
        alloc,
        &[
            ("delete_marker", Plain::Flag(true)),
            ("version_id", Plain::Whole(u64::from(id.number()))),
        ],
    )
}

fn retention_answer(alloc: Global, retention: Option<Retention>) -> Result<Value, AllocError>
    ensures { IfOk result (λ value. view value ≡ spec.answer_value (answer.Retention retention)) }
{
    let retention = retention_value(alloc, retention)?;
    object_of(alloc, "retention", retention)
}

fn hold_value(alloc: Global, hold: bool) -> Result<Value, AllocError>
    ensures { IfOk result (λ value. view value ≡ spec.answer_value (answer.Hold hold)) }
{
    plain_object(alloc, &[("hold", Plain::Text(hold_name(hold)))])
}

fn answer_value(alloc: Global, answer: &Answer) -> Result<Value, AllocError>
    ensures { IfOk result (λ value. view value ≡ spec.answer_value answer.now) }
{
    match answer {
        Answer::Nothing => Ok(Value::Object(Map::new(alloc))),
        Answer::Default(default) => default_answer(alloc, *default),
        Answer::Rules(rules) => rules_value(alloc, rules),
        Answer::Admitted(id) => admitted_value(alloc, *id),
        Answer::Version(version, content) => version_value(alloc, version, content),
        Answer::Head(version) => head_value(alloc, version),
        Answer::Versions(page) => page_value(alloc, page),
        Answer::Marked(id) => marked_value(alloc, *id),
        Answer::Removed(removed) => removed_value(alloc, *removed),
        Answer::Retention(retention) => retention_answer(alloc, *retention),
        Answer::Hold(hold) => hold_value(alloc, *hold),
        Answer::Ran(counts) => counts_value(alloc, *counts),
        Answer::Report(report) => report_value(alloc, report),
        Answer::Certificate(entry, tenures) => certificate_value(alloc, entry, tenures.as_slice()),
        Answer::Moved(bytes) => moved_value(alloc, *bytes),
        Answer::TakenIn(taken) => taken_in_value(alloc, *taken),
    }
}

fn denied_value(alloc: Global, reason: Reason) -> Result<Value, AllocError>
    ensures { IfOk result (λ value. view value ≡ spec.refusal_value (AccessDenied reason)) }
{
    let refusal = Refusal::AccessDenied(reason);
    plain_object(
        alloc,
        &[
            ("code", Plain::Text(refusal.name())),
            ("n", Plain::Whole(u64::from(refusal.number()))),
            ("reason", Plain::Text(reason.name())),
        ],
    )
}

fn no_key_value(alloc: Global, marker: bool) -> Result<Value, AllocError>
    ensures { IfOk result (λ value. view value ≡ spec.refusal_value (NoSuchKey marker)) }
{
    let refusal = Refusal::NoSuchKey(marker);
    plain_object(
        alloc,
        &[
            ("code", Plain::Text(refusal.name())),
            ("marker", Plain::Flag(marker)),
            ("n", Plain::Whole(u64::from(refusal.number()))),
        ],
    )
}

fn numbered_value(alloc: Global, refusal: Refusal) -> Result<Value, AllocError>
    ensures { IfOk result (λ value. view value ≡ spec.numbered_value refusal) }
{
    plain_object(
        alloc,
        &[
            ("code", Plain::Text(refusal.name())),
            ("n", Plain::Whole(u64::from(refusal.number()))),
        ],
    )
}

fn refusal_value(alloc: Global, refusal: Refusal) -> Result<Value, AllocError>
    ensures { IfOk result (λ value. view value ≡ spec.refusal_value refusal) }
{
    match refusal {
        Refusal::AccessDenied(reason) => denied_value(alloc, reason),
        Refusal::NoSuchKey(marker) => no_key_value(alloc, marker),
        _ => numbered_value(alloc, refusal),
    }
}

fn stop_name(stop: Stop) -> &'static str
    ensures { result.now ≡ spec.stop_name stop }
{
    match stop {
        Stop::Memory => "Memory",
        Stop::Device => "Device",
        Stop::VaultFull => "VaultFull",
    }
}

fn stopped_value(alloc: Global, changes: u64, stop: Stop) -> Result<Value, AllocError>
    ensures { IfOk result (λ value. view value ≡ spec.stopped_value changes stop) }
{
    plain_object(
        alloc,
        &[
            ("changes", Plain::Whole(changes)),
            ("fault", Plain::Text(stop_name(stop))),
        ],
    )
}

fn reply_value(alloc: Global, reply: &Reply) -> Result<Value, AllocError>
    ensures { IfOk result (λ value. view value ≡ spec.reply_value reply.now) }
{
    match reply {
        Reply::Done(answer) => {
            let answer = answer_value(alloc, answer)?;
            object_of(alloc, "ok", answer)
        }
        Reply::Refused(refusal) => {
            let error = refusal_value(alloc, *refusal)?;
            object_of(alloc, "error", error)
        }
        Reply::Stopped(changes, stop) => {
            let stopped = stopped_value(alloc, *changes, *stop)?;
            object_of(alloc, "stopped", stopped)
        }
    }
}

/// The line of a reply, with its LF: compact JSON, members in the order of their names' bytes.
///
/// Digests and bytes are printed as hex digits in lower case, moments as `YYYY-MM-DDTHH:MM:SSZ`.
#[tactic(auto, unfolding(crate::specs::ReplyLine::reply_text))]
pub fn reply_line(alloc: Global, reply: &Reply) -> Result<String, AllocError>
    ensures { IfOk result (λ text. string_bytes text ≡ spec.reply_text reply.now) }
{
    let value = reply_value(alloc, reply)?;
    let mut line = value.to_string(alloc)?;
    line.push_str("\n")?;
    Ok(line)
}
