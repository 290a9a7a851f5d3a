//! Lines that ask about a vault, read.
ghost use Rattle.serde_json.specs.View.{view};
ghost use Rattle.std.specs.Prelude.{◌≡◌, IfOk};
ghost use Rattle.vault_values.specs.Fault.{Gives};
ghost use Rattle.vault_lines_read.specs.ReadLine.{without_cr};
ghost use Rattle.vault_lines_read.specs.Stamped.{clock_of};
ghost use Rattle.vaultctl_serve_lines_answers.specs.Inquiry as spec;

use serde_json::Value;
use std::alloc::{AllocError, Global};
use std::marker::Model;
use vault_base::limits::LONGEST_LINE;
use vault_base::moment::Moment;
use vault_base::name::CallerName;
use vault_base::refusal::Refusal;
use vault_lines_json::document::document;
use vault_lines_json::members::{optional_text_of, text_of};
use vault_lines_json::shape::{Kind, has_members};
use vault_lines_json::values::{asker, optional_number_of};
use vault_values::fault::LineFault;

/// What a line asks about, by whom, and at which reading.
#[derive(Drop)]
pub struct Inquiry {
    pub at: Moment,
    pub who: CallerName,
    pub about: About,
}

/// What is asked about.
#[derive(Drop)]
pub enum About {
    /// How the vault and its server are.
    Status,
    /// The names of buckets after that text.
    Buckets(After),
    /// What happened to some of its entries.
    Events(Part),
    /// Which of the entries after that id were removed.
    Register(u32),
    /// Whether the entries after that id keep the rules.
    Lawful(u32),
}

/// A text after which names come.
#[derive(Drop)]
pub struct After {
    text: String,
}

impl Model for After {
    ghost use Rattle.std.specs.Prelude.{ℕ, List};
    ghost use Rattle.std.specs.String.{string_bytes};

    ghost Value = { List ℕ };

    ghost view = { λ a. string_bytes a.text };
}

impl After {
    /// The names after that text, of which each comes after the empty one. The error is out of memory.
    pub fn new(alloc: Global, text: &str) -> Result<After, AllocError>
        ensures { IfOk result (λ after. after ≡ text.now) }
    {
        Ok(After {
            text: String::from_str(alloc, text)?,
        })
    }

    /// The text.
    pub fn as_str(&self) -> &str
        ensures { result.now ≡ self.now }
    {
        self.text.as_str()
    }
}

/// A part of all that happened.
#[derive(Clone, Copy, PartialEq, Eq)]
pub struct Part {
    /// The id after which it begins.
    pub after: u32,
    /// The moment before which it happened.
    pub before: Moment,
}

/// The shape of a line that asks about a vault.
#[derive(Clone, Copy, Debug, PartialEq, Eq)]
pub enum Shape {
    Status,
    Buckets,
    Events,
    Register,
    Lawful,
}

/// The members of the line that asks how things are: the caller who asks, and `do`.
const STATUS: [(&str, Kind); 2] = [("as", Kind::Text), ("do", Kind::Text)];

/// The members of the line that asks for the names of buckets: these, and the text after which they come.
const BUCKETS: [(&str, Kind); 3] = [
    ("as", Kind::Text),
    ("do", Kind::Text),
    ("after", Kind::OptionalText),
];

/// The members of the line that asks what happened: these, and which part.
const EVENTS: [(&str, Kind); 4] = [
    ("as", Kind::Text),
    ("do", Kind::Text),
    ("before", Kind::Text),
    ("after", Kind::OptionalNumber),
];

/// The members of a line that asks for a part of the register, or for a judgement of a part: the caller, `do`, and the id
/// after which the part begins.
const PART: [(&str, Kind); 3] = [
    ("as", Kind::Text),
    ("do", Kind::Text),
    ("after", Kind::OptionalNumber),
];

/// The shape of the line of that `do`, where the value has it.
fn shape_named(name: &str, value: &Value) -> Result<Shape, LineFault>
    ensures { Gives (λ x. x) result (spec.shape_named name.now (view value.now)) }
{
    if name == "status" && has_members(value, &STATUS) {
        Ok(Shape::Status)
    } else if name == "buckets" && has_members(value, &BUCKETS) {
        Ok(Shape::Buckets)
    } else if name == "events" && has_members(value, &EVENTS) {
        Ok(Shape::Events)
    } else if name == "register" && has_members(value, &PART) {
        Ok(Shape::Register)
    } else if name == "lawful" && has_members(value, &PART) {
        Ok(Shape::Lawful)
    } else {
        Err(LineFault::Refused(Refusal::MalformedBody))
    }
}

#[tactic(auto, unfolding(crate::specs::Inquiry::shape_of))]
fn asked_shape(value: &Value) -> Result<Shape, LineFault>
    ensures { Gives (λ x. x) result (spec.shape_of (view value.now)) }
{
    let name = text_of("do", value)?;
    shape_named(name, value)
}

/// The text after which names come; the empty one where none is given.
#[tactic(auto, unfolding(crate::specs::Inquiry::text_after_of))]
fn text_after(alloc: Global, value: &Value) -> Result<After, LineFault>
    ensures { Gives (λ x. x) result (spec.text_after_of (view value.now)) }
{
    let Some(text) = optional_text_of("after", value)? else {
        return Ok(After::new(alloc, "")?);
    };
    Ok(After::new(alloc, text)?)
}

#[tactic(auto, unfolding(crate::specs::Inquiry::buckets_of))]
fn buckets(alloc: Global, value: &Value) -> Result<About, LineFault>
    ensures { Gives (λ x. x) result (spec.buckets_of (view value.now)) }
{
    let after = text_after(alloc, value)?;
    Ok(About::Buckets(after))
}

fn moment_named(text: &str) -> Result<Moment, LineFault>
    ensures { Gives (λ x. x) result (spec.moment_named text.now) }
{
    match Moment::read(text) {
        Ok(moment) => Ok(moment),
        Err(_) => Err(LineFault::Refused(Refusal::InvalidArgument)),
    }
}

#[tactic(auto, unfolding(crate::specs::Inquiry::before_of))]
fn before(value: &Value) -> Result<Moment, LineFault>
    ensures { Gives (λ x. x) result (spec.before_of (view value.now)) }
{
    let text = text_of("before", value)?;
    moment_named(text)
}

#[tactic(auto, unfolding(crate::specs::Inquiry::id_after_of))]
fn id_after(value: &Value) -> Result<u32, LineFault>
    ensures { Gives (λ x. x) result (spec.id_after_of (view value.now)) }
{
    let number = optional_number_of("after", value)?;
    Ok(number.unwrap_or(0))
}

#[tactic(auto, unfolding(crate::specs::Inquiry::events_of))]
fn events(value: &Value) -> Result<About, LineFault>
    ensures { Gives (λ x. x) result (spec.events_of (view value.now)) }
{
    let before = before(value)?;
    let after = id_after(value)?;
    Ok(About::Events(Part { after, before }))
}

#[tactic(auto, unfolding(crate::specs::Inquiry::register_of))]
fn register(value: &Value) -> Result<About, LineFault>
    ensures { Gives (λ x. x) result (spec.register_of (view value.now)) }
{
    let after = id_after(value)?;
    Ok(About::Register(after))
}

#[tactic(auto, unfolding(crate::specs::Inquiry::lawful_of))]
fn lawful(value: &Value) -> Result<About, LineFault>
    ensures { Gives (λ x. x) result (spec.lawful_of (view value.now)) }
{
    let after = id_after(value)?;
    Ok(About::Lawful(after))
}

/// What a line of that shape asks about.
fn asked_about(alloc: Global, shape: Shape, value: &Value) -> Result<About, LineFault>
    ensures { Gives (λ x. x) result (spec.about_of shape (view value.now)) }
{
    match shape {
        Shape::Status => Ok(About::Status),
        Shape::Buckets => buckets(alloc, value),
        Shape::Events => events(value),
        Shape::Register => register(value),
        Shape::Lawful => lawful(value),
    }
}

/// The moment that the clock shows.
fn shown(moment: Option<Moment>) -> Result<Moment, LineFault>
    ensures { Gives (λ x. x) result (clock_of moment) }
{
    match moment {
        Some(at) => Ok(at),
        None => Err(LineFault::Refused(Refusal::ClockOutOfRange)),
    }
}

#[tactic(auto, unfolding(crate::specs::Inquiry::asked_of))]
fn asked(alloc: Global, value: &Value, moment: Option<Moment>) -> Result<Inquiry, LineFault>
    ensures { Gives (λ x. x) result (spec.asked_of moment (view value.now)) }
{
    let shape = asked_shape(value)?;
    let at = shown(moment)?;
    let who = asker(alloc, value)?;
    let about = asked_about(alloc, shape, value)?;
    Ok(Inquiry { at, who, about })
}

#[tactic(auto, unfolding(crate::specs::Inquiry::document_asked_of))]
fn document_asked(alloc: Global, bytes: &[u8], moment: Option<Moment>) -> Result<Inquiry, LineFault>
    ensures { Gives (λ x. x) result (spec.document_asked_of moment bytes.now) }
{
    let value = document(alloc, bytes)?;
    asked(alloc, &value, moment)
}

/// The line without a CR at its end.
fn trimmed(line: &[u8]) -> &[u8]
    ensures { result.now ≡ without_cr line.now }
{
    match line {
        [front @ .., b'\r'] => front,
        _ => line,
    }
}

/// What a line asks about, at the moment that the clock shows: the line as it stands before its LF, with a CR in front
/// of it or without.
///
/// A line that is longer than a line may be, or isn't a JSON object of just the members of such a line, is refused with
/// `MalformedBody`; then ClockOutOfRange comes where the clock shows no moment, and AccessDenied where `as` is no name
/// of a caller, and InvalidArgument where another value isn't allowed. `Memory` is out of memory.
#[tactic(auto, unfolding(crate::specs::Inquiry::inquiry_of))]
pub fn read_inquiry(
    alloc: Global,
    line: &[u8],
    moment: Option<Moment>,
) -> Result<Inquiry, LineFault>
    ensures { Gives (λ x. x) result (spec.inquiry_of moment line.now) }
{
    if line.len() > LONGEST_LINE {
        return Err(LineFault::Refused(Refusal::MalformedBody));
    }
    document_asked(alloc, trimmed(line), moment)
}
