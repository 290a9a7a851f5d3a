//! A refused line explained.
ghost use Rattle.std.specs.Prelude.{◌≡◌, IfOk, is_some};
ghost use Rattle.vault_lines_read.specs.ReadLine.{line_of};
ghost use Rattle.vault_lines_why.specs.Causes.{is_refused};

use crate::looks::{shape_words, value_words};
use crate::members::{Object, PARTS, line_of};
use crate::words::{Text, Words, no_command};
use serde_json::{Error, Value};
use std::alloc::{AllocError, Global};
use vault_base::limits::LONGEST_LINE;
use vault_base::refusal::Refusal;
use vault_lines_read::read_line::{Line, read_line};
use vault_lines_read::verb::Verb;

/// A line that is right.
const WHOLE: &str =
    "{\"at\":\"2024-01-15T10:30:00Z\",\"as\":\"ann\",\"do\":\"get\",\"bucket\":\"docs\",\"key\":\"2024/a\"}";

const BYTE_ORDER_MARK: &str =
    "a byte order mark stands in front of the object; save the script as UTF-8 without one";

/// The words for a text that isn't JSON.
fn text_words(alloc: Global, text: &str, error: &Error) -> Text {
    let column = error.column();
    if text.starts_with('\u{feff}') {
        String::from_str(alloc, BYTE_ORDER_MARK)
    } else if text.as_bytes().get(column.saturating_sub(1)) == Some(&b'\'') {
        format!(in alloc;
            "no JSON: there is a single quote at column {column}, and JSON has double quotes, as {WHOLE}"
        )
    } else if error.is_eof() {
        format!(in alloc;
            "no JSON: the line ends within its object, and each line has a whole object, as {WHOLE}"
        )
    } else {
        format!(in alloc;
            "no JSON: it breaks near column {column}, and each line has one whole object, as {WHOLE}"
        )
    }
}

/// What is looked at: first the shapes of all objects of a line, then their values.
#[derive(Clone, Copy)]
enum Pass {
    Shapes,
    Values,
}

/// The words for the first fault of an object.
fn object_words(alloc: Global, pass: Pass, object: &Object, value: &Value) -> Words {
    match pass {
        Pass::Shapes => shape_words(alloc, object, value),
        Pass::Values => value_words(alloc, object, value),
    }
}

/// The words for the first fault of a rule and its actions.
fn rule_words(alloc: Global, pass: Pass, rule: &Value) -> Words {
    for part in &PARTS {
        let is_action = part.objects.is_empty();
        let value = if is_action {
            rule.get(part.name)
        } else {
            Some(rule)
        };
        if let Some(value) = value {
            if let Some(words) = object_words(alloc, pass, part, value)? {
                return Ok(Some(words));
            }
        }
    }
    Ok(None)
}

/// Whether a rule of these has the id of this one.
fn has_id(rules: &[Value], rule: &Value) -> bool {
    let id = rule.get("ID").and_then(Value::as_str);
    rules
        .iter()
        .any(|other| other.get("ID").and_then(Value::as_str) == id)
}

/// The words for the first rule that is wrong by itself, or has the id of one before it.
fn rules_words(alloc: Global, pass: Pass, rules: &[Value]) -> Words {
    for (place, rule) in rules.iter().enumerate() {
        let number = place.saturating_add(1);
        if matches!(pass, Pass::Values) && has_id(&rules[..place], rule) {
            return Ok(Some(format!(in alloc;
                "rule {number}: an earlier rule has the same \"ID\""
            )?));
        }
        if let Some(words) = rule_words(alloc, pass, rule)? {
            let words = words.as_str();
            return Ok(Some(format!(in alloc; "rule {number}: {words}")?));
        }
    }
    Ok(None)
}

/// The words for the first fault of a line of a verb.
fn line_words(alloc: Global, pass: Pass, verb: Verb, value: &Value) -> Words {
    if let Some(words) = object_words(alloc, pass, &line_of(verb), value)? {
        return Ok(Some(words));
    }
    match value.get("rules").and_then(Value::as_array) {
        Some(rules) => rules_words(alloc, pass, rules.as_slice()),
        None => Ok(None),
    }
}

/// The words for a value that names no verb.
fn verbless_words(alloc: Global, value: &Value) -> Text {
    let words = match value.get("do") {
        _ if !value.is_object() => "a line has to be an object, in braces",
        None => "the line lacks the member \"do\", as \"do\":\"put\"",
        Some(member) => match member.as_str() {
            Some(name) => return no_command(alloc, name),
            None => "\"do\" has to be a text in double quotes, as \"do\":\"put\"",
        },
    };
    String::from_str(alloc, words)
}

/// The words for a value that is refused.
fn refused_words(alloc: Global, value: &Value, refusal: Refusal) -> Text {
    let verb = value.get("do").and_then(Value::as_str).and_then(Verb::read);
    let Some(verb) = verb else {
        return verbless_words(alloc, value);
    };
    if let Some(words) = line_words(alloc, Pass::Shapes, verb, value)? {
        return Ok(words);
    }
    match line_words(alloc, Pass::Values, verb, value)? {
        Some(words) => Ok(words),
        None => String::from_str(alloc, refusal.name()),
    }
}

/// The words for a line that is refused.
fn words(alloc: Global, line: &[u8], refusal: Refusal) -> Text {
    if line.len() > LONGEST_LINE {
        return String::from_str(alloc, "the line has more than 4,194,304 bytes");
    }
    let text = match std::str::from_utf8(line) {
        Ok(text) => text,
        Err(error) => {
            let byte = error.valid_up_to().saturating_add(1);
            return format!(in alloc; "the line isn't UTF-8: byte {byte} begins no character");
        }
    };
    match Value::from_str(alloc, text) {
        Ok(value) => refused_words(alloc, &value, refusal),
        Err(error) if error.is_memory() => Err(AllocError),
        Err(error) => text_words(alloc, text, &error),
    }
}

/// The refusal of a line, where it is refused.
fn refusal_of(asked: &Line) -> Option<Refusal>
    ensures { is_some result ≡ is_refused asked.now }
{
    match asked {
        Line::Refused(refusal) => Some(*refusal),
        Line::Skip | Line::Command(_) => None,
    }
}

/// Why a line is refused, in one line of words with an example of what is right; none where it isn't refused.
///
/// The line is what stands before its LF. The error is that memory is wanting.
pub fn explain_line(alloc: Global, line: &[u8]) -> Result<Option<String>, AllocError>
    // It has words for exactly the lines that `read_line` refuses.
    ensures { IfOk result (λ found. is_some found ≡ is_refused (line_of line.now)) }
{
    let Some(refusal) = refusal_of(&read_line(alloc, line)?) else {
        return Ok(None);
    };
    Ok(Some(words(alloc, line, refusal)?))
}
