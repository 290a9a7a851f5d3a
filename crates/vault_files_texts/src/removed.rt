//! What is said of a removed entry.
ghost use Rattle.std.specs.Prelude.{◌≡◌, ◌++◌, codes, IfOk, option_map, string_bytes};
ghost use Rattle.vault_files_texts.specs.Removed as spec;

use std::alloc::{AllocError, Global};
use vault_base::content::Digest;
use vault_base::moment::Moment;
use vault_core_model::records::{Author, Cause};

/// The hex digits of a digest, in lower case; empty where there is none. The error is out of memory.
pub fn digest_text(alloc: Global, digest: Option<&Digest>) -> Result<String, AllocError>
    ensures { IfOk result (λ text. string_bytes text ≡ spec.digest_text (option_map (λ d. d.now) digest.entry)) }
{
    let Some(digest) = digest else {
        return Ok(String::new(alloc));
    };
    hex::encode(alloc, digest.as_slice())
}

/// A caller's name, or `rule ID` for what a lifecycle run admitted. The error is out of memory.
pub fn author_text(alloc: Global, author: &Author) -> Result<String, AllocError>
    ensures { IfOk result (λ text. string_bytes text ≡ spec.author_text author.now) }
{
    match author {
        Author::Caller(caller) => String::from_str(alloc, caller.as_str()),
        Author::Rule(rule) => rule_text(alloc, rule.as_str()),
    }
}

fn rule_text(alloc: Global, rule: &str) -> Result<String, AllocError>
    ensures { IfOk result (λ text. string_bytes text ≡ codes "rule " ++ rule.now) }
{
    let mut text = String::from_str(alloc, "rule ")?;
    text.push_str(rule)?;
    Ok(text)
}

/// The kind of a removal: `request`, `bypass` or `rule`.
pub fn cause_kind(cause: &Cause) -> &'static str
    ensures { result.now ≡ spec.cause_kind cause.now }
{
    match cause {
        Cause::Request(_) => "request",
        Cause::Bypass(_) => "bypass",
        Cause::Rule(_) => "rule",
    }
}

/// The caller who asked for a removal, or the id of the rule that made it due.
pub fn cause_name(cause: &Cause) -> &str
    ensures { result.now ≡ spec.cause_name cause.now }
{
    match cause {
        Cause::Request(caller) => caller.as_str(),
        Cause::Bypass(caller) => caller.as_str(),
        Cause::Rule(rule) => rule.as_str(),
    }
}

/// The whole days from an admission to a removal: how many midnights in UTC lie between.
pub fn days_between(admitted: Moment, removed: Moment) -> u64
    ensures { result ≡ spec.days_between admitted removed }
{
    removed.day().saturating_sub(admitted.day())
}
