//! The parameters of statements on entries: who admitted them, why they were removed, and their digests.
ghost use Rattle.std.specs.Prelude.{◌≡◌, length, pos, option_map, IfSome};
ghost use Rattle.sqlite_value.specs.declared.value.Value.TheVariants.{Text, Blob};
ghost use Rattle.sqlite.specs.Values.{or_null};
ghost use Rattle.vault_audit_model.specs.Limits.{IsAuthor, IsCause};
ghost use Rattle.vault_audit_model.specs.Rows.{author_kind, cause_number, cause_text, removal_by};
ghost use Rattle.vault_audit_model.specs.Values.{bytes_or_null, flag};
ghost use Rattle.vault_store_edits.specs.Author.{author_text};

use crate::parameters::seconds;
use vault_base::content::Digest;
use vault_core_model::records::{Author, Cause, Removal};

/// The bytes of a digest, if there is one.
pub fn digest_bytes(digest: &Option<Digest>) -> Option<&[u8]>
    ensures value { or_null (λ b. Blob b.now) result ≡ bytes_or_null digest.now }
    ensures limits { IfSome digest.now (λ d. length d ≡ 32) }
{
    match digest {
        Some(digest) => Some(digest.as_slice()),
        None => None,
    }
}

/// Whether a rule admitted the entry.
pub fn is_rule(author: &Author) -> bool
    ensures { flag result ≡ author_kind author.now }
{
    matches!(author, Author::Rule(_))
}

/// The caller's name or the rule's id.
pub fn author_text(author: &Author) -> &str
    ensures value { result.now ≡ author_text author.now }
    ensures limits { IsAuthor author.now }
{
    match author {
        Author::Caller(name) => name.as_str(),
        Author::Rule(id) => id.as_str(),
    }
}

/// The number of a cause.
pub fn cause_number(cause: &Cause) -> u32
    ensures { result ≡ cause_number cause.now }
{
    match cause {
        Cause::Request(_) => 0,
        Cause::Bypass(_) => 1,
        Cause::Rule(_) => 2,
    }
}

/// The caller's name or the rule's id in a cause.
pub fn cause_text(cause: &Cause) -> &str
    ensures value { result.now ≡ cause_text cause.now }
    ensures limits { IsCause cause.now }
{
    match cause {
        Cause::Request(name) => name.as_str(),
        Cause::Bypass(name) => name.as_str(),
        Cause::Rule(id) => id.as_str(),
    }
}

/// The moment of a removal, if there is one.
pub fn removal_at(removal: &Option<Removal>) -> Option<i64>
    ensures { result ≡ option_map (λ r. pos r.at) removal.now }
{
    match removal {
        Some(removal) => Some(seconds(removal.at)),
        None => None,
    }
}

/// The number of a removal's cause, if there is one.
pub fn removal_cause(removal: &Option<Removal>) -> Option<u32>
    ensures { result ≡ option_map (λ r. cause_number r.cause) removal.now }
{
    match removal {
        Some(removal) => Some(cause_number(&removal.cause)),
        None => None,
    }
}

/// Who caused a removal, if there is one.
pub fn removal_by(removal: &Option<Removal>) -> Option<&str>
    ensures { or_null (λ s. Text s.now) result ≡ removal_by removal.now }
{
    match removal {
        Some(removal) => Some(cause_text(&removal.cause)),
        None => None,
    }
}
