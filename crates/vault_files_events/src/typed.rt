//! What the types of an entry's values say of them.
ghost use Rattle.std.specs.Prelude.{◌≡◌, ◌⊎◌, length, IfSome, IsTrue};
ghost use Rattle.hex.specs.Hex.{IsBytes};
ghost use Rattle.vault_base.specs.Name.{is_plain_name, is_rule_id};
ghost use Rattle.vault_files_events.specs.Typed.{IsAuthor, IsTyped};
ghost use Rattle.vault_files_texts.specs.Removed.{cause_name};

use vault_base::content::Digest;
use vault_core_model::records::{Author, Cause, Entry, Removal};

fn author_is_typed(author: &Author)
    ensures { IsAuthor author.now }
{
    match author {
        Author::Caller(name) => {
            let _name = name.as_str();
        }
        Author::Rule(rule) => {
            let _rule = rule.as_str();
        }
    }
}

fn cause_is_typed(cause: &Cause)
    ensures { IsTrue (is_plain_name (cause_name cause.now)) ⊎ IsTrue (is_rule_id (cause_name cause.now)) }
{
    match cause {
        Cause::Request(name) | Cause::Bypass(name) => {
            let _name = name.as_str();
        }
        Cause::Rule(rule) => {
            let _rule = rule.as_str();
        }
    }
}

fn removal_is_typed(removal: &Option<Removal>)
    ensures { IfSome removal.now (λ r. IsTrue (is_plain_name (cause_name r.cause)) ⊎ IsTrue (is_rule_id (cause_name r.cause))) }
{
    if let Some(removal) = removal {
        cause_is_typed(&removal.cause);
    }
}

fn slice_is_of_bytes(bytes: &[u8])
    ensures { IsBytes bytes.now }
{}

fn digest_is_typed(digest: &Option<Digest>)
    ensures { IfSome digest.now (λ d. IsBytes d × (length d ≡ 32)) }
{
    if let Some(digest) = digest {
        slice_is_of_bytes(digest.as_slice());
    }
}

/// Each value of an entry is of its type: the id, the size and each name are in their limits, and the digest has 32 bytes.
/// So it is of each entry that a keeper hands out.
pub fn entry_is_typed(entry: &Entry)
    ensures { IsTyped entry.now }
{
    let _id = entry.id.number();
    let _bucket = entry.bucket.as_str();
    let _key = entry.key.as_str();
    let _size = entry.size;
    digest_is_typed(&entry.digest);
    author_is_typed(&entry.by);
    removal_is_typed(&entry.removal);
}
