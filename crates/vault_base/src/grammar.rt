//! The grammars of names: which texts are names of a kind, and why another text is no name.
ghost use Rattle.std.specs.Prelude.{◌≡◌, ℕ, List, Bool, IsTrue, false, Result, Ok, Err};
ghost use Rattle.std.proofs.Common.{rules};
ghost use Rattle.vault_base.specs.Name as spec;

use crate::name::NameFault;
use crate::spelling;

/// A kind of names, by the texts that it allows.
pub trait Grammar {
    ghost use Rattle.vault_base.specs.declared.name.NameFault.{NameFault};

    ghost allows: { List ℕ → Bool };

    ghost name_of: { List ℕ → Result (List ℕ) NameFault };

    /// Whether `text` is a name of this kind.
    fn is_allowed(text: &str) -> bool
        ensures { result ≡ allows text.now };

    /// Why `text` is no name of this kind.
    fn fault(text: &str) -> NameFault
        requires { allows text.now ≡ false }
        ensures { name_of text.now ≡ Err result };

    ghost reads_allowed: { (text : List ℕ) → IsTrue (allows text) → name_of text ≡ Ok text };
}

/// The names of buckets.
pub struct Bucket;

impl Grammar for Bucket {
    ghost allows = { spec.is_bucket_name };

    ghost name_of = { spec.bucket_name_of };

    fn is_allowed(text: &str) -> bool {
        spelling::is_bucket_name(text)
    }

    fn fault(text: &str) -> NameFault {
        NameFault::of_size(text.len(), 63)
    }

    ghost reads_allowed = { Prim.search rules };
}

/// The keys of objects.
pub struct Object;

impl Grammar for Object {
    ghost allows = { spec.is_object_key };

    ghost name_of = { spec.object_key_of };

    fn is_allowed(text: &str) -> bool {
        spelling::is_object_key(text)
    }

    fn fault(text: &str) -> NameFault {
        NameFault::of_size(text.len(), 1024)
    }

    ghost reads_allowed = { Prim.search rules };
}

/// The beginnings of keys.
pub struct Prefix;

impl Grammar for Prefix {
    ghost allows = { spec.is_key_prefix };

    ghost name_of = { spec.key_prefix_of };

    fn is_allowed(text: &str) -> bool {
        spelling::is_key_prefix(text)
    }

    fn fault(text: &str) -> NameFault {
        NameFault::of_size(text.len(), 1024)
    }

    ghost reads_allowed = { Prim.search rules };
}

/// The names of callers.
pub struct Caller;

impl Grammar for Caller {
    ghost allows = { spec.is_plain_name };

    ghost name_of = { spec.plain_name_of };

    fn is_allowed(text: &str) -> bool {
        spelling::is_plain_name(text)
    }

    fn fault(text: &str) -> NameFault {
        NameFault::of_size(text.len(), 64)
    }

    ghost reads_allowed = { Prim.search rules };
}

/// The names of departments.
pub struct Dept;

impl Grammar for Dept {
    ghost allows = { spec.is_plain_name };

    ghost name_of = { spec.plain_name_of };

    fn is_allowed(text: &str) -> bool {
        spelling::is_plain_name(text)
    }

    fn fault(text: &str) -> NameFault {
        NameFault::of_size(text.len(), 64)
    }

    ghost reads_allowed = { Prim.search rules };
}

/// The names of intake batches.
pub struct Batch;

impl Grammar for Batch {
    ghost allows = { spec.is_plain_name };

    ghost name_of = { spec.plain_name_of };

    fn is_allowed(text: &str) -> bool {
        spelling::is_plain_name(text)
    }

    fn fault(text: &str) -> NameFault {
        NameFault::of_size(text.len(), 64)
    }

    ghost reads_allowed = { Prim.search rules };
}

/// The ids of lifecycle rules.
pub struct Rule;

impl Grammar for Rule {
    ghost allows = { spec.is_rule_id };

    ghost name_of = { spec.rule_id_of };

    fn is_allowed(text: &str) -> bool {
        spelling::is_rule_id(text)
    }

    fn fault(text: &str) -> NameFault {
        NameFault::of_size(spelling::character_count(text), 255)
    }

    ghost reads_allowed = { Prim.search rules };
}
