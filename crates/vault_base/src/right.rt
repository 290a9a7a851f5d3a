//! What a caller may do.
ghost use Rattle.std.specs.Prelude.{◌≡◌, find};
ghost use Rattle.std.specs.Option.{option_copied};
ghost use Rattle.std.specs.Str.{bytes_eq};
ghost use Rattle.vault_base.specs.Right.{right_name};

/// What a caller may do.
#[derive(Clone, Copy, Debug, PartialEq, Eq)]
pub enum Right {
    /// Add departments, callers and buckets, and close callers.
    Admin,
    /// Set a bucket's default retention and rules.
    Config,
    /// Put content.
    Put,
    /// Set a version's retention.
    Retain,
    /// Set and lift legal holds.
    Hold,
    /// Read content.
    Get,
    /// List versions.
    List,
    /// Put a delete marker on a key.
    Delete,
    /// Remove a version.
    DeleteVersion,
    /// Run a bucket's lifecycle rules.
    Run,
    /// Report on a department.
    Report,
    /// Bypass governance retention.
    Bypass,
}

impl Right {
    ghost use Rattle.std.specs.Prelude.{◌≡◌, ◌++◌, codes};
    ghost use Rattle.vault_base.specs.Right.{right_name, right_of};

    /// Every right, in the order in which lines name them and numbers have their digits: a new one comes last.
    pub const ALL: [Right; 12] = [
        Right::Admin,
        Right::Config,
        Right::Put,
        Right::Retain,
        Right::Hold,
        Right::Get,
        Right::List,
        Right::Delete,
        Right::DeleteVersion,
        Right::Run,
        Right::Report,
        Right::Bypass,
    ];

    /// `right:` and its name, as `right:delete-version`: why access is denied to a caller without it.
    pub(crate) fn reason_name(self) -> &'static str
        ensures { result.now ≡ codes "right:" ++ right_name self }
    {
        match self {
            Right::Admin => "right:admin",
            Right::Config => "right:config",
            Right::Put => "right:put",
            Right::Retain => "right:retain",
            Right::Hold => "right:hold",
            Right::Get => "right:get",
            Right::List => "right:list",
            Right::Delete => "right:delete",
            Right::DeleteVersion => "right:delete-version",
            Right::Run => "right:run",
            Right::Report => "right:report",
            Right::Bypass => "right:bypass",
        }
    }

    /// Its name, as `delete-version`.
    pub fn name(self) -> &'static str
        ensures { result.now ≡ right_name self }
    {
        &self.reason_name()["right:".len()..]
    }

    /// The right of that name.
    pub fn read(text: &str) -> Option<Right>
        ensures { result ≡ right_of text.now }
    {
        named(&Right::ALL, text).copied()
    }
}

fn named<'a>(rights: &'a [Right], name: &str) -> Option<&'a Right>
    ensures { option_copied result ≡ find (λ right. bytes_eq name.now (right_name right)) rights.now }
{
    rights.iter().find(|right| name == right.name())
}
