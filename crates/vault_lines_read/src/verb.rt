//! The lines that there are: the verb of each, its name and its members.
ghost use Rattle.std.specs.Prelude.{◌≡◌, map, option_map};
ghost use Rattle.std.specs.List.{find};
ghost use Rattle.std.specs.Str.{bytes_eq};
ghost use Rattle.serde_json.specs.View.{view};
ghost use Rattle.vault_lines_json.specs.Shape.{has_members as are_members};
ghost use Rattle.vault_lines_read.specs.Verb as spec;

use serde_json::Value;
use vault_lines_json::shape::{Kind, has_members, has_one_content};

/// What a line asks to be done.
#[derive(Clone, Copy, Debug, PartialEq, Eq)]
pub enum Verb {
    AddDept,
    AddCaller,
    CloseCaller,
    AddBucket,
    MoveBucket,
    SetDefault,
    GetDefault,
    SetRules,
    GetRules,
    DropRules,
    Put,
    Get,
    Head,
    ListVersions,
    Delete,
    DeleteVersion,
    SetRetention,
    GetRetention,
    SetHold,
    GetHold,
    Run,
    Report,
    Certificate,
    Intake,
}

const AT: (&str, Kind) = ("at", Kind::Text);

const WHO: (&str, Kind) = ("as", Kind::Text);

const VERB: (&str, Kind) = ("do", Kind::Text);

const DEPT: (&str, Kind) = ("dept", Kind::Text);

const BUCKET: (&str, Kind) = ("bucket", Kind::Text);

const KEY: (&str, Kind) = ("key", Kind::Text);

const ID: (&str, Kind) = ("id", Kind::Number);

/// Without it the current entry is meant.
const ID_OR_NONE: (&str, Kind) = ("id", Kind::OptionalNumber);

const TEXT: (&str, Kind) = ("text", Kind::OptionalText);

const HEX: (&str, Kind) = ("hex", Kind::OptionalText);

const SHA256: (&str, Kind) = ("sha256", Kind::OptionalDigest);

const SIZE: (&str, Kind) = ("size", Kind::OptionalNumber);

const MODE: (&str, Kind) = ("mode", Kind::OptionalText);

const UNTIL: (&str, Kind) = ("until", Kind::OptionalText);

const HOLD: (&str, Kind) = ("hold", Kind::OptionalText);

const BYPASS: (&str, Kind) = ("bypass", Kind::OptionalFlag);

const OF_DEPT: [(&str, Kind); 4] = [AT, WHO, VERB, DEPT];

const OF_CALLER: [(&str, Kind); 4] = [AT, WHO, VERB, ("caller", Kind::Text)];

const ADD_CALLER: [(&str, Kind); 6] = [
    AT,
    WHO,
    VERB,
    ("caller", Kind::Text),
    ("dept", Kind::OptionalText),
    ("rights", Kind::Texts),
];

const OF_BUCKET: [(&str, Kind); 4] = [AT, WHO, VERB, BUCKET];

const OF_BUCKET_AND_DEPT: [(&str, Kind); 5] = [AT, WHO, VERB, BUCKET, DEPT];

const SET_DEFAULT: [(&str, Kind); 7] = [
    AT,
    WHO,
    VERB,
    BUCKET,
    MODE,
    ("days", Kind::OptionalNumber),
    ("years", Kind::OptionalNumber),
];

const SET_RULES: [(&str, Kind); 5] = [AT, WHO, VERB, BUCKET, ("rules", Kind::Rules)];

const OF_ENTRY: [(&str, Kind); 6] = [AT, WHO, VERB, BUCKET, KEY, ID_OR_NONE];

const PUT: [(&str, Kind); 12] = [
    AT, WHO, VERB, BUCKET, KEY, TEXT, HEX, SHA256, SIZE, MODE, UNTIL, HOLD,
];

const LIST_VERSIONS: [(&str, Kind); 8] = [
    AT,
    WHO,
    VERB,
    BUCKET,
    ("prefix", Kind::OptionalText),
    ("after_key", Kind::OptionalText),
    ("after_id", Kind::OptionalNumber),
    ("most", Kind::OptionalNumber),
];

const DELETE: [(&str, Kind); 5] = [AT, WHO, VERB, BUCKET, KEY];

const DELETE_VERSION: [(&str, Kind); 7] = [AT, WHO, VERB, BUCKET, KEY, ID, BYPASS];

const SET_RETENTION: [(&str, Kind); 9] = [
    AT,
    WHO,
    VERB,
    BUCKET,
    KEY,
    ID_OR_NONE,
    ("mode", Kind::Text),
    ("until", Kind::Text),
    BYPASS,
];

const SET_HOLD: [(&str, Kind); 7] = [AT, WHO, VERB, BUCKET, KEY, ID_OR_NONE, ("hold", Kind::Text)];

const CERTIFICATE: [(&str, Kind); 5] = [AT, WHO, VERB, BUCKET, ID];

const INTAKE: [(&str, Kind); 14] = [
    AT,
    WHO,
    VERB,
    BUCKET,
    ("batch", Kind::Text),
    ("line", Kind::Number),
    KEY,
    TEXT,
    HEX,
    SHA256,
    SIZE,
    MODE,
    UNTIL,
    HOLD,
];

/// A verb, the name that a line's `do` calls it by, and the members of its line.
pub type Form = (Verb, &'static str, &'static [(&'static str, Kind)]);

/// The lines that there are, in the order of their verbs.
pub static FORMS: [Form; 24] = [
    (Verb::AddDept, "add-dept", &OF_DEPT),
    (Verb::AddCaller, "add-caller", &ADD_CALLER),
    (Verb::CloseCaller, "close-caller", &OF_CALLER),
    (Verb::AddBucket, "add-bucket", &OF_BUCKET_AND_DEPT),
    (Verb::MoveBucket, "move-bucket", &OF_BUCKET_AND_DEPT),
    (Verb::SetDefault, "set-default", &SET_DEFAULT),
    (Verb::GetDefault, "get-default", &OF_BUCKET),
    (Verb::SetRules, "set-rules", &SET_RULES),
    (Verb::GetRules, "get-rules", &OF_BUCKET),
    (Verb::DropRules, "drop-rules", &OF_BUCKET),
    (Verb::Put, "put", &PUT),
    (Verb::Get, "get", &OF_ENTRY),
    (Verb::Head, "head", &OF_ENTRY),
    (Verb::ListVersions, "list-versions", &LIST_VERSIONS),
    (Verb::Delete, "delete", &DELETE),
    (Verb::DeleteVersion, "delete-version", &DELETE_VERSION),
    (Verb::SetRetention, "set-retention", &SET_RETENTION),
    (Verb::GetRetention, "get-retention", &OF_ENTRY),
    (Verb::SetHold, "set-hold", &SET_HOLD),
    (Verb::GetHold, "get-hold", &OF_ENTRY),
    (Verb::Run, "run", &OF_BUCKET),
    (Verb::Report, "report", &OF_DEPT),
    (Verb::Certificate, "certificate", &CERTIFICATE),
    (Verb::Intake, "intake", &INTAKE),
];

/// The verb of the first of these lines that has that name.
fn named(forms: &[Form], name: &str) -> Option<Verb>
    ensures { result ≡ option_map (λ form. form.0) (find (λ form. bytes_eq name.now form.1.now) forms.now) }
{
    for (verb, known, _) in forms {
        if name == *known {
            return Some(*verb);
        }
    }
    None
}

impl Verb {
    /// The verb of that name, as `delete-version`.
    pub fn read(text: &str) -> Option<Verb>
        ensures { result ≡ spec.verb_named text.now }
    {
        named(&FORMS, text)
    }

    fn form(self) -> &'static Form
        ensures name { result.now.1.now ≡ spec.verb_name self }
        ensures members { map (λ m. (m.0.now, m.1)) result.now.2.now ≡ spec.members_of self }
    {
        &FORMS[self as usize]
    }

    /// The name that a line's `do` calls this verb by.
    pub fn name(self) -> &'static str
        ensures { result.now ≡ spec.verb_name self }
    {
        self.form().1
    }

    /// The members of this verb's line.
    pub fn members(self) -> &'static [(&'static str, Kind)]
        ensures { map (λ m. (m.0.now, m.1)) result.now ≡ spec.members_of self }
    {
        self.form().2
    }

    fn has_members(self, value: &Value) -> bool
        ensures { result ≡ are_members (spec.members_of self) (view value.now) }
    {
        has_members(value, self.members())
    }

    /// A content, where this verb's line has one, is written in exactly one way.
    pub fn has_single_content(self, value: &Value) -> bool
        ensures { result ≡ spec.has_single_content self (view value.now) }
    {
        match self {
            Verb::Put | Verb::Intake => has_one_content(value),
            _ => true,
        }
    }

    /// The value is an object of just the members of this verb's line, each of its kind.
    pub fn is_shaped(self, value: &Value) -> bool
        ensures { result ≡ spec.is_shaped self (view value.now) }
    {
        self.has_members(value) && self.has_single_content(value)
    }
}
