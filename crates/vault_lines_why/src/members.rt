//! The members of lines and rules: what each has to be, in words, and a value that is right.
use std::alloc::{AllocError, Global};
use vault_base::limits::{MOST_CONTENT, MOST_IDS};
use vault_lines_json::shape::Kind;
use vault_lines_read::verb::Verb;

/// What is looked at in a member that is there, beside its JSON type.
#[derive(Clone, Copy)]
pub(crate) enum Check {
    Any,
    Moment,
    /// The name of a caller, a department or a batch, which have one form.
    Name,
    Bucket,
    Key,
    Prefix,
    Hex,
    Mode,
    Hold,
    Status,
    RuleId,
    Rights,
    /// Whether it is a number from the first to the second one, which these words say.
    Number(u64, u64, &'static str),
    /// Whether what is beside it goes with it.
    Beside,
}

/// A member, what is looked at, and a value that is right, which rows of what is beside it lack. A member's rows are in
/// the order of the looks.
pub(crate) type Row = (&'static str, Check, &'static str);

const SMALL: Check = Check::Number(0, u32::MAX as u64, "a number from 0 to 4294967295");

/// What is more than the words say, the vault itself refuses.
const BYTES: Check = Check::Number(0, u64::MAX, "a number of bytes from 0 to 5368709120");

const YEARS: Check = Check::Number(0, u16::MAX as u64, "a number from 0 to 65535");

const ID: Check = Check::Number(1, MOST_IDS as u64, "a version's number, 1 to 1000000000");

const DAYS: Check = Check::Number(1, 2_147_483_647, "1 to 2147483647");

const NEWER: Check = Check::Number(1, 100, "1 to 100");

const ABOVE: Check = Check::Number(0, MOST_CONTENT as u64, "0 to 1048576");

const BELOW: Check = Check::Number(1, MOST_CONTENT as u64 + 1, "1 to 1048577");

/// The members of lines, of which each verb's line has some, in this order.
static LINE: [Row; 33] = [
    ("at", Check::Beside, ""),
    ("at", Check::Moment, "\"2024-01-15T10:30:00Z\""),
    ("as", Check::Name, "\"ann\""),
    ("do", Check::Any, "\"put\""),
    ("caller", Check::Name, "\"ann\""),
    ("bucket", Check::Bucket, "\"docs\""),
    ("dept", Check::Name, "\"records\""),
    ("rights", Check::Rights, "[\"put\",\"get\"]"),
    ("batch", Check::Name, "\"scans-1\""),
    ("line", SMALL, "1"),
    ("key", Check::Key, "\"2024/a\""),
    ("id", ID, "1"),
    ("text", Check::Any, "\"hello\""),
    ("hex", Check::Hex, "\"68656c6c6f\""),
    ("sha256", Check::Any, A_DIGEST),
    ("size", BYTES, "5"),
    ("mode", Check::Beside, ""),
    ("mode", Check::Mode, "\"GOVERNANCE\""),
    ("until", Check::Beside, ""),
    ("until", Check::Moment, "\"2030-01-01T00:00:00Z\""),
    ("days", Check::Beside, ""),
    ("days", SMALL, "30"),
    ("years", Check::Beside, ""),
    ("years", YEARS, "10"),
    ("hold", Check::Hold, "\"ON\""),
    ("bypass", Check::Any, "true"),
    ("prefix", Check::Prefix, "\"2024/\""),
    ("after_key", Check::Prefix, "\"2024/a\""),
    ("after_id", ID, "7"),
    ("after_id", Check::Beside, ""),
    ("most", SMALL, "100"),
    ("rules", Check::Beside, ""),
    ("rules", Check::Any, A_RULE),
];

const A_DIGEST: &str = "\"2cf24dba5fb0a30e26e83b2ac5b9e29e1b161e5c1fa7425e73043362938b9824\"";

const RIGHTS: &str =
    "a list of admin, config, put, retain, hold, get, list, delete, delete-version, run, report, bypass";

const A_RULE: &str = "[{\"ID\":\"r1\",\"Status\":\"Enabled\",\"Expiration\":{\"Days\":30}}]";

/// An object of a line: the line itself, a rule, or an action of a rule.
#[derive(Clone, Copy)]
pub(crate) struct Object {
    pub(crate) name: &'static str,
    /// Its members but for those that are objects.
    pub(crate) members: &'static [(&'static str, Kind)],
    pub(crate) objects: &'static [&'static str],
    pub(crate) rows: &'static [Row],
}

/// A rule, and its actions.
pub(crate) static PARTS: [Object; 3] = [
    Object {
        name: "a rule",
        members: &[
            ("ID", Kind::Text),
            ("Prefix", Kind::OptionalText),
            ("ObjectSizeGreaterThan", Kind::OptionalNumber),
            ("ObjectSizeLessThan", Kind::OptionalNumber),
            ("Status", Kind::Text),
        ],
        objects: &["Expiration", "NoncurrentVersionExpiration"],
        rows: &[
            ("ID", Check::RuleId, "\"r1\""),
            ("Prefix", Check::Prefix, "\"2024/\""),
            ("Status", Check::Status, "\"Enabled\""),
            ("Status", Check::Beside, ""),
            ("Expiration", Check::Beside, ""),
            ("ObjectSizeGreaterThan", ABOVE, "0"),
            ("ObjectSizeLessThan", BELOW, "4096"),
            ("ObjectSizeLessThan", Check::Beside, ""),
        ],
    },
    Object {
        name: "Expiration",
        members: &[
            ("Days", Kind::OptionalNumber),
            ("ExpiredObjectDeleteMarker", Kind::OptionalFlag),
        ],
        objects: &[],
        rows: &[
            ("Days", DAYS, "30"),
            ("ExpiredObjectDeleteMarker", Check::Any, "true"),
        ],
    },
    Object {
        name: "NoncurrentVersionExpiration",
        members: &[
            ("NoncurrentDays", Kind::Number),
            ("NewerNoncurrentVersions", Kind::OptionalNumber),
        ],
        objects: &[],
        rows: &[
            ("NoncurrentDays", DAYS, "30"),
            ("NewerNoncurrentVersions", NEWER, "3"),
        ],
    },
];

/// The line of a verb.
pub(crate) fn line_of(verb: Verb) -> Object {
    Object {
        name: verb.name(),
        members: verb.members(),
        objects: &[],
        rows: &LINE,
    }
}

impl Check {
    /// What a member has to be, in words.
    pub(crate) fn words(self) -> &'static str {
        match self {
            Check::Any | Check::Beside => "another value",
            Check::Moment =>
                "a moment from 1970 to 9999: date, T, time to the second, and Z or an offset",
            Check::Name => "1 to 64 of a-z, 0-9, -, _ and .",
            Check::Bucket => "3 to 63 of a-z, 0-9 and -, with no - at either end",
            Check::Key => "1 to 1,024 bytes without control characters",
            Check::Prefix => "up to 1,024 bytes without control characters",
            Check::Hex => "pairs of hex digits",
            Check::Mode => "GOVERNANCE or COMPLIANCE, in capitals",
            Check::Hold => "ON or OFF, in capitals",
            Check::Status => "Enabled or Disabled",
            Check::RuleId => "1 to 255 characters without control characters",
            Check::Rights => RIGHTS,
            Check::Number(_, _, words) => words,
        }
    }
}

impl Object {
    /// The names of the members that it can have; the error is that memory is wanting.
    pub(crate) fn names(&self, alloc: Global) -> Result<Vec<&'static str>, AllocError> {
        let mut names = Vec::new(alloc);
        for (name, _) in self.members {
            names.push(*name)?;
        }
        for name in self.objects {
            names.push(*name)?;
        }
        Ok(names)
    }

    /// A value of a member that is right.
    pub(crate) fn example(&self, name: &str) -> &'static str {
        for (other, _, value) in self.rows {
            if *other == name && !value.is_empty() {
                return value;
            }
        }
        ""
    }
}
