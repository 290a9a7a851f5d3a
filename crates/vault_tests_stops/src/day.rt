//! What is asked on the days that are stopped.

/// Two departments with their buckets and callers, one of whom may bypass, and a lifecycle rule.
const SETUP: &str =
    r#"{"at":"2014-01-01T00:00:01Z","as":"registrar","do":"add-dept","dept":"records"}
{"at":"2014-01-01T00:00:02Z","as":"registrar","do":"add-dept","dept":"court"}
{"at":"2014-01-01T00:00:03Z","as":"registrar","do":"add-caller","caller":"ann","dept":"records","rights":["config","put","retain","hold","get","list","delete","delete-version","run","report"]}
{"at":"2014-01-01T00:00:04Z","as":"registrar","do":"add-caller","caller":"cid","dept":"court","rights":["put","hold","get","list","delete-version","report"]}
{"at":"2014-01-01T00:00:05Z","as":"registrar","do":"add-caller","caller":"gov","dept":"records","rights":["delete-version","bypass"]}
{"at":"2014-01-01T00:00:06Z","as":"registrar","do":"add-bucket","bucket":"docs","dept":"records"}
{"at":"2014-01-01T00:00:06Z","as":"registrar","do":"add-bucket","bucket":"safe","dept":"records"}
{"at":"2014-01-01T00:00:07Z","as":"registrar","do":"add-bucket","bucket":"rolls","dept":"court"}
{"at":"2014-01-01T00:00:08Z","as":"ann","do":"set-rules","bucket":"docs","rules":[{"ID":"r1","Status":"Enabled","Expiration":{"Days":1},"NoncurrentVersionExpiration":{"NoncurrentDays":1,"NewerNoncurrentVersions":1}}]}
"#;

/// Puts of both departments, a removal, a lifecycle run that marks key `k` and removes version 1, a legal
/// hold, a bucket that moves, a removal by a bypass, an intake of two lines into the moved bucket, and its way back.
const CHANGES: &str =
    r#"{"at":"2024-03-01T08:00:00Z","as":"ann","do":"put","bucket":"docs","key":"k","text":"first"}
{"at":"2024-03-01T08:30:00Z","as":"ann","do":"put","bucket":"safe","key":"g","text":"guarded","mode":"GOVERNANCE","until":"2030-01-01T00:00:00Z"}
{"at":"2024-03-01T08:30:00Z","as":"cid","do":"put","bucket":"rolls","key":"r","text":"judgment"}
{"at":"2024-03-01T08:30:00Z","as":"cid","do":"put","bucket":"rolls","key":"s","text":"draft"}
{"at":"2024-03-01T09:00:00Z","as":"ann","do":"put","bucket":"docs","key":"k","text":"second"}
{"at":"2024-03-01T10:00:00Z","as":"cid","do":"delete-version","bucket":"rolls","key":"s","id":4}
{"at":"2024-03-03T00:00:00Z","as":"ann","do":"run","bucket":"docs"}
{"at":"2024-03-03T08:00:00Z","as":"cid","do":"set-hold","bucket":"rolls","key":"r","hold":"ON"}
{"at":"2024-03-03T08:30:00Z","as":"registrar","do":"move-bucket","bucket":"rolls","dept":"records"}
{"at":"2024-03-03T09:00:00Z","as":"gov","do":"delete-version","bucket":"safe","key":"g","id":2,"bypass":true}
{"at":"2024-03-04T08:00:00Z","as":"ann","do":"intake","bucket":"rolls","batch":"b1","line":1,"key":"2024/a","text":"one"}
{"at":"2024-03-04T08:00:00Z","as":"ann","do":"intake","bucket":"rolls","batch":"b1","line":2,"key":"2024/b","text":"two","mode":"GOVERNANCE","until":"2030-01-01T00:00:00Z","hold":"ON"}
{"at":"2024-03-05T08:00:00Z","as":"registrar","do":"move-bucket","bucket":"rolls","dept":"court"}
"#;

const PUTS: &str =
    r#"{"at":"2024-03-01T08:00:00Z","as":"ann","do":"put","bucket":"docs","key":"a","text":"first"}
{"at":"2024-03-01T08:00:00Z","as":"ann","do":"put","bucket":"docs","key":"b","text":"second"}
"#;

const ONE_PUT_MORE: &str =
    r#"{"at":"2024-03-01T08:00:00Z","as":"ann","do":"put","bucket":"docs","key":"a","text":"first"}
{"at":"2024-03-01T08:00:00Z","as":"ann","do":"put","bucket":"docs","key":"b","text":"second"}
{"at":"2024-03-01T08:00:00Z","as":"ann","do":"put","bucket":"docs","key":"c","text":"third"}
"#;

/// A day of a vault.
#[derive(Clone, Copy)]
pub struct Day {
    /// Whether its vault was made on an earlier day; else this day makes it.
    pub is_made: bool,
    /// What was asked on earlier days.
    pub before: &'static str,
    /// What is asked on this one, a line for each.
    pub lines: &'static str,
    /// How many pages the log has at most before it is copied into the database file.
    pub checkpoint_frames: usize,
}

/// So few that each day has several copies.
const SHORT_LOG: usize = 40;

/// So large that no day has a copy but the one at its end.
const LONG_LOG: usize = 1000;

/// The day on which the vault is made.
pub fn first_day() -> Day {
    Day {
        is_made: false,
        before: "",
        lines: SETUP,
        checkpoint_frames: SHORT_LOG,
    }
}

/// A day of a vault that was made before.
pub fn later_day() -> Day {
    Day {
        is_made: true,
        before: SETUP,
        lines: CHANGES,
        checkpoint_frames: SHORT_LOG,
    }
}

/// A day of two puts.
pub fn day_of_puts() -> Day {
    Day {
        is_made: true,
        before: SETUP,
        lines: PUTS,
        checkpoint_frames: LONG_LOG,
    }
}

/// The same with one put more.
pub fn day_of_one_put_more() -> Day {
    Day {
        is_made: true,
        before: SETUP,
        lines: ONE_PUT_MORE,
        checkpoint_frames: LONG_LOG,
    }
}

impl Day {
    /// The day that makes the vault of this one.
    pub fn earlier(&self) -> Day {
        Day {
            is_made: false,
            before: "",
            lines: self.before,
            checkpoint_frames: self.checkpoint_frames,
        }
    }

    /// This day, where the vault is known to be there or not.
    pub fn entered(&self, is_made: bool) -> Day {
        Day {
            is_made,
            before: self.before,
            lines: self.lines,
            checkpoint_frames: self.checkpoint_frames,
        }
    }
}
