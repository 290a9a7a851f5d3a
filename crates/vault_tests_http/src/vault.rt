//! A vault for the requests, and all that can be asked of it.
use std::alloc::Global;
use std::test::Fail;
use vault_core_list::list_keeper::ListKeeper;
use vault_core_model::keeper::Keeper;
use vault_transcript::transcript::{OPENING, answers, play};
use vault_transcript::trial::compare;

/// A version under COMPLIANCE at `a`, a marker on top of a version at `b`, a version under GOVERNANCE and
/// hold at `c`, one that is kept outside at `d`; a default and a rule.
const FILLING: &str = r#"
{"at":"2024-01-15T10:29:00Z","as":"ann","do":"put","bucket":"docs","key":"a","text":"hello","mode":"COMPLIANCE","until":"2030-01-01T00:00:00Z"}
  {"ok":{"version_id":1}}
{"at":"2024-01-15T10:29:00Z","as":"ann","do":"put","bucket":"docs","key":"b","text":"hi"}
  {"ok":{"version_id":2}}
{"at":"2024-01-15T10:29:00Z","as":"ann","do":"delete","bucket":"docs","key":"b"}
  {"ok":{"delete_marker":true,"version_id":3}}
{"at":"2024-01-15T10:29:00Z","as":"ann","do":"put","bucket":"docs","key":"c","text":"x","mode":"GOVERNANCE","until":"2030-01-01T00:00:00Z","hold":"ON"}
  {"ok":{"version_id":4}}
{"at":"2024-01-15T10:29:00Z","as":"ann","do":"put","bucket":"docs","key":"d","sha256":"ba7816bf8f01cfea414140de5dae2223b00361a396177a9cb410ff61f20015ad","size":5368709120,"hold":"ON"}
  {"ok":{"version_id":5}}
{"at":"2024-01-15T10:29:00Z","as":"ann","do":"set-default","bucket":"docs","mode":"GOVERNANCE","days":7}
  {"ok":{}}
{"at":"2024-01-15T10:29:00Z","as":"ann","do":"set-rules","bucket":"docs","rules":[{"ID":"r1","Prefix":"","Status":"Enabled","Expiration":{"Days":3}}]}
  {"ok":{}}
"#;

const READS: &str = r#"
{"at":"2024-01-16T00:00:00Z","as":"registrar","do":"report","dept":"records"}
{"at":"2024-01-16T00:00:00Z","as":"ann","do":"list-versions","bucket":"docs"}
{"at":"2024-01-16T00:00:00Z","as":"ann","do":"get-default","bucket":"docs"}
{"at":"2024-01-16T00:00:00Z","as":"ann","do":"get-rules","bucket":"docs"}
{"at":"2024-01-16T00:00:00Z","as":"ann","do":"get","bucket":"docs","key":"a","id":1}
{"at":"2024-01-16T00:00:00Z","as":"ann","do":"get","bucket":"docs","key":"b","id":2}
{"at":"2024-01-16T00:00:00Z","as":"ann","do":"get","bucket":"docs","key":"c","id":4}
{"at":"2024-01-16T00:00:00Z","as":"ann","do":"get","bucket":"docs","key":"d","id":5}
{"at":"2024-01-16T00:00:00Z","as":"ann","do":"get","bucket":"docs","key":"n"}
"#;

/// A keeper that can be made with the vault that the rows are asked of. The tests are over any such keeper, as
/// a proof over one kind would look at all its parts on each way out.
pub trait Filled: Keeper + Drop {
    fn filled(alloc: Global) -> Result<Self, Fail>;
}

impl Filled for ListKeeper {
    fn filled(alloc: Global) -> Result<ListKeeper, Fail> {
        let keeper = ListKeeper::new_as(alloc, true)?;
        played(alloc, played(alloc, keeper, OPENING)?, FILLING)
    }
}

/// The keeper as a transcript leaves it.
fn played<K: Keeper + Drop>(alloc: Global, keeper: K, transcript: &str) -> Result<K, Fail> {
    let mut keeper = keeper;
    play(alloc, &mut keeper, transcript)?;
    Ok(keeper)
}

/// All that replies say of the vault: the report, what is held, its locks, contents, the default, the rules.
pub fn stated<K: Keeper>(alloc: Global, keeper: &mut K) -> Result<String, Fail> {
    answers(alloc, keeper, READS.as_bytes())
}

/// Fails unless replies still say of the vault what they reported before.
pub fn answers_still<K: Keeper>(alloc: Global, keeper: &mut K, before: &str) -> Result<(), Fail> {
    let stated = stated(alloc, keeper)?;
    compare("the vault", stated.as_str(), before)
}
