//! Transcripts: scripts over a vault, with the replies that they are to get.
ghost use Rattle.std.specs.Prelude.{◌≡◌, ◌++◌, ◌∷◌, [], OnOk, string_bytes};

use std::alloc::{AllocError, Global};
use std::test::Fail;
use vault_core_list::list_keeper::ListKeeper;
use vault_core_model::keeper::Keeper;
use vaultctl_replay::replay;

/// A department `records` with bucket `docs` and two callers: ann, who works there, and gov, who may bypass.
pub const OPENING: &str = r#"
{"at":"2014-01-01T00:00:00Z","as":"registrar","do":"add-dept","dept":"records"}
  {"ok":{}}
{"at":"2014-01-01T00:00:00Z","as":"registrar","do":"add-caller","caller":"ann","dept":"records","rights":["put","get","list","delete","delete-version","retain","hold","config","run","report"]}
  {"ok":{}}
{"at":"2014-01-01T00:00:00Z","as":"registrar","do":"add-caller","caller":"gov","dept":"records","rights":["delete-version","retain","bypass"]}
  {"ok":{}}
{"at":"2014-01-01T00:00:00Z","as":"registrar","do":"add-bucket","bucket":"docs","dept":"records"}
  {"ok":{}}
"#;

/// What is written for a script.
pub fn replies<K: Keeper>(alloc: Global, keeper: &mut K, script: &[u8]) -> Result<String, Fail> {
    let mut reader = script;
    let mut written = Vec::new(alloc);
    replay(alloc, &mut reader, &mut written, keeper)?;
    Ok(String::from_utf8(written)?)
}

/// What is written for lines that a test gives on its own account, as to look at a vault. Out of memory in a reply is an
/// error here: the test wanted it, and not what it tries.
pub fn answers<K: Keeper>(alloc: Global, keeper: &mut K, lines: &[u8]) -> Result<String, Fail> {
    let written = replies(alloc, keeper, lines)?;
    if written.as_str().contains("\"Memory\"") {
        return Err(Fail::from(AllocError));
    }
    Ok(written)
}

/// Carries a transcript out over a vault. A line that begins with two spaces is the reply that the line
/// above it is to get.
pub fn play<K: Keeper>(alloc: Global, keeper: &mut K, transcript: &str) -> Result<(), Fail> {
    let mut script = String::new(alloc);
    let mut wanted = String::new(alloc);
    for line in transcript.lines() {
        match line.strip_prefix("  ") {
            Some(reply) => push_line(&mut wanted, reply)?,
            None => push_line(&mut script, line)?,
        }
    }
    let written = replies(alloc, keeper, script.as_bytes())?;
    compare(written.as_str(), wanted.as_str())
}

/// Fails where the replies aren't the wanted ones, with the first line that differs.
fn compare(written: &str, wanted: &str) -> Result<(), Fail> {
    if written == wanted {
        return Ok(());
    }
    let differing = written
        .lines()
        .zip(wanted.lines())
        .find(|(given, reply)| given != reply);
    match differing {
        Some((given, reply)) => Err(Fail::new(format_args!("wanted {reply}, got {given}"))),
        None => Err(Fail::new("some replies are wanting, or there are more than wanted")),
    }
}

fn push_line(text: &mut String, line: &str) -> Result<(), Fail>
    ensures { OnOk result (string_bytes text.new ≡ string_bytes text.old ++ line.now ++ 10 ∷ []) }
{
    text.push_str(line)?;
    text.push('\n')?;
    Ok(())
}

/// A vault in which the opening lines were accepted.
pub fn opened(alloc: Global) -> Result<ListKeeper, Fail> {
    let mut keeper = ListKeeper::new(alloc)?;
    play(alloc, &mut keeper, OPENING)?;
    Ok(keeper)
}

/// Carries a transcript out over a vault in which the opening lines were accepted.
pub fn play_opened(alloc: Global, transcript: &str) -> Result<(), Fail> {
    let mut keeper = opened(alloc)?;
    play(alloc, &mut keeper, transcript)
}
