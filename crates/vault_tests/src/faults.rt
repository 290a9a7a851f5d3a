//! What a fault of the reader or the writer leaves.
use std::alloc::Global;
use std::io::{BufWriter, Read, Write};
use std::test::Fail;
use vault_core_list::list_keeper::ListKeeper;
use vault_core_model::keeper::Keeper;
use vault_failing::streams::{FailingReader, FailingWriter};
use vault_transcript::transcript::replies;
use vault_transcript::trial::{Trial, compare};
use vaultctl_replay::{ReplayFault, replay};

const SCRIPT: &str = r#"{"at":"2014-01-01T00:00:00Z","as":"registrar","do":"add-dept","dept":"d"}
{"at":"2014-01-01T00:00:00Z","as":"registrar","do":"add-caller","caller":"ann","dept":"d","rights":["put"]}
{"at":"2014-01-01T00:00:00Z","as":"registrar","do":"add-bucket","bucket":"docs","dept":"d"}
{"at":"2024-01-15T10:30:00Z","as":"ann","do":"put","bucket":"docs","key":"a","text":"hello"}
{"at":"2024-01-15T10:29:59Z","as":"ann","do":"put","bucket":"docs","key":"a","text":"late"}
{"at":"2024-01-16T00:00:00Z","as":"registrar","do":"report","dept":"d"}
"#;

const REPLIES: [&str; 6] = [
    "{\"ok\":{}}\n",
    "{\"ok\":{}}\n",
    "{\"ok\":{}}\n",
    "{\"ok\":{\"version_id\":1}}\n",
    "{\"error\":{\"code\":\"ClockBack\",\"n\":1}}\n",
    "{\"ok\":{\"admitted\":5,\"at\":\"2024-01-16T00:00:00Z\",\"byte_days\":5,\"dept\":\"d\",\"handed\":0,\"held\":5,\"received\":0,\"removed\":0}}\n",
];

/// The replies from the one of that number on, which is counted from 0: n.
fn replies_from(alloc: Global, number: usize, count: usize) -> Result<String, Fail> {
    let mut text = String::new(alloc);
    for reply in REPLIES.iter().skip(number).take(count) {
        text.push_str(*reply)?;
    }
    Ok(text)
}

/// The script from the line of that number on, which is counted from 0.
fn from_line(alloc: Global, number: usize) -> Result<String, Fail> {
    let mut rest = String::new(alloc);
    for line in SCRIPT.lines().skip(number) {
        rest.push_str(line)?;
        rest.push('\n')?;
    }
    Ok(rest)
}

/// Carries a script out. It has no clause, so that no proof of a test carries what `replay` promises.
fn answer<R: Read, W: Write, K: Keeper>(
    alloc: Global,
    reader: &mut R,
    writer: &mut W,
    keeper: &mut K,
) -> Result<(), ReplayFault> {
    replay(alloc, reader, writer, keeper)
}

/// Carries a trial out on a vault to which nothing was done.
fn try_on_empty<T: Trial>(alloc: Global, trial: &T) -> Result<(), Fail> {
    let mut keeper = ListKeeper::new(alloc)?;
    let tried = trial.carry_out(alloc, &mut keeper);
    drop(keeper);
    tried
}

/// What is written for the lines from that number on.
fn rest_of_replies<K: Keeper>(
    alloc: Global,
    keeper: &mut K,
    number: usize,
) -> Result<String, Fail> {
    let rest = from_line(alloc, number)?;
    replies(alloc, keeper, rest.as_bytes())
}

/// Carries the lines from that number on out over the vault, and compares all their replies.
fn go_on<K: Keeper>(alloc: Global, keeper: &mut K, number: usize) -> Result<(), Fail> {
    let written = rest_of_replies(alloc, keeper, number)?;
    compare_replies(alloc, written, number, REPLIES.len())
}

/// Fails unless these are the replies from that number on, n.
fn compare_replies(
    alloc: Global,
    written: String,
    number: usize,
    count: usize,
) -> Result<(), Fail> {
    let wanted = replies_from(alloc, number, count)?;
    compare("the replies", written.as_str(), wanted.as_str())
}

fn compare_ends(
    given: Result<(), ReplayFault>,
    wanted: Result<(), ReplayFault>,
) -> Result<(), Fail> {
    if given == wanted {
        return Ok(());
    }
    Err(Fail::new(format_args!("wanted {wanted:?}, got {given:?}")))
}

/// Fails unless what a reader gives ends so, and has n of the first replies.
fn compare_read<R: Read, K: Keeper>(
    alloc: Global,
    keeper: &mut K,
    reader: &mut R,
    end: Result<(), ReplayFault>,
    count: usize,
) -> Result<(), Fail> {
    let mut written = Vec::new(alloc);
    compare_ends(answer(alloc, reader, &mut written, keeper), end)?;
    compare_replies(alloc, String::from_utf8(written)?, 0, count)
}

/// The first bytes of the script, after which the reader fails.
#[derive(Clone, Copy)]
struct CutReader<'a> {
    bytes: &'a [u8],
}

/// Each line that was read whole is carried out and answered, and no other; then the script goes on from there.
impl Trial for CutReader<'_> {
    fn carry_out<K: Keeper>(&self, alloc: Global, keeper: &mut K) -> Result<(), Fail> {
        let read = self.bytes.iter().filter(|byte| **byte == b'\n').count();
        let mut reader = FailingReader { bytes: self.bytes };
        compare_read(alloc, keeper, &mut reader, Err(ReplayFault::Read), read)?;
        go_on(alloc, keeper, read)
    }
}

#[test]
fn a_reader_that_fails(rt: HostRuntime) -> Result<(), Fail> {
    let bytes = SCRIPT.as_bytes();
    for count in 0..=bytes.len() {
        let cut = CutReader {
            bytes: bytes.split_at(count).0,
        };
        try_on_empty(rt.alloc(), &cut)?;
    }
    Ok(())
}

/// n writes, each of one reply, after which the writer fails.
#[derive(Clone, Copy)]
struct CutWriter {
    writes: usize,
}

impl CutWriter {
    /// What comes of the script, and what the writer took.
    fn answered<K: Keeper>(
        &self,
        alloc: Global,
        keeper: &mut K,
    ) -> Result<(Result<(), ReplayFault>, String), Fail> {
        let mut reader = SCRIPT.as_bytes();
        let mut writer = FailingWriter {
            written: Vec::new(alloc),
            writes_left: self.writes as u64,
        };
        let end = answer(alloc, &mut reader, &mut writer, keeper);
        Ok((end, String::from_utf8(writer.written)?))
    }
}

/// The line whose reply was refused was carried out, and no later one.
impl Trial for CutWriter {
    fn carry_out<K: Keeper>(&self, alloc: Global, keeper: &mut K) -> Result<(), Fail> {
        let (end, written) = self.answered(alloc, keeper)?;
        compare_replies(alloc, written, 0, self.writes)?;
        if self.writes == REPLIES.len() {
            return compare_ends(end, Ok(()));
        }
        compare_ends(end, Err(ReplayFault::Write))?;
        go_on(alloc, keeper, self.writes.saturating_add(1))
    }
}

#[test]
fn a_writer_that_fails(rt: HostRuntime) -> Result<(), Fail> {
    for writes in 0..=REPLIES.len() {
        try_on_empty(rt.alloc(), &CutWriter { writes })?;
    }
    Ok(())
}

struct HeldBack;

impl Trial for HeldBack {
    fn carry_out<K: Keeper>(&self, alloc: Global, keeper: &mut K) -> Result<(), Fail> {
        let mut reader = SCRIPT.as_bytes();
        let full = FailingWriter {
            written: Vec::new(alloc),
            writes_left: 0,
        };
        let mut writer = BufWriter::with_capacity(alloc, 65_536, full)?;
        let end = answer(alloc, &mut reader, &mut writer, keeper);
        compare_ends(end, Err(ReplayFault::Write))
    }
}

/// What is held back is handed on before the input counts as answered, and a fault of that is reported.
#[test]
fn a_writer_that_holds_back(rt: HostRuntime) -> Result<(), Fail> {
    try_on_empty(rt.alloc(), &HeldBack)
}
