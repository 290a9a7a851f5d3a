//! Journals whose writer holds back what it is handed.
ghost use Rattle.std.specs.Prelude.{None};

use std::alloc::Global;
use std::io::{self, Write};
use std::test::Fail;
use vault_core_list::list_keeper::ListKeeper;
use vault_core_model::keeper::Keeper;
use vaultctl_replay::{Journal, JournalState, replay_observed};

/// Three lines, each of a command that changes a vault.
const SCRIPT: &str = r#"{"at":"2014-01-01T00:00:00Z","as":"registrar","do":"add-dept","dept":"d"}
{"at":"2014-01-01T00:00:00Z","as":"registrar","do":"add-bucket","bucket":"docs","dept":"d"}
{"at":"2014-01-01T00:00:00Z","as":"registrar","do":"add-bucket","bucket":"maps","dept":"d"}
"#;

/// A writer that takes all, and counts how many lines came, and how often what it holds back was handed on. After that many
/// times this fails.
#[derive(Drop)]
struct Holding {
    lines: usize,
    handed_on: u32,
    most: u32,
}

impl Write for Holding {
    ghost contents = { λ _. None };

    fn write(&mut self, buf: &[u8]) -> io::Result<usize> {
        let lines = buf.iter().filter(|byte| **byte == b'\n').count();
        self.lines = self.lines.saturating_add(lines);
        Ok(buf.len())
    }

    fn flush(&mut self) -> io::Result<()> {
        if self.handed_on >= self.most {
            return Err(io::Error::from(io::ErrorKind::TimedOut));
        }
        self.handed_on = self.handed_on.saturating_add(1);
        Ok(())
    }
}

/// The journal of the script over a vault. It has no clause, so that no proof of a test carries what `replay_observed`
/// promises.
fn journal_of<K: Keeper>(
    alloc: Global,
    keeper: &mut K,
    most: u32,
) -> Result<Journal<Holding>, Fail> {
    let mut journal = Journal::new(Holding {
        lines: 0,
        handed_on: 0,
        most,
    });
    let mut script = SCRIPT.as_bytes();
    let mut written = Vec::new(alloc);
    replay_observed(alloc, &mut script, &mut written, keeper, &mut journal)?;
    Ok(journal)
}

/// How often the writer hands on before it fails; and what becomes of the journal, how many lines came and how often they
/// were handed on.
const WRITERS: [(u32, JournalState, usize, u32); 3] = [
    (3, JournalState::Open, 3, 3),
    (1, JournalState::Lost, 2, 1),
    (0, JournalState::Lost, 1, 0),
];

/// What the journal's writer holds back is handed on after each line, and a line that isn't is the journal's last.
#[test]
fn each_line_is_handed_on(rt: HostRuntime) -> Result<(), Fail> {
    for (most, state, lines, handed_on) in &WRITERS {
        let mut keeper = ListKeeper::new(rt.alloc())?;
        let journal = journal_of(rt.alloc(), &mut keeper, *most)?;
        assert!(rt; journal.state == *state);
        assert_eq!(rt; journal.writer.lines, *lines);
        assert_eq!(rt; journal.writer.handed_on, *handed_on);
    }
    Ok(())
}
