//! A journal: the line of each command that changed the vault.
use crate::changes::is_change;
use crate::entry::note;
use crate::observer::Observer;
use crate::state::JournalState;
use std::alloc::Global;
use std::io::Write;
use vault_base::moment::Moment;
use vault_base::name::CallerName;
use vault_core::hearing::Hears;
use vault_core_model::command::Command;
use vault_core_model::reply::Reply;
use vault_lines_read::read_line::Line;

/// A journal of the commands that changed a vault, which goes to a writer.
///
/// A command that changed the vault becomes a line that asks for it, at its reading. One whose change no line makes
/// again ends the journal, and nothing is written from then on; nor is where a line couldn't be written.
#[derive(Drop)]
pub struct Journal<W> {
    pub writer: W,
    pub state: JournalState,
}

impl<W> Journal<W> {
    ghost use Rattle.std.specs.Prelude.{◌≡◌};

    /// A journal that goes to that writer, which has none of its lines yet.
    pub fn new(writer: W) -> Journal<W>
        ensures writer { result.writer ≡ writer }
        ensures state { result.state ≡ JournalState.Open }
    {
        Journal {
            writer,
            state: JournalState::Open,
        }
    }
}

impl<W: Write> Hears for Journal<W> {
    ghost use Rattle.vaultctl_replay.specs.Journal.{Hears as HearsOf};
    ghost use Rattle.vaultctl_replay.specs.Entries.{is_open};

    ghost hears = { HearsOf W.Write };

    ghost going = { λ j. is_open j.state };

    fn hear(
        &mut self,
        alloc: Global,
        at: Moment,
        who: &CallerName,
        command: &Command,
        reply: &Reply,
    ) {
        if self.state.is_open() && is_change(reply) {
            self.state = note(alloc, &mut self.writer, at, who, command, reply);
        }
    }

    fn goes_on(&self) -> bool {
        self.state.is_open()
    }
}

impl<W: Write> Observer for Journal<W> {
    fn line(&mut self, _alloc: Global, _line: &[u8], _asked: &Line) {}
}
