//! Who hears of the commands that were carried out.
ghost use Rattle.std.specs.Prelude.{◌≡◌, Bool, true, ⊤};
ghost use Rattle.vault_core_model.specs.declared.command.Timed.{Timed};
ghost use Rattle.vault_core_model.specs.declared.reply.Reply.{Reply};
ghost use Rattle.vault_core.specs.Hearing.{timed};

use std::alloc::Global;
use vault_base::moment::Moment;
use vault_base::name::CallerName;
use vault_core_model::command::Command;
use vault_core_model::reply::Reply;

/// Hears of each command that was carried out, one after another.
pub trait Hears {
    /// What hearing does: who hears, the command, its reply, who heard.
    ghost hears: { Self → Timed → Reply → Self → Type 0 };

    /// More commands may be carried out.
    ghost going: { Self → Bool };

    /// A command that a caller gave at that moment and that was carried out, and its reply, which is still to be written.
    fn hear(
        &mut self,
        alloc: Global,
        at: Moment,
        who: &CallerName,
        command: &Command,
        reply: &Reply,
    )
        ensures { hears self.old (timed at who.now command.now) reply.now self.new };

    /// Whether more commands may be carried out.
    fn goes_on(&self) -> bool
        ensures { result ≡ going self.now };
}

/// Hears of nothing: commands go on whatever they were.
#[derive(Drop)]
pub struct Nobody;

impl Hears for Nobody {
    ghost hears = { λ _ _ _ _. ⊤ };

    ghost going = { λ _. true };

    fn hear(
        &mut self,
        _alloc: Global,
        _at: Moment,
        _who: &CallerName,
        _command: &Command,
        _reply: &Reply,
    ) {}

    fn goes_on(&self) -> bool {
        true
    }
}
