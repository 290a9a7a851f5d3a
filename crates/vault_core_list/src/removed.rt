//! The removed entries, handed to a sink.
ghost use Rattle.std.specs.Prelude.{Ok, filter, map, not};
ghost use Rattle.vault_core_model.specs.Handing.{Hands};
ghost use Rattle.vault_core_model.specs.Places.{is_held};

use vault_core_model::keeper::Sink;
use vault_core_model::records::History;

/// Hands on each removed entry in turn: true after all of them, false where the sink refused.
pub(crate) fn walk<S: Sink>(histories: &[History], sink: &mut S) -> bool
    ensures { Hands S.takes sink.old (map (λ h. h.entry) (filter (λ h. not (is_held h.entry)) histories.now)) (Ok result) sink.new }
{
    for history in histories {
        if history.entry.removal.is_some() && !sink.take(&history.entry) {
            return false;
        }
    }
    true
}
