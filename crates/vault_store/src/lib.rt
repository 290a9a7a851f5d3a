//! A vault in tables: the keeper over a `sqlite` connection, vaults of earlier schema versions copied, and the law of
//! what is found after a crash.
#![tactic(auto)]

mod blame;
pub mod edition;
mod find;
pub mod in_tables;
mod laws;
mod look;
mod migrate;
pub mod opening;
mod shut;
pub mod sql_keeper;

ghost use Rattle.vault_store.specs.Acknowledged.{FindsItAlone, FindsWhatIsLeft, FindsWhatIsKept, FindsTheRun};

use sqlite::Alter;
pub use vault_store_create::create;

/// Of each keeper, whatever was asked of it and whatever it answered: an opening after a crash finds sound
/// tables, of its vault, which has all changes that were acknowledged, or of that with one change more, which
/// was refused after them. So it finds the machine's vault after the commands that were carried out, or that
/// with one change more.
pub fn openings_find_what_was_acknowledged<S: Alter, T: Alter>()
    // Of a connection of which a crash leaves a vault, or it with one of some changes: what is handed on.
    ensures left { FindsWhatIsLeft S.Store T.Store }
    ensures kept { FindsWhatIsKept S.Store T.Store }
    // While the connection of the keeper is open, its vault and nothing else.
    ensures alone { FindsItAlone S.Store T.Store }
    ensures run { FindsTheRun S.Store T.Store }
{}
