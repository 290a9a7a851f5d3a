//! Rows of `intake`.
ghost use Rattle.std.specs.Prelude.{◌≡◌, OnOk};
ghost use Rattle.vault_base.specs.declared.refusal.Table.TheVariants as table;
ghost use Rattle.vault_audit_model.specs.Rows.{note_row};
ghost use Rattle.vault_store_model.specs.Edits.{with_row};
ghost use Rattle.vault_store_edits.specs.Inside.{IsEdit};
ghost use Rattle.vault_store_edits.specs.Typed.{IsTypedNote};

use crate::parameters::{retention_mode, until, whole};
use crate::put::{Put, put_row};
use sqlite::{Alter, Error, Transaction, params};
use vault_audit_schema::{insert_text, intake_columns};
use vault_core_model::records::Note;

impl Put for Note {
    ghost use Rattle.std.specs.Prelude.{OnOk};
    ghost use Rattle.vault_base.specs.declared.refusal.Table.TheVariants as table;
    ghost use Rattle.vault_audit_model.specs.Rows.{note_row};
    ghost use Rattle.vault_store_edits.specs.NoteLaws.{note_inserts};
    ghost use Rattle.vault_store_edits.specs.Typed.{IsTypedNote};

    ghost table = { table.Intake };

    ghost as_row = { note_row };

    ghost typed = { λ n r. OnOk r (IsTypedNote n) };

    fn insert<S: Alter>(&self, tx: &mut Transaction<'_, S>) -> Result<usize, Error> {
        let size = whole(self.size)?;
        tx.execute(
            intake_columns!(insert_text),
            params![
                self.bucket.as_str(),
                self.batch.as_str(),
                self.line,
                self.key.as_str(),
                size,
                self.digest.as_slice(),
                retention_mode(self.retention),
                until(self.retention),
                self.hold,
                self.id.number(),
            ],
        )
    }

    ghost inserts = { λ external there. note_inserts external };
}

/// Puts in the note of an accepted line. `TooBig` where its size is 2^63 or more.
pub fn put_note<S: Alter>(tx: &mut Transaction<'_, S>, note: &Note) -> Result<usize, Error>
    ensures same_reference { tx.new.conn.ghost_name ≡ tx.old.conn.ghost_name }
    ensures edit { IsEdit S.Store tx.old.conn.now tx.new.conn.now result (with_row table.Intake (note_row note.now)) }
    ensures limits { OnOk result (IsTypedNote note.now) }
{
    put_row(tx, note)
}
