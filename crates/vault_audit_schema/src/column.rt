//! The columns of a table, and those of them that refer to another table.

ghost use Rattle.std.specs.Prelude.{◌≡◌, ◌↔◌, [], ◌∷◌, IsTrue};
ghost use Rattle.vault_audit_model.specs.Tables.{column_as};
ghost use Rattle.vault_audit_schema.specs.Forms.{column_of, reference_of};

use crate::compare::Form;
use sqlite_schema::schema::{Action, Column, Kind, Reference};
use sqlite_value::keys::Collation;
use sqlite_value::value::{Bytes, Value};
use vault_base::refusal::Table;

/// A column of a STRICT table, with no default.
#[derive(Clone, Copy, Debug)]
pub(crate) enum ColumnForm {
    /// It is never NULL.
    Has(&'static str, Kind),
    MayHave(&'static str, Kind),
}

/// A column, by its number from 0, whose value stands in a column of another table.
#[derive(Clone, Copy, Debug)]
pub(crate) struct ReferenceForm {
    pub(crate) at: usize,
    pub(crate) parent: Table,
    pub(crate) column: &'static str,
}

fn is_column(it: &Column, not_null: bool, name: &str, kind: Kind) -> bool
    ensures { IsTrue result ↔ (it.now ≡ column_as not_null name.now kind) }
{
    it.name.as_slice() == name.as_bytes()
        && it.kind == kind
        && it.is_strict
        && it.not_null == not_null
        && matches!(it.default, Value::Null)
        && it.collation == Collation::Binary
}

fn is_one_name(names: &[Bytes], name: &str) -> bool
    ensures { IsTrue result ↔ (names.now ≡ name.now ∷ []) }
{
    match names {
        [only] => only.as_slice() == name.as_bytes(),
        _ => false,
    }
}

impl Form<Column> for ColumnForm {
    ghost shape = { column_of };

    fn is_form_of(&self, part: &Column) -> bool {
        match *self {
            ColumnForm::Has(name, kind) => is_column(part, true, name, kind),
            ColumnForm::MayHave(name, kind) => is_column(part, false, name, kind),
        }
    }
}

impl Form<Reference> for ReferenceForm {
    ghost shape = { reference_of };

    fn is_form_of(&self, part: &Reference) -> bool {
        part.columns.as_slice() == [self.at].as_slice()
            && part.parent.as_slice() == self.parent.name().as_bytes()
            && is_one_name(part.parent_columns.as_slice(), self.column)
            && part.on_delete == Action::NoAction
            && part.on_update == Action::NoAction
            && !part.is_deferred
    }
}
