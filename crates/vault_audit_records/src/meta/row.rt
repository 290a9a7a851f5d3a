//! The row of `meta`: it is the only one, and of the schema's number.
use crate::row_check::refused;
use sqlite::{Error, Row};
use vault_audit_model::rows::MetaRow;
use vault_audit_model::schema::SchemaVersion;
use vault_audit_rows::records::read_meta;
use vault_audit_rows::walk::Pass;

/// The check of `meta`, and the row that it met.
#[derive(Drop)]
pub struct MetaPass {
    pub schema_version: SchemaVersion,
    pub found: Option<MetaRow>,
}

impl Pass for MetaPass {
    ghost use Rattle.vault_audit_rows.specs.Pass.{Takes, Refuses};
    ghost use Rattle.vault_audit_model.specs.Rows.{meta_row};
    ghost use Rattle.vault_audit_records.specs.Meta.{IsFirstMeta, with_meta};

    ghost goes = { λ p row q. Takes meta_row IsFirstMeta with_meta p row q };

    ghost stops = { λ p row. Refuses meta_row IsFirstMeta with_meta p row };

    fn take(&mut self, row: &Row) -> Result<bool, Error> {
        if self.found.is_some() {
            return Ok(false);
        }
        match read_meta(row) {
            Ok(meta) => {
                if meta.schema != self.schema_version.number() {
                    return Ok(false);
                }
                self.found = Some(meta);
                Ok(true)
            }
            Err(misread) => refused(misread),
        }
    }
}
