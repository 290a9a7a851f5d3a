//! The check of rows of `entries`: they state entries, none after the last moment.
ghost use Rattle.std.specs.Prelude.{◌↔◌, IsTrue};
ghost use Rattle.vault_core_model.specs.Sound.{LiesBetween};
ghost use Rattle.vault_audit_model.specs.Relations.{IsPast};

use crate::row_check::refused;
use sqlite::{Error, Row};
use vault_audit_rows::check::Check;
use vault_audit_rows::records::read_entry;
use vault_base::moment::Moment;
use vault_core_model::records::{Entry, Removal};

/// The check of single rows of `entries`.
#[derive(Drop)]
pub struct EntryCheck {
    /// Whether the vault may register contents that are kept outside.
    pub external: bool,
    /// The last moment.
    pub last: Moment,
}

/// Whether a removal, where there is one, lies from one moment to another.
fn lies_between(admitted: Moment, last: Moment, removal: &Option<Removal>) -> bool
    ensures { IsTrue result ↔ LiesBetween admitted last removal.now }
{
    match removal {
        None => true,
        Some(removal) => admitted <= removal.at && removal.at <= last,
    }
}

/// Whether an entry was admitted, and removed if it was, by the last moment and in that order.
fn is_past(last: Moment, entry: &Entry) -> bool
    ensures { IsTrue result ↔ IsPast last entry.now }
{
    entry.admitted <= last && lies_between(entry.admitted, last, &entry.removal)
}

impl Check for EntryCheck {
    ghost use Rattle.vault_audit_model.specs.Rows.{entry_row};
    ghost use Rattle.vault_audit_rows.specs.Records.{ReportsOne};
    ghost use Rattle.vault_audit_records.specs.Entries.{IsEntryBy};

    ghost takes = { λ c. ReportsOne entry_row (IsEntryBy c.external c.last) };

    #[tactic(auto, using(crate::proofs::EntryLemmas::as_past))]
    fn is_passed_by(&self, row: &Row) -> Result<bool, Error> {
        match read_entry(row, self.external) {
            Ok(entry) => Ok(is_past(self.last, &entry)),
            Err(misread) => refused(misread),
        }
    }
}
