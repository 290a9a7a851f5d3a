//! Whether the settings of each id stand at the places 1, 2, 3 ..
ghost use Rattle.std.specs.Prelude.{◌↔◌, IsTrue, IfOk, IfErr};
ghost use Rattle.sqlite.specs.State.{HasCleanDisk};
ghost use Rattle.sqlite.specs.Held.{state};
ghost use Rattle.vault_audit_entries.specs.SettingPlaces.{IsNext, DecidesPlaces};
ghost use Rattle.vault_audit_rows.specs.Health.{IsHealthy, IsMemory, IsOfSchemaVersion, OnlyLooks};

use sqlite::{Alter, Connection, Error, ErrorCode, Row};
use vault_audit_model::rows::SettingRow;
use vault_audit_model::schema::SchemaVersion;
use vault_audit_rows::misread::Misread;
use vault_audit_rows::records::read_setting;
use vault_audit_rows::walk::{Pass, walk};
use vault_audit_schema::{select_text, settings_columns};

/// The check of settings by rising id and place.
#[derive(Drop)]
pub struct SettingPass {
    /// The id of the last setting.
    pub id: u64,
    /// The place that comes next under that id.
    pub next: u64,
}

impl SettingPass {
    /// Whether the setting may come now.
    fn fits(&self, setting: &SettingRow) -> bool
        ensures { IsTrue result ↔ IsNext self.now setting.now }
    {
        let id = u64::from(setting.id.number());
        let place = u64::from(setting.place);
        (id == self.id && place == self.next) || (self.id < id && place == 1)
    }
}

impl Pass for SettingPass {
    ghost use Rattle.vault_audit_rows.specs.Pass.{Takes, Refuses};
    ghost use Rattle.vault_audit_model.specs.Rows.{setting_row};
    ghost use Rattle.vault_audit_entries.specs.SettingPlaces.{ComesNext, with_setting};

    ghost goes = { λ p row q. Takes setting_row ComesNext with_setting p row q };

    ghost stops = { λ p row. Refuses setting_row ComesNext with_setting p row };

    #[tactic(auto, using(crate::proofs::SettingRowLemmas::one_setting))]
    fn take(&mut self, row: &Row) -> Result<bool, Error> {
        let setting = match read_setting(row) {
            Ok(setting) => setting,
            Err(Misread::Wrong) => return Ok(false),
            Err(Misread::Memory) => return Err(Error::SqliteFailure(ErrorCode::OutOfMemory)),
        };
        if !self.fits(&setting) {
            drop(setting);
            return Ok(false);
        }
        self.id = u64::from(setting.id.number());
        self.next = u64::from(setting.place) + 1;
        drop(setting);
        Ok(true)
    }
}

/// Whether the rows of `settings` hold settings in their limits, which stand at the places
/// 1, 2, 3 .. of each id that has any.
pub(crate) fn are_placed<S: Alter>(
    conn: &mut Connection<S>,
    schema_version: SchemaVersion,
) -> Result<bool, Error>
    requires { IsOfSchemaVersion S.Store conn.old schema_version }
    ensures reported { HasCleanDisk (state S.Store conn.new) → IfOk result (DecidesPlaces (state S.Store conn.new).now) }
    ensures look { OnlyLooks S.Store conn.old conn.new result }
    ensures err { IsHealthy (state S.Store conn.new) → IfErr result IsMemory }
{
    let mut pass = SettingPass { id: 0, next: 0 };
    walk(
        conn,
        settings_columns!(select_text, " ORDER BY id, n"),
        &mut pass,
    )
}
