//! Rows of `settings`.
ghost use Rattle.std.specs.Prelude.{◌≡◌};
ghost use Rattle.vault_base.specs.declared.refusal.Table.TheVariants as table;
ghost use Rattle.vault_audit_model.specs.Rows.{setting_row};
ghost use Rattle.vault_store_model.specs.Edits.{with_row};
ghost use Rattle.vault_store_edits.specs.Inside.{IsEdit};
ghost use Rattle.vault_store_edits.specs.Typed.{IsTypedSetting};

use crate::parameters::{retention_mode, seconds, until};
use crate::put::{Put, put_row};
use sqlite::{Alter, Error, Transaction, params};
use vault_audit_schema::{insert_text, settings_columns};
use vault_base::name::VersionId;
use vault_core_model::records::Setting;

/// A setting of a version, at its place.
#[derive(Clone, Copy)]
struct NewSetting<'a> {
    id: VersionId,
    place: u32,
    setting: &'a Setting,
}

impl<'a> Put for NewSetting<'a> {
    ghost use Rattle.vault_base.specs.declared.refusal.Table.TheVariants as table;
    ghost use Rattle.vault_audit_model.specs.Rows.{setting_row};
    ghost use Rattle.vault_store_edits.specs.SettingLaws.{setting_inserts};
    ghost use Rattle.vault_store_edits.specs.Typed.{IsTypedSetting};

    ghost table = { table.Settings };

    ghost as_row = { λ x. setting_row (record { id = x.id; place = x.place; setting = x.setting.now }) };

    ghost typed = { λ x r. IsTypedSetting x.setting.now };

    fn insert<S: Alter>(&self, tx: &mut Transaction<'_, S>) -> Result<usize, Error> {
        tx.execute(
            settings_columns!(insert_text),
            params![
                self.id.number(),
                self.place,
                seconds(self.setting.at),
                self.setting.by.as_str(),
                retention_mode(self.setting.lock.retention),
                until(self.setting.lock.retention),
                self.setting.lock.hold,
                self.setting.bypass,
            ],
        )
    }

    ghost inserts = { λ external there x. setting_inserts external (record { id = x.id; place = x.place; setting = x.setting.now }) };
}

/// Puts in a setting of a version at its place, counted from 1.
pub fn put_setting<S: Alter>(
    tx: &mut Transaction<'_, S>,
    id: VersionId,
    place: u32,
    setting: &Setting,
) -> Result<usize, Error>
    ensures same_reference { tx.new.conn.ghost_name ≡ tx.old.conn.ghost_name }
    ensures edit { IsEdit S.Store tx.old.conn.now tx.new.conn.now result (with_row table.Settings (setting_row (record { id = id; place = place; setting = setting.now }))) }
    ensures limits { IsTypedSetting setting.now }
{
    put_row(tx, &NewSetting { id, place, setting })
}
