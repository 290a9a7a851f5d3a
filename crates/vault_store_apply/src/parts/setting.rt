//! One setting more of a version.
use sqlite::{Alter, Error, Transaction};
use vault_base::moment::Moment;
use vault_base::name::VersionId;
use vault_core_model::records::Setting;
use vault_store_edits::meta::set_last;
use vault_store_edits::settings::put_setting;
use vault_store_edits::transaction::Part;

/// A setting of a version at its place, counted from 1, from a moment on.
#[derive(Drop)]
pub struct NewSetting<'a> {
    pub at: Moment,
    pub id: VersionId,
    pub place: u32,
    pub setting: &'a Setting,
}

impl<S: Alter> Part<S> for NewSetting<'_> {
    ghost use Rattle.std.specs.Prelude.{◌≤◌};
    ghost use Rattle.vault_base.specs.Days.{last_moment};
    ghost use Rattle.vault_store_edits.specs.Typed.{IsTypedSetting};
    ghost use Rattle.vault_store_apply.specs.EntryParts.{setting_added};

    ghost edit = { λ part. setting_added part.id part.place part.setting.now part.at };

    ghost limits = { λ part. (part.at ≤ last_moment) × IsTypedSetting part.setting.now };

    fn make(&self, tx: &mut Transaction<'_, S>) -> Result<(), Error> {
        put_setting(tx, self.id, self.place, self.setting)?;
        set_last(tx, self.at)?;
        Ok(())
    }
}
