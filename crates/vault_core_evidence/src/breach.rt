//! The laws that a history may break.
ghost use Rattle.std.specs.Prelude.{◌≡◌};
ghost use Rattle.vault_core_evidence.specs.Breaches.{law_name};

use vault_base::name::VersionId;

/// What commands keep of every entry.
#[derive(Clone, Copy, Debug, PartialEq, Eq)]
pub enum Law {
    /// Its author is a caller who may admit that kind of entry: a version, where the caller is of the department of its
    /// first tenure; a marker, which has no tenure, where the caller is of any department. A rule admits markers.
    Admission,
    /// Its first setting is of the moment and the caller of its admission, and by no bypass; its retention ends after that.
    FirstSetting,
    /// No setting is before the one before it; none is after the removal, and nothing after the last moment.
    Order,
    /// Each later setting gives a retention or a hold that the lock before it permits.
    Setting,
    /// Each setting is by a caller who has the right to it; of a first setting a hold alone wants one, as its retention
    /// may be the bucket's default.
    Setter,
    /// Its removal was permitted by the last lock.
    Removal,
    /// Its removal is by a caller who may remove versions, or by a rule.
    Remover,
    /// Tenures of one number are of one bucket, one department and one moment.
    Move,
    /// As each second ended, it was of the department of the other versions of its bucket that were held then.
    Department,
    /// The vault has the caller whom a new vault has, of no department and with the right to administer alone.
    Registrar,
}

impl Law {
    /// Its name, as `first-setting`.
    pub fn name(self) -> &'static str
        ensures { result.now ≡ law_name self }
    {
        match self {
            Law::Admission => "admission",
            Law::FirstSetting => "first-setting",
            Law::Order => "order",
            Law::Setting => "setting",
            Law::Setter => "setter",
            Law::Removal => "removal",
            Law::Remover => "remover",
            Law::Move => "move",
            Law::Department => "department",
            Law::Registrar => "registrar",
        }
    }
}

/// An entry that commands can't have made so, and the first law that it breaks.
#[derive(Clone, Copy)]
pub struct Breach {
    pub id: VersionId,
    pub law: Law,
}
