//! The last moment that an entry shows.
ghost use Rattle.std.specs.Prelude.{◌≡◌, max, fold, map};
ghost use Rattle.std.specs.Option.{option_to_list};
ghost use Rattle.vault_core_evidence.specs.Departments.{removed_at};
ghost use Rattle.vault_core_evidence.specs.Shown.{shown_by};

use vault_base::moment::Moment;
use vault_core_model::records::{Entry, Setting, Tenure};

/// The moment that is before all others.
pub(crate) fn first_moment() -> Moment
    ensures { result ≡ 0 }
{
    Moment::from_secs(0).unwrap()
}

/// The later of two moments.
pub(crate) fn later(one: Moment, other: Moment) -> Moment
    ensures { result ≡ max one other }
{
    if one < other { other } else { one }
}

fn last_set(from: Moment, settings: &[Setting]) -> Moment
    ensures { result ≡ fold max from (map (λ s. s.at) settings.now) }
{
    let mut last = from;
    let mut rest = settings;
    while let [setting, others @ ..] = rest {
        last = later(last, setting.at);
        rest = others;
    }
    last
}

fn last_begun(from: Moment, tenures: &[Tenure]) -> Moment
    ensures { result ≡ fold max from (map (λ t. t.from) tenures.now) }
{
    let mut last = from;
    let mut rest = tenures;
    while let [tenure, others @ ..] = rest {
        last = later(last, tenure.from);
        rest = others;
    }
    last
}

fn last_removed(from: Moment, entry: &Entry) -> Moment
    ensures { result ≡ fold max from (option_to_list (removed_at entry.now)) }
{
    match &entry.removal {
        Some(removal) => later(from, removal.at),
        None => from,
    }
}

/// The last moment of an entry's admission, settings, tenures and removal.
pub(crate) fn shown_by(entry: &Entry, settings: &[Setting], tenures: &[Tenure]) -> Moment
    ensures { result ≡ shown_by entry.now settings.now tenures.now }
{
    let set = last_set(entry.admitted, settings);
    let begun = last_begun(set, tenures);
    last_removed(begun, entry)
}
