//! The parameters of the statements: values of records as a statement takes them.
ghost use Rattle.std.specs.Prelude.{◌≡◌, ◌≤◌, pos, IfOk, IfSome, option_map, option_and_then};
ghost use Rattle.sqlite_value.specs.declared.value.Value.TheVariants.{Text};
ghost use Rattle.sqlite.specs.Values.{or_null};
ghost use Rattle.vault_base.specs.Days.{last_moment};
ghost use Rattle.vault_core_model.specs.Rights.{rights_number};
ghost use Rattle.vault_audit_model.specs.Limits.{IsPlainName, IsRetention};
ghost use Rattle.vault_audit_model.specs.Rows.{mode_number, days_of, years_of};
ghost use Rattle.vault_audit_model.specs.Values.{text_or_null};

use sqlite::{Error, ErrorCode};
use vault_base::moment::Moment;
use vault_base::name::DeptName;
use vault_core_model::rights::Rights;
use vault_lock::retention::{Default, Mode, Period, Retention};
use vault_rules::rule::Noncurrent;

/// A number. `TooBig` where it is 2^63 or more, which no column takes.
pub fn whole(number: u64) -> Result<i64, Error>
    ensures { IfOk result (λ value. value ≡ pos number) }
{
    match i64::try_from(number) {
        Ok(value) => Ok(value),
        Err(_) => Err(Error::SqliteFailure(ErrorCode::TooBig)),
    }
}

/// A bound of sizes, or none.
pub fn bound(bound: Option<u64>) -> Result<Option<i64>, Error>
    ensures { IfOk result (λ value. value ≡ option_map pos bound) }
{
    match bound {
        Some(bound) => Ok(Some(whole(bound)?)),
        None => Ok(None),
    }
}

/// A moment, in seconds since 1970.
pub fn seconds(moment: Moment) -> i64
    ensures value { result ≡ pos moment }
    ensures range { moment ≤ last_moment }
{
    moment.secs() as i64
}

/// The end of a retention.
pub fn until(retention: Option<Retention>) -> Option<i64>
    ensures value { result ≡ option_map (λ r. pos r.until) retention }
    ensures limits { IfSome retention IsRetention }
{
    Some(seconds(retention?.until))
}

/// The number of a mode; none is 0.
pub fn mode_number(mode: Option<Mode>) -> u32
    ensures { result ≡ mode_number mode }
{
    match mode {
        None => 0,
        Some(Mode::Governance) => 1,
        Some(Mode::Compliance) => 2,
    }
}

/// The number of a retention's mode; none is 0.
pub fn retention_mode(retention: Option<Retention>) -> u32
    ensures { result ≡ mode_number (option_map (λ r. r.mode) retention) }
{
    match retention {
        Some(retention) => mode_number(Some(retention.mode)),
        None => 0,
    }
}

/// The number of a default's mode; none is 0.
pub fn default_mode(default: Option<Default>) -> u32
    ensures { result ≡ mode_number (option_map (λ d. d.mode) default) }
{
    match default {
        Some(default) => mode_number(Some(default.mode)),
        None => 0,
    }
}

/// The days of a default.
pub fn default_days(default: Option<Default>) -> Option<u32>
    ensures { result ≡ option_and_then (λ d. days_of d.period) default }
{
    match default?.period {
        Period::Days(days) => Some(days),
        Period::Years(_) => None,
    }
}

/// The years of a default.
pub fn default_years(default: Option<Default>) -> Option<u32>
    ensures { result ≡ option_and_then (λ d. years_of d.period) default }
{
    match default?.period {
        Period::Days(_) => None,
        Period::Years(years) => Some(u32::from(years)),
    }
}

/// The name of a department, if there is one.
pub fn dept_text(dept: &Option<DeptName>) -> Option<&str>
    ensures value { or_null (λ s. Text s.now) result ≡ text_or_null dept.now }
    ensures limits { IfSome dept.now IsPlainName }
{
    match dept {
        Some(dept) => Some(dept.as_str()),
        None => None,
    }
}

/// A digit for each right, the right to administer being the lowest.
pub fn rights_number(rights: Rights) -> u32
    ensures { result ≡ rights_number rights }
{
    rights.number()
}

/// The days of an action on noncurrent entries.
pub fn noncurrent_days(noncurrent: Option<Noncurrent>) -> Option<u32>
    ensures { result ≡ option_map (λ n. n.days) noncurrent }
{
    Some(noncurrent?.days)
}

/// How many newer entries an action on noncurrent entries keeps.
pub fn noncurrent_newer(noncurrent: Option<Noncurrent>) -> Option<u32>
    ensures { result ≡ option_and_then (λ n. n.newer) noncurrent }
{
    noncurrent?.newer
}
