//! Words for retention modes, holds, and whether a rule is enabled.
ghost use Rattle.std.specs.Prelude.{◌≡◌};
ghost use Rattle.vault_values.specs.Words as spec;

use vault_lock::retention::Mode;

/// `GOVERNANCE` or `COMPLIANCE`.
pub fn mode_name(mode: Mode) -> &'static str
    ensures { result.now ≡ spec.mode_name mode }
{
    match mode {
        Mode::Governance => "GOVERNANCE",
        Mode::Compliance => "COMPLIANCE",
    }
}

/// The mode of that name.
pub fn mode_named(text: &str) -> Option<Mode>
    ensures { result ≡ spec.mode_named text.now }
{
    match text {
        "GOVERNANCE" => Some(Mode::Governance),
        "COMPLIANCE" => Some(Mode::Compliance),
        _ => None,
    }
}

/// `ON` or `OFF`.
pub fn hold_name(hold: bool) -> &'static str
    ensures { result.now ≡ spec.hold_name hold }
{
    if hold { "ON" } else { "OFF" }
}

/// Whether a hold of that name is on.
pub fn hold_named(text: &str) -> Option<bool>
    ensures { result ≡ spec.hold_named text.now }
{
    match text {
        "ON" => Some(true),
        "OFF" => Some(false),
        _ => None,
    }
}

/// `Enabled` or `Disabled`.
pub fn status_name(enabled: bool) -> &'static str
    ensures { result.now ≡ spec.status_name enabled }
{
    if enabled { "Enabled" } else { "Disabled" }
}

/// Whether a rule of that status is enabled.
pub fn status_named(text: &str) -> Option<bool>
    ensures { result ≡ spec.status_named text.now }
{
    match text {
        "Enabled" => Some(true),
        "Disabled" => Some(false),
        _ => None,
    }
}
