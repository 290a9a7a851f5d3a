//! Numbers of decimal digits.
ghost use Rattle.std.specs.Prelude.{◌≡◌, ◌<◌, ◌≤◌, ◌^◌, IfOk, true};
ghost use Rattle.std.specs.Char.{is_ascii_digit};
ghost use Rattle.std.specs.List.{list_all};
ghost use Rattle.vault_http_target.specs.Number as spec;

use thiserror::Error;

/// Why a text is no number up to a limit.
#[derive(Clone, Copy, Debug, PartialEq, Eq, Error)]
pub enum NumberFault {
    /// It has no digit, or another byte.
    #[error("the text has no digit, or another byte")]
    Form,
    /// It is above the limit.
    #[error("the number is above its limit")]
    TooLarge,
}

fn are_digits(text: &[u8]) -> bool
    ensures { result ≡ list_all is_ascii_digit text.now }
{
    text.iter().all(|b| b.is_ascii_digit())
}

fn is_number(text: &[u8]) -> bool
    ensures { result ≡ spec.is_number text.now }
{
    if text.is_empty() {
        return false;
    }
    are_digits(text)
}

/// The number that digits write, if it is no greater than the limit. It is tested before each digit, so
/// that any number of digits is read.
#[tactic(auto, using(crate::proofs::Digits::value_grows))]
fn value_upto(text: &[u8], most: u64) -> Result<u64, NumberFault>
    requires small { most < 2 ^ 32 }
    requires digits { spec.is_number text.now ≡ true }
    ensures value { result ≡ spec.value_upto most text.now }
    ensures within { IfOk result (λ n. n ≤ most) }
{
    let mut total = 0u64;
    for b in text {
        if total > most {
            return Err(NumberFault::TooLarge);
        }
        total = total * 10 + u64::from(*b - b'0');
    }
    if total > most {
        return Err(NumberFault::TooLarge);
    }
    Ok(total)
}

/// The number that a text of decimal digits writes, with zeros in front or not, where it is no greater
/// than the limit.
#[tactic(auto, unfolding(crate::specs::Number::number_upto))]
pub fn number_upto(text: &[u8], most: u64) -> Result<u64, NumberFault>
    requires { most < 2 ^ 32 }
    ensures value { result ≡ spec.number_upto most text.now }
    ensures within { IfOk result (λ n. n ≤ most) }
{
    if !is_number(text) {
        return Err(NumberFault::Form);
    }
    value_upto(text, most)
}
