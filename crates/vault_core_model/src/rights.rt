//! What a caller may do.
ghost use Rattle.std.specs.Prelude.{◌≡◌, ◌≢◌, ◌≤◌, ◌<◌, ◌^◌, length, map, MatchOption};
ghost use Rattle.vault_core_model.specs.Rights.{no_rights, with_right, has, digits_number, with_digits, rights_number};
ghost use Rattle.vault_core_model.specs.declared.rights.Rights.{Rights};

use vault_base::right::Right;

/// The rights of a caller: for each right, whether the caller has it.
#[derive(Clone, Copy, Debug, PartialEq, Eq)]
pub struct Rights {
    pub admin: bool,
    pub config: bool,
    pub put: bool,
    pub retain: bool,
    pub hold: bool,
    pub get: bool,
    pub list: bool,
    pub delete: bool,
    pub delete_version: bool,
    pub run: bool,
    pub report: bool,
    pub bypass: bool,
}

impl Rights {
    /// No right at all.
    pub fn none() -> Rights
        ensures { result ≡ no_rights }
    {
        Rights {
            admin: false,
            config: false,
            put: false,
            retain: false,
            hold: false,
            get: false,
            list: false,
            delete: false,
            delete_version: false,
            run: false,
            report: false,
            bypass: false,
        }
    }

    /// These rights and one more. A right given twice counts once.
    pub fn with(self, right: Right) -> Rights
        ensures { result ≡ with_right right self }
    {
        let mut rights = self;
        match right {
            Right::Admin => rights.admin = true,
            Right::Config => rights.config = true,
            Right::Put => rights.put = true,
            Right::Retain => rights.retain = true,
            Right::Hold => rights.hold = true,
            Right::Get => rights.get = true,
            Right::List => rights.list = true,
            Right::Delete => rights.delete = true,
            Right::DeleteVersion => rights.delete_version = true,
            Right::Run => rights.run = true,
            Right::Report => rights.report = true,
            Right::Bypass => rights.bypass = true,
        }
        rights
    }

    /// Whether a right is among them.
    pub fn has(self, right: Right) -> bool
        ensures { result ≡ has self right }
    {
        match right {
            Right::Admin => self.admin,
            Right::Config => self.config,
            Right::Put => self.put,
            Right::Retain => self.retain,
            Right::Hold => self.hold,
            Right::Get => self.get,
            Right::List => self.list,
            Right::Delete => self.delete,
            Right::DeleteVersion => self.delete_version,
            Right::Run => self.run,
            Right::Report => self.report,
            Right::Bypass => self.bypass,
        }
    }

    /// Their number: a binary digit for each right, the first of `Right::ALL` being the lowest.
    #[tactic(auto, unfolding(crate::specs::Rights::rights_number))]
    pub fn number(self) -> u32
        ensures { result ≡ rights_number self }
    {
        digits_number(self, &Right::ALL)
    }

    /// The rights of that number. No rights have a number with more digits than there are rights.
    #[tactic(auto, using(crate::proofs::RightLemmas::of_number, crate::proofs::RightLemmas::is_below))]
    pub fn of_number(number: u32) -> Option<Rights>
        ensures { MatchOption result ((r : Rights) → rights_number r ≢ number) (λ r. rights_number r ≡ number) }
    {
        if number >= NUMBERS {
            return None;
        }
        Some(with_digits(&Right::ALL, number))
    }
}

/// The least number with more digits than there are rights.
const NUMBERS: u32 = 1 << Right::ALL.len();

/// The number of which each digit says whether one of these rights is held.
#[tactic(auto, using(crate::proofs::RightLemmas::fits))]
fn digits_number(held: Rights, rights: &[Right]) -> u32
    requires { length rights.now ≤ 32 }
    ensures value { result ≡ digits_number (map (has held) rights.now) }
    ensures most { result < 2 ^ length rights.now }
{
    match rights {
        [] => 0,
        [right, rest @ ..] => u32::from(held.has(*right)) + 2 * digits_number(held, rest),
    }
}

/// Those of these rights whose digit is set in the number.
fn with_digits(rights: &[Right], number: u32) -> Rights
    ensures { result ≡ with_digits rights.now number }
{
    match rights {
        [] => Rights::none(),
        [right, rest @ ..] => {
            let others = with_digits(rest, number / 2);
            if number % 2 == 1 {
                others.with(*right)
            } else {
                others
            }
        }
    }
}
