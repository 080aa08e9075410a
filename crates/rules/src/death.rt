// What a snake died of, in one byte: an Option of the enum takes two, and then eight events do not lie as their bytes do.
ghost use Rattle.std.specs.Prelude.{◌≡◌, ◌≤◌};
ghost use Rattle.rules.specs.Causes.{cause_number};

use crate::Cause;
use std::marker::Model;

// A cause or none, by its number; a contract sees the Option.
#[derive(Clone, Copy)]
pub struct DeathCause {
    code: u8,
}

impl Model for DeathCause {
    ghost use Rattle.std.specs.Prelude.{Option};
    ghost use Rattle.rules.specs.declared.Cause.{Cause};

    ghost Value = { Option Cause };

    ghost use Rattle.std.specs.Prelude.{◌≤◌};
    ghost use Rattle.rules.specs.Causes.{cause_number, cause_in, code_back};

    ghost view = { λ d. cause_in d.code };

    ghost invariant = { λ d. d.code ≤ 4 };

    ghost inverse = { λ c. record { code = cause_number c } };

    ghost inverse_ok = { λ d h. rw (code_back d.code h) };
}

impl DeathCause {
    pub fn new(cause: Option<Cause>) -> DeathCause
        ensures { result ≡ cause }
    {
        let code = match cause {
            None => 0,
            Some(Cause::Wall) => 1,
            Some(Cause::SelfBody) => 2,
            Some(Cause::OppBody) => 3,
            Some(Cause::HeadOn) => 4,
        };
        DeathCause { code }
    }

    pub fn get(self) -> Option<Cause>
        ensures { result ≡ self }
    {
        match self.code {
            1 => Some(Cause::Wall),
            2 => Some(Cause::SelfBody),
            3 => Some(Cause::OppBody),
            4 => Some(Cause::HeadOn),
            _ => None,
        }
    }

    pub fn number(self) -> u8
        ensures { (result ≡ cause_number self) × (result ≤ 4) }
    {
        self.code
    }
}
