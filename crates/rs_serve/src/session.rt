//! The number of a session.
//!
//! `Session` promises that the number is from 0 to 63, and that `number` gives it as it was made.

ghost use Rattle.std.specs.Prelude.{◌≡◌, ℕ, ◌<◌};
ghost use Rattle.rs_machine.specs.declared.limits.TheConstants.{SESSIONS};

use rs_machine::limits::SESSIONS;
use std::marker::Model;

/// The number of a session, from 0 to 63.
#[derive(Clone, Copy, PartialEq, Eq, Debug)]
pub struct Session {
    number: u8,
}

impl Model for Session {
    ghost Value = { ℕ };

    ghost view = { λ s. s.number };

    ghost invariant = { λ s. s.number < SESSIONS };

    ghost inverse = { λ n. record { number = n } };
}

impl Session {
    /// The session of this number.
    pub fn from_number(number: u8) -> Self
        requires { number < SESSIONS }
        ensures { result ≡ number }
    {
        Session { number }
    }

    /// Its number.
    pub fn number(self) -> u8
        ensures value { result ≡ self }
        ensures in_range { self < SESSIONS }
    {
        self.number
    }
}
