//! Identifiers of S-VLANs.

ghost use Rattle.std.specs.Prelude.{◌≡◌, ◌≤◌, ◌↔◌, IsSome, IfSome};

use std::marker::Model;

/// The VID of a service, 1 to 4,094 (IEEE 802.1Q clause 9.6). Contracts see the number.
#[derive(Clone, Copy, Debug, PartialEq, Eq, Hash)]
pub struct Vid {
    number: u16,
}

impl Model for Vid {
    ghost use Rattle.std.specs.Prelude.{ℕ, ◌≤◌};

    ghost Value = { ℕ };

    ghost view = { λ v. v.number };

    ghost invariant = { λ v. (1 ≤ v.number) × (v.number ≤ 4094) };

    ghost inverse = { λ n. record { number = n } };
}

impl Vid {
    /// Returns the VID with this number, or `None` if it is 0 or above 4,094.
    pub fn new(number: u16) -> Option<Vid>
        ensures some { IsSome result ↔ ((1 ≤ number) × (number ≤ 4094)) }
        ensures value { IfSome result (λ v. v ≡ number) }
    {
        if number == 0 || number > 4094 {
            return None;
        }
        Some(Vid { number })
    }

    /// Returns the number, 1 to 4,094.
    pub fn number(self) -> u16
        ensures value { result ≡ self }
        ensures low { 1 ≤ result }
        ensures high { result ≤ 4094 }
    {
        self.number
    }
}
