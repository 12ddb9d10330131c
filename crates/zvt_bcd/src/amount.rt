//! Amounts of money.
ghost use Rattle.std.specs.Prelude.{◌≡◌, ◌↔◌, ℕ, ◌≤◌, IsSome, IfSome};

use std::marker::Model;

/// An amount in the smallest unit of its currency: six bytes of BCD that are not all zero.
#[derive(Clone, Copy, Debug, PartialEq, Eq)]
pub struct Amount {
    units: u64,
}

impl Model for Amount {
    ghost Value = { ℕ };

    ghost view = { λ amount. amount.units };

    ghost inverse = { λ units. record { units = units } };

    ghost invariant = { λ amount. (1 ≤ amount.units) × (amount.units ≤ 999999999999) };
}

impl Amount {
    /// Returns an amount of 1 to 999,999,999,999 units, or `None` outside this range.
    pub fn new(units: u64) -> Option<Amount>
        ensures given { IsSome result ↔ ((1 ≤ units) × (units ≤ 999999999999)) }
        ensures value { IfSome result (λ amount. amount ≡ units) }
    {
        if (1..=999_999_999_999).contains(&units) {
            Some(Amount { units })
        } else {
            None
        }
    }

    /// Returns the number of units.
    pub fn get(self) -> u64
        ensures value { result ≡ self }
        ensures least { 1 ≤ result }
        ensures most { result ≤ 999999999999 }
    {
        self.units
    }
}
