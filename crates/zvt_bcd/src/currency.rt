//! Currencies.
ghost use Rattle.std.specs.Prelude.{◌≡◌, ◌↔◌, ℕ, ◌≤◌, IsSome, IfSome};

use std::marker::Model;

/// A currency by its ISO 4217 number, in two bytes of BCD. The euro is 978.
#[derive(Clone, Copy, Debug, PartialEq, Eq)]
pub struct Currency {
    number: u16,
}

impl Model for Currency {
    ghost Value = { ℕ };

    ghost view = { λ currency. currency.number };

    ghost inverse = { λ number. record { number = number } };

    ghost invariant = { λ currency. currency.number ≤ 9999 };
}

impl Currency {
    /// The euro.
    pub const EURO: Currency = Currency { number: 978 };

    /// Returns the currency with this number, or `None` above 9,999.
    pub fn new(number: u16) -> Option<Currency>
        ensures given { IsSome result ↔ (number ≤ 9999) }
        ensures value { IfSome result (λ currency. currency ≡ number) }
    {
        if number <= 9_999 {
            Some(Currency { number })
        } else {
            None
        }
    }

    /// Returns the number.
    pub fn get(self) -> u16
        ensures value { result ≡ self }
        ensures most { result ≤ 9999 }
    {
        self.number
    }
}
