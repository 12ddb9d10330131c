//! Trace numbers.
ghost use Rattle.std.specs.Prelude.{◌≡◌, ◌↔◌, ℕ, ◌≤◌, IsSome, IfSome};

use std::marker::Model;

/// The number under which a terminal keeps a payment or a reversal: three bytes of BCD.
#[derive(Clone, Copy, Debug, PartialEq, Eq)]
pub struct Trace {
    number: u32,
}

impl Model for Trace {
    ghost Value = { ℕ };

    ghost view = { λ trace. trace.number };

    ghost inverse = { λ number. record { number = number } };

    ghost invariant = { λ trace. trace.number ≤ 999999 };
}

impl Trace {
    /// Returns the trace number, or `None` above 999,999.
    pub fn new(number: u32) -> Option<Trace>
        ensures given { IsSome result ↔ (number ≤ 999999) }
        ensures value { IfSome result (λ trace. trace ≡ number) }
    {
        if number <= 999_999 {
            Some(Trace { number })
        } else {
            None
        }
    }

    /// Returns the number.
    pub fn get(self) -> u32
        ensures value { result ≡ self }
        ensures most { result ≤ 999999 }
    {
        self.number
    }
}
