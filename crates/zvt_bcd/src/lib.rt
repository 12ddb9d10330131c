//! Binary coded decimals, two digits to a byte, and the values that ZVT writes in them.
#![tactic(auto)]

mod amount;
mod currency;
mod digits;
mod lengths;
mod trace;

pub use amount::Amount;
pub use currency::Currency;
pub use digits::{is_digits, number, put};
pub use lengths::{ll_digit, ll_put, lll_put};
pub use trace::Trace;
