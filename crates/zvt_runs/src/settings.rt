//! The words for a till's settings.
ghost use Rattle.std.specs.Prelude.{◌≡◌, ◌∷◌, []};
ghost use Rattle.zvt_runs.specs.Settings.{config_of, currency_of, digits_of, password_of};

use crate::arguments::digit;
use zvt_bcd::Currency;

/// Parses a byte of two decimal digits.
fn digits(high: u8, low: u8) -> Option<u8>
    ensures { result ≡ digits_of high low }
{
    if high.is_ascii_digit() && low.is_ascii_digit() {
        Some((high - b'0') * 16 + (low - b'0'))
    } else {
        None
    }
}

/// Parses a password of six decimal digits.
pub fn password_of(word: &str) -> Option<[u8; 3]>
    ensures { result ≡ password_of word.now }
{
    match word.as_bytes() {
        [a, b, c, d, e, f] => Some([digits(*a, *b)?, digits(*c, *d)?, digits(*e, *f)?]),
        _ => None,
    }
}

/// Parses a configuration byte of two hexadecimal digits, in upper or lower case.
pub fn config_of(word: &str) -> Option<u8>
    ensures { result ≡ config_of word.now }
{
    match word.as_bytes() {
        [high, low] => Some(digit(*high)? * 16 + digit(*low)?),
        _ => None,
    }
}

/// Parses a currency number of four decimal digits, such as 0978 for the euro.
pub fn currency_of(word: &str) -> Option<Currency>
    ensures { result ≡ currency_of word.now }
{
    match word.as_bytes() {
        [a, b, c, d] => four(*a, *b, *c, *d),
        _ => None,
    }
}

/// Parses a currency of four bytes, if each is a decimal digit.
fn four(a: u8, b: u8, c: u8, d: u8) -> Option<Currency>
    ensures { result ≡ currency_of (a ∷ b ∷ c ∷ d ∷ []) }
{
    if !(a.is_ascii_digit() && b.is_ascii_digit() && c.is_ascii_digit() && d.is_ascii_digit()) {
        return None;
    }
    let high = u16::from(a - b'0') * 1000 + u16::from(b - b'0') * 100;
    let low = u16::from(c - b'0') * 10 + u16::from(d - b'0');
    Currency::new(high + low)
}
