//! Numbers in digits, the highest first.
ghost use Rattle.std.specs.Prelude.{◌≡◌, ◌↔◌, ◌^◌, ◌<◌, ◌≤◌, length, IsTrue};
ghost use Rattle.zvt_bcd.specs.Digits.{AreDigits, IsDigitPair, number_of, pair_number};

/// Returns whether both halves of each byte are decimal digits.
pub fn is_digits(bytes: &[u8]) -> bool
    ensures { IsTrue result ↔ AreDigits bytes.now }
{
    bytes.iter().all(|byte| byte / 16 <= 9 && byte % 16 <= 9)
}

/// Returns the number in at most nine bytes of digits.
pub fn number(bytes: &[u8]) -> u64
    requires digits { AreDigits bytes.now }
    requires short { length bytes.now ≤ 9 }
    ensures value { result ≡ number_of bytes.now }
    ensures bound { result < 100 ^ length bytes.now }
{
    let mut total = 0;
    for byte in bytes {
        total = total * 100 + pair(*byte);
    }
    total
}

/// The number of one byte's two digits.
fn pair(byte: u8) -> u64
    requires { IsDigitPair byte }
    ensures value { result ≡ pair_number byte }
    ensures bound { result < 100 }
{
    u64::from(byte / 16 * 10 + byte % 16)
}

/// Fills the slice, at most nine bytes long, with the digits of the number and leading zeros.
pub fn put(number: u64, out: &mut [u8])
    requires short { length out.old ≤ 9 }
    requires fits { number < 100 ^ length out.old }
    ensures digits { AreDigits out.new }
    ensures value { number_of out.new ≡ number }
{
    let mut rest = number;
    for at in (0..out.len()).rev() {
        out[at] = packed((rest % 100) as u8);
        rest /= 100;
    }
}

/// The byte whose two digits spell a number below a hundred.
fn packed(number: u8) -> u8
    requires { number < 100 }
    ensures digits { IsDigitPair result }
    ensures value { pair_number result ≡ number }
{
    number / 10 * 16 + number % 10
}
