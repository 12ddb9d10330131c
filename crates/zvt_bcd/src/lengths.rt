//! The digits of a variable length, one in each byte (PA00P015, LLVAR and LLLVAR).

ghost use Rattle.std.specs.Prelude.{◌≡◌, ◌+◌, ◌≤◌};
ghost use Rattle.zvt_bcd.specs.LengthDigits.{IsCount, ll_digit_of};

/// Writes a length of two digits: 37 is `F3 F7`.
pub fn ll_put(number: u8, out: &mut [u8; 2])
    requires { number ≤ 99 }
    ensures { IsCount 2 number out.new }
{
    *out = [digit(number / 10), digit(number % 10)];
}

/// Writes a length of three digits: 128 is `F1 F2 F8`.
pub fn lll_put(number: u16, out: &mut [u8; 3])
    requires { number ≤ 999 }
    ensures { IsCount 3 number out.new }
{
    *out = [
        digit((number / 100) as u8),
        digit((number / 10 % 10) as u8),
        digit((number % 10) as u8),
    ];
}

/// The byte that says one digit.
fn digit(value: u8) -> u8
    requires { value ≤ 9 }
    ensures { result ≡ 0xF0 + value }
{
    0xF0 + value
}

/// Returns the digit of a length byte, F0 to F9, or `None` for any other byte.
pub fn ll_digit(byte: u8) -> Option<u8>
    ensures { result ≡ ll_digit_of byte }
{
    if (0xF0..=0xF9).contains(&byte) {
        Some(byte - 0xF0)
    } else {
        None
    }
}
