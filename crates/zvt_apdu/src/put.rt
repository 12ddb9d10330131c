//! Writes the parts of short messages, from a till or a terminal, without allocating.
ghost use Rattle.std.specs.Prelude.{◌≡◌, ◌+◌, ◌++◌, ◌∷◌, ◌<◌, ◌≤◌, ◌^◌, length};
ghost use Rattle.zvt_grammar.specs.Reading.{AreBytes};
ghost use Rattle.zvt_tlv.specs.Sizes.{Puts};
ghost use Rattle.zvt_bcd.specs.Digits.{AreDigits, number_of};
ghost use Rattle.zvt_apdu.specs.Briefs.{digits};

use zvt_bcd::{Amount, Currency, put};

/// Returns the six bytes of digits of an amount.
pub fn amount_digits(amount: Amount) -> [u8; 6]
    ensures six { length result ≡ 6 }
    ensures digits { AreDigits result }
    ensures number { number_of result ≡ amount }
    ensures spelled { result ≡ digits 6 amount }
    ensures small { amount < 100 ^ 6 }
{
    let mut six = [0; 6];
    put(amount.get(), &mut six);
    six
}

/// Returns the two bytes of digits of a currency.
pub fn currency_digits(currency: Currency) -> [u8; 2]
    ensures two { length result ≡ 2 }
    ensures digits { AreDigits result }
    ensures number { number_of result ≡ currency }
    ensures spelled { result ≡ digits 2 currency }
    ensures small { currency < 100 ^ 2 }
{
    let mut two = [0; 2];
    put(u64::from(currency.get()), &mut two);
    two
}

/// Puts bytes at the start and returns their count.
pub fn put_bytes(bytes: &[u8], out: &mut [u8]) -> usize
    requires { length bytes.now ≤ length out.old }
    ensures { Puts bytes.now out.old out.new result }
{
    out[..bytes.len()].copy_from_slice(bytes);
    bytes.len()
}

/// Puts bytes at the start and others after them, and returns the count of all.
pub fn put_after(first: &[u8], bytes: &[u8], out: &mut [u8]) -> usize
    requires { length first.now + length bytes.now ≤ length out.old }
    ensures written { Puts (first.now ++ bytes.now) out.old out.new result }
    ensures size { result ≡ length first.now + length bytes.now }
    ensures are_bytes { AreBytes bytes.now }
{
    let at = put_bytes(first, out);
    at + put_bytes(bytes, &mut out[at..])
}

/// Puts a message of these control bytes and at most 254 bytes of data at the start, and returns its size.
pub fn put_message(control: [u8; 2], content: &[u8], out: &mut [u8]) -> usize
    requires short { length content.now ≤ 254 }
    requires room { 3 + length content.now ≤ length out.old }
    ensures written { Puts (control ++ length content.now ∷ content.now) out.old out.new result }
    ensures size { result ≡ 3 + length content.now }
    ensures content { AreBytes content.now }
    ensures control { AreBytes control }
{
    let [high, low] = control;
    put_after(&[high, low, content.len() as u8], content, out)
}
