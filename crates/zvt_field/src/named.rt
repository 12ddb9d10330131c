//! Values of fields that appear exactly once.

ghost use Rattle.std.specs.Prelude.{◌≡◌, ℕ, IfSome};
ghost use Rattle.std.specs.Option.{option_copied};
ghost use Rattle.zvt_field.specs.Grammar.{plain};
ghost use Rattle.zvt_field.specs.Bodies.{HasSpelling};
ghost use Rattle.zvt_field.specs.Named.{count_of, only_of, content_of, amount_of, trace_of, result_of, receipt_of};
ghost use Rattle.zvt_field.specs.Named.{currency_of, original_of};

use crate::{Field, FieldBody, Fields, bmp};
use zvt_bcd::{Amount, Currency, Trace, number};

/// Returns the field with this BMP, if there is exactly one.
pub fn only(fields: &Fields, bmp: u8) -> Option<&Field>
    ensures { option_copied result ≡ only_of bmp fields.now }
{
    let mut found = None;
    for field in fields.list() {
        if field.bmp() == bmp {
            if found.is_some() {
                return None;
            }
            found = Some(field);
        }
    }
    found
}

/// Returns the number of fields with this BMP.
pub fn count(fields: &Fields, bmp: u8) -> usize
    ensures { result ≡ count_of bmp fields.now }
{
    fields
        .list()
        .iter()
        .filter(|field| field.bmp() == bmp)
        .count()
}

/// The bytes of the field of that BMP, where it appears exactly once.
fn content(fields: &Fields, bmp: u8) -> Option<&[u8]>
    ensures content { option_copied result ≡ content_of bmp fields.now }
    ensures spelled { IfSome result (λ bytes. HasSpelling (plain bmp bytes.now)) }
{
    match only(fields, bmp)?.body() {
        FieldBody::Bytes(bytes) => Some(bytes),
        FieldBody::Tree(_) => None,
    }
}

/// Returns the amount in BMP 04, if it appears exactly once and isn't zero.
pub fn amount(fields: &Fields) -> Option<Amount>
    ensures { result ≡ amount_of fields.now }
{
    Amount::new(number(content(fields, bmp::AMOUNT)?))
}

/// Returns the trace number in BMP 0B, if it appears exactly once.
pub fn trace(fields: &Fields) -> Option<Trace>
    ensures { result ≡ trace_of fields.now }
{
    Trace::new(number(content(fields, bmp::TRACE)?) as u32)
}

/// Returns the result code in BMP 27, if it appears exactly once.
pub fn result(fields: &Fields) -> Option<u8>
    ensures { result ≡ result_of fields.now }
{
    content(fields, bmp::RESULT)?.first().copied()
}

/// Returns the receipt number in BMP 87, if it appears exactly once: its two bytes as read, which need not be digits.
pub fn receipt(fields: &Fields) -> Option<[u8; 2]>
    ensures { result ≡ receipt_of fields.now }
{
    match content(fields, bmp::RECEIPT)? {
        [high, low] => Some([*high, *low]),
        _ => None,
    }
}

/// Returns the currency in BMP 49, if it appears exactly once.
pub fn currency(fields: &Fields) -> Option<Currency>
    ensures { result ≡ currency_of fields.now }
{
    Currency::new(number(content(fields, bmp::CURRENCY)?) as u16)
}

/// Returns the original trace number in BMP 37, if it appears exactly once: its three bytes as read.
pub fn original(fields: &Fields) -> Option<[u8; 3]>
    ensures { result ≡ original_of fields.now }
{
    match content(fields, bmp::ORIGINAL)? {
        [high, middle, low] => Some([*high, *middle, *low]),
        _ => None,
    }
}
