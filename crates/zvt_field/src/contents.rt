//! Values of single fields.

ghost use Rattle.std.specs.Prelude.{◌≡◌, List, IfSome};
ghost use Rattle.std.specs.Option.{option_copied};
ghost use Rattle.zvt_field.specs.Grammar.{Field};
ghost use Rattle.zvt_field.specs.Named.{content_of, amount_of, trace_of, result_of, receipt_of, currency_of};
ghost use Rattle.zvt_field.specs.Named.{original_of};
ghost use Rattle.zvt_field.specs.Views.{PlainBytes};

use zvt_bcd::{Amount, Currency, Trace, number};

/// Returns the amount in BMP 04, unless it is zero.
#[inline(always)]
pub(crate) fn amount(content: Option<&[u8]>) -> Option<Amount>
    requires { IfSome content (λ bytes. PlainBytes 0x04 bytes.now) }
    ensures { (fields : List Field) → option_copied content.entry ≡ content_of 0x04 fields → result ≡ amount_of fields }
{
    match content {
        Some(bytes) => Amount::new(number(bytes)),
        None => None,
    }
}

/// The trace number in BMP 0B.
#[inline(always)]
pub(crate) fn trace(content: Option<&[u8]>) -> Option<Trace>
    requires { IfSome content (λ bytes. PlainBytes 0x0B bytes.now) }
    ensures { (fields : List Field) → option_copied content.entry ≡ content_of 0x0B fields → result ≡ trace_of fields }
{
    match content {
        Some(bytes) => Trace::new(number(bytes) as u32),
        None => None,
    }
}

/// The result code in BMP 27.
#[inline(always)]
pub(crate) fn result(content: Option<&[u8]>) -> Option<u8>
    ensures { (fields : List Field) → option_copied content.entry ≡ content_of 0x27 fields → result ≡ result_of fields }
{
    content?.first().copied()
}

/// The receipt number in BMP 87: two bytes as they were read, digits or not.
#[inline(always)]
pub(crate) fn receipt(content: Option<&[u8]>) -> Option<[u8; 2]>
    requires { IfSome content (λ bytes. PlainBytes 0x87 bytes.now) }
    ensures { (fields : List Field) → option_copied content.entry ≡ content_of 0x87 fields
        → result ≡ receipt_of fields }
{
    match content {
        Some(bytes) => match bytes {
            [high, low] => Some([*high, *low]),
            _ => None,
        },
        None => None,
    }
}

/// The currency in BMP 49.
#[inline(always)]
pub(crate) fn currency(content: Option<&[u8]>) -> Option<Currency>
    requires { IfSome content (λ bytes. PlainBytes 0x49 bytes.now) }
    ensures { (fields : List Field) → option_copied content.entry ≡ content_of 0x49 fields
        → result ≡ currency_of fields }
{
    match content {
        Some(bytes) => Currency::new(number(bytes) as u16),
        None => None,
    }
}

/// The original trace number in BMP 37: three bytes as they were read.
#[inline(always)]
pub(crate) fn original(content: Option<&[u8]>) -> Option<[u8; 3]>
    requires { IfSome content (λ bytes. PlainBytes 0x37 bytes.now) }
    ensures { (fields : List Field) → option_copied content.entry ≡ content_of 0x37 fields
        → result ≡ original_of fields }
{
    match content {
        Some(bytes) => match bytes {
            [high, middle, low] => Some([*high, *middle, *low]),
            _ => None,
        },
        None => None,
    }
}
