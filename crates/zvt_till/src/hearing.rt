//! Reduces a terminal's message to what matters to a till.
//!
//! The functions over views are `#[inline(always)]`: a till and an audit call them for each message.
ghost use Rattle.std.specs.Prelude.{◌≡◌, ◌==◌, cond, List};
ghost use Rattle.zvt_field.specs.Grammar.{Field};
ghost use Rattle.zvt_field.specs.Single.{Says};
ghost use Rattle.zvt_till.specs.Hearing.{original_in, currency_in, has_result_in, facts_in_fields, heard_as};

use crate::messages::{CurrencyFact, Heard, Original, StatusFacts};
use zvt_apdu::{Apdu, ApduView, Kind, Message};
use zvt_field::{Fields, FieldsView, Single, count, currency, original, read_single};

/// The BMP of the trace number of a payment to be reversed.
const ORIGINAL_TRACE: u8 = 0x37;

/// The BMP of a result code.
const RESULT: u8 = 0x27;

/// The BMP of a currency.
const CURRENCY: u8 = 0x49;

/// Returns the reversed payment that the fields name.
fn original_in(fields: &Fields) -> Original
    ensures { result ≡ original_in fields.now }
{
    match original(fields) {
        Some(bytes) => Original::Once(bytes),
        None => not_once(count(fields, ORIGINAL_TRACE)),
    }
}

/// Returns that no reversed payment is named, or more than one.
fn not_once(count: usize) -> Original
    ensures { result ≡ cond (count == 0) Original.Absent Original.Many }
{
    if count == 0 {
        Original::Absent
    } else {
        Original::Many
    }
}

/// Returns that no currency is named, or more than one.
fn not_one(count: usize) -> CurrencyFact
    ensures { result ≡ cond (count == 0) CurrencyFact.Absent CurrencyFact.Many }
{
    if count == 0 {
        CurrencyFact::Absent
    } else {
        CurrencyFact::Many
    }
}

/// Returns the currency that the fields name.
pub fn currency_in(fields: &Fields) -> CurrencyFact
    ensures { result ≡ currency_in fields.now }
{
    match currency(fields) {
        Some(currency) => CurrencyFact::Once(currency),
        None => not_one(count(fields, CURRENCY)),
    }
}

/// Returns whether the fields name a result, if only more than once.
fn has_result_in(fields: &Fields) -> bool
    ensures { result ≡ has_result_in fields.now }
{
    match zvt_field::result(fields) {
        Some(_) => true,
        None => count(fields, RESULT) != 0,
    }
}

/// Returns the values in the fields of a status information.
fn facts_in(fields: &Fields) -> StatusFacts
    ensures { result ≡ facts_in_fields fields.now }
{
    StatusFacts {
        result: zvt_field::result(fields),
        has_result: has_result_in(fields),
        amount: zvt_field::amount(fields),
        trace: zvt_field::trace(fields),
        receipt: zvt_field::receipt(fields),
        original: original_in(fields),
        currency: currency_in(fields),
    }
}

/// Reduces a message to what matters to a till. Of its data, only the fields of a status information and the code of a
/// refusal are used.
pub fn heard(apdu: &Apdu) -> Heard
    ensures { result ≡ heard_as apdu.now }
{
    match apdu.message() {
        Message::Ack { .. } => Heard::Positive,
        Message::Nack { code, .. } => {
            if *code == 0 {
                Heard::Positive
            } else {
                Heard::Negative(*code)
            }
        }
        Message::Status(fields) => Heard::Status(facts_in(fields)),
        Message::Intermediate { .. } => Heard::Passing,
        Message::PrintLine { .. } => Heard::Passing,
        Message::TextBlock(_) => Heard::Passing,
        Message::Completion(_) => Heard::Completion,
        Message::Abort { code, .. } => Heard::Abort(*code),
        _ => Heard::Strange,
    }
}

/// Returns the reversed payment, if BMP 37 appears exactly once.
#[inline(always)]
fn original_shown(single: &Single) -> Original
    ensures { (fields : List Field) → Says fields single.now → result ≡ original_in fields }
{
    match single.original {
        Some(bytes) => Original::Once(bytes),
        None if single.has_original => Original::Many,
        None => Original::Absent,
    }
}

/// Returns the currency, if BMP 49 appears exactly once.
#[inline(always)]
fn currency_named(single: &Single) -> CurrencyFact
    ensures { (fields : List Field) → Says fields single.now → result ≡ currency_in fields }
{
    match single.currency {
        Some(currency) => CurrencyFact::Once(currency),
        None if single.has_currency => CurrencyFact::Many,
        None => CurrencyFact::Absent,
    }
}

/// Returns the currency that the fields of a view name.
pub fn currency_shown(fields: &FieldsView<'_>) -> CurrencyFact
    ensures { result ≡ currency_in fields.now }
{
    if fields.count(CURRENCY) == 0 {
        return CurrencyFact::Absent;
    }
    match fields.currency() {
        Some(currency) => CurrencyFact::Once(currency),
        None => CurrencyFact::Many,
    }
}

/// Returns the values of a status information.
#[inline(always)]
pub(crate) fn facts_shown(fields: &FieldsView<'_>) -> StatusFacts
    ensures { result ≡ facts_in_fields fields.now }
{
    let single = read_single(fields);
    StatusFacts {
        result: single.result,
        has_result: single.result.is_some() || fields.count(RESULT) != 0,
        amount: single.amount,
        trace: single.trace,
        receipt: single.receipt,
        original: original_shown(&single),
        currency: currency_named(&single),
    }
}

/// Reduces the message of a view to what matters to a till, like [`heard`].
#[inline(always)]
pub fn heard_view(apdu: &ApduView<'_>) -> Heard
    ensures { result ≡ heard_as apdu.now }
{
    match apdu.kind() {
        Kind::Ack => Heard::Positive,
        Kind::Nack => match apdu.code() {
            Some(0) => Heard::Positive,
            Some(code) => Heard::Negative(code),
            None => unreachable!(),
        },
        Kind::Status => match apdu.fields() {
            Some(fields) => Heard::Status(facts_shown(&fields)),
            None => unreachable!(),
        },
        Kind::Intermediate | Kind::PrintLine | Kind::TextBlock => Heard::Passing,
        Kind::Completion => Heard::Completion,
        Kind::Abort => match apdu.code() {
            Some(code) => Heard::Abort(code),
            None => unreachable!(),
        },
        _ => Heard::Strange,
    }
}
