//! What a till's message asks of the terminal.
ghost use Rattle.std.specs.Prelude.{◌≡◌};
ghost use Rattle.zvt_term.specs.Asking.{asked_as, authorised, currency_in};

use crate::messages::Asked;
use zvt_apdu::{Apdu, ApduView, Kind, Message};
use zvt_bcd::Currency;
use zvt_field::{Fields, FieldsView};

/// Returns the currency of a registration.
fn currency_in(rest: &Option<(Currency, Fields)>) -> Option<Currency>
    ensures { result ≡ currency_in rest.now }
{
    match rest {
        None => None,
        Some(rest) => Some(rest.0),
    }
}

/// Returns the authorisation that the fields request.
fn authorised(fields: &Fields) -> Asked
    ensures { result ≡ authorised fields.now }
{
    Asked::Authorisation(zvt_field::amount(fields), zvt_till::currency_in(fields))
}

/// Returns the authorisation that the fields of a view request.
fn authorised_view(fields: &FieldsView<'_>) -> Asked
    ensures { result ≡ authorised fields.now }
{
    Asked::Authorisation(fields.amount(), zvt_till::currency_shown(fields))
}

/// Returns the request of a message.
pub fn asked(apdu: &Apdu) -> Asked
    ensures { result ≡ asked_as apdu.now }
{
    match apdu.message() {
        Message::Ack { .. } => Asked::Answer,
        Message::Nack { .. } => Asked::Answer,
        Message::Registration { rest, .. } => Asked::Registration(currency_in(rest)),
        Message::Authorisation(fields) => authorised(fields),
        Message::Reversal { fields, .. } => Asked::Reversal(zvt_field::receipt(fields)),
        Message::EndOfDay { .. } => Asked::EndOfDay,
        Message::AbortOrder(_) => Asked::AbortOrder,
        _ => Asked::Unknown,
    }
}

/// Returns the request of a message that is given as a view, like [`asked`].
pub fn asked_view(apdu: &ApduView<'_>) -> Asked
    ensures { result ≡ asked_as apdu.now }
{
    match apdu.kind() {
        Kind::Ack | Kind::Nack => Asked::Answer,
        Kind::Registration => Asked::Registration(apdu.currency()),
        Kind::Authorisation => match apdu.fields() {
            Some(fields) => authorised_view(&fields),
            None => unreachable!(),
        },
        Kind::Reversal => match apdu.fields() {
            Some(fields) => Asked::Reversal(fields.receipt()),
            None => unreachable!(),
        },
        Kind::EndOfDay => Asked::EndOfDay,
        Kind::AbortOrder => Asked::AbortOrder,
        _ => Asked::Unknown,
    }
}
