//! The orders in the messages of a till.
ghost use Rattle.std.specs.Prelude.{◌≡◌, Some};
ghost use Rattle.zvt_apdu.specs.Message.{authorisation};
ghost use Rattle.zvt_audit.specs.Happened.{ordered};

use zvt_apdu::{ApduView, Kind};
use zvt_field::FieldsView;
use zvt_till::Sent;

/// Returns the authorisation that these fields order: of their amount, if there is exactly one and it is not zero.
fn paid(fields: &FieldsView<'_>) -> Sent
    ensures { Some result ≡ ordered (authorisation fields.now) }
{
    match fields.amount() {
        Some(amount) => Sent::Pay(amount),
        None => Sent::Foreign,
    }
}

/// Returns the order that a till gives with this message, if any.
pub fn ordered(apdu: &ApduView<'_>) -> Option<Sent>
    ensures { result ≡ ordered apdu.now }
{
    match apdu.kind() {
        Kind::Registration => Some(Sent::Register(apdu.currency())),
        Kind::Authorisation => Some(paid(&apdu.fields()?)),
        Kind::AbortOrder => Some(Sent::Cancel),
        Kind::EndOfDay => Some(Sent::CloseDay),
        Kind::Reversal | Kind::Other => Some(Sent::Foreign),
        _ => None,
    }
}
