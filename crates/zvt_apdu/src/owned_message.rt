//! Messages of their own from views.

ghost use Rattle.std.specs.Prelude.{◌≡◌, ◌≢◌, [], Some, None, MatchResult};
ghost use Rattle.zvt_apdu.specs.Messages.{message_of, HasSpelling};
ghost use Rattle.zvt_apdu.specs.Views.{fields_in, payload_in};

use crate::apdu::{Apdu, checked};
use crate::kinds::Kind;
use crate::messages::Message;
use crate::views::ApduView;
use std::alloc::{AllocError, Global};
use zvt_field::Fields;

/// Copies the message of a view. Fails only if an allocation fails, and never for an empty list of fields.
pub fn owned(alloc: Global, apdu: &ApduView<'_>) -> Result<Apdu, AllocError>
    ensures { MatchResult result (λ made. made ≡ apdu.now) (λ _. fields_in apdu.now ≢ Some []) }
{
    note_spelling(apdu);
    let message = owned_message(alloc, apdu)?;
    let Ok(made) = checked(message) else {
        unreachable!()
    };
    Ok(made)
}

/// A message that a view shows has a spelling in the shortest reading too.
fn note_spelling(apdu: &ApduView<'_>)
    ensures { ∥ HasSpelling apdu.now ∥₁ }
{
    let _ = apdu.bytes();
}

/// The message that the view shows, by its parts.
fn owned_message(alloc: Global, apdu: &ApduView<'_>) -> Result<Message, AllocError>
    requires { ∥ HasSpelling apdu.now ∥₁ }
    ensures { MatchResult result (λ made. message_of made ≡ apdu.now) (λ _. fields_in apdu.now ≢ Some []) }
{
    match apdu.fields() {
        Some(fields) => Ok(with_fields(apdu, zvt_field::owned(alloc, fields)?)),
        None => without_fields(alloc, apdu),
    }
}

/// The message that the view shows, whose fields are these.
fn with_fields(apdu: &ApduView<'_>, fields: Fields) -> Message
    requires { Some fields ≡ fields_in apdu.now }
    ensures { message_of result ≡ apdu.now }
{
    let Some(password) = apdu.password() else {
        return match apdu.kind() {
            Kind::Authorisation => Message::Authorisation(fields),
            Kind::AbortOrder => Message::AbortOrder(fields),
            Kind::Status => Message::Status(fields),
            Kind::TextBlock => Message::TextBlock(fields),
            _ => Message::Completion(fields),
        };
    };
    let Some(config) = apdu.config() else {
        return match apdu.kind() {
            Kind::Reversal => Message::Reversal { password, fields },
            _ => Message::EndOfDay { password, fields },
        };
    };
    let Some(currency) = apdu.currency() else {
        unreachable!()
    };
    Message::Registration {
        password,
        config,
        rest: Some((currency, fields)),
    }
}

/// The message that the view shows, which has no fields.
fn without_fields(alloc: Global, apdu: &ApduView<'_>) -> Result<Message, AllocError>
    requires { None ≡ fields_in apdu.now }
    ensures { MatchResult result (λ made. message_of made ≡ apdu.now) (λ _. fields_in apdu.now ≢ Some []) }
{
    if let Some(payload) = apdu.payload() {
        return Ok(with_payload(apdu, Vec::from_slice(alloc, payload)?));
    }
    if let Some(text) = apdu.text() {
        let Some(attribute) = apdu.attribute() else {
            unreachable!()
        };
        return Ok(Message::PrintLine {
            attribute,
            text: Vec::from_slice(alloc, text)?,
        });
    }
    let Some(password) = apdu.password() else {
        unreachable!()
    };
    let Some(config) = apdu.config() else {
        unreachable!()
    };
    Ok(Message::Registration {
        password,
        config,
        rest: None,
    })
}

/// The message that the view shows, whose payload is this.
fn with_payload(apdu: &ApduView<'_>, payload: Vec<u8>) -> Message
    requires { Some payload.items ≡ payload_in apdu.now }
    ensures { message_of result ≡ apdu.now }
{
    if let Some(code) = apdu.code() {
        return match apdu.kind() {
            Kind::Nack => Message::Nack { code, payload },
            _ => Message::Abort { code, payload },
        };
    }
    if let Some(status) = apdu.status() {
        return Message::Intermediate { status, payload };
    }
    match apdu.kind() {
        Kind::Ack => Message::Ack { payload },
        _ => Message::Other {
            control: apdu.control(),
            payload,
        },
    }
}
