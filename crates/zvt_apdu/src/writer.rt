//! Writes messages.

ghost use Rattle.std.specs.Prelude.{◌≡◌, ◌+◌, ◌++◌, ◌<◌, ◌≤◌, ◌^◌, ℕ, List, ◌∷◌, length, IfOk};
ghost use Rattle.zvt_grammar.specs.Reading.{AreBytes, shortest};
ghost use Rattle.zvt_tlv.specs.Sizes.{Puts};
ghost use Rattle.zvt_field.specs.Grammar.{FieldList};
ghost use Rattle.zvt_apdu.specs.Grammar.{Data, Spells};
ghost use Rattle.zvt_apdu.specs.Message.{registration};
ghost use Rattle.zvt_apdu.specs.Messages.{message_of, ControlOf, Encodes, FreeControl, Fitting, HasData, HasSpelling};
ghost use Rattle.zvt_apdu.specs.Messages.{ListedIn, length_bytes};

use crate::apdu::Apdu;
use crate::control_bytes;
use crate::frame::form_of;
use crate::messages::Message;
use crate::put::{currency_digits, put_after, put_bytes};
use std::alloc::{AllocError, Global};
use thiserror::Error;
use zvt_bcd::Currency;
use zvt_field::{Fields, write_into};

/// The buffer is shorter than the encoding, which has `need` bytes.
#[derive(Clone, Copy, Debug, Drop, PartialEq, Eq, Error)]
#[error("the buffer is too small: the message needs {need} bytes")]
pub struct NoRoom {
    pub need: usize,
}

/// The control bytes of a message; none where those that it gives are another message's.
pub(crate) fn control(message: &Message) -> Option<[u8; 2]>
    ensures { ControlOf (message_of message.now) result }
{
    match message {
        Message::Ack { .. } => Some(control_bytes::ACK),
        Message::Nack { code, .. } => Some([control_bytes::NACK, *code]),
        Message::Registration { .. } => Some(control_bytes::REGISTRATION),
        Message::Authorisation(_) => Some(control_bytes::AUTHORISATION),
        Message::Reversal { .. } => Some(control_bytes::REVERSAL),
        Message::EndOfDay { .. } => Some(control_bytes::END_OF_DAY),
        Message::AbortOrder(_) => Some(control_bytes::ABORT_ORDER),
        Message::Status(_) => Some(control_bytes::STATUS),
        Message::Intermediate { .. } => Some(control_bytes::INTERMEDIATE),
        Message::PrintLine { .. } => Some(control_bytes::PRINT_LINE),
        Message::TextBlock(_) => Some(control_bytes::TEXT_BLOCK),
        Message::Completion(_) => Some(control_bytes::COMPLETION),
        Message::Abort { .. } => Some(control_bytes::ABORT),
        Message::Other { control, .. } => free_control(control[0], control[1]),
    }
}

/// These control bytes, where no message has them for its own.
fn free_control(high: u8, low: u8) -> Option<[u8; 2]>
    ensures { FreeControl high low result }
{
    match form_of(high, low) {
        None => Some([high, low]),
        Some(_) => None,
    }
}

/// The size of bytes of any value.
pub(crate) fn bytes_size(bytes: &[u8]) -> usize
    ensures value { result ≡ length bytes.now }
    ensures bytes { AreBytes bytes.now }
    ensures most { result < 2 ^ 63 }
{
    bytes.len()
}

/// The size of a byte and of bytes after it.
fn after_byte(byte: u8, bytes: &[u8]) -> usize
    ensures value { result ≡ 1 + length bytes.now }
    ensures bytes { AreBytes (byte ∷ bytes.now) }
{
    1 + bytes_size(bytes)
}

/// The size of a password.
pub(crate) fn password_size(password: &[u8; 3]) -> usize
    ensures value { result ≡ 3 }
    ensures three { length password.now ≡ 3 }
    ensures bytes { AreBytes password.now }
{
    bytes_size(password)
}

/// The size of fields.
fn fields_size(fields: &Fields) -> usize
    ensures { ListedIn fields.now result }
{
    zvt_field::size(fields)
}

/// The size of the message's data.
pub(crate) fn data_size(message: &Message) -> usize
    ensures { HasData (message_of message.now) result }
{
    match message {
        Message::Ack { payload } => bytes_size(payload),
        Message::Nack { payload, .. } => bytes_size(payload),
        Message::Registration {
            password,
            config,
            rest,
        } => registration_size(password, *config, rest),
        Message::Authorisation(fields) => fields_size(fields),
        Message::Reversal { password, fields } => password_size(password) + fields_size(fields),
        Message::EndOfDay { password, fields } => password_size(password) + fields_size(fields),
        Message::AbortOrder(fields) => fields_size(fields),
        Message::Status(fields) => fields_size(fields),
        Message::Intermediate { status, payload } => after_byte(*status, payload),
        Message::PrintLine { attribute, text } => after_byte(*attribute, text),
        Message::TextBlock(fields) => fields_size(fields),
        Message::Completion(fields) => fields_size(fields),
        Message::Abort { code, payload } => after_byte(*code, payload),
        Message::Other { payload, .. } => bytes_size(payload),
    }
}

/// The size of a registration's data.
fn registration_size(password: &[u8; 3], config: u8, rest: &Option<(Currency, Fields)>) -> usize
    ensures { HasData (registration password.now config rest.now) result }
{
    let first = password_size(password) + 1;
    match rest {
        None => first,
        Some(rest) => { first + currency_digits(rest.0).len() + fields_size(&rest.1) }
    }
}

/// Puts bytes at the start, and fields after them, and says how many.
/// That `list` is called shows that the fields have a spelling; it does nothing else.
fn put_listed(first: &[u8], fields: &Fields, out: &mut [u8]) -> usize
    requires { (listed : List ℕ) → FieldList shortest fields.now listed → length first.now + length listed ≤
        length out.old }
    ensures { (listed : List ℕ) → FieldList shortest fields.now listed → Puts (first.now ++ listed) out.old
        out.new result }
{
    let _ = fields.list();
    let at = put_bytes(first, out);
    at + write_into(fields, &mut out[at..])
}

/// Writes the data of a message at the start, and says how many bytes.
fn write_data(message: &Message, out: &mut [u8]) -> usize
    requires { Fitting (message_of message.now) (length out.old) }
    ensures { (bytes : List ℕ) → Data shortest (message_of message.now) bytes → Puts bytes out.old out.new result }
{
    match message {
        Message::Ack { payload } => put_bytes(payload, out),
        Message::Nack { payload, .. } => put_bytes(payload, out),
        Message::Registration {
            password,
            config,
            rest,
        } => write_registration(password, *config, rest, out),
        Message::Authorisation(fields) => write_into(fields, out),
        Message::Reversal { password, fields } => put_listed(password, fields, out),
        Message::EndOfDay { password, fields } => put_listed(password, fields, out),
        Message::AbortOrder(fields) => write_into(fields, out),
        Message::Status(fields) => write_into(fields, out),
        Message::Intermediate { status, payload } => put_after(&[*status], payload, out),
        Message::PrintLine { attribute, text } => put_after(&[*attribute], text, out),
        Message::TextBlock(fields) => write_into(fields, out),
        Message::Completion(fields) => write_into(fields, out),
        Message::Abort { code, payload } => put_after(&[*code], payload, out),
        Message::Other { payload, .. } => put_bytes(payload, out),
    }
}

/// Writes the data of a registration at the start, and says how many bytes.
fn write_registration(
    password: &[u8; 3],
    config: u8,
    rest: &Option<(Currency, Fields)>,
    out: &mut [u8],
) -> usize
    requires { Fitting (registration password.now config rest.now) (length out.old) }
    ensures { (bytes : List ℕ) → Data shortest (registration password.now config rest.now) bytes
        → Puts bytes out.old out.new result }
{
    match rest {
        None => put_after(password, &[config], out),
        Some(rest) => {
            let [high, low] = currency_digits(rest.0);
            let head = [password[0], password[1], password[2], config, high, low];
            put_listed(&head, &rest.1, out)
        }
    }
}

/// The size of the control bytes and the length of data of that size.
fn head_size(size: usize) -> usize
    ensures value { result ≡ 2 + length (length_bytes size) }
    ensures most { result ≤ 5 }
{
    if size < 255 { 3 } else { 5 }
}

/// Writes the control bytes and the length of the data, and says their size.
fn put_head(high: u8, low: u8, size: usize, out: &mut [u8]) -> usize
    requires small { size < 2 ^ 16 }
    requires room { 2 + length (length_bytes size) ≤ length out.old }
    ensures { Puts (high ∷ low ∷ length_bytes size) out.old out.new result }
{
    if size < 255 {
        put_bytes(&[high, low, size as u8], out)
    } else {
        let (size_high, size_low) = ((size / 256) as u8, (size % 256) as u8);
        put_bytes(&[high, low, 0xFF, size_low, size_high], out)
    }
}

/// Returns the size of the encoded message.
pub fn size(apdu: &Apdu) -> usize
    ensures value { (bytes : List ℕ) → Spells shortest apdu.now bytes → result ≡ length bytes }
    ensures spelled { HasSpelling apdu.now }
{
    let size = data_size(apdu.message());
    head_size(size) + size
}

/// Encodes the message into the start of the slice and returns its size. The rest of the slice does not change. If the
/// slice is too short, none of it changes.
pub fn encode_into(apdu: &Apdu, out: &mut [u8]) -> Result<usize, NoRoom>
    ensures { Encodes apdu.now out.old out.new result }
{
    let message = apdu.message();
    let size = data_size(message);
    let need = head_size(size) + size;
    if out.len() < need {
        return Err(NoRoom { need });
    }
    let Some(control) = control(message) else {
        unreachable!()
    };
    let at = put_head(control[0], control[1], size, out);
    Ok(at + write_data(message, &mut out[at..]))
}

/// Encodes the message into a new vector.
pub fn encode(alloc: Global, apdu: &Apdu) -> Result<Vec<u8>, AllocError>
    ensures { IfOk result (λ bytes. Spells shortest apdu.now bytes.items) }
{
    let mut bytes = Vec::new(alloc);
    bytes.resize(size(apdu), 0)?;
    let Ok(_) = encode_into(apdu, &mut bytes) else {
        unreachable!()
    };
    Ok(bytes)
}
