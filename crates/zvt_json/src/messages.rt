//! The JSON of messages.
ghost use Rattle.std.specs.Prelude.{◌≡◌, ◌≤◌, length, option_map};
ghost use Rattle.std.specs.Option.{option_copied};
ghost use Rattle.zvt_apdu.specs.Kinds.{kind_of};
ghost use Rattle.zvt_text.specs.MessageTexts.{part_text};
ghost use Rattle.zvt_text.specs.Writing.{Puts};
ghost use Rattle.zvt_json.specs.Messages.{command_of};
ghost use Rattle.zvt_json.specs.Texts.{about_text, attribute_led, code_led, coded_text, config_led, control_led};
ghost use Rattle.zvt_json.specs.Texts.{currency_led, data_led, ended, fields_led, first_text, from_text, kind_led};
ghost use Rattle.zvt_json.specs.Texts.{command_text, status_text};
ghost use Rattle.zvt_json.specs.Texts.{last_text, message_text, printed_text, size_led, size_member};

use crate::fields::fields;
use crate::parts::words;
use crate::strings::{byte, bytes, text};
use zvt_apdu::{ApduView, Kind};
use zvt_bcd::Currency;
use zvt_field::FieldsView;
use zvt_text::cursor::{Full, decimal, fixed, four_digits, push, word};
use zvt_text::{command_name, kind_name, meaning, status_words};
use zvt_trace::Direction;

/// The sender of a message, the line of the trace where it ends, and its size with the shortest lengths.
#[derive(Clone, Copy, Drop)]
pub(crate) struct Origin {
    pub from: Direction,
    pub line: u64,
    pub size: usize,
}

/// Writes a message.
pub(crate) fn message(
    buffer: &mut [u8],
    at: usize,
    origin: Origin,
    message: &ApduView<'_>,
) -> Result<usize, Full>
    requires { at ≤ length buffer.old }
    ensures { Puts result at buffer.old buffer.new (message_text origin.from origin.line origin.size message.now) }
{
    let kind = message.kind();
    let name = command(message);
    let at = push(buffer, at, b'{')?;
    let at = first(buffer, at, message)?;
    let at = about(buffer, at, origin, kind, name)?;
    last(buffer, at, message)
}

/// Writes the members that every message has.
#[inline(always)]
fn about(
    buffer: &mut [u8],
    at: usize,
    origin: Origin,
    kind: Kind,
    name: Option<&str>,
) -> Result<usize, Full>
    requires { at ≤ length buffer.old }
    ensures { Puts result at buffer.old buffer.new
        (about_text origin.from kind (option_copied name.entry) origin.line origin.size) }
{
    let at = sender(buffer, at, origin.from)?;
    let at = called(buffer, at, kind)?;
    let at = fixed(buffer, at, *b",\"line\":")?;
    let at = decimal(buffer, at, origin.line)?;
    let at = named(buffer, at, name)?;
    let at = fixed(buffer, at, *b",\"size\":")?;
    decimal(buffer, at, origin.size as u64)
}

/// Returns the name of a command outside the profile, if it is known.
fn command(message: &ApduView<'_>) -> Option<&'static str>
    ensures { option_map (λ name. name.now) result ≡ command_of message.now }
{
    match message.kind() {
        Kind::Other => {
            let [high, low] = message.control();
            command_name(high, low)
        }
        _ => None,
    }
}

/// Writes the name of a command, if it has one.
fn named(buffer: &mut [u8], at: usize, name: Option<&str>) -> Result<usize, Full>
    requires { at ≤ length buffer.old }
    ensures { Puts result at buffer.old buffer.new (command_text (option_copied name.entry)) }
{
    let Some(name) = name else {
        return Ok(at);
    };
    let at = fixed(buffer, at, *b",\"name\":\"")?;
    let at = word(buffer, at, name.as_bytes())?;
    push(buffer, at, b'"')
}

/// Writes the sender.
#[inline(always)]
pub(crate) fn sender(buffer: &mut [u8], at: usize, from: Direction) -> Result<usize, Full>
    requires { at ≤ length buffer.old }
    ensures { Puts result at buffer.old buffer.new (from_text from) }
{
    match from {
        Direction::FromTill => fixed(buffer, at, *b"\"from\":\"till\""),
        Direction::FromTerminal => fixed(buffer, at, *b"\"from\":\"terminal\""),
    }
}

/// Writes the name of a message.
#[inline(always)]
fn called(buffer: &mut [u8], at: usize, kind: Kind) -> Result<usize, Full>
    requires { at ≤ length buffer.old }
    ensures { Puts result at buffer.old buffer.new (kind_led kind) }
{
    let at = fixed(buffer, at, *b",\"kind\":\"")?;
    let at = word(buffer, at, kind_name(kind).as_bytes())?;
    push(buffer, at, b'"')
}

/// Writes the members that come first, each with a comma after it.
fn first(buffer: &mut [u8], at: usize, message: &ApduView<'_>) -> Result<usize, Full>
    requires { at ≤ length buffer.old }
    ensures { Puts result at buffer.old buffer.new (first_text message.now) }
{
    match message.kind() {
        Kind::Ack | Kind::Intermediate => data(buffer, at, message.payload()),
        Kind::Nack | Kind::Abort => {
            let at = code(buffer, at, message.code())?;
            data(buffer, at, message.payload())
        }
        Kind::Registration => registration(buffer, at, message),
        Kind::PrintLine => attribute(buffer, at, message.attribute()),
        Kind::Other => {
            let at = control(buffer, at, message.control())?;
            data_size(buffer, at, message.payload())
        }
        _ => listed(buffer, at, message.fields()),
    }
}

/// Writes the first members of a registration.
fn registration(buffer: &mut [u8], at: usize, message: &ApduView<'_>) -> Result<usize, Full>
    requires kind { kind_of message.now ≡ Kind.Registration }
    requires inside { at ≤ length buffer.old }
    ensures { Puts result at buffer.old buffer.new (first_text message.now) }
{
    let at = config(buffer, at, message.config())?;
    let at = currency(buffer, at, message.currency())?;
    listed(buffer, at, message.fields())
}

/// Writes the payload, if there is any.
#[inline(always)]
fn data(buffer: &mut [u8], at: usize, payload: Option<&[u8]>) -> Result<usize, Full>
    requires { at ≤ length buffer.old }
    ensures { Puts result at buffer.old buffer.new (part_text data_led (option_copied payload.entry)) }
{
    match payload {
        Some(payload) => payload_data(buffer, at, payload),
        None => Ok(at),
    }
}

fn payload_data(buffer: &mut [u8], at: usize, payload: &[u8]) -> Result<usize, Full>
    requires { at ≤ length buffer.old }
    ensures { Puts result at buffer.old buffer.new (data_led payload.now) }
{
    if payload.is_empty() {
        return Ok(at);
    }
    let at = fixed(buffer, at, *b"\"data\":\"")?;
    let at = bytes(buffer, at, payload)?;
    push(buffer, at, b',')
}

/// Writes the size of a payload that is not shown.
fn data_size(buffer: &mut [u8], at: usize, payload: Option<&[u8]>) -> Result<usize, Full>
    requires { at ≤ length buffer.old }
    ensures { Puts result at buffer.old buffer.new (part_text size_led (option_copied payload.entry)) }
{
    match payload {
        Some(payload) => size_member(buffer, at, payload.len() as u64),
        None => Ok(at),
    }
}

fn size_member(buffer: &mut [u8], at: usize, size: u64) -> Result<usize, Full>
    requires { at ≤ length buffer.old }
    ensures { Puts result at buffer.old buffer.new (size_member size) }
{
    let at = fixed(buffer, at, *b"\"data_size\":")?;
    let at = decimal(buffer, at, size)?;
    push(buffer, at, b',')
}

/// Writes a code.
fn code(buffer: &mut [u8], at: usize, code: Option<u8>) -> Result<usize, Full>
    requires { at ≤ length buffer.old }
    ensures { Puts result at buffer.old buffer.new (part_text code_led code) }
{
    let Some(code) = code else {
        return Ok(at);
    };
    let at = fixed(buffer, at, *b"\"code\":\"")?;
    let at = byte(buffer, at, code)?;
    push(buffer, at, b',')
}

/// Writes the configuration byte of a registration.
fn config(buffer: &mut [u8], at: usize, config: Option<u8>) -> Result<usize, Full>
    requires { at ≤ length buffer.old }
    ensures { Puts result at buffer.old buffer.new (part_text config_led config) }
{
    let Some(config) = config else {
        return Ok(at);
    };
    let at = fixed(buffer, at, *b"\"config\":\"")?;
    let at = byte(buffer, at, config)?;
    push(buffer, at, b',')
}

/// Writes the attribute of a print line.
fn attribute(buffer: &mut [u8], at: usize, attribute: Option<u8>) -> Result<usize, Full>
    requires { at ≤ length buffer.old }
    ensures { Puts result at buffer.old buffer.new (part_text attribute_led attribute) }
{
    let Some(attribute) = attribute else {
        return Ok(at);
    };
    let at = fixed(buffer, at, *b"\"attribute\":\"")?;
    let at = byte(buffer, at, attribute)?;
    push(buffer, at, b',')
}

/// Writes the control bytes.
fn control(buffer: &mut [u8], at: usize, control: [u8; 2]) -> Result<usize, Full>
    requires { at ≤ length buffer.old }
    ensures { Puts result at buffer.old buffer.new (control_led control) }
{
    let at = fixed(buffer, at, *b"\"control\":\"")?;
    let at = bytes(buffer, at, control.as_slice())?;
    push(buffer, at, b',')
}

/// Writes the currency of a registration.
fn currency(buffer: &mut [u8], at: usize, currency: Option<Currency>) -> Result<usize, Full>
    requires { at ≤ length buffer.old }
    ensures { Puts result at buffer.old buffer.new (part_text currency_led currency) }
{
    let Some(currency) = currency else {
        return Ok(at);
    };
    let at = fixed(buffer, at, *b"\"currency\":\"")?;
    let at = four_digits(buffer, at, currency.get())?;
    fixed(buffer, at, *b"\",")
}

/// Writes the fields of a message that has fields.
#[inline(always)]
fn listed(buffer: &mut [u8], at: usize, list: Option<FieldsView<'_>>) -> Result<usize, Full>
    requires { at ≤ length buffer.old }
    ensures { Puts result at buffer.old buffer.new (part_text fields_led list.entry) }
{
    let Some(list) = list else {
        return Ok(at);
    };
    let at = fixed(buffer, at, *b"\"fields\":[")?;
    let at = fields(buffer, at, list)?;
    push(buffer, at, b',')
}

/// Writes the last member, if there is one, and the end of the object.
fn last(buffer: &mut [u8], at: usize, message: &ApduView<'_>) -> Result<usize, Full>
    requires { at ≤ length buffer.old }
    ensures { Puts result at buffer.old buffer.new (last_text message.now) }
{
    match message.kind() {
        Kind::Intermediate => status(buffer, at, message.status()),
        Kind::PrintLine => printed(buffer, at, message.text()),
        Kind::Abort => ended_by(buffer, at, message.code()),
        _ => push(buffer, at, b'}'),
    }
}

/// Writes the state of the terminal in an intermediate status, and its words.
fn status(buffer: &mut [u8], at: usize, status: Option<u8>) -> Result<usize, Full>
    requires { at ≤ length buffer.old }
    ensures { Puts result at buffer.old buffer.new (ended status_text status) }
{
    let Some(status) = status else {
        return push(buffer, at, b'}');
    };
    let at = fixed(buffer, at, *b",\"status\":\"")?;
    let at = byte(buffer, at, status)?;
    words(buffer, at, status_words(status))
}

/// Writes a print line.
pub(crate) fn printed(buffer: &mut [u8], at: usize, line: Option<&[u8]>) -> Result<usize, Full>
    requires { at ≤ length buffer.old }
    ensures { Puts result at buffer.old buffer.new (ended printed_text (option_copied line.entry)) }
{
    let Some(line) = line else {
        return push(buffer, at, b'}');
    };
    let at = fixed(buffer, at, *b",\"text\":\"")?;
    let at = text(buffer, at, line)?;
    push(buffer, at, b'}')
}

/// Writes the meaning of a code.
fn ended_by(buffer: &mut [u8], at: usize, code: Option<u8>) -> Result<usize, Full>
    requires { at ≤ length buffer.old }
    ensures { Puts result at buffer.old buffer.new (ended coded_text code) }
{
    match code {
        Some(code) => words(buffer, at, meaning(code)),
        None => push(buffer, at, b'}'),
    }
}
