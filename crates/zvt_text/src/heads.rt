//! The first line of a message.
ghost use Rattle.std.specs.Prelude.{◌≡◌, ◌≢◌, ◌≤◌, length};
ghost use Rattle.zvt_apdu.specs.Kinds.{kind_of};
ghost use Rattle.zvt_text.specs.MessageTexts.{detail_text, head_text, kind_name, title_text};
ghost use Rattle.zvt_text.specs.Writing.{Puts};

use crate::cursor::{Full, fixed, word};
use crate::details::{byte_part, config, control, currency, data, outcome, printed, unknown};
use crate::notes::{head_note, noted};
use crate::text_options::TextOptions;
use zvt_apdu::{ApduView, Kind};

/// Writes the first line of a message, without its end.
pub(crate) fn head(
    buffer: &mut [u8],
    at: usize,
    options: TextOptions,
    message: &ApduView<'_>,
) -> Result<usize, Full>
    requires { at ≤ length buffer.old }
    ensures { Puts result at buffer.old buffer.new (head_text options message.now) }
{
    let at = title(buffer, at, options, message)?;
    if options.explained {
        noted(buffer, at, head_note(message))
    } else {
        Ok(at)
    }
}

/// Writes the name of a message's kind, and what the message says after it.
fn title(
    buffer: &mut [u8],
    at: usize,
    options: TextOptions,
    message: &ApduView<'_>,
) -> Result<usize, Full>
    requires { at ≤ length buffer.old }
    ensures { Puts result at buffer.old buffer.new (title_text options message.now) }
{
    match message.kind() {
        Kind::Ack => {
            let payload = message.payload();
            let at = fixed(buffer, at, *b"Ack")?;
            data(buffer, at, payload)
        }
        Kind::Authorisation => fixed(buffer, at, *b"Authorisation"),
        Kind::Status => fixed(buffer, at, *b"Status"),
        Kind::PrintLine => {
            let attribute = message.attribute();
            let line = message.text();
            let at = fixed(buffer, at, *b"PrintLine")?;
            let at = byte_part(buffer, at, attribute)?;
            printed(buffer, at, line)
        }
        Kind::Completion => fixed(buffer, at, *b"Completion"),
        kind => {
            let at = word(buffer, at, kind_name(kind).as_bytes())?;
            detail(buffer, at, options, message)
        }
    }
}

/// Returns the name of a kind of message as every text writes it.
pub fn kind_name(kind: Kind) -> &'static str
    ensures { result.now ≡ kind_name kind }
{
    match kind {
        Kind::Ack => "Ack",
        Kind::Nack => "Nack",
        Kind::Registration => "Registration",
        Kind::Authorisation => "Authorisation",
        Kind::Reversal => "Reversal",
        Kind::EndOfDay => "EndOfDay",
        Kind::AbortOrder => "AbortOrder",
        Kind::Status => "Status",
        Kind::Intermediate => "Intermediate",
        Kind::PrintLine => "PrintLine",
        Kind::TextBlock => "TextBlock",
        Kind::Completion => "Completion",
        Kind::Abort => "Abort",
        Kind::Other => "Other",
    }
}

/// Writes what the heads of all other kinds say after the name.
fn detail(
    buffer: &mut [u8],
    at: usize,
    options: TextOptions,
    message: &ApduView<'_>,
) -> Result<usize, Full>
    requires inside { at ≤ length buffer.old }
    requires no_ack { kind_of message.now ≢ Kind.Ack }
    requires no_line { kind_of message.now ≢ Kind.PrintLine }
    ensures { Puts result at buffer.old buffer.new (detail_text options message.now) }
{
    match message.kind() {
        Kind::Nack => {
            let at = byte_part(buffer, at, message.code())?;
            data(buffer, at, message.payload())
        }
        Kind::Registration => {
            let at = config(buffer, at, message.config())?;
            currency(buffer, at, message.currency())
        }
        Kind::Intermediate => {
            let at = byte_part(buffer, at, message.status())?;
            data(buffer, at, message.payload())
        }
        Kind::Abort => {
            let at = outcome(buffer, at, message.code())?;
            data(buffer, at, message.payload())
        }
        Kind::Other => {
            let at = control(buffer, at, message.control())?;
            unknown(buffer, at, options, message.payload())
        }
        _ => Ok(at),
    }
}
