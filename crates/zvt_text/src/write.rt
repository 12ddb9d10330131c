//! Writes messages and their parts, each completely or not at all.
ghost use Rattle.std.specs.Prelude.{◌≡◌, ◌≤◌, ◌++◌, ◌∷◌, [], length};
ghost use Rattle.std.specs.Option.{option_copied};
ghost use Rattle.hex.specs.Hex.{encode_upper};
ghost use Rattle.zvt_text.specs.Numbers.{numbers_text, trace_text};
ghost use Rattle.zvt_text.specs.Results.{result_words, with_meaning};
ghost use Rattle.zvt_text.specs.MessageTexts.{four_digits, said};
ghost use Rattle.zvt_text.specs.Writing.{Adds, Puts};

use crate::bytes::bytes_or_dash;
use crate::cursor::{self, Full, byte, fixed, push, repeat, word};
use crate::heads::head;
use crate::lines::field_lines;
use crate::meanings::printed_meaning;
use crate::text::{Says, Text};
use crate::text_options::TextOptions;
use itoa::Buffer;
use std::alloc::AllocError;
use zvt_apdu::ApduView;
use zvt_bcd::{Currency, Trace};

// Where memory is refused, the error of each, the text is as it was: so nothing of half a message is ever seen.

/// Writes a prefix and a message: a line with the name of its kind and its values, then a line for each field. Every
/// line ends in a line feed. Never writes the password of a message, and writes only the size of the fields 22, 23,
/// 24, 2D, 3A and 3D (card number, tracks, verification value, password). A safe text hides more: [`TextOptions`].
#[inline(always)]
pub fn message(
    text: &mut Text,
    options: TextOptions,
    prefix: &[u8],
    message: &ApduView<'_>,
) -> Result<(), AllocError>
    ensures { Adds result text.old text.new (prefix.now ++ said options message.now) }
{
    text.add(&MessageText {
        options,
        prefix,
        message,
    })
}

/// Writes a result code and its meaning, such as `6F wrong currency`. A code whose meaning the text does not have
/// is written as `code` and two hexadecimal digits.
pub fn result_words(text: &mut Text, code: u8) -> Result<(), AllocError>
    ensures { Adds result text.old text.new (result_words code) }
{
    text.add(&ResultCode(code))
}

/// Writes a trace number in six digits and a receipt number in hexadecimal, as `trace 000017 receipt 0005`; a payment
/// without a receipt number has a dash.
pub fn numbers(text: &mut Text, trace: Trace, receipt: Option<[u8; 2]>) -> Result<(), AllocError>
    ensures { Adds result text.old text.new (numbers_text trace receipt) }
{
    text.add(&PaymentNumbers { trace, receipt })
}

/// Writes the number of a currency in four digits, such as `0978`.
pub fn currency_digits(text: &mut Text, currency: Currency) -> Result<(), AllocError>
    ensures { Adds result text.old text.new (four_digits currency) }
{
    text.add(&FourDigits(currency))
}

/// Writes bytes in hexadecimal.
pub fn hexadecimal(text: &mut Text, bytes: &[u8]) -> Result<(), AllocError>
    ensures { Adds result text.old text.new (encode_upper bytes.now) }
{
    text.add(&HexDigits(bytes))
}

/// Writes bytes in hexadecimal after a prefix, and the end of the line.
#[inline(always)]
pub fn line(text: &mut Text, prefix: &[u8], bytes: &[u8]) -> Result<(), AllocError>
    ensures { Adds result text.old text.new (prefix.now ++ encode_upper bytes.now ++ 10 ∷ []) }
{
    text.add(&HexLine { prefix, bytes })
}

/// A message after a prefix.
#[derive(Drop)]
struct MessageText<'a> {
    options: TextOptions,
    prefix: &'a [u8],
    message: &'a ApduView<'a>,
}

impl Says for MessageText<'_> {
    ghost said = { λ m. m.prefix.now ++ said m.options m.message.now };

    #[inline(always)]
    fn put(&self, buffer: &mut [u8]) -> Result<usize, Full> {
        let at = word(buffer, 0, self.prefix)?;
        put_message(buffer, at, self.options, self.message)
    }
}

/// Puts a message with its fields into the buffer.
fn put_message(
    buffer: &mut [u8],
    at: usize,
    options: TextOptions,
    message: &ApduView<'_>,
) -> Result<usize, Full>
    requires { at ≤ length buffer.old }
    ensures { Puts result at buffer.old buffer.new (said options message.now) }
{
    let at = head(buffer, at, options, message)?;
    let at = push(buffer, at, b'\n')?;
    match message.fields() {
        Some(fields) => field_lines(buffer, at, options, fields),
        None => Ok(at),
    }
}

/// A result code, in words.
#[derive(Drop)]
struct ResultCode(u8);

impl Says for ResultCode {
    ghost said = { λ r. result_words r.0 };

    fn put(&self, buffer: &mut [u8]) -> Result<usize, Full> {
        put_result(buffer, 0, self.0)
    }
}

/// Puts a result code into the buffer, and its meaning if the text has it.
pub(crate) fn put_result(buffer: &mut [u8], at: usize, code: u8) -> Result<usize, Full>
    requires { at ≤ length buffer.old }
    ensures { Puts result at buffer.old buffer.new (result_words code) }
{
    put_code(buffer, at, code, printed_meaning(code))
}

/// Puts a code and its meaning into the buffer.
fn put_code(buffer: &mut [u8], at: usize, code: u8, meaning: Option<&str>) -> Result<usize, Full>
    requires { at ≤ length buffer.old }
    ensures { Puts result at buffer.old buffer.new (with_meaning code (option_copied meaning.entry)) }
{
    match meaning {
        Some(meaning) => {
            let at = byte(buffer, at, code)?;
            let at = push(buffer, at, b' ')?;
            word(buffer, at, meaning.as_bytes())
        }
        None => {
            let at = fixed(buffer, at, *b"code ")?;
            byte(buffer, at, code)
        }
    }
}

/// The numbers under which a payment is stored.
#[derive(Drop)]
struct PaymentNumbers {
    trace: Trace,
    receipt: Option<[u8; 2]>,
}

impl Says for PaymentNumbers {
    ghost said = { λ n. numbers_text n.trace n.receipt };

    fn put(&self, buffer: &mut [u8]) -> Result<usize, Full> {
        put_numbers(buffer, 0, self.trace, self.receipt)
    }
}

/// Puts a trace number and a receipt number into the buffer.
fn put_numbers(
    buffer: &mut [u8],
    at: usize,
    trace: Trace,
    receipt: Option<[u8; 2]>,
) -> Result<usize, Full>
    requires { at ≤ length buffer.old }
    ensures { Puts result at buffer.old buffer.new (numbers_text trace receipt) }
{
    let at = trace_number(buffer, at, trace)?;
    let at = fixed(buffer, at, *b" receipt ")?;
    match receipt {
        Some(number) => bytes_or_dash(buffer, at, number.as_slice()),
        None => push(buffer, at, b'-'),
    }
}

/// Puts a trace number in six digits into the buffer.
fn trace_number(buffer: &mut [u8], at: usize, trace: Trace) -> Result<usize, Full>
    requires { at ≤ length buffer.old }
    ensures { Puts result at buffer.old buffer.new (trace_text trace) }
{
    let mut formatter = Buffer::new();
    let digits = formatter.format(trace.get());
    let at = fixed(buffer, at, *b"trace ")?;
    let at = repeat(buffer, at, b'0', 6usize.saturating_sub(digits.len()))?;
    word(buffer, at, digits.as_bytes())
}

/// The number of a currency in four digits.
#[derive(Drop)]
struct FourDigits(Currency);

impl Says for FourDigits {
    ghost said = { λ d. four_digits d.0 };

    fn put(&self, buffer: &mut [u8]) -> Result<usize, Full> {
        cursor::four_digits(buffer, 0, self.0.get())
    }
}

/// Bytes in hexadecimal.
#[derive(Drop)]
struct HexDigits<'a>(&'a [u8]);

impl Says for HexDigits<'_> {
    ghost said = { λ d. encode_upper d.0.now };

    fn put(&self, buffer: &mut [u8]) -> Result<usize, Full> {
        cursor::hexadecimal(buffer, 0, self.0)
    }
}

/// A line of bytes in hexadecimal, after a prefix.
#[derive(Drop)]
struct HexLine<'a> {
    prefix: &'a [u8],
    bytes: &'a [u8],
}

impl Says for HexLine<'_> {
    ghost said = { λ l. l.prefix.now ++ encode_upper l.bytes.now ++ 10 ∷ [] };

    #[inline(always)]
    fn put(&self, buffer: &mut [u8]) -> Result<usize, Full> {
        let at = word(buffer, 0, self.prefix)?;
        let at = cursor::hexadecimal(buffer, at, self.bytes)?;
        push(buffer, at, b'\n')
    }
}
