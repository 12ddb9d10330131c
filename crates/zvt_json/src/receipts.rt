//! The JSON lines of a text block.
ghost use Rattle.std.specs.Prelude.{◌≤◌, length, map};
ghost use Rattle.zvt_json.specs.Receipts.{IsByteType, copy_led, printed_line_text, receipt_lines, receipt_lines_text};
ghost use Rattle.zvt_json.specs.Texts.{shut};
ghost use Rattle.zvt_text.specs.Receipts.{type_name};
ghost use Rattle.zvt_text.specs.Writing.{Adds, Puts};

use crate::messages::printed;
use std::alloc::AllocError;
use zvt_text::cursor::{Full, decimal, fixed, push};
use zvt_text::{ReceiptType, Says, Text, TextBlock, put_receipt_type};

/// Appends one JSON line for each line of a text block. `line` is the line of the trace in which the block ends. If an
/// allocation fails, the text does not change.
pub fn receipt(text: &mut Text, line: u64, block: &TextBlock<'_>) -> Result<(), AllocError>
    ensures { Adds result text.old text.new (receipt_lines block.now.receipt_type line
        (map (λ text. text.now) block.now.lines.items)) }
{
    text.add(&ReceiptLines {
        receipt_type: block.receipt_type,
        line,
        texts: block.lines.as_slice(),
    })
}

/// The lines of a receipt.
#[derive(Drop)]
struct ReceiptLines<'a> {
    receipt_type: Option<ReceiptType>,
    line: u64,
    texts: &'a [&'a [u8]],
}

impl Says for ReceiptLines<'_> {
    ghost said = { λ r. receipt_lines_text r.receipt_type r.line (map (λ text. text.now) r.texts.now) };

    fn put(&self, buffer: &mut [u8]) -> Result<usize, Full> {
        put_lines(buffer, self.receipt_type, self.line, self.texts)
    }
}

/// Writes the lines of a receipt.
fn put_lines(
    buffer: &mut [u8],
    receipt_type: Option<ReceiptType>,
    line: u64,
    texts: &[&[u8]],
) -> Result<usize, Full>
    ensures { Puts result 0 buffer.old buffer.new (receipt_lines_text receipt_type line
        (map (λ text. text.now) texts.now)) }
{
    let mut end = 0;
    for text in texts {
        let at = put_line(buffer, end, receipt_type, line, text)?;
        end = push(buffer, at, b'\n')?;
    }
    Ok(end)
}

/// Writes a line of a receipt.
fn put_line(
    buffer: &mut [u8],
    at: usize,
    receipt_type: Option<ReceiptType>,
    line: u64,
    text: &[u8],
) -> Result<usize, Full>
    requires { at ≤ length buffer.old }
    ensures { Puts result at buffer.old buffer.new (printed_line_text receipt_type line text.now) }
{
    let at = push(buffer, at, b'{')?;
    let at = copy(buffer, at, receipt_type)?;
    let at = fixed(
        buffer,
        at,
        *b"\"from\":\"terminal\",\"kind\":\"TextBlock\",\"line\":",
    )?;
    let at = decimal(buffer, at, line)?;
    printed(buffer, at, Some(text))
}

/// Writes the type of a receipt, if there is one, and a comma after it.
fn copy(buffer: &mut [u8], at: usize, receipt_type: Option<ReceiptType>) -> Result<usize, Full>
    requires { at ≤ length buffer.old }
    ensures { Puts result at buffer.old buffer.new (copy_led receipt_type) }
{
    let Some(receipt_type) = receipt_type else {
        return Ok(at);
    };
    let at = fixed(buffer, at, *b"\"copy\":\"")?;
    let at = name(buffer, at, receipt_type)?;
    push(buffer, at, b',')
}

/// Writes the name of a receipt's type, and the quotation mark after it.
fn name(buffer: &mut [u8], at: usize, receipt_type: ReceiptType) -> Result<usize, Full>
    requires { at ≤ length buffer.old }
    ensures { Puts result at buffer.old buffer.new (shut (type_name receipt_type)) }
{
    note_type(receipt_type);
    let at = put_receipt_type(buffer, at, receipt_type)?;
    push(buffer, at, b'"')
}

/// The code of a type that is not listed is a byte.
fn note_type(receipt_type: ReceiptType)
    ensures { IsByteType receipt_type }
{
    if let ReceiptType::Other(code) = receipt_type {
        let _ = code;
    }
}
