//! The lines of receipts, each written completely or not at all.
ghost use Rattle.std.specs.Prelude.{◌≤◌, length, map};
ghost use Rattle.std.specs.List.{flat_map};
ghost use Rattle.zvt_text.specs.Codepages.{printed_text};
ghost use Rattle.zvt_text.specs.Receipts.{heading, receipt_line, receipt_text, type_name};
ghost use Rattle.zvt_text.specs.Writing.{Adds, Puts};

use crate::bytes::escape_all;
use crate::codepages::{Codepage, Quotes, decode};
use crate::cursor::{Full, byte, fixed, push};
use crate::text::{Says, Text};
use crate::text_blocks::{ReceiptType, TextBlock};
use std::alloc::AllocError;

/// Writes a line of a receipt in UTF-8, and the end of the line. Printable ASCII (20 to 7E) stays as it is, except the
/// quotation mark and the backslash. A byte from 80 on becomes its character in the code page. Every other byte, and
/// without a code page every byte from 7F on, becomes `\x` and two hexadecimal digits.
pub fn receipt_line(
    text: &mut Text,
    codepage: Option<Codepage>,
    line: &[u8],
) -> Result<(), AllocError>
    ensures { Adds result text.old text.new (receipt_line codepage line.now) }
{
    text.add(&ReceiptLine { codepage, line })
}

/// Writes the receipt of a text block: a line such as `# merchant receipt` if the block names a type, and then its
/// lines in the form of [`receipt_line`].
pub fn receipt_block(
    text: &mut Text,
    codepage: Option<Codepage>,
    block: &TextBlock<'_>,
) -> Result<(), AllocError>
    ensures { Adds result text.old text.new (receipt_text codepage block.now.receipt_type
        (map (λ line. line.now) block.now.lines.items)) }
{
    text.add(&Receipt {
        codepage,
        receipt_type: block.receipt_type,
        lines: block.lines.as_slice(),
    })
}

/// Writes a line to print in UTF-8, without an end. Each printing character of ASCII is as it is; the others are as in
/// [`receipt_line`].
pub fn printed_line(text: &mut Text, codepage: Codepage, line: &[u8]) -> Result<(), AllocError>
    ensures { Adds result text.old text.new (printed_text codepage line.now) }
{
    text.add(&PrintedLine { codepage, line })
}

/// A line to print.
#[derive(Drop)]
struct PrintedLine<'a> {
    codepage: Codepage,
    line: &'a [u8],
}

impl Says for PrintedLine<'_> {
    ghost said = { λ l. printed_text l.codepage l.line.now };

    fn put(&self, buffer: &mut [u8]) -> Result<usize, Full> {
        decode(buffer, 0, self.codepage, Quotes::Plain, self.line)
    }
}

/// A line of a receipt.
#[derive(Drop)]
struct ReceiptLine<'a> {
    codepage: Option<Codepage>,
    line: &'a [u8],
}

impl Says for ReceiptLine<'_> {
    ghost said = { λ l. receipt_line l.codepage l.line.now };

    fn put(&self, buffer: &mut [u8]) -> Result<usize, Full> {
        put_line(buffer, 0, self.codepage, self.line)
    }
}

/// A receipt: its type, and its lines.
#[derive(Drop)]
struct Receipt<'a> {
    codepage: Option<Codepage>,
    receipt_type: Option<ReceiptType>,
    lines: &'a [&'a [u8]],
}

impl Says for Receipt<'_> {
    ghost said = { λ r. receipt_text r.codepage r.receipt_type (map (λ line. line.now) r.lines.now) };

    fn put(&self, buffer: &mut [u8]) -> Result<usize, Full> {
        let at = put_heading(buffer, 0, self.receipt_type)?;
        put_lines(buffer, at, self.codepage, self.lines)
    }
}

/// Puts the line before a receipt into the buffer.
fn put_heading(
    buffer: &mut [u8],
    at: usize,
    receipt_type: Option<ReceiptType>,
) -> Result<usize, Full>
    requires { at ≤ length buffer.old }
    ensures { Puts result at buffer.old buffer.new (heading receipt_type) }
{
    let Some(receipt_type) = receipt_type else {
        return Ok(at);
    };
    let at = fixed(buffer, at, *b"# ")?;
    let at = put_receipt_type(buffer, at, receipt_type)?;
    fixed(buffer, at, *b" receipt\n")
}

/// Writes the name of a receipt's type, such as `merchant`. A type that has no name is written as `type` and two
/// hexadecimal digits.
pub fn put_receipt_type(
    buffer: &mut [u8],
    at: usize,
    receipt_type: ReceiptType,
) -> Result<usize, Full>
    requires { at ≤ length buffer.old }
    ensures { Puts result at buffer.old buffer.new (type_name receipt_type) }
{
    match receipt_type {
        ReceiptType::Merchant => fixed(buffer, at, *b"merchant"),
        ReceiptType::Customer => fixed(buffer, at, *b"customer"),
        ReceiptType::Administration => fixed(buffer, at, *b"administration"),
        ReceiptType::Other(code) => {
            let at = fixed(buffer, at, *b"type ")?;
            byte(buffer, at, code)
        }
    }
}

/// Puts the lines of a receipt into the buffer.
fn put_lines(
    buffer: &mut [u8],
    at: usize,
    codepage: Option<Codepage>,
    lines: &[&[u8]],
) -> Result<usize, Full>
    requires { at ≤ length buffer.old }
    ensures { Puts result at buffer.old buffer.new (flat_map (receipt_line codepage)
        (map (λ line. line.now) lines.now)) }
{
    let mut end = at;
    for line in lines {
        end = put_line(buffer, end, codepage, line)?;
    }
    Ok(end)
}

fn put_line(
    buffer: &mut [u8],
    at: usize,
    codepage: Option<Codepage>,
    line: &[u8],
) -> Result<usize, Full>
    requires { at ≤ length buffer.old }
    ensures { Puts result at buffer.old buffer.new (receipt_line codepage line.now) }
{
    let at = match codepage {
        None => escape_all(buffer, at, line)?,
        Some(codepage) => decode(buffer, at, codepage, Quotes::Escaped, line)?,
    };
    push(buffer, at, b'\n')
}
