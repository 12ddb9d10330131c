//! Lines to print: the text of a print line, or the lines of a text block.
ghost use Rattle.std.specs.Prelude.{◌≡◌, IfNone, IfSome, true};
ghost use Rattle.std.specs.Option.{option_copied};
ghost use Rattle.zvt_text.specs.Codepages.{printed_text};
ghost use Rattle.zvt_c.specs.Lines.{GivesLine, copy_in, copy_number, is_codepage, line_in, page_of};
ghost use Rattle.zvt_c.specs.Lines.{LineOfHandle};
ghost use Rattle.zvt_c.specs.Saving.{Written};

use crate::handle::ZvtTill;
use crate::records::put;
use crate::statuses;
use std::alloc::Global;
use zvt_apdu::{ApduView, Kind};
use zvt_text::{Codepage, ReceiptType, Text, block_line, block_type, printed_line};

/// A line to print.
#[repr(C)]
#[derive(Clone, Copy, Drop)]
pub struct ZvtLine {
    /// The size of the text, in bytes.
    pub size: u64,
    /// The type of the receipt, as the text block names it: 1 merchant, 2 customer, 3 administration, or another byte.
    /// 0 if it names none, and for a print line.
    pub copy: u32,
}

/// Returns the line at this index, counted from 0, of those that a message has to print.
pub(crate) fn line_in<'a>(apdu: &ApduView<'a>, place: usize) -> Option<&'a [u8]>
    ensures { option_copied result ≡ line_in apdu.now place }
{
    match apdu.kind() {
        Kind::PrintLine if place == 0 => apdu.text(),
        Kind::TextBlock => match apdu.fields() {
            Some(fields) => block_line(fields, place),
            None => None,
        },
        _ => None,
    }
}

/// Returns the number of the receipt type that a message names, or 0.
fn copy_in(apdu: &ApduView<'_>) -> u32
    ensures { result ≡ copy_in apdu.now }
{
    match apdu.kind() {
        Kind::TextBlock => match apdu.fields() {
            Some(fields) => copy_number(block_type(fields)),
            None => 0,
        },
        _ => 0,
    }
}

/// Returns the number of a receipt type.
fn copy_number(receipt_type: Option<ReceiptType>) -> u32
    ensures { result ≡ copy_number receipt_type }
{
    match receipt_type {
        None => 0,
        Some(ReceiptType::Merchant) => 1,
        Some(ReceiptType::Customer) => 2,
        Some(ReceiptType::Administration) => 3,
        Some(ReceiptType::Other(code)) => u32::from(code),
    }
}

/// Returns the code page of a number from 1 on.
fn page_of(number: u32) -> Option<Codepage>
    ensures { result ≡ page_of number }
{
    match number {
        1 => Some(Codepage::Cp437),
        2 => Some(Codepage::Cp850),
        3 => Some(Codepage::Latin1),
        4 => Some(Codepage::Utf8),
        _ => None,
    }
}

/// Writes a line in UTF-8 if it fits, and returns its size, or `None` if an allocation failed.
fn put_decoded(alloc: Global, codepage: Codepage, line: &[u8], buffer: &mut [u8]) -> Option<usize>
    ensures some { IfSome result (λ size. Written (printed_text codepage line.now) size buffer.old buffer.new) }
    ensures none { IfNone result (buffer.new ≡ buffer.old) }
{
    let mut text = Text::new(alloc);
    if printed_line(&mut text, codepage, line).is_err() {
        return None;
    }
    Some(put(text.bytes(), buffer))
}

/// Writes the line at this index, counted from 0, of those that the last message has to print, and reports its size
/// and the type of its receipt. The last message is the one that the last feed ended with. If the buffer is too small,
/// nothing is written. `codepage` is 0 for the bytes as they were sent; or 1 for code page 437, 2 for 850, 3 for ISO
/// 8859-1 and 4 for UTF-8, and then the line is written in UTF-8. The status is 0, 3 or 6, or 5 if there is no such
/// line or no such code page.
#[unsafe(no_mangle)]
pub extern "C" fn zvt_till_line(
    alloc: Global,
    till: &mut ZvtTill,
    place: usize,
    codepage: u32,
    buffer: &mut [u8],
    line: &mut ZvtLine,
) -> u32
    ensures same { till.new.raw_handle.held ≡ till.old.raw_handle.held }
    ensures line { LineOfHandle till.old.raw_handle.held place codepage buffer.old buffer.new line.new result }
{
    *line = ZvtLine { size: 0, copy: 0 };
    if codepage > 4 {
        return statuses::ARGUMENT;
    }
    let Some(end) = till.take(alloc) else {
        return statuses::CLOSED;
    };
    let status = give_line(alloc, end.stream.lent(), place, codepage, buffer, line);
    *till = ZvtTill::of(end);
    status
}

/// Hands out the line at this index of a message.
fn give_line(
    alloc: Global,
    lent: Option<ApduView<'_>>,
    place: usize,
    codepage: u32,
    buffer: &mut [u8],
    line: &mut ZvtLine,
) -> u32
    requires { is_codepage codepage ≡ true }
    ensures { GivesLine lent.entry place codepage buffer.old buffer.new line.new result }
{
    *line = ZvtLine { size: 0, copy: 0 };
    let Some(apdu) = lent else {
        return statuses::ARGUMENT;
    };
    let Some(text) = line_in(&apdu, place) else {
        return statuses::ARGUMENT;
    };
    let size = match page_of(codepage) {
        None => put(text, buffer),
        Some(codepage) => match put_decoded(alloc, codepage, text, buffer) {
            Some(size) => size,
            None => return statuses::NO_MEMORY,
        },
    };
    *line = ZvtLine {
        size: size as u64,
        copy: copy_in(&apdu),
    };
    statuses::OK
}
