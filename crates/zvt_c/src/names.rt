//! Names of numbers, as the program prints them. Each call writes the name (ASCII, no final zero) to the start of the
//! buffer and returns its size, or 0 if the number has no name. If the buffer is too small, nothing is written.
ghost use Rattle.std.specs.Prelude.{◌≡◌};
ghost use Rattle.zvt_c.specs.Names.{causes, meaning_in, name_in, outcomes, reasons, refusals, status_in};
ghost use Rattle.zvt_c.specs.Saving.{Written};

use crate::statuses;
use zvt_grammar::Why;
use zvt_text::{meaning, status_words};
use zvt_till::{Cause, OrderRefusal};

/// Writes a name if it fits, and returns its size.
pub(crate) fn put_name(name: &str, buffer: &mut [u8]) -> usize
    ensures { Written name.now result buffer.old buffer.new }
{
    let bytes = name.as_bytes();
    let size = bytes.len();
    if size <= buffer.len() {
        buffer[..size].copy_from_slice(bytes);
    }
    size
}

/// Returns the name of a reason.
fn reason_word(number: u32) -> &'static str
    ensures { result.now ≡ name_in reasons number }
{
    match number {
        1 => Why::NotShortest.name(),
        2 => Why::DoesNotFit.name(),
        3 => Why::LengthForm.name(),
        4 => Why::TooDeep.name(),
        5 => Why::TagTooLong.name(),
        6 => Why::UnknownField.name(),
        7 => Why::NotDigit.name(),
        8 => Why::LengthDigit.name(),
        _ => "",
    }
}

/// Returns the name of a cause.
fn cause_word(number: u32) -> &'static str
    ensures { result.now ≡ name_in causes number }
{
    match number {
        1 => Cause::NoStatus.name(),
        2 => Cause::Conflict.name(),
        3 => Cause::AmountDiffers.name(),
        4 => Cause::NoTrace.name(),
        5 => Cause::TraceUsed.name(),
        6 => Cause::AbortAfterApproval.name(),
        7 => Cause::Line.name(),
        8 => Cause::Malformed.name(),
        9 => Cause::Unfinished.name(),
        10 => Cause::WrongCurrency.name(),
        _ => "",
    }
}

/// Returns the name of a kind of outcome.
fn outcome_word(number: u32) -> &'static str
    ensures { result.now ≡ name_in outcomes number }
{
    match number {
        1 => "registered",
        2 => "paid",
        3 => "declined",
        4 => "refused",
        5 => "aborted",
        6 => "unclear",
        7 => "reversed",
        8 => "day closed",
        _ => "",
    }
}

/// Returns the name of the status of a refused order.
fn refusal_word(number: u32) -> &'static str
    ensures { result.now ≡ name_in refusals number }
{
    match number {
        statuses::NO_MEMORY => OrderRefusal::Memory.name(),
        statuses::OFFLINE => OrderRefusal::Offline.name(),
        statuses::NOT_REGISTERED => OrderRefusal::NotRegistered.name(),
        statuses::BUSY => OrderRefusal::Busy.name(),
        statuses::NOTHING_TO_CANCEL => OrderRefusal::NothingToCancel.name(),
        statuses::BOOK_FULL => OrderRefusal::BookFull.name(),
        statuses::UNKNOWN_ENTRY => OrderRefusal::UnknownEntry.name(),
        statuses::ALREADY_REVERSED => OrderRefusal::AlreadyReversed.name(),
        statuses::NO_RECEIPT => OrderRefusal::NoReceipt.name(),
        _ => "",
    }
}

/// Returns the meaning of a terminal's result code, or an empty text.
fn result_word(code: u32) -> &'static str
    ensures { result.now ≡ meaning_in code }
{
    match u8::try_from(code) {
        Ok(code) => meaning(code).unwrap_or(""),
        Err(_) => "",
    }
}

/// Returns the words of an intermediate status, or an empty text.
fn status_word(status: u32) -> &'static str
    ensures { result.now ≡ status_in status }
{
    match u8::try_from(status) {
        Ok(status) => status_words(status).unwrap_or(""),
        Err(_) => "",
    }
}

/// Writes the name of the reason why bytes are refused, 1 to 8.
#[unsafe(no_mangle)]
pub extern "C" fn zvt_reason_name(number: u32, buffer: &mut [u8]) -> usize
    ensures { Written (name_in reasons number) result buffer.old buffer.new }
{
    put_name(reason_word(number), buffer)
}

/// Writes the name of the cause of an unclear payment, 1 to 10.
#[unsafe(no_mangle)]
pub extern "C" fn zvt_cause_name(number: u32, buffer: &mut [u8]) -> usize
    ensures { Written (name_in causes number) result buffer.old buffer.new }
{
    put_name(cause_word(number), buffer)
}

/// Writes the name of a kind of outcome, 1 to 8.
#[unsafe(no_mangle)]
pub extern "C" fn zvt_outcome_name(number: u32, buffer: &mut [u8]) -> usize
    ensures { Written (name_in outcomes number) result buffer.old buffer.new }
{
    put_name(outcome_word(number), buffer)
}

/// Writes the name of the status of a refused order, 3 or 10 to 17.
#[unsafe(no_mangle)]
pub extern "C" fn zvt_refusal_name(number: u32, buffer: &mut [u8]) -> usize
    ensures { Written (name_in refusals number) result buffer.old buffer.new }
{
    put_name(refusal_word(number), buffer)
}

/// Writes the meaning of a terminal's result code, as found in a declined, refused or aborted outcome. Returns 0 if
/// the code has no meaning of its own.
#[unsafe(no_mangle)]
pub extern "C" fn zvt_result_name(code: u32, buffer: &mut [u8]) -> usize
    ensures { Written (meaning_in code) result buffer.old buffer.new }
{
    put_name(result_word(code), buffer)
}

/// Writes the words of an intermediate status, which says what the terminal waits for or does. Returns 0 if the status
/// has no words.
#[unsafe(no_mangle)]
pub extern "C" fn zvt_status_name(status: u32, buffer: &mut [u8]) -> usize
    ensures { Written (status_in status) result buffer.old buffer.new }
{
    put_name(status_word(status), buffer)
}
