//! The messages of the terminal, encoded without allocating.
ghost use Rattle.std.specs.Prelude.{◌≡◌, ◌+◌, ◌++◌, [], ◌∷◌, ◌<◌, ◌≤◌, ◌^◌, length, codes, IfOk};
ghost use Rattle.std.specs.Fmt.{decimal};
ghost use Rattle.zvt_apdu.specs.Message.{print_line};
ghost use Rattle.zvt_apdu.specs.Briefs.{digits, PutsMessage};
ghost use Rattle.zvt_term.specs.Reports.{IsWritable, currency_field, message_of_report, text_of};

use crate::messages::{Line, Report};
use itoa::Buffer;
use std::alloc::{AllocError, Global};
use zvt_apdu::put::{amount_digits, currency_digits, put_after, put_bytes, put_message};
use zvt_apdu::{Apdu, control_bytes, scan};
use zvt_bcd::{Amount, Currency, put};
use zvt_field::bmp::{AMOUNT, CURRENCY, ORIGINAL, RECEIPT, RESULT, TERMINAL, TRACE};
use zvt_grammar::Scan;

/// Size of a buffer that holds any report, in bytes.
pub const MAX_REPORT_LEN: usize = 32;

/// Returns a row's number as two bytes of digits.
fn number_digits(number: u16) -> [u8; 2]
    requires { number ≤ 9999 }
    ensures { result ≡ digits 2 number }
{
    let mut two = [0; 2];
    put(u64::from(number), &mut two);
    two
}

/// Returns the terminal's number as four bytes of digits.
pub(crate) fn tid_digits(tid: u32) -> [u8; 4]
    requires { tid ≤ 99999999 }
    ensures { result ≡ digits 4 tid }
{
    let mut four = [0; 4];
    put(u64::from(tid), &mut four);
    four
}

/// Writes the completion of a registration to the start, and returns its size.
fn put_registration(tid: u32, currency: Option<Currency>, out: &mut [u8; MAX_REPORT_LEN]) -> usize
    requires { tid ≤ 99999999 }
    ensures written { PutsMessage (message_of_report (Report.Registered tid currency)) out.old out.new result }
    ensures fits { result ≤ 32 }
{
    let [a, b, c, d] = tid_digits(tid);
    match currency {
        None => put_message(control_bytes::COMPLETION, &[TERMINAL, a, b, c, d], out),
        Some(currency) => {
            let [high, low] = currency_digits(currency);
            put_message(
                control_bytes::COMPLETION,
                &[TERMINAL, a, b, c, d, CURRENCY, high, low],
                out,
            )
        }
    }
}

/// Writes the status of an approval to the start, and returns its size.
fn put_approval(
    amount: Amount,
    number: u16,
    currency: Option<Currency>,
    out: &mut [u8; MAX_REPORT_LEN],
) -> usize
    requires { number ≤ 9999 }
    ensures written { PutsMessage (message_of_report (Report.Approved amount number currency)) out.old out.new result }
    ensures fits { result ≤ 32 }
{
    let [a, b, c, d, e, f] = amount_digits(amount);
    let [high, low] = number_digits(number);
    match currency {
        None => {
            let fields = [
                RESULT, 0x00, AMOUNT, a, b, c, d, e, f, TRACE, 0x00, high, low, RECEIPT, high, low,
            ];
            put_message(control_bytes::STATUS, &fields, out)
        }
        Some(currency) => {
            let [first, second] = currency_digits(currency);
            let fields = [
                RESULT, 0x00, AMOUNT, a, b, c, d, e, f, TRACE, 0x00, high, low, RECEIPT, high, low,
                CURRENCY, first, second,
            ];
            put_message(control_bytes::STATUS, &fields, out)
        }
    }
}

/// Writes the status of a reversal to the start, and returns its size.
fn put_reversal(
    amount: Amount,
    number: u16,
    original: u16,
    currency: Option<Currency>,
    out: &mut [u8; MAX_REPORT_LEN],
) -> usize
    requires number { number ≤ 9999 }
    requires original { original ≤ 9999 }
    ensures written { PutsMessage (message_of_report (Report.TakenBack amount number original currency)) out.old
        out.new result }
    ensures fits { result ≤ 32 }
{
    let [a, b, c, d, e, f] = amount_digits(amount);
    let [high, low] = number_digits(number);
    let [old_high, old_low] = number_digits(original);
    match currency {
        None => {
            let fields = [
                RESULT, 0x00, AMOUNT, a, b, c, d, e, f, TRACE, 0x00, high, low, ORIGINAL, 0x00,
                old_high, old_low, RECEIPT, high, low,
            ];
            put_message(control_bytes::STATUS, &fields, out)
        }
        Some(currency) => {
            let [first, second] = currency_digits(currency);
            let fields = [
                RESULT, 0x00, AMOUNT, a, b, c, d, e, f, TRACE, 0x00, high, low, ORIGINAL, 0x00,
                old_high, old_low, RECEIPT, high, low, CURRENCY, first, second,
            ];
            put_message(control_bytes::STATUS, &fields, out)
        }
    }
}

/// Writes a print line of this text to the start, and returns its size.
fn put_text(words: &[u8], more: &[u8], out: &mut [u8]) -> usize
    requires short { length words.now + length more.now ≤ 28 }
    requires room { 32 ≤ length out.old }
    ensures written { PutsMessage (print_line 0 (words.now ++ more.now)) out.old out.new result }
    ensures fits { result ≤ 32 }
{
    let size = (1 + words.len() + more.len()) as u8;
    let [high, low] = control_bytes::PRINT_LINE;
    let at = put_after(&[high, low, size, 0x00], words, out);
    at + put_bytes(more, &mut out[at..])
}

/// Writes a print line of words and an amount to the start, and returns its size.
fn put_amount(words: &[u8], amount: Amount, out: &mut [u8; MAX_REPORT_LEN]) -> usize
    requires { length words.now ≤ 16 }
    ensures written { PutsMessage (print_line 0 (words.now ++ decimal amount)) out.old out.new result }
    ensures fits { result ≤ 32 }
{
    let mut buffer = Buffer::new();
    put_text(words, buffer.format(amount.get()).as_bytes(), out)
}

/// Writes the print line to the start, and returns its size.
fn put_line(line: &Line, out: &mut [u8; MAX_REPORT_LEN]) -> usize
    ensures written { PutsMessage (message_of_report (Report.Line line.now)) out.old out.new result }
    ensures fits { result ≤ 32 }
{
    match line {
        Line::Approved(amount) => put_amount(b"APPROVED ", *amount, out),
        Line::Reversed(amount) => put_amount(b"REVERSED ", *amount, out),
        Line::DayClosed => put_text(b"DAY CLOSED", &[], out),
    }
}

/// Encodes the message into the start of the buffer and returns its size. It always fits. The rest of the buffer does
/// not change.
pub fn put_report(report: &Report, buffer: &mut [u8; MAX_REPORT_LEN]) -> usize
    requires { IsWritable report.now }
    ensures written { PutsMessage (message_of_report report.now) buffer.old buffer.new result }
    ensures fits { result ≤ 32 }
{
    match report {
        Report::Ack => put_message(control_bytes::ACK, &[], buffer),
        Report::Nack(code) => put_message([control_bytes::NACK, *code], &[], buffer),
        Report::Registered { tid, currency } => put_registration(*tid, *currency, buffer),
        Report::Approved {
            amount,
            number,
            currency,
        } => put_approval(*amount, *number, *currency, buffer),
        Report::Result(code) => put_message(control_bytes::STATUS, &[RESULT, *code], buffer),
        Report::TakenBack {
            amount,
            number,
            original,
            currency,
        } => put_reversal(*amount, *number, *original, *currency, buffer),
        Report::Line(line) => put_line(line, buffer),
        Report::Done => put_message(control_bytes::COMPLETION, &[], buffer),
        Report::Aborted(code) => put_message(control_bytes::ABORT, &[*code], buffer),
    }
}

/// Returns the report as a message.
pub fn report_message(alloc: Global, report: &Report) -> Result<Apdu, AllocError>
    requires { IsWritable report.now }
    ensures { IfOk result (λ apdu. apdu ≡ message_of_report report.now) }
{
    let mut buffer = [0; MAX_REPORT_LEN];
    let size = put_report(report, &mut buffer);
    let Scan::Whole((apdu, _)) = scan(alloc, &buffer[..size])? else {
        unreachable!()
    };
    Ok(apdu)
}
