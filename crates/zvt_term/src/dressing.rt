//! The messages of a terminal with extras, encoded without allocating.
ghost use Rattle.std.specs.Prelude.{◌≡◌, ◌+◌, ◌≤◌, ◌<◌, List, [], ℕ, length};
ghost use Rattle.zvt_apdu.specs.Briefs.{PutsMessage};
ghost use Rattle.zvt_apdu.specs.Message.{ack, intermediate, print_line, status};
ghost use Rattle.zvt_field.specs.Grammar.{Field};
ghost use Rattle.zvt_stream.specs.Apdus.{Spells};
ghost use Rattle.zvt_term.specs.Dressing.{AddsMessage, SaysAll, block, carded, fields_at, is_delayed, is_status};
ghost use Rattle.zvt_term.specs.Dressing.{message_by, said_by, said_later, with_fields};
ghost use Rattle.zvt_term.specs.Reports.{IsWritable};
ghost use Rattle.zvt_term.specs.Steps.{AreWritable};
ghost use Rattle.zvt_term.specs.Terminal.{reports_of};

use crate::answers::answers_of;
use crate::cards::{Card, card_bytes};
use crate::extras::{Extras, Receipts};
use crate::messages::{Report, Response};
use crate::writer::{MAX_REPORT_LEN, put_report, tid_digits};
use zvt_apdu::control_bytes;
use zvt_apdu::put::{put_after, put_bytes};
use zvt_field::bmp::TERMINAL;
use zvt_stream::Answers;

/// Size of a buffer that holds any message of a terminal with extras, in bytes.
const MAX_MESSAGE_LEN: usize = 125;

/// An acknowledgement.
const ACK: [u8; 3] = [0x80, 0x00, 0x00];

/// An intermediate status of 0E: please wait.
const PLEASE_WAIT: [u8; 4] = [0x04, 0xFF, 0x01, 0x0E];

/// The BMP of a container.
const CONTAINER: u8 = 0x06;

/// The tag of a text.
const TEXT: u8 = 0x25;

/// The tag of a line of a text.
const LINE: u8 = 0x07;

/// Writes a status, which is given encoded, with the number of the terminal and the fields of a card to the start, and
/// returns its size.
fn put_carded(message: &[u8], tid: u32, card: Card, out: &mut [u8]) -> usize
    requires tid { tid ≤ 99999999 }
    requires short { length message.now ≤ 32 }
    requires room { 125 ≤ length out.old }
    requires is_status { (fields : List Field) × Spells (status fields) message.now }
    ensures written { (fields : List Field) → Spells (status fields) message.now
        → PutsMessage (with_fields (fields_at tid card) (status fields)) out.old out.new result }
    ensures fits { result ≤ 125 }
{
    let content = &message[3..];
    let more = card_bytes(card);
    let [a, b, c, d] = tid_digits(tid);
    let [high, low] = control_bytes::STATUS;
    let size = (content.len() + 5 + more.len()) as u8;
    let at = put_after(&[high, low, size], content, out);
    at + put_after(&[TERMINAL, a, b, c, d], more, &mut out[at..])
}

/// Writes a status, which is given encoded, to the start, and returns its size. If there is a card, the number of the
/// terminal and the fields of the card come last.
fn put_status(message: &[u8], tid: u32, card: Option<Card>, out: &mut [u8]) -> usize
    requires tid { tid ≤ 99999999 }
    requires short { length message.now ≤ 32 }
    requires room { 125 ≤ length out.old }
    requires is_status { (fields : List Field) × Spells (status fields) message.now }
    ensures written { (fields : List Field) → Spells (status fields) message.now
        → PutsMessage (carded tid card (status fields)) out.old out.new result }
    ensures fits { result ≤ 125 }
{
    match card {
        Some(card) => put_carded(message, tid, card, out),
        None => put_bytes(message, out),
    }
}

/// Writes a print line, which is given encoded, as a text block to the start, and returns its size.
fn put_block(message: &[u8], out: &mut [u8; MAX_MESSAGE_LEN]) -> usize
    requires short { length message.now ≤ 32 }
    requires is_line { (text : List ℕ) × Spells (print_line 0 text) message.now }
    ensures written { (text : List ℕ) → Spells (print_line 0 text) message.now
        → PutsMessage (block text) out.old out.new result }
    ensures fits { result ≤ 125 }
{
    let text = &message[4..];
    let [high, low] = control_bytes::TEXT_BLOCK;
    let size = text.len() as u8;
    let first = [
        high,
        low,
        size + 6,
        CONTAINER,
        size + 4,
        TEXT,
        size + 2,
        LINE,
        size,
    ];
    put_after(&first, text, out)
}

/// Encodes the message of a report into the start of the buffer and returns its size.
fn put_dressed(report: &Report, tid: u32, extras: &Extras, out: &mut [u8; MAX_MESSAGE_LEN]) -> usize
    requires tid { tid ≤ 99999999 }
    requires writable { IsWritable report.now }
    ensures written { PutsMessage (message_by tid extras.now report.now) out.old out.new result }
    ensures fits { result ≤ 125 }
{
    let mut buffer = [0; MAX_REPORT_LEN];
    let size = put_report(report, &mut buffer);
    let plain = &buffer[..size];
    match report {
        Report::Approved { .. } => put_status(plain, tid, extras.card, out),
        Report::TakenBack { .. } => put_status(plain, tid, extras.card, out),
        Report::Line(_) => match extras.receipts {
            Receipts::Blocks => put_block(plain, out),
            Receipts::Lines | Receipts::Nothing => put_bytes(plain, out),
        },
        _ => put_bytes(plain, out),
    }
}

/// Adds the message of a report.
fn add(answers: &mut Answers, report: &Report, tid: u32, extras: &Extras)
    requires tid { tid ≤ 99999999 }
    requires few { answers.old.count < 2 }
    requires room { length answers.old.bytes ≤ 3 }
    requires writable { IsWritable report.now }
    ensures { AddsMessage (message_by tid extras.now report.now) answers.old answers.new }
{
    let mut buffer = [0; MAX_MESSAGE_LEN];
    let size = put_dressed(report, tid, extras, &mut buffer);
    answers.add(&buffer[..size]);
}

/// Adds an acknowledgement.
fn add_ack(answers: &mut Answers)
    requires few { answers.old.count < 2 }
    requires room { length answers.old.bytes ≤ 3 }
    ensures added { AddsMessage (ack []) answers.old answers.new }
    ensures size { length answers.new.bytes ≡ length answers.old.bytes + 3 }
{
    answers.add(&ACK);
}

/// Adds an intermediate status.
fn add_wait(answers: &mut Answers)
    requires few { answers.old.count < 2 }
    requires room { length answers.old.bytes ≤ 3 }
    ensures { AddsMessage (intermediate 14 []) answers.old answers.new }
{
    answers.add(&PLEASE_WAIT);
}

/// Returns whether the report is a status.
fn is_status(report: &Report) -> bool
    ensures { result ≡ is_status report.now }
{
    matches!(
        report,
        Report::Approved { .. } | Report::Result(_) | Report::TakenBack { .. }
    )
}

/// Returns whether the terminal sends an intermediate status in place of the status in this reply.
pub(crate) fn is_delayed(extras: &Extras, reply: &Response) -> bool
    ensures { result ≡ is_delayed extras.now reply.now }
{
    match reply {
        Response::Two(Report::Ack, second) => extras.intermediate && is_status(second),
        _ => false,
    }
}

/// Returns the bytes of the messages of the terminal with this number, one after another.
pub(crate) fn answers_by(tid: u32, extras: &Extras, reply: &Response) -> Answers
    requires tid { tid ≤ 99999999 }
    requires writable { AreWritable (reports_of reply.now) }
    ensures { SaysAll (said_by tid extras.now reply.now) result }
{
    let mut answers = Answers::new();
    if is_delayed(extras, reply) {
        add_ack(&mut answers);
        add_wait(&mut answers);
        return answers;
    }
    match reply {
        Response::Nothing => {}
        Response::One(report) => add(&mut answers, report, tid, extras),
        Response::Two(Report::Ack, second) => {
            add_ack(&mut answers);
            add(&mut answers, second, tid, extras);
        }
        Response::Two(_, _) => return answers_of(reply),
    }
    answers
}

/// Returns the bytes of the messages that follow the acknowledgement of an order.
pub(crate) fn later_answers(tid: u32, extras: &Extras, reply: &Response) -> Answers
    requires tid { tid ≤ 99999999 }
    requires writable { AreWritable (reports_of reply.now) }
    ensures { SaysAll (said_later tid extras.now reply.now) result }
{
    let mut answers = Answers::new();
    if is_delayed(extras, reply) {
        add_wait(&mut answers);
        return answers;
    }
    match reply {
        Response::Nothing | Response::One(_) => {}
        Response::Two(Report::Ack, second) => add(&mut answers, second, tid, extras),
        Response::Two(_, second) => return answers_of(&Response::One(*second)),
    }
    answers
}
