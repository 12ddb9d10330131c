//! Writes records: the lines of each, and its check.
ghost use Rattle.std.specs.Prelude.{◌≡◌, ◌++◌, ◌<◌, ◌≤◌, ◌^◌, [], ◌∷◌, Some, decimal, length};
ghost use Rattle.zvt_journal.specs.Files.{rule_words};
ghost use Rattle.zvt_journal.specs.Text.{IsRecord};
ghost use Rattle.zvt_kept.specs.Reading.{Extends};
ghost use Rattle.zvt_kept.specs.Records.{IsRecordOf, IsSpelledOrder, ask_lines, ask_record, asked, heard};
ghost use Rattle.zvt_kept.specs.Records.{heard_lines, heard_record, kept_in};
ghost use Rattle.zvt_kept.specs.Records.{ordered, lost_record, one_or_none, opening, order_line, order_lines};
ghost use Rattle.zvt_kept.specs.Records.{order_record, order_words, sent_lines};

use crate::check::put_check;
use crate::note::Note;
use std::alloc::AllocError;
use zvt_bcd::Currency;
use zvt_text::{Text, hexadecimal};
use zvt_till::Order;

/// The message of an ask, as journals have it: without its password.
const MASKED_ASK: [u8; 6] = [0x06, 0x20, 0x03, 0, 0, 0];

/// An entry of a journal.
#[derive(Drop)]
pub enum Entry {
    /// An order of the till, and the note in its record.
    Order { order: Order, note: Note },
    /// The till asked its terminal to repeat the last receipt. The record has this note.
    Ask(Note),
    /// The bytes of one message of the terminal.
    Heard(Vec<u8>),
    /// The connection was lost.
    Lost,
}

/// Writes the first line of a journal, with the currency of its till. The line also says if the till judges reversals
/// by their receipt numbers ([`Rules::reversal_by_receipt`](zvt_till::Rules)). After `Err` a prefix of it is written.
pub fn put_opening(text: &mut Text, currency: Currency, by_receipt: bool) -> Result<(), AllocError>
    ensures written { Extends result text.old text.new (opening currency by_receipt) }
    ensures taken { IsRecord (opening currency by_receipt) }
    ensures kept { kept_in (opening currency by_receipt) ≡ Some [] }
    ensures short { length (opening currency by_receipt) ≤ 2 ^ 18 }
{
    let rule = rule_words(by_receipt);
    put_numbered(text, b"# zvt journal 1, currency ", currency.get(), rule)
}

/// Writes an order with its note, and the bytes that are sent for it. After `Err` a prefix of the record is written.
///
/// The bytes are written unchanged, so the caller has to replace a password by 00 00 00.
pub fn put_order(text: &mut Text, order: &Order, note: &Note, sent: &[u8]) -> Result<(), AllocError>
    ensures written { Extends result text.old text.new (order_record order.now note.now sent.now) }
    ensures kept { IsSpelledOrder order.now → IsRecordOf (ordered order.now note.now)
        (order_record order.now note.now sent.now) }
    ensures few { length note.now ≤ 69 }
{
    let start = text.size();
    put_order_lines(text, order, note.words(), sent)?;
    put_check(text, start)
}

/// Writes the line of an order and its note. After `Err` a prefix of it is written.
fn put_order_line(text: &mut Text, order: &Order, note: &[u8]) -> Result<(), AllocError>
    ensures { Extends result text.old text.new (order_line order.now note.now) }
{
    text.word(b"# ")?;
    put_words(text, order)?;
    text.word(note)?;
    text.push(b'\n')
}

/// Writes an ask with its note, and the bytes that are sent for it, with 00 00 00 instead of the password. After `Err`
/// a prefix of the record is written.
pub fn put_ask(text: &mut Text, note: &Note) -> Result<(), AllocError>
    ensures written { Extends result text.old text.new (ask_record note.now) }
    ensures kept { IsRecordOf (asked note.now) (ask_record note.now) }
    ensures few { length note.now ≤ 69 }
{
    let start = text.size();
    put_ask_lines(text, note.words())?;
    put_check(text, start)
}

/// Writes the lines of an ask, without their check. After `Err` a prefix of them is written.
fn put_ask_lines(text: &mut Text, note: &[u8]) -> Result<(), AllocError>
    ensures { Extends result text.old text.new (ask_lines note.now) }
{
    text.word(b"# ask")?;
    text.word(note)?;
    text.push(b'\n')?;
    put_sent(text, &MASKED_ASK)
}

/// Writes a message of the terminal and the bytes of all replies to it. After `Err` a prefix of the record is written.
pub fn put_heard(text: &mut Text, message: &[u8], answers: &[u8]) -> Result<(), AllocError>
    ensures written { Extends result text.old text.new (heard_record message.now answers.now) }
    ensures kept { 0 < length message.now → IsRecordOf (heard message.now) (heard_record message.now answers.now) }
{
    let start = text.size();
    put_heard_lines(text, message, answers)?;
    put_check(text, start)
}

/// Writes that the connection was lost. After `Err` a prefix of the record is written.
pub fn put_lost(text: &mut Text) -> Result<(), AllocError>
    ensures { Extends result text.old text.new lost_record }
{
    let start = text.size();
    text.word(b"!\n")?;
    put_check(text, start)
}

/// Writes the lines of an order, without their check. After `Err` a prefix of them is written.
fn put_order_lines(
    text: &mut Text,
    order: &Order,
    note: &[u8],
    sent: &[u8],
) -> Result<(), AllocError>
    ensures { Extends result text.old text.new (order_lines order.now note.now sent.now) }
{
    put_order_line(text, order, note)?;
    put_sent(text, sent)
}

/// Writes the lines of a message, without their check. After `Err` a prefix of them is written.
fn put_heard_lines(text: &mut Text, message: &[u8], answers: &[u8]) -> Result<(), AllocError>
    ensures { Extends result text.old text.new (heard_lines message.now (one_or_none answers.now)) }
{
    text.word(b"< ")?;
    hexadecimal(text, message)?;
    text.push(b'\n')?;
    put_sent(text, answers)
}

/// Returns the words in the first line of a journal that name the rule on receipt numbers, if the till has it.
fn rule_words(by_receipt: bool) -> &'static [u8]
    ensures { result.now ≡ rule_words by_receipt }
{
    if by_receipt {
        b", reversals by receipt".as_slice()
    } else {
        b"".as_slice()
    }
}

/// Writes a line of words, a number and more words. After `Err` a prefix of it is written.
fn put_numbered(text: &mut Text, words: &[u8], number: u16, more: &[u8]) -> Result<(), AllocError>
    ensures { Extends result text.old text.new (words.now ++ decimal number ++ more.now ++ 10 ∷ []) }
{
    text.word(words)?;
    text.number(number)?;
    text.word(more)?;
    text.push(b'\n')
}

/// Writes the words of an order. After `Err` a prefix of them is written.
fn put_words(text: &mut Text, order: &Order) -> Result<(), AllocError>
    ensures { Extends result text.old text.new (order_words order.now) }
{
    match order {
        Order::Register => text.word(b"register"),
        Order::Pay(amount) => {
            text.word(b"pay ")?;
            text.number(amount.get())
        }
        Order::Reverse(entry) => {
            text.word(b"reverse ")?;
            text.number(*entry as u128 + 1)
        }
        Order::CloseDay => text.word(b"close"),
        Order::Cancel => text.word(b"cancel"),
    }
}

/// Writes a line of bytes that the till sends, if there are any. After `Err` a prefix of it is written.
fn put_sent(text: &mut Text, bytes: &[u8]) -> Result<(), AllocError>
    ensures { Extends result text.old text.new (sent_lines (one_or_none bytes.now)) }
{
    if bytes.is_empty() {
        return Ok(());
    }
    text.word(b"> ")?;
    hexadecimal(text, bytes)?;
    text.push(b'\n')
}
