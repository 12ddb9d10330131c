//! The records of a journal. A caller makes each record durable before it sends the bytes that follow from it.
//!
//! Each call writes the text of one record to the start of the buffer and reports its size. If the buffer is too small,
//! nothing is written.
ghost use Rattle.std.specs.Prelude.{◌≡◌, IfSome, MatchBool, MatchResult, false, nat_le, option_map};
ghost use Rattle.zvt_kept.specs.Records.{IsSpelledOrder, lost_record, opening};
ghost use Rattle.zvt_kept.specs.Notes.{note_of};
ghost use Rattle.zvt_c.specs.Records.{Masks, Records, RecordsAsk, RecordsHeard, RecordsOrder, given, has_password};
ghost use Rattle.zvt_c.specs.Records.{masked_bytes, recorded_order};
ghost use Rattle.zvt_c.specs.Saving.{Written, bare, sized};
ghost use Rattle.zvt_c.specs.Statuses as statuses;

use crate::answer::{ZvtAnswer, bare, found};
use crate::codec::zvt_scan;
use crate::numbers::order_of;
use crate::statuses;
use std::alloc::{AllocError, Global};
use zvt_apdu::{MAX_BRIEF_LEN, view};
use zvt_bcd::Currency;
use zvt_kept::{Note, answers_to, put_ask, put_heard, put_lost, put_opening, put_order};
use zvt_text::Text;
use zvt_till::{MAX_BOOK_ENTRIES, Order, heard_view};

/// Writes the first record of a journal: its format and its till's currency. The status is 0, 3, or 5 if the number is
/// not a currency.
#[unsafe(no_mangle)]
pub extern "C" fn zvt_record_opening(
    alloc: Global,
    currency: u16,
    buffer: &mut [u8],
    answer: &mut ZvtAnswer,
)
    ensures { MatchBool (nat_le currency 9999) (Records (opening currency false) buffer.old buffer.new answer.new)
        ((buffer.new ≡ buffer.old) × (answer.new ≡ bare statuses.argument)) }
{
    let Some(currency) = Currency::new(currency) else {
        *answer = bare(statuses::ARGUMENT);
        return;
    };
    let mut text = Text::new(alloc);
    let written = put_opening(&mut text, currency, false);
    *answer = hand_out(written, &text, buffer);
}

/// Writes the record of an order and of the message that is sent for it. A password in the message is written as 00 00
/// 00. `at` is the time of the order, such as `2026-11-28T09:14:03Z`, and `reference` is the caller's own, 1 to 40
/// printable ASCII characters without a space; either may be empty, and is then left out. The status is 0 or 3, or 5 if
/// the numbers name no order, the time or the reference has another form, or `sent` is longer than any message of a
/// till.
#[unsafe(no_mangle)]
pub extern "C" fn zvt_record_order(
    alloc: Global,
    kind: u32,
    number: u64,
    sent: &[u8],
    at: &[u8],
    reference: &[u8],
    buffer: &mut [u8],
    answer: &mut ZvtAnswer,
)
    ensures record { RecordsOrder kind number sent.now at.now reference.now buffer.old buffer.new answer.new }
    ensures masked { Masks sent.now }
{
    let Some(order) = recorded_order(kind, number) else {
        *answer = bare(statuses::ARGUMENT);
        return;
    };
    let Some(note) = note_of(at, reference) else {
        *answer = bare(statuses::ARGUMENT);
        return;
    };
    if sent.len() > MAX_BRIEF_LEN {
        *answer = bare(statuses::ARGUMENT);
        return;
    }
    let mut message = [0; MAX_BRIEF_LEN];
    let message = &mut message[..sent.len()];
    message.copy_from_slice(sent);
    mask(message);
    let mut text = Text::new(alloc);
    let written = put_order(&mut text, &order, &note, message);
    *answer = hand_out(written, &text, buffer);
}

/// Writes the record of an ask, with 00 00 00 instead of the password. `at` and `reference` are as in
/// `zvt_record_order`. The status is 0 or 3, or 5 if the time or the reference has another form.
#[unsafe(no_mangle)]
pub extern "C" fn zvt_record_ask(
    alloc: Global,
    at: &[u8],
    reference: &[u8],
    buffer: &mut [u8],
    answer: &mut ZvtAnswer,
)
    ensures { RecordsAsk at.now reference.now buffer.old buffer.new answer.new }
{
    let Some(note) = note_of(at, reference) else {
        *answer = bare(statuses::ARGUMENT);
        return;
    };
    let mut text = Text::new(alloc);
    let written = put_ask(&mut text, &note);
    *answer = hand_out(written, &text, buffer);
}

/// Writes the record of the first message in the bytes, with the till's immediate reply. Returns the record's size, or
/// 0 if there is no complete message or an allocation failed. The answer describes the first message as in `zvt_scan`.
#[unsafe(no_mangle)]
pub extern "C" fn zvt_record_heard(
    alloc: Global,
    bytes: &[u8],
    buffer: &mut [u8],
    answer: &mut ZvtAnswer,
) -> usize
    ensures { RecordsHeard bytes.now buffer.old buffer.new answer.new result }
{
    zvt_scan(alloc, bytes, answer);
    if answer.status != statuses::OK {
        return 0;
    }
    let message = &bytes[..answer.size as usize];
    let answers = answers_to(&heard_view(&view(message)));
    let mut text = Text::new(alloc);
    match put_heard(&mut text, message, answers.bytes()) {
        Ok(()) => put(text.bytes(), buffer),
        Err(_) => {
            *answer = bare(statuses::NO_MEMORY);
            0
        }
    }
}

/// Writes the record that the line was lost. It has to be durable before the next line is used. The status is 0 or 3.
#[unsafe(no_mangle)]
pub extern "C" fn zvt_record_lost(alloc: Global, buffer: &mut [u8], answer: &mut ZvtAnswer)
    ensures { Records lost_record buffer.old buffer.new answer.new }
{
    let mut text = Text::new(alloc);
    let written = put_lost(&mut text);
    *answer = hand_out(written, &text, buffer);
}

/// Writes bytes if they fit, and returns their number.
pub(crate) fn put(bytes: &[u8], buffer: &mut [u8]) -> usize
    ensures { Written bytes.now result buffer.old buffer.new }
{
    let size = bytes.len();
    if size <= buffer.len() {
        buffer[..size].copy_from_slice(bytes);
    }
    size
}

/// Writes the text if it fits, and returns an answer with its size, or with the status of a failed allocation.
pub(crate) fn hand_out(written: Result<(), AllocError>, text: &Text, buffer: &mut [u8]) -> ZvtAnswer
    ensures { MatchResult written (λ _. (result ≡ sized result.size) × Written text.now result.size buffer.old
        buffer.new) (λ _. (buffer.new ≡ buffer.old) × (result ≡ bare statuses.no_memory)) }
{
    match written {
        Ok(()) => found(put(text.bytes(), buffer)),
        Err(_) => bare(statuses::NO_MEMORY),
    }
}

/// Returns the order that two numbers name, if a record can hold it: no book has more than 10,000 entries.
fn recorded_order(kind: u32, number: u64) -> Option<Order>
    ensures order { result ≡ recorded_order kind number }
    ensures spelled { IfSome result IsSpelledOrder }
{
    match order_of(kind, number)? {
        Order::Reverse(entry) if entry >= MAX_BOOK_ENTRIES => None,
        order => Some(order),
    }
}

/// Returns the note with this time and this reference, if both have the right form. An empty one is left out.
fn note_of(at: &[u8], reference: &[u8]) -> Option<Note>
    ensures { result ≡ note_of (given at.now) (given reference.now) }
{
    Note::new(given(at), given(reference))
}

/// Returns the bytes, if there are any.
fn given(bytes: &[u8]) -> Option<&[u8]>
    ensures { option_map (λ text. text.now) result ≡ given bytes.now }
{
    if bytes.is_empty() { None } else { Some(bytes) }
}

/// Replaces the password of a registration, a reversal or an end of day by 00 00 00.
fn mask(message: &mut [u8])
    ensures { message.new ≡ masked_bytes message.old }
{
    if has_password(message) {
        message[3..6].copy_from_slice(&[0; 3]);
    }
}

/// Returns whether these bytes begin a message whose data begins with a password: a registration, a reversal or an end
/// of day.
fn has_password(message: &[u8]) -> bool
    ensures { result ≡ has_password message.now }
{
    matches!(message, [0x06, 0x00 | 0x30 | 0x50, _, _, _, _, ..])
}
