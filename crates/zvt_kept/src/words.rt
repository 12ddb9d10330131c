//! Reads the words of a comment.
ghost use Rattle.std.specs.Prelude.{◌≡◌, ◌≤◌, ◌-◌, ℕ, IfSome, List, length, option_map};
ghost use Rattle.zvt_kept.specs.Reading.{kept_of};
ghost use Rattle.zvt_kept.specs.Records.{asked, begins_with, ends_word, entry_of, is_reserved, noted_digits};
ghost use Rattle.zvt_kept.specs.Records.{number_of, ordered, plain, with_number};

use crate::note::Note;
use crate::records::Entry;
use zvt_bcd::Amount;
use zvt_text::words::{decimal_number, size_before, trailing};
use zvt_till::Order;

/// Maximum number of digits in a number.
const MAX_DIGITS: usize = 12;

/// Returns whether the first word begins an order, an ask or the opening of a journal.
pub(crate) fn is_reserved(words: &[u8]) -> bool
    ensures { result ≡ is_reserved words.now }
{
    begins_with(b"register", words)
        || begins_with(b"pay", words)
        || begins_with(b"reverse", words)
        || begins_with(b"close", words)
        || begins_with(b"cancel", words)
        || begins_with(b"ask", words)
        || begins_with(b"zvt", words)
}

/// Returns whether this is the first word.
fn begins_with(word: &[u8], words: &[u8]) -> bool
    ensures { result ≡ begins_with word.now words.now }
{
    match trailing(word, words) {
        Some(rest) => ends_word(rest),
        None => false,
    }
}

/// Returns whether a word ends before this: no letter follows.
fn ends_word(rest: &[u8]) -> bool
    ensures { result ≡ ends_word rest.now }
{
    match rest {
        [] => true,
        [next, ..] => !next.is_ascii_alphabetic(),
    }
}

/// Reads the order or the ask that the words name, with the note after it.
pub(crate) fn entry_of(words: &[u8]) -> Option<Entry>
    ensures { option_map kept_of result ≡ entry_of words.now }
{
    if let Some(rest) = trailing(b"register", words) {
        return plain(Order::Register, rest);
    }
    if let Some(rest) = trailing(b"close", words) {
        return plain(Order::CloseDay, rest);
    }
    if let Some(rest) = trailing(b"cancel", words) {
        return plain(Order::Cancel, rest);
    }
    if let Some(rest) = trailing(b"ask", words) {
        return ask(rest);
    }
    if let Some(tail) = trailing(b"pay ", words) {
        return payment(tail);
    }
    reversal(trailing(b"reverse ", words)?)
}

/// Reads a payment of this amount, and a note.
fn payment(tail: &[u8]) -> Option<Entry>
    ensures { option_map kept_of result ≡ with_number Order.Pay tail.now }
{
    let (digits, note) = noted_digits(tail)?;
    let order = Order::Pay(amount(digits)?);
    Some(Entry::Order { order, note })
}

/// Reads the reversal of this entry, and a note.
fn reversal(tail: &[u8]) -> Option<Entry>
    ensures { option_map kept_of result ≡ with_number (λ n. Order.Reverse (n - 1)) tail.now }
{
    let (digits, note) = noted_digits(tail)?;
    let number = number(digits)?;
    let order = Order::Reverse(number as usize - 1);
    Some(Entry::Order { order, note })
}

/// Reads the note of an order without a number.
fn plain(order: Order, rest: &[u8]) -> Option<Entry>
    ensures { option_map kept_of result ≡ plain (ordered order) rest.now }
{
    let note = Note::read(rest)?;
    Some(Entry::Order { order, note })
}

/// Reads the note of an ask.
fn ask(rest: &[u8]) -> Option<Entry>
    ensures { option_map kept_of result ≡ plain asked rest.now }
{
    Some(Entry::Ask(Note::read(rest)?))
}

/// Returns the first word, and the note after it.
fn noted_digits(tail: &[u8]) -> Option<(&[u8], Note)>
    ensures { option_map {U = List ℕ × List ℕ} (λ found. (found.0.now, found.1)) result ≡ noted_digits tail.now }
{
    let (word, rest) = tail.split_at(size_before(b' ', tail));
    let note = Note::read(rest)?;
    Some((word, note))
}

/// Parses an amount.
fn amount(digits: &[u8]) -> Option<Amount>
    ensures { result ≡ number_of digits.now }
{
    Amount::new(number(digits)?)
}

/// Parses a number of one to twelve decimal digits, not all of them 0.
fn number(digits: &[u8]) -> Option<u64>
    ensures number { result ≡ number_of digits.now }
    ensures least { IfSome result (λ number. 1 ≤ number) }
    ensures most { IfSome result (λ number. number ≤ 999999999999) }
{
    let number = decimal_number(digits, MAX_DIGITS)?;
    if number == 0 { None } else { Some(number) }
}
