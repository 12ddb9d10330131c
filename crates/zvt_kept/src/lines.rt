//! Reads the lines of records.
ghost use Rattle.std.specs.Prelude.{◌≡◌, ◌∷◌, [], Some, option_map, is_some, ◌++◌, IfOk, OnOk};
ghost use Rattle.std.specs.Char.{is_ascii_hexdigit};
ghost use Rattle.std.specs.List.{list_all};
ghost use Rattle.hex.specs.Hex.{decode_of};
ghost use Rattle.zvt_kept.specs.Reading.{ReadsRecords, meant_by};
ghost use Rattle.zvt_kept.specs.Records.{bytes_in, comment, heard, is_remark, meaning, meaning_behind, some_bytes};
ghost use Rattle.zvt_kept.specs.declared.lines.RecordError.TheVariants.{Memory};

use crate::check::{first_wrong_check, is_sent};
use crate::records::Entry;
use crate::words::{entry_of, is_reserved};
use hex::FromHexError;
use std::alloc::{AllocError, Global};
use thiserror::Error;
use zvt_text::words::trailing;
use zvt_trace::next_line;

/// Why records cannot be read.
#[derive(Clone, Copy, Debug, PartialEq, Eq, Error)]
pub enum RecordError {
    /// This line, counted from 1, is not a line of a journal.
    #[error("line {number} of the book is not part of a valid record")]
    Line { number: usize },
    /// This line, counted from 1, is a check that does not match the record before it.
    #[error("line {number} of the journal is not the check of its record: the file was changed or damaged")]
    Check { number: usize },
    /// An allocation failed.
    #[error("out of memory")]
    Memory,
}

impl From<AllocError> for RecordError {
    ghost from_gives = { λ _ error. error ≡ Memory };

    fn from(_refused: AllocError) -> RecordError {
        RecordError::Memory
    }
}

/// Reads a text of records and returns their entries, in order.
pub fn read_records(alloc: Global, text: &[u8]) -> Result<Vec<Entry>, RecordError>
    ensures { ReadsRecords text.now result }
{
    if let Some(number) = first_wrong_check(text) {
        return Err(RecordError::Check { number });
    }
    let mut entries = Vec::new(alloc);
    let mut rest = text;
    let mut last: &[u8] = &[];
    let mut number = 0;
    while !rest.is_empty() {
        let (line, after) = next_line(rest);
        number += 1;
        match read_after(alloc, last, line)? {
            Meaning::Nothing => {}
            Meaning::Kept(entry) => add(&mut entries, entry)?,
            Meaning::Unknown => return Err(RecordError::Line { number }),
        }
        last = line;
        rest = after;
    }
    Ok(entries)
}

/// Adds an entry.
fn add(entries: &mut Vec<Entry>, entry: Entry) -> Result<(), AllocError>
    ensures { OnOk result (entries.new.items ≡ entries.old.items ++ entry ∷ []) }
{
    entries.push(entry)?;
    Ok(())
}

/// A line of a journal.
#[derive(Drop)]
enum Meaning {
    Nothing,
    Kept(Entry),
    Unknown,
}

/// Reads a line that follows another. Sent bytes after a remark have no meaning.
fn read_after(alloc: Global, last: &[u8], line: &[u8]) -> Result<Meaning, AllocError>
    ensures { IfOk result (λ read. meaning_behind last.now line.now ≡ meant_by read) }
{
    if is_sent(line) && is_remark(last) {
        return Ok(Meaning::Unknown);
    }
    read_line(alloc, line)
}

/// Returns whether a line is a remark.
fn is_remark(line: &[u8]) -> bool
    ensures { result ≡ is_remark line.now }
{
    match line {
        [b'#', b' ', words @ ..] => !is_reserved(words),
        _ => false,
    }
}

/// Reads a line.
fn read_line(alloc: Global, line: &[u8]) -> Result<Meaning, AllocError>
    ensures { IfOk result (λ read. meaning line.now ≡ meant_by read) }
{
    match line {
        [b'#', text @ ..] => Ok(comment(text)),
        [b'>', text @ ..] => Ok(sent(text)),
        [b'<', text @ ..] => heard(alloc, text),
        [b'!'] => Ok(Meaning::Kept(Entry::Lost)),
        _ => Ok(Meaning::Unknown),
    }
}

/// The first words of a journal.
const FORMAT_NAME: &[u8] = b"zvt journal 1";

/// Reads a comment, after its sign: an order, an ask, a check, the opening of a journal, or a remark.
fn comment(text: &[u8]) -> Meaning
    ensures { meant_by result ≡ comment text.now }
{
    let words = match text {
        [b' ', words @ ..] => words,
        [b'=', b' ', ..] => return Meaning::Nothing,
        _ => return Meaning::Unknown,
    };
    if !is_reserved(words) {
        return Meaning::Nothing;
    }
    if let Some(entry) = entry_of(words) {
        return Meaning::Kept(entry);
    }
    match trailing(FORMAT_NAME, words) {
        Some(_) => Meaning::Nothing,
        None => Meaning::Unknown,
    }
}

/// Reads bytes that the till sent, after their sign.
fn sent(text: &[u8]) -> Meaning
    ensures { meant_by result ≡ option_map (λ bytes. []) (bytes_in text.now) }
{
    let [b' ', digits @ ..] = text else {
        return Meaning::Unknown;
    };
    if spells_bytes(digits) {
        Meaning::Nothing
    } else {
        Meaning::Unknown
    }
}

/// Reads a message of the terminal, after its sign.
fn heard(alloc: Global, text: &[u8]) -> Result<Meaning, AllocError>
    ensures { IfOk result (λ read. meant_by read ≡ option_map (λ bytes. heard bytes ∷ []) (bytes_in text.now)) }
{
    let [b' ', digits @ ..] = text else {
        return Ok(Meaning::Unknown);
    };
    if !spells_bytes(digits) {
        return Ok(Meaning::Unknown);
    }
    match hex::decode(alloc, digits) {
        Ok(bytes) => Ok(Meaning::Kept(Entry::Heard(bytes))),
        Err(_) => Err(AllocError),
    }
}

/// Returns whether these digits spell at least one byte.
fn spells_bytes(digits: &[u8]) -> bool
    ensures { result ≡ is_some (some_bytes (decode_of digits.now)) }
{
    if digits.is_empty() || digits.len() % 2 == 1 {
        return false;
    }
    all_digits(digits)
}

/// Returns whether all of these are hexadecimal digits.
fn all_digits(digits: &[u8]) -> bool
    ensures { result ≡ list_all is_ascii_hexdigit digits.now }
{
    digits.iter().all(|digit| digit.is_ascii_hexdigit())
}
