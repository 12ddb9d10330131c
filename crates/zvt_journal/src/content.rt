//! The possible contents of a journal's file, and the records that a content represents.
ghost use Rattle.std.specs.Prelude.{◌≡◌, ◌≤◌, ◌↔◌, length, drop, IfOk, IfErr, IsTrue, false, true};
ghost use Rattle.zvt_journal.specs.Text.{whole};
ghost use Rattle.zvt_journal.specs.Files.{IsNamed, IsBegun, begins_record, is_begun, is_opening_part, is_part};
ghost use Rattle.zvt_journal.specs.Files.{is_ruled_part, may_stand, after_gate, lines_ended, records_from};
ghost use Rattle.zvt_journal.specs.Opening.{IsAccepted, IsRefusedFor};

use crate::JournalFileError;
use crate::journal::{LINE_FEED, MAX_RECORD_LEN, begins_marked, whole_lines};

/// The beginning of a journal's first line.
const FORMAT: [u8; 15] = *b"# zvt journal 1";

/// Returns whether the text begins with a line that names the format.
fn is_named(bytes: &[u8]) -> bool
    ensures { IsTrue result ↔ IsNamed bytes.now }
{
    bytes.starts_with(&FORMAT)
}

/// Returns whether a crash may leave these bytes before the first record is there.
fn is_begun(bytes: &[u8]) -> bool
    ensures { result ≡ is_begun bytes.now }
{
    match bytes.split_first() {
        None => true,
        Some((&LINE_FEED, part)) => is_opening_part(part),
        Some((byte, rest)) => *byte == 0 && rest.is_empty(),
    }
}

/// Returns whether the first append may leave these bytes after the gate.
fn is_opening_part(part: &[u8]) -> bool
    ensures { result ≡ is_opening_part part.now }
{
    is_strict_part(part) || is_receipt_part(part)
}

/// Returns whether these bytes are part of an opening that names no rule.
fn is_strict_part(part: &[u8]) -> bool
    ensures { result ≡ is_ruled_part false part.now }
{
    is_part(part, b" zvt journal 1, currency 0\n\n")
        || is_part(part, b" zvt journal 1, currency 00\n\n")
        || is_part(part, b" zvt journal 1, currency 000\n\n")
        || is_part(part, b" zvt journal 1, currency 0000\n\n")
}

/// Returns whether these bytes are part of an opening of a journal whose reversals go by their receipt numbers.
fn is_receipt_part(part: &[u8]) -> bool
    ensures { result ≡ is_ruled_part true part.now }
{
    is_part(
        part,
        b" zvt journal 1, currency 0, reversals by receipt\n\n",
    ) || is_part(
        part,
        b" zvt journal 1, currency 00, reversals by receipt\n\n",
    ) || is_part(
        part,
        b" zvt journal 1, currency 000, reversals by receipt\n\n",
    ) || is_part(
        part,
        b" zvt journal 1, currency 0000, reversals by receipt\n\n",
    )
}

/// Returns whether these are a prefix of the wanted bytes in which each byte is there or still 0. A wanted `0` stands
/// for any digit.
fn is_part(part: &[u8], wanted: &[u8]) -> bool
    ensures { result ≡ is_part part.now wanted.now }
{
    for (at, byte) in part.iter().enumerate() {
        if at >= wanted.len() {
            return false;
        }
        if !may_stand(*byte, wanted[at]) {
            return false;
        }
    }
    true
}

/// Returns whether a torn write may leave this byte in the place of the wanted one.
fn may_stand(byte: u8, wanted: u8) -> bool
    ensures { result ≡ may_stand byte wanted }
{
    byte == 0 || byte == wanted || wanted == b'0' && b'0' <= byte && byte <= b'9'
}

/// Returns the number of bytes in the complete lines before the first empty line, if a journal's file may contain these
/// bytes.
pub(crate) fn accepted_lines(bytes: &[u8]) -> Result<usize, JournalFileError>
    ensures whole { IfOk result (λ end. end ≡ whole 0 bytes.now) }
    ensures within { IfOk result (λ end. end ≤ length bytes.now) }
    ensures accepted { IfOk result (λ _. IsAccepted bytes.now) }
    ensures refused { IfErr result (λ error. IsRefusedFor error bytes.now) }
{
    let end = whole_lines(bytes);
    if !is_named(&bytes[..end]) && !is_begun(bytes) {
        return Err(JournalFileError::NotAJournal);
    }
    let left = to_cut(bytes, end);
    if begins_marked(left) {
        return Err(JournalFileError::RecordsBehind {
            line: lines_ended(&bytes[..end]) + 1,
            records: records_in(left),
        });
    }
    let after = bytes.len() - end;
    if after > MAX_RECORD_LEN + 1 {
        return Err(JournalFileError::TooMuchAfter { bytes: after });
    }
    Ok(end)
}

/// Returns the bytes to remove from a journal whose complete lines end here: everything after its closed gate.
pub(crate) fn to_cut(bytes: &[u8], end: usize) -> &[u8]
    requires { end ≤ length bytes.now }
    ensures { result.now ≡ after_gate (drop end bytes.now) }
{
    let rest = &bytes[end..];
    match rest.split_first() {
        Some((&LINE_FEED, after)) => after,
        _ => rest,
    }
}

/// Returns the number of lines that end in the text.
fn lines_ended(text: &[u8]) -> usize
    ensures count { result ≡ lines_ended text.now }
    ensures within { result ≤ length text.now }
{
    let mut count = 0;
    for (at, byte) in text.iter().enumerate() {
        if *byte == LINE_FEED {
            count += 1;
        }
    }
    count
}

/// Returns the number of records that begin in the text.
fn records_in(text: &[u8]) -> usize
    ensures { result ≡ records_from true text.now }
{
    let mut begins = true;
    let mut count = 0;
    for (at, byte) in text.iter().enumerate() {
        if begins && begins_record(&text[at..]) {
            count += 1;
        }
        begins = *byte == LINE_FEED;
    }
    count
}

/// Returns whether the text begins like the first line of a record.
fn begins_record(text: &[u8]) -> bool
    ensures { result ≡ begins_record text.now }
{
    matches!(text, [b'!' | b'<', ..] | [b'#', b' ', ..])
}
