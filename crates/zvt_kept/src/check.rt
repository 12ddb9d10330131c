//! The check of a record: a line after the record's lines, with a digest of them.
//!
//! The theorems about crashes do not rest on checks. A check shows that somebody changed the file, or that the disk
//! damaged it.
ghost use Rattle.std.specs.Prelude.{◌≡◌, ◌≤◌, ◌++◌, ◌∷◌, [], cond, drop, length, List, ℕ};
ghost use Rattle.sha2.specs.Hashers.{Holds256};
ghost use Rattle.zvt_journal.specs.Text.{text_of};
ghost use Rattle.zvt_kept.specs.Checks.{ChecksRecords, check_line, check_of, is_sent};
ghost use Rattle.zvt_kept.specs.Reading.{Extends};

use sha2::{Digest, Sha256};
use std::alloc::AllocError;
use zvt_text::cursor::hexadecimal;
use zvt_text::words::trailing;
use zvt_text::{Text, line};
use zvt_trace::next_line;

/// The number of bytes of the digest in a check.
const CHECK_LEN: usize = 4;

/// The beginning of a check's line.
const CHECK_SIGN: &[u8] = b"#= ";

/// Writes the check of the record that begins at `start` and ends at the end of the text. After `Err` nothing is
/// written.
pub(crate) fn put_check(text: &mut Text, start: usize) -> Result<(), AllocError>
    requires { start ≤ length text.old }
    ensures { Extends result text.old text.new (check_line (drop start text.old)) }
{
    let digest = Sha256::digest(&text.bytes()[start..]);
    line(text, CHECK_SIGN, &digest[..CHECK_LEN])
}

/// Returns the line, counted from 1, of the first check that does not match the record before it.
pub(crate) fn first_wrong_check(text: &[u8]) -> Option<usize>
    ensures { ChecksRecords text.now result }
{
    let mut rest = text;
    let mut number = 0;
    let mut hasher = Sha256::new();
    while !rest.is_empty() {
        let (line, after) = next_line(rest);
        number += 1;
        hasher = match trailing(CHECK_SIGN, line) {
            None => with_line(hasher, line),
            Some(digits) => {
                if digits != check_of(hasher).as_slice() {
                    return Some(number);
                }
                Sha256::new()
            }
        };
        rest = after;
    }
    None
}

/// Returns the check of the record that was hashed, in hexadecimal.
fn check_of(hasher: Sha256) -> [u8; 2 * CHECK_LEN]
    ensures { (text : List ℕ) → Holds256 hasher text → result ≡ check_of text }
{
    let digest = hasher.finalize();
    let mut digits = [0; 2 * CHECK_LEN];
    let _ = hexadecimal(&mut digits, 0, &digest[..CHECK_LEN]);
    digits
}

/// Returns the hash of the record with one more line, or of a new record that begins with the line.
fn with_line(hasher: Sha256, line: &[u8]) -> Sha256
    ensures { (lines : List (List ℕ)) → Holds256 hasher (text_of lines)
        → Holds256 result (text_of (cond (is_sent line.now) (lines ++ line.now ∷ []) (line.now ∷ []))) }
{
    let mut hasher = if is_sent(line) { hasher } else { Sha256::new() };
    hasher.update(line);
    hasher.update(b"\n");
    hasher
}

/// Returns whether a line contains bytes that the till sent. Such a line continues the record before it.
pub(crate) fn is_sent(line: &[u8]) -> bool
    ensures { result ≡ is_sent line.now }
{
    matches!(line, [b'>', ..])
}
