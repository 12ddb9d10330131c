//! One line of a file of vectors.
ghost use Rattle.std.specs.Prelude.{◌≡◌, ◌<◌, ◌≤◌, ℕ, true, false, List, Ok, Err, IfOk, IfSome, IsErr, IsNone, length};
ghost use Rattle.std.specs.Prelude.{slice_index, take};
ghost use Rattle.std.specs.List.{All};
ghost use Rattle.hex.specs.Hex.{decode_of};
ghost use Rattle.zvt_trace.specs.Meanings.{without_spaces};
ghost use Rattle.zvt_trace.specs.declared.fault.TraceLineError.{TraceLineError};
ghost use Rattle.zvt_tool.specs.Vectors.{IsOther, IsSpelling, IsVector, Means, meant_by, vector};

use crate::vector_check::claims::is_claim;
use std::alloc::{AllocError, Global};
use zvt_trace::{TraceLineError, spelled_bytes};

/// A line of vectors.
#[derive(Drop)]
pub(crate) enum VectorLine<'a> {
    /// An empty line or a comment.
    Comment,
    /// Bytes, and the expected result of a reader.
    Vector { bytes: Vec<u8>, claim: &'a [u8] },
}

/// Why a line cannot be read.
#[derive(Clone, Copy)]
pub(crate) enum BadLine {
    Wrong(TraceLineError),
    Memory,
}

impl From<AllocError> for BadLine {
    ghost use Rattle.zvt_tool.specs.declared.vector_check.line.BadLine.TheVariants.{Memory};

    ghost from_gives = { λ _ bad. bad ≡ Memory };

    fn from(_refused: AllocError) -> BadLine {
        BadLine::Memory
    }
}

/// Reads a line without its line feed.
pub(crate) fn read_line<'a>(alloc: Global, line: &'a [u8]) -> Result<VectorLine<'a>, BadLine>
    ensures ok { IfOk result (λ read. Means line.now (Ok (meant_by read))) }
    ensures wrong { (what : TraceLineError) → result ≡ Err (BadLine.Wrong what) → Means line.now (Err what) }
{
    match line {
        [] | [b'#', ..] => Ok(VectorLine::Comment),
        _ => match cut(line) {
            Some((spelled, claim)) => read_vector(alloc, spelled, claim),
            None => Err(BadLine::Wrong(TraceLineError::Form)),
        },
    }
}

/// Splits a vector into its bytes in hexadecimal and its claim, if the line has this form.
fn cut(line: &[u8]) -> Option<(&[u8], &[u8])>
    ensures some { IfSome result (λ parts. IsVector line.now parts.0.now parts.1.now) }
    ensures none { IsNone result → (spelled claim : List ℕ) → IsVector line.now spelled claim → ⊥ }
{
    let (prefix, rest) = line.split_at(count_before(line));
    let spelled = prefix.strip_suffix(b" ".as_slice())?;
    let claim = rest.strip_prefix(b"= ".as_slice())?;
    if is_spelling(spelled) && is_claim(claim) {
        Some((spelled, claim))
    } else {
        None
    }
}

/// Returns whether there is text, and neither its first nor its last character is a space.
fn is_spelling(text: &[u8]) -> bool
    ensures yes { result ≡ true → IsSpelling text.now }
    ensures no { result ≡ false → IsSpelling text.now → ⊥ }
{
    match text {
        [] | [b' ', ..] | [.., b' '] => false,
        _ => true,
    }
}

/// Returns the number of characters before the first `=`.
fn count_before(line: &[u8]) -> usize
    ensures few { result ≤ length line.now }
    ensures others { All IsOther (take result line.now) }
    ensures all { result < length line.now → IsOther (slice_index line.now result) → ⊥ }
{
    let mut count = 0;
    while count < line.len() && line[count] != b'=' {
        count += 1;
    }
    count
}

/// Reads a vector from bytes in hexadecimal, which spaces may separate.
fn read_vector<'a>(
    alloc: Global,
    spelled: &[u8],
    claim: &'a [u8],
) -> Result<VectorLine<'a>, BadLine>
    ensures ok { IfOk result (λ read. (bytes : List ℕ) × (decode_of (without_spaces spelled.now) ≡ Ok bytes)
        × (meant_by read ≡ vector bytes claim.now)) }
    ensures wrong { (what : TraceLineError) → result ≡ Err (BadLine.Wrong what) → (what ≡ TraceLineError.Hex)
        × IsErr (decode_of (without_spaces spelled.now)) }
{
    match spelled_bytes(alloc, spelled)? {
        Some(bytes) => Ok(VectorLine::Vector { bytes, claim }),
        None => Err(BadLine::Wrong(TraceLineError::Hex)),
    }
}
