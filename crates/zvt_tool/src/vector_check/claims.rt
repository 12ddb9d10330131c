//! Recognises texts that have the form of a result.
ghost use Rattle.std.specs.Prelude.{◌≡◌, ◌<◌, ◌≤◌, true, false, length, take, slice_index};
ghost use Rattle.std.specs.List.{All};
ghost use Rattle.zvt_tool.specs.Vectors.{IsClaim, IsDigit, IsNumber, IsReason, IsRefusal};

use zvt_grammar::Why;

/// Every reason of a refusal.
const REASONS: [Why; 8] = [
    Why::NotShortest,
    Why::DoesNotFit,
    Why::LengthForm,
    Why::TooDeep,
    Why::TagTooLong,
    Why::UnknownField,
    Why::NotDigit,
    Why::LengthDigit,
];

/// Returns whether the text is `more`, `whole N` or `refused at P: R`, with numbers N and P and the name of a reason R.
pub(crate) fn is_claim(text: &[u8]) -> bool
    ensures yes { result ≡ true → IsClaim text.now }
    ensures no { result ≡ false → IsClaim text.now → ⊥ }
{
    if text == b"more".as_slice() {
        return true;
    }
    if let Some(size) = text.strip_prefix(b"whole ".as_slice()) {
        return is_number(size);
    }
    match text.strip_prefix(b"refused at ".as_slice()) {
        Some(rest) => is_refusal(rest),
        None => false,
    }
}

/// Returns whether the text is a position and a reason.
fn is_refusal(text: &[u8]) -> bool
    ensures yes { result ≡ true → IsRefusal text.now }
    ensures no { result ≡ false → IsRefusal text.now → ⊥ }
{
    let (place, rest) = text.split_at(count_digits(text));
    match rest.strip_prefix(b": ".as_slice()) {
        Some(reason) => is_number(place) && is_reason(reason),
        None => false,
    }
}

/// Returns whether the text is a decimal number without leading zeros.
fn is_number(text: &[u8]) -> bool
    ensures yes { result ≡ true → IsNumber text.now }
    ensures no { result ≡ false → IsNumber text.now → ⊥ }
{
    match text {
        [] | [b'0', _, ..] => false,
        _ => count_digits(text) == text.len(),
    }
}

/// Returns the number of decimal digits at the beginning.
fn count_digits(text: &[u8]) -> usize
    ensures few { result ≤ length text.now }
    ensures digits { All IsDigit (take result text.now) }
    ensures all { result < length text.now → IsDigit (slice_index text.now result) → ⊥ }
{
    let mut count = 0;
    while count < text.len() && text[count] >= b'0' && text[count] <= b'9' {
        count += 1;
    }
    count
}

/// Returns whether the text is the name of a reason.
fn is_reason(text: &[u8]) -> bool
    ensures yes { result ≡ true → IsReason text.now }
    ensures no { result ≡ false → IsReason text.now → ⊥ }
{
    REASONS.iter().any(|why| why.name().as_bytes() == text)
}
