//! Reads messages.

ghost use Rattle.std.specs.Prelude.{◌≡◌, ◌≤◌, ◌+◌, false, length, true, MatchResult};
ghost use Rattle.zvt_grammar.specs.Reading.{padded, shortest};
ghost use Rattle.zvt_grammar.specs.Lengths.{reading_of};
ghost use Rattle.zvt_apdu.specs.Judging.{Answers, FindsDigit, Headed, TakesMemory, head_size};

use crate::apdu::Apdu;
use crate::frame::{Layout, Opening, layout_of, scan_opening};
use crate::kinds::{bytes_message, fields_message};
use std::alloc::{AllocError, Global};
use zvt_field::scan_fields;
use zvt_grammar::{Lengths, Scan, Why};

/// Reads the first message and returns it with its size. Each length must have its shortest form. Ignores the bytes
/// after the message. Returns `More` if the bytes are the beginning of a message, as an empty slice is, and refuses
/// the first byte after which no message can follow. The only error is that an allocation fails. It comes only after
/// the message's head, once all its free bytes have arrived or some of its fields are stored (`TakesMemory`).
#[inline(always)]
pub fn scan(alloc: Global, bytes: &[u8]) -> Result<Scan<(Apdu, usize)>, AllocError>
    ensures { MatchResult result (Answers shortest bytes.now) (λ _. TakesMemory shortest bytes.now) }
{
    scan_message(alloc, bytes, Lengths::Shortest)
}

/// Reads the first message. Lengths may have any form.
pub fn scan_loose(alloc: Global, bytes: &[u8]) -> Result<Scan<(Apdu, usize)>, AllocError>
    ensures { MatchResult result (Answers padded bytes.now) (λ _. TakesMemory padded bytes.now) }
{
    scan_message(alloc, bytes, Lengths::Padded)
}

/// Reads the first message with the given forms of length.
#[inline(always)]
pub fn scan_message(
    alloc: Global,
    bytes: &[u8],
    lengths: Lengths,
) -> Result<Scan<(Apdu, usize)>, AllocError>
    ensures { MatchResult result (Answers (reading_of lengths) bytes.now)
        (λ _. TakesMemory (reading_of lengths) bytes.now) }
{
    let opening = match scan_opening(bytes, lengths) {
        Scan::Whole(opening) => opening,
        Scan::More => return Ok(Scan::More),
        Scan::Refused { place, why } => return Ok(Scan::Refused { place, why }),
    };
    let layout = layout_of(opening.high, opening.low, opening.size);
    let data = &bytes[opening.start..];
    if let Some(at) = wrong_digit(data, layout.free, layout.digits) {
        return Ok(Scan::Refused {
            place: opening.start + at,
            why: Why::NotDigit,
        });
    }
    if data.len() < layout.free + layout.digits {
        return Ok(Scan::More);
    }
    if layout.fields {
        scan_listed(alloc, bytes, &opening, &layout, lengths)
    } else {
        scan_bytes(alloc, bytes, &opening, &layout, lengths)
    }
}

/// The place of the first byte that is no pair of digits, of that many that come after others.
fn wrong_digit(bytes: &[u8], free: usize, digits: usize) -> Option<usize>
    requires { free + digits ≤ 6 }
    ensures { FindsDigit free digits bytes.now result }
{
    for at in free..bytes.len().min(free + digits) {
        if bytes[at] / 16 > 9 || bytes[at] % 16 > 9 {
            return Some(at);
        }
    }
    None
}

/// Reads data that ends in bytes of any value.
#[inline(always)]
fn scan_bytes(
    alloc: Global,
    bytes: &[u8],
    opening: &Opening,
    layout: &Layout,
    lengths: Lengths,
) -> Result<Scan<(Apdu, usize)>, AllocError>
    requires headed { Headed (reading_of lengths) bytes.now opening.now layout.now }
    requires kind { layout.now.fields ≡ false }
    ensures { MatchResult result (Answers (reading_of lengths) bytes.now)
        (λ _. TakesMemory (reading_of lengths) bytes.now) }
{
    let data = &bytes[opening.start..];
    if data.len() < opening.size {
        return Ok(Scan::More);
    }
    let payload = data[layout.free..opening.size].to_vec(alloc)?;
    let message = bytes_message(opening.high, opening.low, &data[..layout.free], payload);
    Ok(Scan::Whole((Apdu { message }, opening.start + opening.size)))
}

/// Reads data that ends in fields.
#[inline(always)]
fn scan_listed(
    alloc: Global,
    bytes: &[u8],
    opening: &Opening,
    layout: &Layout,
    lengths: Lengths,
) -> Result<Scan<(Apdu, usize)>, AllocError>
    requires headed { Headed (reading_of lengths) bytes.now opening.now layout.now }
    requires kind { layout.now.fields ≡ true }
    ensures { MatchResult result (Answers (reading_of lengths) bytes.now)
        (λ _. TakesMemory (reading_of lengths) bytes.now) }
{
    let data = &bytes[opening.start..];
    let head = layout.free + layout.digits;
    match scan_fields(alloc, &data[head..], opening.size - head, lengths)? {
        Scan::Whole(fields) => {
            let message = fields_message(opening.high, opening.low, &data[..head], fields);
            Ok(Scan::Whole((Apdu { message }, opening.start + opening.size)))
        }
        Scan::More => Ok(Scan::More),
        Scan::Refused { place, why } => Ok(Scan::Refused {
            place: opening.start + head + place,
            why,
        }),
    }
}
