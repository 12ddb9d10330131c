//! Reads the fields in a room.

ghost use Rattle.std.specs.Prelude.{◌≡◌, ◌≢◌, ◌≤◌, ◌<◌, ◌+◌, ◌^◌, not, if◌then◌else◌, MatchResult, position};
ghost use Rattle.std.specs.Prelude.{length};
ghost use Rattle.zvt_grammar.specs.Reading.{shortest, padded};
ghost use Rattle.zvt_bcd.specs.Digits.{is_digit_pair};
ghost use Rattle.zvt_grammar.specs.Lengths.{reading_of};
ghost use Rattle.zvt_field.specs.Answers.{Answers, AnswersOne, AnswersHead, InName, InContainer, HeadFound, HoldsSome};
ghost use Rattle.zvt_field.specs.Answers.{TakesMemory, Begun};
ghost use Rattle.zvt_field.specs.Bodies.{HaveSpelling};

use crate::judge::{judge_bmp, judge_digit};
use crate::sizes::list_size;
use crate::{Field, FieldBody, Fields, Shape};
use std::alloc::{AllocError, Global};
use zvt_grammar::{Lengths, Scan, Why};
use zvt_tlv::scan_sized_forest;

/// The part of a field before its content: its size, the size of the content, and whether the content is digits.
#[derive(Clone, Copy)]
pub struct Head {
    pub start: usize,
    pub size: usize,
    pub digits: bool,
}

impl Head {
    /// The head of a field that is a BMP alone, before `size` bytes of content.
    fn fixed(size: usize, digits: bool) -> Head
        ensures { result ≡ record { start = 1; size = size; digits = digits } }
    {
        Head {
            start: 1,
            size,
            digits,
        }
    }
}

/// Reads the digits of a length after a BMP.
fn scan_count(bytes: &[u8], room: usize, digits: usize, lengths: Lengths) -> Scan<Head>
    requires digits { 1 ≤ digits }
    requires few { digits ≤ 3 }
    requires begun { InName (reading_of lengths) room bytes.now digits }
    ensures { AnswersHead (reading_of lengths) room bytes.now result }
{
    let mut number = 0;
    for count in 1..digits + 1 {
        if count >= bytes.len() {
            return Scan::More;
        }
        match judge_digit(digits - count, number, room - count - 1, bytes[count]) {
            Err(why) => return Scan::Refused { place: count, why },
            Ok(longer) => number = longer,
        }
    }
    Scan::Whole(Head {
        start: digits + 1,
        size: number,
        digits: false,
    })
}

/// Where the first byte stands that isn't two decimal digits.
fn first_bad_pair(bytes: &[u8]) -> Option<usize>
    ensures { result ≡ position (λ byte. not (is_digit_pair byte)) bytes.now }
{
    bytes
        .iter()
        .position(|byte| !(byte / 16 <= 9 && byte % 16 <= 9))
}

/// The first byte that is no pair of digits, where digits are demanded.
fn first_bad(bytes: &[u8], digits: bool) -> Option<usize>
    ensures { result ≡ (if digits then position (λ byte. not (is_digit_pair byte)) bytes.now else None) }
{
    if digits { first_bad_pair(bytes) } else { None }
}

/// Reads a content that is bytes.
#[inline(always)]
fn scan_content(
    alloc: Global,
    bytes: &[u8],
    room: usize,
    head: Head,
    lengths: Lengths,
) -> Result<Scan<(Field, usize)>, AllocError>
    requires small { room < 2 ^ 16 }
    requires begun { HeadFound (reading_of lengths) room bytes.now head }
    ensures { MatchResult result (AnswersOne (reading_of lengths) room bytes.now)
        (λ _. HoldsSome (reading_of lengths) bytes.now) }
{
    let end = (head.start + head.size).min(bytes.len());
    let content = &bytes[head.start..end];
    if let Some(at) = first_bad(content, head.digits) {
        return Ok(Scan::Refused {
            place: head.start + at,
            why: Why::NotDigit,
        });
    }
    if content.len() < head.size {
        return Ok(Scan::More);
    }
    let content = Vec::from_slice(alloc, content)?;
    Ok(Scan::Whole((Field::of(bytes[0], FieldBody::Bytes(content)), end)))
}

/// Reads a length of that many digits, and a content that is bytes.
#[inline(always)]
fn scan_counted(
    alloc: Global,
    bytes: &[u8],
    room: usize,
    digits: usize,
    lengths: Lengths,
) -> Result<Scan<(Field, usize)>, AllocError>
    requires digits { 1 ≤ digits }
    requires few { digits ≤ 3 }
    requires small { room < 2 ^ 16 }
    requires begun { InName (reading_of lengths) room bytes.now digits }
    ensures { MatchResult result (AnswersOne (reading_of lengths) room bytes.now)
        (λ _. HoldsSome (reading_of lengths) bytes.now) }
{
    match scan_count(bytes, room, digits, lengths) {
        Scan::Whole(head) => scan_content(alloc, bytes, room, head, lengths),
        Scan::More => Ok(Scan::More),
        Scan::Refused { place, why } => Ok(Scan::Refused { place, why }),
    }
}

/// Reads a content that is objects.
fn scan_container(
    alloc: Global,
    bytes: &[u8],
    room: usize,
    lengths: Lengths,
) -> Result<Scan<(Field, usize)>, AllocError>
    requires small { room < 2 ^ 16 }
    requires begun { InContainer (reading_of lengths) room bytes.now }
    ensures { MatchResult result (AnswersOne (reading_of lengths) room bytes.now)
        (λ _. HoldsSome (reading_of lengths) bytes.now) }
{
    Ok(
        match scan_sized_forest(alloc, &bytes[1..], room - 1, lengths)? {
            Scan::Whole((objects, size)) => Scan::Whole((
                Field::of(bytes[0], FieldBody::Tree(objects)),
                size + 1,
            )),
            Scan::More => Scan::More,
            Scan::Refused { place, why } => Scan::Refused {
                place: place + 1,
                why,
            },
        },
    )
}

/// Reads one field, in a room of that many bytes: the field and its size.
#[inline(always)]
fn scan_field(
    alloc: Global,
    bytes: &[u8],
    room: usize,
    lengths: Lengths,
) -> Result<Scan<(Field, usize)>, AllocError>
    requires some { 0 < room }
    requires filled { room ≢ 1 }
    requires small { room < 2 ^ 16 }
    ensures { MatchResult result (AnswersOne (reading_of lengths) room bytes.now)
        (λ _. HoldsSome (reading_of lengths) bytes.now) }
{
    let Some(first) = bytes.first() else {
        return Ok(Scan::More);
    };
    match judge_bmp(room - 1, *first, lengths) {
        Err(why) => Ok(Scan::Refused { place: 0, why }),
        Ok(Shape::Fixed(size)) => {
            scan_content(alloc, bytes, room, Head::fixed(size, false), lengths)
        }
        Ok(Shape::Digits(size)) => {
            scan_content(alloc, bytes, room, Head::fixed(size, true), lengths)
        }
        Ok(Shape::Ll) => scan_counted(alloc, bytes, room, 2, lengths),
        Ok(Shape::Lll) => scan_counted(alloc, bytes, room, 3, lengths),
        Ok(Shape::Tree) => scan_container(alloc, bytes, room, lengths),
    }
}

/// Reads the fields that fill the first `room` bytes exactly. Each length of objects must have its shortest form.
/// Ignores the bytes after the room. Returns `More` if there are fewer bytes and they can be completed, and `Refused`
/// with the index of the first byte after which no fields can fill the room. The only error is that an allocation
/// fails. It comes only if the first field is complete, or is a container some of whose objects are stored
/// (`TakesMemory`).
#[inline(always)]
pub fn scan(alloc: Global, bytes: &[u8], room: usize) -> Result<Scan<Fields>, AllocError>
    requires small { room < 2 ^ 16 }
    requires filled { room ≢ 1 }
    ensures { MatchResult result (Answers shortest room bytes.now) (λ _. TakesMemory shortest room bytes.now) }
{
    scan_fields(alloc, bytes, room, Lengths::Shortest)
}

/// Reads the fields in a room. Lengths of objects may have any form.
pub fn scan_loose(alloc: Global, bytes: &[u8], room: usize) -> Result<Scan<Fields>, AllocError>
    requires small { room < 2 ^ 16 }
    requires filled { room ≢ 1 }
    ensures { MatchResult result (Answers padded room bytes.now) (λ _. TakesMemory padded room bytes.now) }
{
    scan_fields(alloc, bytes, room, Lengths::Padded)
}

/// Reads the fields in a room with the given forms of length.
#[inline(always)]
pub fn scan_fields(
    alloc: Global,
    bytes: &[u8],
    room: usize,
    lengths: Lengths,
) -> Result<Scan<Fields>, AllocError>
    requires small { room < 2 ^ 16 }
    requires filled { room ≢ 1 }
    ensures { MatchResult result (Answers (reading_of lengths) room bytes.now)
        (λ _. TakesMemory (reading_of lengths) room bytes.now) }
{
    let mut list = Vec::new(alloc);
    let mut taken = 0;
    while taken < room {
        match scan_field(alloc, &bytes[taken..], room - taken, lengths)? {
            Scan::Whole((field, size)) => {
                list.push(field)?;
                taken += size;
            }
            Scan::More => return Ok(Scan::More),
            Scan::Refused { place, why } => return Ok(Scan::Refused {
                place: taken + place,
                why,
            }),
        }
    }
    Ok(Scan::Whole(match lengths {
        Lengths::Shortest => Fields::of(list, room),
        Lengths::Padded => {
            let size = list_size(&list);
            Fields::of(list, size)
        }
    }))
}

/// The fields of a list that has an encoding.
fn gathered(list: Vec<Field>) -> Fields
    requires { HaveSpelling list.items }
    ensures { result ≡ list.items }
{
    let size = list_size(&list);
    Fields::of(list, size)
}

/// Reads the complete fields at the start of the bytes, and stops before the first field that is refused or not
/// complete. The bytes are data of a message whose end is missing, so there are at most 65,533. The only error is that
/// an allocation fails. It comes only if the first field is complete, or is a container some of whose objects are
/// stored (`HoldsSome`).
pub fn scan_begun(alloc: Global, bytes: &[u8], lengths: Lengths) -> Result<Fields, AllocError>
    requires small { length bytes.now + 2 < 2 ^ 16 }
    ensures { MatchResult result (Begun (reading_of lengths) bytes.now) (λ _. HoldsSome (reading_of lengths) bytes.now) }
{
    let room = bytes.len() + 2;
    let mut list = Vec::new(alloc);
    let mut taken = 0;
    'fields: loop {
        match scan_field(alloc, &bytes[taken..], room - taken, lengths)? {
            Scan::Whole((field, size)) => {
                list.push(field)?;
                taken += size;
            }
            Scan::More | Scan::Refused { .. } => return Ok(gathered(list)),
        }
    }
}
