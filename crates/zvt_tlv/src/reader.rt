//! Readers. None of them looks at bytes beyond its room, and none consumes bytes: after `More`, call it again with
//! more bytes from the same start. The only error is that an allocation fails. It comes only if bytes follow the tag
//! and the length of the first object, or if its content is bytes, the content as well (`TakesMemory`).

ghost use Rattle.std.specs.Prelude.{◌≢◌, [], ◌≤◌, ◌<◌, ◌^◌, MatchResult};
ghost use Rattle.zvt_grammar.specs.Beginnings.{Alive};
ghost use Rattle.zvt_grammar.specs.Reading.{shortest, padded};
ghost use Rattle.zvt_tlv.specs.Answers.{Answers, AnswersForest, ObjectFound, ObjectsFound, TakesMemory};
ghost use Rattle.zvt_grammar.specs.Lengths.{reading_of};
ghost use Rattle.zvt_tlv.specs.Sized.{SizedIn, AnswersSized, SizedTakesMemory};

use crate::heads::{scan_head, scan_size};
use crate::tags::Tag;
use crate::trees::{Body, Forest, Tlv};
use std::alloc::{AllocError, Global};
use zvt_grammar::{Lengths, Scan};

/// Reads the objects at the given depth that fill exactly the first `room` bytes. Each length must have its shortest
/// form. A room of a single byte cannot be filled.
pub fn scan(
    alloc: Global,
    bytes: &[u8],
    room: usize,
    depth: usize,
) -> Result<Scan<Forest>, AllocError>
    requires small { room < 2 ^ 16 }
    requires filled { room ≢ 1 }
    requires least { 1 ≤ depth }
    requires deepest { depth ≤ 6 }
    ensures { MatchResult result (AnswersForest shortest depth room bytes.now)
        (λ _. TakesMemory shortest room bytes.now) }
{
    scan_forest(alloc, bytes, room, depth, Lengths::Shortest)
}

/// Reads the objects in a room. Lengths may have any form, also a longer one than necessary.
pub fn scan_loose(
    alloc: Global,
    bytes: &[u8],
    room: usize,
    depth: usize,
) -> Result<Scan<Forest>, AllocError>
    requires small { room < 2 ^ 16 }
    requires filled { room ≢ 1 }
    requires least { 1 ≤ depth }
    requires deepest { depth ≤ 6 }
    ensures { MatchResult result (AnswersForest padded depth room bytes.now) (λ _. TakesMemory padded room bytes.now) }
{
    scan_forest(alloc, bytes, room, depth, Lengths::Padded)
}

/// Reads a length and the objects at depth 1 that it covers, which together fill `room` bytes exactly. Returns the
/// objects and the size of both. Each length must have its shortest form. A room of two bytes cannot be filled.
pub fn scan_sized(
    alloc: Global,
    bytes: &[u8],
    room: usize,
) -> Result<Scan<(Forest, usize)>, AllocError>
    requires some { room ≢ 0 }
    requires filled { room ≢ 2 }
    requires small { room < 2 ^ 16 }
    ensures { MatchResult result (AnswersSized shortest room bytes.now) (λ _. SizedTakesMemory shortest bytes.now) }
{
    scan_sized_forest(alloc, bytes, room, Lengths::Shortest)
}

/// Reads a length and its objects. Lengths may have any form, so `81 00` fills a room of two bytes.
pub fn scan_sized_loose(
    alloc: Global,
    bytes: &[u8],
    room: usize,
) -> Result<Scan<(Forest, usize)>, AllocError>
    requires some { room ≢ 0 }
    requires small { room < 2 ^ 16 }
    ensures { MatchResult result (AnswersSized padded room bytes.now) (λ _. SizedTakesMemory padded bytes.now) }
{
    scan_sized_forest(alloc, bytes, room, Lengths::Padded)
}

fn scan_forest(
    alloc: Global,
    bytes: &[u8],
    room: usize,
    depth: usize,
    lengths: Lengths,
) -> Result<Scan<Forest>, AllocError>
    requires small { room < 2 ^ 16 }
    requires filled { room ≢ 1 }
    requires least { 1 ≤ depth }
    requires deepest { depth ≤ 6 }
    ensures { MatchResult result (AnswersForest (reading_of lengths) depth room bytes.now)
        (λ _. TakesMemory (reading_of lengths) room bytes.now) }
{
    Ok(match scan_objects(alloc, bytes, room, depth, lengths)? {
        Scan::Whole(objects) => Scan::Whole(Forest::of(objects)),
        Scan::More => Scan::More,
        Scan::Refused { place, why } => Scan::Refused { place, why },
    })
}

/// Reads a length and its objects with the given forms of length. The room must be one that can be filled.
pub fn scan_sized_forest(
    alloc: Global,
    bytes: &[u8],
    room: usize,
    lengths: Lengths,
) -> Result<Scan<(Forest, usize)>, AllocError>
    requires small { room < 2 ^ 16 }
    requires begun { Alive (SizedIn (reading_of lengths) room) [] }
    ensures { MatchResult result (AnswersSized (reading_of lengths) room bytes.now)
        (λ _. SizedTakesMemory (reading_of lengths) bytes.now) }
{
    let (start, size) = match scan_size(bytes, room, lengths) {
        Scan::Whole(found) => found,
        Scan::More => return Ok(Scan::More),
        Scan::Refused { place, why } => return Ok(Scan::Refused { place, why }),
    };
    Ok(
        match scan_objects(alloc, &bytes[start..], size, 1, lengths)? {
            Scan::Whole(objects) => Scan::Whole((Forest::of(objects), start + size)),
            Scan::More => Scan::More,
            Scan::Refused { place, why } => Scan::Refused {
                place: start + place,
                why,
            },
        },
    )
}

/// Reads the objects that fill the room.
#[cycle(scan)]
fn scan_objects(
    alloc: Global,
    bytes: &[u8],
    room: usize,
    depth: usize,
    lengths: Lengths,
) -> Result<Scan<Vec<Tlv>>, AllocError>
    requires filled { room ≢ 1 }
    requires small { room < 2 ^ 16 }
    requires depth { depth ≤ 6 }
    ensures { MatchResult result (Answers (reading_of lengths) depth room bytes.now
        (λ objects. ObjectsFound (reading_of lengths) depth room bytes.now objects.items))
        (λ _. TakesMemory (reading_of lengths) room bytes.now) }
{
    let mut objects = Vec::new(alloc);
    let mut taken = 0;
    while taken < room {
        match scan_object(alloc, &bytes[taken..], room - taken, depth, lengths)? {
            Scan::Whole((object, size)) => {
                objects.push(object)?;
                taken += size;
            }
            Scan::More => return Ok(Scan::More),
            Scan::Refused { place, why } => return Ok(Scan::Refused {
                place: taken + place,
                why,
            }),
        }
    }
    Ok(Scan::Whole(objects))
}

/// Reads one object within its room. Returns the object and its size.
#[cycle(scan)]
fn scan_object(
    alloc: Global,
    bytes: &[u8],
    room: usize,
    depth: usize,
    lengths: Lengths,
) -> Result<Scan<(Tlv, usize)>, AllocError>
    requires some { 0 < room }
    requires filled { room ≢ 1 }
    requires small { room < 2 ^ 16 }
    requires depth { depth ≤ 6 }
    ensures { MatchResult result (Answers (reading_of lengths) depth room bytes.now
        (λ found. ObjectFound (reading_of lengths) depth room bytes.now found.0 found.1))
        (λ _. TakesMemory (reading_of lengths) room bytes.now) }
{
    let head = match scan_head(bytes, room, depth, lengths) {
        Scan::Whole(head) => head,
        Scan::More => return Ok(Scan::More),
        Scan::Refused { place, why } => return Ok(Scan::Refused { place, why }),
    };
    let tag = Tag::of(&bytes[..head.tag_size]);
    let content = &bytes[head.size..];
    let size = head.size + head.content;
    if head.constructed {
        return match scan_objects(alloc, content, head.content, depth + 1, lengths)? {
            Scan::Whole(objects) => {
                let body = Body::Cons(objects);
                Ok(Scan::Whole((Tlv { tag, body }, size)))
            }
            Scan::More => Ok(Scan::More),
            Scan::Refused { place, why } => Ok(Scan::Refused {
                place: head.size + place,
                why,
            }),
        };
    }
    if content.len() < head.content {
        return Ok(Scan::More);
    }
    let body = Body::Prim(Vec::from_slice(alloc, &content[..head.content])?);
    Ok(Scan::Whole((Tlv { tag, body }, size)))
}
