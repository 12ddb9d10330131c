//! Objects of tag, length and content (`zvt_tlv`).
use std::alloc::{AllocError, Global};
use zvt_grammar::Lengths;
use zvt_tlv::{
    BadForest, Body, Forest, LengthAt, LengthNext, Scan, Tag, TagAt, TagNext, Tlv, Why,
    judge_length, judge_tag, put_sized, scan, scan_loose, scan_sized, scan_sized_loose, size,
    write_into,
};

/// An object with a byte of content, and its length with it.
const OBJECT: [u8; 3] = [0x07, 0x01, 0x41];

/// A list of that object, with its length before it.
const SIZED: [u8; 4] = [0x03, 0x07, 0x01, 0x41];

pub fn all(alloc: Global) -> bool {
    read(alloc) && read_loose(alloc) && matches!(built(alloc), Ok(true)) && judged()
}

fn is_one(answer: &Scan<Forest>) -> bool {
    matches!(answer, Scan::Whole(forest) if forest.objects().len() == 1)
}

fn is_one_sized(answer: &Scan<(Forest, usize)>) -> bool {
    matches!(answer, Scan::Whole((_, 4)))
}

fn read(alloc: Global) -> bool {
    let (Ok(found), Ok(sized)) = (scan(alloc, &OBJECT, 3, 1), scan_sized(alloc, &SIZED, 4)) else {
        return false;
    };
    is_one(&found) && is_one_sized(&sized)
}

fn read_loose(alloc: Global) -> bool {
    let found = scan_loose(alloc, &OBJECT, 3, 1);
    let sized = scan_sized_loose(alloc, &SIZED, 4);
    let (Ok(found), Ok(sized)) = (found, sized) else {
        return false;
    };
    is_one(&found) && is_one_sized(&sized)
}

fn content(object: &Tlv) -> usize {
    match &object.body {
        Body::Prim(bytes) => bytes.len(),
        Body::Cons(objects) => objects.len(),
    }
}

fn made(alloc: Global) -> Result<Option<Forest>, AllocError> {
    let Some(tag) = Tag::checked(&[0x07]) else {
        return Ok(None);
    };
    let body = Body::Prim(vec![in alloc; 0x41; 1]?);
    let objects = vec![in alloc; Tlv { tag, body }]?;
    let made: Result<Forest, (Vec<Tlv>, BadForest)> = Forest::checked(objects);
    Ok(made.ok())
}

fn built(alloc: Global) -> Result<bool, AllocError> {
    let Some(forest) = made(alloc)? else {
        return Ok(false);
    };
    let first = match forest.objects() {
        [object] => {
            object.tag.bytes().len() == 1 && !object.tag.constructed() && content(object) == 1
        }
        _ => false,
    };
    Ok(first && written(&forest))
}

fn written(forest: &Forest) -> bool {
    if size(forest) > 8 {
        return false;
    }
    let mut out = [0; 16];
    write_into(forest, &mut out) == 3 && put_sized(forest, &mut out) == 4
}

fn judged() -> bool {
    let tag: Result<TagNext, Why> = judge_tag(TagAt::First, 2, 1, 0x07, Lengths::Shortest);
    let length: Result<LengthNext, Why> = judge_length(
        LengthAt::First,
        1,
        false,
        0x01,
        Lengths::Shortest,
    );
    matches!(tag, Ok(TagNext::Done { constructed: false }))
        && matches!(length, Ok(LengthNext::Done(1)))
}
