//! Fields and lists of them (`zvt_field`).
use std::alloc::{AllocError, Global};
use zvt_field::{
    BadField, Field, FieldBody, Fields, LlAt, LlNext, PushRefusal, Shape, amount, count, currency,
    judge_bmp, judge_content, judge_ll, name, only, original, receipt, result, scan, scan_loose,
    shape, size, trace, write_into,
};
use zvt_grammar::{Lengths, Scan};

/// A result, an amount, a trace number, a receipt number, a currency and an original.
const FIELDS: [u8; 23] = [
    0x27, 0x00, 0x04, 0x00, 0x00, 0x00, 0x00, 0x12, 0x34, 0x0B, 0x00, 0x00, 0x17, 0x87, 0x00, 0x05,
    0x49, 0x09, 0x78, 0x37, 0x00, 0x00, 0x17,
];

pub fn all(alloc: Global) -> bool {
    read(alloc) && matches!(built(alloc), Ok(true)) && listed() && judged()
}

fn read(alloc: Global) -> bool {
    match (scan(alloc, &FIELDS, 23), scan_loose(alloc, &FIELDS, 23)) {
        (Ok(Scan::Whole(strict)), Ok(Scan::Whole(loose))) => {
            money(&strict) && numbers(&loose) && written(&strict)
        }
        _ => false,
    }
}

fn money(fields: &Fields) -> bool {
    result(fields) == Some(0)
        && amount(fields).is_some()
        && currency(fields).is_some()
        && count(fields, 0x04) == 1
}

fn numbers(fields: &Fields) -> bool {
    trace(fields).is_some()
        && receipt(fields).is_some()
        && original(fields).is_some()
        && only(fields, 0x87).is_some()
}

fn written(fields: &Fields) -> bool {
    let mut out = [0; 65_535];
    size(fields) == 23 && write_into(fields, &mut out) == 23
}

/// A field with a byte, and the list that it was added to.
fn built(alloc: Global) -> Result<bool, AllocError> {
    let body = FieldBody::Bytes(vec![in alloc; 0x00; 1]?);
    let made: Result<Field, (FieldBody, BadField)> = Field::checked(0x27, body);
    let Ok(field) = made else {
        return Ok(false);
    };
    let is_result = field.bmp() == 0x27 && matches!(field.body(), FieldBody::Bytes(_));
    let mut fields = Fields::new(alloc);
    let pushed: Result<(), PushRefusal> = fields.push(field);
    Ok(is_result && pushed.is_ok() && fields.list().len() == 1)
}

fn listed() -> bool {
    matches!(shape(0x22), Some(Shape::Ll)) && name(0x22).is_some()
}

fn judged() -> bool {
    let at = LlAt {
        digits_left: 2,
        so_far: 0,
    };
    matches!(judge_bmp(1, 0x27, Lengths::Shortest), Ok(Shape::Fixed(1)))
        && matches!(judge_ll(at, 12, 0xF1), Ok(LlNext::More(_)))
        && judge_content(Shape::Digits(3), 0x12).is_ok()
}
