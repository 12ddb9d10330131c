//! Views of a message's bytes (`zvt_apdu`, `zvt_field`, `zvt_tlv`).
use std::alloc::Global;
use zvt_apdu::{Apdu, ApduView, owned, view};
use zvt_field::{FieldView, FieldsView};
use zvt_stream::{Held, Stream};
use zvt_tlv::{ForestView, TlvView};

/// A status with a result, an amount, a trace number, a receipt number, a currency, an original and a container of one
/// object.
const STATUS: [u8; 32] = [
    0x04, 0x0F, 0x1D, 0x27, 0x00, 0x04, 0x00, 0x00, 0x00, 0x00, 0x12, 0x34, 0x0B, 0x00, 0x00, 0x17,
    0x87, 0x00, 0x05, 0x49, 0x09, 0x78, 0x37, 0x00, 0x00, 0x17, 0x06, 0x04, 0x25, 0x02, 0x07, 0x00,
];

pub fn all(alloc: Global) -> bool {
    let mut stream = Stream::new(alloc);
    if stream.feed_view(&STATUS).is_err() {
        return false;
    }
    match stream.lent() {
        Some(apdu) => shows(&apdu) && has(&apdu) && copied(alloc, &apdu) && is_again(alloc, &apdu),
        None => false,
    }
}

/// A status has no part beside its fields.
fn shows(apdu: &ApduView<'_>) -> bool {
    apdu.control() == [0x04, 0x0F]
        && apdu.code().is_none()
        && apdu.password().is_none()
        && apdu.config().is_none()
        && apdu.currency().is_none()
        && bare(apdu)
}

fn bare(apdu: &ApduView<'_>) -> bool {
    apdu.status().is_none()
        && apdu.attribute().is_none()
        && apdu.text().is_none()
        && apdu.payload().is_none()
}

fn has(apdu: &ApduView<'_>) -> bool {
    match apdu.fields() {
        Some(fields) => money(&fields) && numbers(&fields) && contains(fields),
        None => false,
    }
}

fn money(fields: &FieldsView<'_>) -> bool {
    fields.result() == Some(0)
        && fields.amount().is_some()
        && fields.currency().is_some()
        && fields.count(0x04) == 1
}

fn numbers(fields: &FieldsView<'_>) -> bool {
    fields.trace().is_some()
        && fields.receipt().is_some()
        && fields.original().is_some()
        && fields.only(0x06).is_some()
}

/// The container is the last field, and its object has another.
fn contains(fields: FieldsView<'_>) -> bool {
    let mut last: Option<FieldView<'_>> = None;
    for field in fields {
        last = Some(field);
    }
    match last {
        Some(field) if field.bmp == 0x06 && field.content.len() == 4 => match field.tree() {
            Some(objects) => nests(objects),
            None => false,
        },
        _ => false,
    }
}

fn nests(mut objects: ForestView<'_>) -> bool {
    let object: Option<TlvView<'_>> = objects.next();
    match object {
        Some(object) => {
            object.tag.len() == 1 && object.content.len() == 2 && object.children().is_some()
        }
        None => false,
    }
}

fn copied(alloc: Global, apdu: &ApduView<'_>) -> bool {
    let made: Option<Apdu> = owned(alloc, apdu).ok();
    made.is_some()
}

/// The bytes are held and viewed again.
fn is_again(alloc: Global, apdu: &ApduView<'_>) -> bool {
    let mut held = Held::new(alloc);
    if held.add_all(apdu.bytes()).is_err() {
        return false;
    }
    view(held.spelled()).bytes().len() == 32
}
