//! Messages read, fed and built.

use std::alloc::{AllocError, Global};
use zvt_apdu::{Apdu, Message, NoRoom, checked, encode_into, scan};
use zvt_field::{Field, FieldBody, Fields, PushRefusal};
use zvt_grammar::Scan;
use zvt_stream::{Fed, FedView, FeedError, Stream};
use zvt_tlv::Forest;

/// A completion with objects in six levels.
const SIX_LEVELS: [u8; 17] = [
    0x06, 0x0F, 0x0E, 0x06, 0x0C, 0x25, 0x0A, 0x25, 0x08, 0x25, 0x06, 0x25, 0x04, 0x25, 0x02, 0x07,
    0x00,
];

/// An approval of 1234 under the trace number 17.
const APPROVAL: [u8; 19] = [
    0x04, 0x0F, 0x10, 0x27, 0x00, 0x04, 0x00, 0x00, 0x00, 0x00, 0x12, 0x34, 0x0B, 0x00, 0x00, 0x17,
    0x87, 0x00, 0x05,
];

/// Whether the message has this spelling.
fn spells(apdu: &Apdu, bytes: &[u8]) -> bool {
    let mut out = [0x55; 32];
    match put(apdu, &mut out) {
        Ok(size) => out.get(..size) == Some(bytes),
        Err(_) => false,
    }
}

// It says nothing of what it answers: beside it each step of a caller's proof is dear.
fn put(apdu: &Apdu, out: &mut [u8]) -> Result<usize, NoRoom> {
    encode_into(apdu, out)
}

/// The three readers read the six levels, each from where its part begins.
pub fn scans(alloc: Global) -> bool {
    scans_message(alloc) && scans_fields(alloc) && scans_objects(alloc)
}

fn scans_message(alloc: Global) -> bool {
    let answer = match scan(alloc, &SIX_LEVELS) {
        Ok(answer) => answer,
        Err(AllocError) => match scan(alloc, &SIX_LEVELS) {
            Ok(answer) => answer,
            Err(AllocError) => return false,
        },
    };
    match &answer {
        Scan::Whole((apdu, taken)) => *taken == SIX_LEVELS.len() && spells(apdu, &SIX_LEVELS),
        _ => false,
    }
}

fn scans_fields(alloc: Global) -> bool {
    let bytes = &SIX_LEVELS[3..];
    let answer = match zvt_field::scan(alloc, bytes, 14) {
        Ok(answer) => answer,
        Err(AllocError) => match zvt_field::scan(alloc, bytes, 14) {
            Ok(answer) => answer,
            Err(AllocError) => return false,
        },
    };
    match &answer {
        Scan::Whole(fields) => zvt_field::size(fields) == 14 && fields.list().len() == 1,
        _ => false,
    }
}

fn scans_objects(alloc: Global) -> bool {
    let bytes = &SIX_LEVELS[5..];
    let answer = match zvt_tlv::scan(alloc, bytes, 12, 1) {
        Ok(answer) => answer,
        Err(AllocError) => match zvt_tlv::scan(alloc, bytes, 12, 1) {
            Ok(answer) => answer,
            Err(AllocError) => return false,
        },
    };
    match &answer {
        Scan::Whole(forest) => spells_objects(forest, bytes),
        _ => false,
    }
}

/// Whether the objects have this spelling.
fn spells_objects(forest: &Forest, bytes: &[u8]) -> bool {
    let mut out = [0x55; 12];
    if zvt_tlv::size(forest) != out.len() {
        return false;
    }
    let size = zvt_tlv::write_into(forest, &mut out);
    size == out.len() && out.as_slice() == bytes
}

/// The approval comes in two pieces cut at each place, and the six levels in one.
pub fn feeds(alloc: Global) -> bool {
    for cut in 0..APPROVAL.len() {
        let mut stream = Stream::new(alloc);
        let (first, second) = APPROVAL.split_at(cut);
        if !goes_on(&feed(alloc, &mut stream, first)) || stream.held() != cut {
            return false;
        }
        if !ends(&feed(alloc, &mut stream, second), &APPROVAL, second.len()) {
            return false;
        }
    }
    let mut stream = Stream::new(alloc);
    let fed = feed(alloc, &mut stream, &SIX_LEVELS);
    ends(&fed, &SIX_LEVELS, SIX_LEVELS.len()) && stream.held() == 0
}

/// What the stream makes of the piece, which is fed again where memory is wanted and nothing was taken.
fn feed(alloc: Global, stream: &mut Stream, piece: &[u8]) -> Option<Fed> {
    let held = stream.held();
    match stream.feed(alloc, piece) {
        Ok(fed) => Some(fed),
        Err(FeedError::Stopped) => None,
        Err(FeedError::Memory) if stream.held() != held => None,
        Err(FeedError::Memory) => stream.feed(alloc, piece).ok(),
    }
}

/// Whether the piece was taken, and more is to come.
fn goes_on(fed: &Option<Fed>) -> bool {
    matches!(fed, Some(Fed::More))
}

/// Whether that many bytes of the piece end a message that is spelled so.
fn ends(fed: &Option<Fed>, bytes: &[u8], wanted: usize) -> bool {
    match fed {
        Some(Fed::Message { apdu, taken }) => *taken == wanted && spells(apdu, bytes),
        _ => false,
    }
}

/// Cuts an approval at each byte, and compares the messages that the stream lends.
pub fn feeds_views(alloc: Global) -> bool {
    for cut in 0..APPROVAL.len() {
        let mut stream = Stream::new(alloc);
        let (first, second) = APPROVAL.split_at(cut);
        if feed_view(&mut stream, first) != Some(FedView::More) || stream.held() != cut {
            return false;
        }
        let taken = second.len();
        if feed_view(&mut stream, second) != Some(FedView::Message { taken }) {
            return false;
        }
        if stream.lent_bytes() != Some(APPROVAL.as_slice()) {
            return false;
        }
    }
    let mut stream = Stream::new(alloc);
    let taken = SIX_LEVELS.len();
    let fed = feed_view(&mut stream, &SIX_LEVELS);
    fed == Some(FedView::Message { taken }) && stream.lent_bytes() == Some(SIX_LEVELS.as_slice())
}

fn feed_view(stream: &mut Stream, piece: &[u8]) -> Option<FedView> {
    let held = stream.held();
    match stream.feed_view(piece) {
        Ok(fed) => Some(fed),
        Err(FeedError::Stopped) => None,
        Err(FeedError::Memory) if stream.held() != held => None,
        Err(FeedError::Memory) => stream.feed_view(piece).ok(),
    }
}

/// The approval is built field by field.
pub fn pushes(alloc: Global) -> Result<bool, AllocError> {
    let mut fields = Fields::new(alloc);
    let rows: [(u8, &[u8]); 4] = [
        (0x27, &[0x00]),
        (0x04, &[0x00, 0x00, 0x00, 0x00, 0x12, 0x34]),
        (0x0B, &[0x00, 0x00, 0x17]),
        (0x87, &[0x00, 0x05]),
    ];
    for (bmp, bytes) in rows {
        let Ok(field) = Field::checked(bmp, FieldBody::Bytes(bytes.to_vec(alloc)?)) else {
            return Ok(false);
        };
        if !push(&mut fields, field) {
            return Ok(false);
        }
    }
    Ok(match checked(Message::Status(fields)) {
        Ok(apdu) => spells(&apdu, &APPROVAL),
        Err(_) => false,
    })
}

/// Whether the field was added, again where memory is wanted and nothing had changed.
fn push(fields: &mut Fields, field: Field) -> bool {
    let count = fields.list().len();
    match fields.push(field) {
        Ok(()) => true,
        Err(PushRefusal::TooLarge(_)) => false,
        Err(PushRefusal::Memory(field)) => {
            fields.list().len() == count && fields.push(field).is_ok()
        }
    }
}
