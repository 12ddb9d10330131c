//! Puts a message together from the pieces that arrive, and prints its fields and the objects of its container.

use std::io;
use zvt_apdu::ApduView;
use zvt_field::name;
use zvt_stream::{FedView, Stream};
use zvt_tlv::ForestView;

/// The completion of a registration (PA00P015, Completion) in two pieces: the number of the terminal, and a container
/// with one object.
pub const PIECES: [&[u8]; 2] = [
    &[0x06, 0x0F, 0x0A, 0x29, 0x52],
    &[0x50, 0x00, 0x38, 0x06, 0x03, 0x07, 0x01, 0x41],
];

/// Prints the message that each piece ends, or how many bytes of it have come.
pub fn print_pieces(rt: &HostRuntime, pieces: &[&[u8]]) -> io::Result<()> {
    let mut stream = Stream::new(rt.alloc());
    for piece in pieces {
        print_fed(rt, &mut stream, piece)?;
    }
    Ok(())
}

/// Feeds a piece. Where a piece may hold several messages, feed what is left after `taken` bytes again.
fn print_fed(rt: &HostRuntime, stream: &mut Stream, piece: &[u8]) -> io::Result<()> {
    match stream.feed_view(piece) {
        Ok(FedView::Message { .. }) => print_fields(rt, stream.lent()),
        Ok(FedView::More) => println!(rt; "pieces: {} bytes held", stream.held()),
        Ok(FedView::Refused { place, why }) => println!(rt;
            "pieces: refused at byte {place}: {why}"
        ),
        Err(fault) => println!(rt; "pieces: {fault}"),
    }
}

/// Prints the fields of a message, each with its name.
fn print_fields(rt: &HostRuntime, message: Option<ApduView<'_>>) -> io::Result<()> {
    let Some(message) = message else {
        return Ok(());
    };
    let Some(fields) = message.fields() else {
        return println!(rt; "pieces: a message without fields");
    };
    for field in fields {
        let known = name(field.bmp).unwrap_or("unknown");
        println!(rt; "pieces: {known}, {} bytes", field.content.len())?;
        if let Some(objects) = field.tree() {
            print_objects(rt, objects)?;
        }
    }
    Ok(())
}

/// Prints the sizes of the objects in a container.
fn print_objects(rt: &HostRuntime, objects: ForestView<'_>) -> io::Result<()> {
    for object in objects {
        let (tag, content) = (object.tag.len(), object.content.len());
        println!(rt; "pieces:   an object, {tag} bytes of tag and {content} of content")?;
    }
    Ok(())
}
