//! One end of a line.

use crate::stream::Stream;

/// One end of a connection: its reader, its writer, and the stream that assembles messages from the bytes read.
///
/// [`pump`](crate::pump) works on these parts. Create a new endpoint for a new connection.
#[derive(Drop)]
pub struct Endpoint<R, W> {
    /// Receives the bytes of the other end.
    pub reader: R,
    /// Sends the bytes of this end.
    pub writer: W,
    /// Assembles messages from the bytes read.
    pub stream: Stream,
}
