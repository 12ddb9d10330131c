//! The streams of new connections.

ghost use Rattle.std.specs.Prelude.{◌≡◌, [], None, IfOk};
ghost use Rattle.zvt_grammar.specs.Reading.{padded, shortest};
ghost use Rattle.zvt_grammar.specs.Lengths.{reading_of};
ghost use Rattle.zvt_stream.specs.LineReading.{openly, reading_as, strictly};
ghost use Rattle.zvt_stream.specs.StreamState.{at_start, start_by, start_in, Holds, IsReserved};

use crate::buffer::Held;
use crate::form::LineForm;
use crate::judge::{Judge, Steps};
use crate::stream::Stream;
use std::alloc::{AllocError, Global};
use zvt_grammar::Lengths;

impl Stream {
    /// Creates a stream for a new connection that accepts only the shortest lengths.
    pub fn new(alloc: Global) -> Stream
        ensures { result ≡ at_start }
    {
        Stream::of(alloc, Lengths::Shortest)
    }

    /// Creates a stream for a new connection that also accepts padded lengths.
    pub fn loose(alloc: Global) -> Stream
        ensures { result ≡ start_in padded }
    {
        Stream::of(alloc, Lengths::Padded)
    }

    /// Creates a stream for a new connection that accepts the given forms of length.
    pub fn of(alloc: Global, lengths: Lengths) -> Stream
        ensures { result ≡ start_in (reading_of lengths) }
    {
        Stream::reading(
            alloc,
            LineForm {
                lengths,
                passes: false,
            },
        )
    }

    /// Creates a stream for a new connection that goes on after a frame whose data is no message: it passes the frame
    /// by its own length, and finds a stand-in in its place. It accepts only the shortest lengths.
    pub fn open(alloc: Global) -> Stream
        ensures { result ≡ start_by (openly shortest) }
    {
        Stream::reading(
            alloc,
            LineForm {
                lengths: Lengths::Shortest,
                passes: true,
            },
        )
    }

    /// Creates a stream for a new connection that reads it in the given way.
    pub fn reading(alloc: Global, form: LineForm) -> Stream
        ensures { result ≡ start_by (reading_as form) }
    {
        Stream {
            held: Held::new(alloc),
            judge: Judge::of(form.lengths),
            steps: Steps::new(),
            passes: form.passes,
            refused: false,
            has_message: false,
        }
    }

    /// Creates a stream for a new connection and allocates room for the longest message in advance, so that
    /// `feed_view` never fails for lack of memory.
    pub fn reserved(alloc: Global) -> Result<Stream, AllocError>
        ensures new { IfOk result (λ stream. Holds [] stream × (stream.lent ≡ None)) }
        ensures reserved { IfOk result (λ stream. IsReserved stream) }
        ensures count { IfOk result (λ stream. stream.judged ≡ 0) }
        ensures reading { IfOk result (λ stream. stream.reading ≡ strictly shortest) }
    {
        Stream::reserved_of(alloc, Lengths::Shortest)
    }

    /// Creates a stream as [`reserved`](Stream::reserved) does, which accepts the given forms of length.
    pub fn reserved_of(alloc: Global, lengths: Lengths) -> Result<Stream, AllocError>
        ensures new { IfOk result (λ stream. Holds [] stream × (stream.lent ≡ None)) }
        ensures reserved { IfOk result (λ stream. IsReserved stream) }
        ensures count { IfOk result (λ stream. stream.judged ≡ 0) }
        ensures reading { IfOk result (λ stream. stream.reading ≡ strictly (reading_of lengths)) }
    {
        Stream::reserved_reading(
            alloc,
            LineForm {
                lengths,
                passes: false,
            },
        )
    }

    /// Creates a stream as [`reserved`](Stream::reserved) does, which reads the connection in the given way.
    pub fn reserved_reading(alloc: Global, form: LineForm) -> Result<Stream, AllocError>
        ensures new { IfOk result (λ stream. Holds [] stream × (stream.lent ≡ None)) }
        ensures reserved { IfOk result (λ stream. IsReserved stream) }
        ensures count { IfOk result (λ stream. stream.judged ≡ 0) }
        ensures reading { IfOk result (λ stream. stream.reading ≡ reading_as form) }
    {
        let mut stream = Stream::reading(alloc, form);
        stream.held = Held::reserved(alloc)?;
        Ok(stream)
    }
}
