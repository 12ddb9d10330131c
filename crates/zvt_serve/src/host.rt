//! The program around a server, and what it is shown of the line to the terminal.
ghost use Rattle.zvt_trace.specs.TraceEvent.{HasItsBytes};

use crate::decoder::Decoder;
use crate::event_log::EventLog;
use std::alloc::{AllocError, Global};
use zvt_stream::LineForm;
use zvt_text::Text;
use zvt_trace::{Direction, TraceEvent};

/// The program around a server: it reads the book, records the line to the terminal, and puts the line's messages into
/// words for listeners.
pub trait Host {
    /// Appends a JSON object for each line of the book, each with a line feed.
    fn put_book(&mut self, alloc: Global, text: &mut Text) -> Result<(), BookUnread>;

    /// Appends the JSON of an event of the line, with a line feed. `number` counts what passed on the line before it.
    fn put_event(
        &mut self,
        alloc: Global,
        number: u64,
        trace_event: &TraceEvent<'_>,
        text: &mut Text,
    ) -> Result<(), AllocError>
        requires { HasItsBytes trace_event.now };

    /// Records bytes that this side sent. The bytes of the till are recorded before they are sent.
    ///
    /// After an error nothing more is sent, and the service ends.
    fn record(&mut self, from: Direction, bytes: &[u8]) -> Result<(), Unrecorded>;

    /// Records that the line is lost. After an error nothing more is sent, and the service ends.
    fn record_loss(&mut self) -> Result<(), Unrecorded>;
}

/// The book could not be read, or an allocation failed.
#[derive(Clone, Copy, Debug, Drop, PartialEq, Eq)]
pub struct BookUnread;

/// Something that passed on the line could not be recorded.
#[derive(Clone, Copy, Debug, Drop, PartialEq, Eq)]
pub struct Unrecorded;

/// What is seen of the line to the terminal: the host records it, and listeners are told of its messages.
#[derive(Drop)]
pub(crate) struct Watch<'h, H> {
    pub(crate) host: &'h mut H,
    pub(crate) log: EventLog,
    decoder: Decoder,
    /// Whether the host could not record something.
    is_broken: bool,
}

impl<'h, H: Host> Watch<'h, H> {
    ghost use Rattle.std.specs.Prelude.{◌≡◌, not, true};

    pub(crate) fn new(alloc: Global, form: LineForm, host: &'h mut H) -> Watch<'h, H> {
        Watch {
            host,
            log: EventLog::new(alloc),
            decoder: Decoder::new(alloc, form),
            is_broken: false,
        }
    }

    /// Returns whether the host could not record something. Nothing is sent after that.
    pub(crate) fn is_broken(&self) -> bool
        ensures { result ≡ self.now.is_broken }
    {
        self.is_broken
    }

    /// Shows the host bytes that this side sent, or is about to send. Returns `false` if they may not be sent, because
    /// the host could not record these or earlier ones.
    pub(crate) fn see(&mut self, from: Direction, bytes: &[u8]) -> bool
        ensures result { result ≡ not self.new.is_broken }
        ensures stays { self.old.is_broken ≡ true → self.new.is_broken ≡ true }
    {
        self.is_broken = self.is_broken || self.host.record(from, bytes).is_err();
        if self.is_broken {
            return false;
        }
        self.decoder.take(self.host, &mut self.log, from, bytes);
        true
    }

    /// Shows the host that the line is lost.
    pub(crate) fn see_loss(&mut self)
        ensures { self.old.is_broken ≡ true → self.new.is_broken ≡ true }
    {
        self.is_broken = self.is_broken || self.host.record_loss().is_err();
        self.decoder.lose(self.host, &mut self.log);
    }
}
