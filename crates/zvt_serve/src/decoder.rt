//! Decodes what passes on the line to the terminal into events for listeners.
ghost use Rattle.zvt_trace.specs.Decoding.{IsLine};

use crate::event_log::EventLog;
use crate::host::Host;
use std::alloc::{AllocError, Global};
use std::marker::Model;
use zvt_stream::LineForm;
use zvt_text::Text;
use zvt_trace::{Direction, Line, Listener, ListenerError, Scope, TraceEvent};

/// Decodes the bytes of both sides, however they are cut, and adds an event to a log for each message.
#[derive(Drop)]
pub(crate) struct Decoder {
    alloc: Global,
    form: LineForm,
    /// None after an allocation failed, until the line is lost.
    line: Option<Line>,
    /// The number of chunks and losses so far.
    number: u64,
}

/// In contracts, the number of chunks and losses so far.
impl Model for Decoder {
    ghost use Rattle.std.specs.Prelude.{ℕ, IfSome};
    ghost use Rattle.zvt_trace.specs.Decoding.{IsLine};

    ghost Value = { ℕ };

    ghost view = { λ decoder. decoder.number };

    ghost invariant = { λ decoder. IfSome decoder.line IsLine };
}

impl Decoder {
    pub(crate) fn new(alloc: Global, form: LineForm) -> Decoder {
        Decoder {
            alloc,
            form,
            line: Some(new_line(alloc, form)),
            number: 0,
        }
    }

    /// Adds the events of bytes that this side sent. If an allocation fails, events are missing until the line is lost.
    pub(crate) fn take<H: Host>(
        &mut self,
        host: &mut H,
        log: &mut EventLog,
        from: Direction,
        bytes: &[u8],
    ) {
        self.number = self.number.saturating_add(1);
        let Some(mut line) = self.line.take() else {
            return;
        };
        let mut telling = Telling {
            alloc: self.alloc,
            host,
            log,
        };
        if line.take(&mut telling, self.number, from, bytes).is_ok() {
            self.line = Some(line);
        }
    }

    /// Adds the events of a lost line: what was cut off, and the loss. Both sides begin anew.
    pub(crate) fn lose<H: Host>(&mut self, host: &mut H, log: &mut EventLog) {
        self.number = self.number.saturating_add(1);
        let mut line = match self.line.take() {
            Some(line) => line,
            None => new_line(self.alloc, self.form),
        };
        let mut telling = Telling {
            alloc: self.alloc,
            host,
            log,
        };
        let _ = line.lose(&mut telling, self.number);
        self.line = Some(new_line(self.alloc, self.form));
    }
}

/// Returns a line on which nothing was sent.
fn new_line(alloc: Global, form: LineForm) -> Line
    ensures { IsLine result }
{
    Line::new(alloc, Scope::of_side(form.passes), form.lengths)
}

/// Adds the host's words for each event to a log. If an allocation fails, an event is missing.
#[derive(Drop)]
struct Telling<'t, H> {
    alloc: Global,
    host: &'t mut H,
    log: &'t mut EventLog,
}

/// It never fails.
impl<H: Host> Listener for Telling<'_, H> {
    ghost use Rattle.std.specs.Prelude.{⊤};

    ghost hears = { λ _ _ _. ⊤ };

    ghost fails = { λ _ _ _ _. ⊥ };

    fn hear(&mut self, number: u64, trace_event: &TraceEvent<'_>) -> Result<(), ListenerError> {
        let mut text = Text::new(self.alloc);
        if self
            .host
            .put_event(self.alloc, number, trace_event, &mut text)
            .is_ok()
        {
            let _ = add_line(self.alloc, self.log, text.bytes());
        }
        Ok(())
    }
}

/// Adds a line to a log, without its line feed.
fn add_line(alloc: Global, log: &mut EventLog, line: &[u8]) -> Result<(), AllocError> {
    log.add(Vec::from_slice(alloc, without_feed(line))?)
}

/// Returns the bytes without one line feed at their end.
fn without_feed(line: &[u8]) -> &[u8] {
    match line {
        [words @ .., b'\n'] => words,
        _ => line,
    }
}
