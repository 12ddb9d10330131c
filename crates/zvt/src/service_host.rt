//! What the program does for its service: it reads the book, records the line, and puts messages into JSON.

use crate::book::recovered_from;
use crate::trace_file::{ReportedTrace, reported};
use std::alloc::{AllocError, Global};
use zvt_io::Over;
use zvt_journal::read_book;
use zvt_runs::tcp::RunTrace;
use zvt_runs::write_book;
use zvt_serve::{BookUnread, Host, Unrecorded};
use zvt_show::{Style, render_event};
use zvt_text::{Form, Text};
use zvt_trace::{Direction, Observer, TraceEvent, TraceWriter, end_trace};

/// What follows from a trace that cannot be written.
const SERVICE_ENDS: &str = "the connection to the terminal is closed and the service ends";

/// The host of a service.
#[derive(Drop)]
pub struct ServiceHost<'a> {
    rt: &'a HostRuntime,
    /// The file of the book, which is read anew for each client that asks for it.
    book: &'a str,
    trace: Option<TraceWriter<ReportedTrace<'a>>>,
    /// Whether the trace lacks a line.
    lacks_line: bool,
}

impl<'a> ServiceHost<'a> {
    /// Creates the host of a service with the book in this file. It writes the trace if there is one.
    pub fn new(
        rt: &'a HostRuntime,
        book: &'a str,
        trace: Option<RunTrace<'a>>,
    ) -> Result<ServiceHost<'a>, AllocError> {
        let trace = match trace {
            Some(trace) => Some(TraceWriter::new(rt.alloc(), reported(rt, trace, SERVICE_ENDS))?),
            None => None,
        };
        Ok(ServiceHost {
            rt,
            book,
            trace,
            lacks_line: false,
        })
    }

    /// Returns whether the trace lacks a line, so that the service had to end.
    pub fn lacks_line(&self) -> bool {
        self.lacks_line
    }

    /// Notes whether a line of the trace was written.
    fn noted(&mut self, is_written: bool) -> Result<(), Unrecorded> {
        if is_written {
            return Ok(());
        }
        self.lacks_line = true;
        Err(Unrecorded)
    }
}

impl Host for ServiceHost<'_> {
    fn put_book(&mut self, alloc: Global, text: &mut Text) -> Result<(), BookUnread> {
        let Ok(records) = read_book(self.rt, alloc, self.book).answer else {
            return Err(BookUnread);
        };
        let Ok(recovered) = recovered_from(self.rt, records.as_slice()) else {
            return Err(BookUnread);
        };
        let mut lines = Over::new(Vec::new(alloc));
        if write_book(alloc, Form::Json, &recovered, &mut lines).is_err() {
            return Err(BookUnread);
        }
        match text.word(lines.inner.as_slice()) {
            Ok(()) => Ok(()),
            Err(_) => Err(BookUnread),
        }
    }

    fn put_event(
        &mut self,
        alloc: Global,
        number: u64,
        trace_event: &TraceEvent<'_>,
        text: &mut Text,
    ) -> Result<(), AllocError> {
        render_event(text, alloc, Style::Json, number, trace_event)
    }

    fn record(&mut self, from: Direction, bytes: &[u8]) -> Result<(), Unrecorded> {
        let is_written = self.trace.observe(from, bytes).is_ok();
        self.noted(is_written)
    }

    fn record_loss(&mut self) -> Result<(), Unrecorded> {
        let is_written = match &mut self.trace {
            Some(trace) => end_trace(&mut trace.device).is_ok(),
            None => true,
        };
        self.noted(is_written)
    }
}
