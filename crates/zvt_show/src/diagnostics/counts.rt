//! Counts the events of a trace.
ghost use Rattle.std.specs.Prelude.{◌≡◌, ◌++◌, OnOk};
ghost use Rattle.zvt_trace.specs.TraceEvent.{event_of};
ghost use Rattle.zvt_show.specs.Notes.{streams_text, summary_text};
ghost use Rattle.zvt_show.specs.Noting.{counted_more};

use crate::diagnostics::plural::put_many;
use std::alloc::AllocError;
use zvt_text::Text;
use zvt_trace::TraceEvent;

/// The number of messages, and of streams that were refused and cut off.
#[derive(Clone, Copy)]
pub(crate) struct Counts {
    messages: u64,
    refused: u64,
    cut_off: u64,
}

impl Counts {
    /// Starts at zero.
    pub(crate) fn none() -> Counts
        ensures { (result.messages ≡ 0) × (result.refused ≡ 0) × (result.cut_off ≡ 0) }
    {
        Counts {
            messages: 0,
            refused: 0,
            cut_off: 0,
        }
    }

    /// Counts an event.
    pub(crate) fn add(&mut self, trace_event: &TraceEvent<'_>)
        ensures { self.new ≡ counted_more self.old (event_of trace_event.now) }
    {
        match trace_event {
            TraceEvent::Message { .. } => self.messages = self.messages.saturating_add(1),
            TraceEvent::Refused { .. } => self.refused = self.refused.saturating_add(1),
            TraceEvent::CutOff { .. } => self.cut_off = self.cut_off.saturating_add(1),
            TraceEvent::Unread { .. } | TraceEvent::Resumed { .. } | TraceEvent::Lost => {}
        }
    }

    /// Adds the counts, if a stream was bad.
    pub(crate) fn put(&self, text: &mut Text) -> Result<(), AllocError>
        ensures { OnOk result (text.new ≡ text.old ++ summary_text self.now.messages self.now.refused
            self.now.cut_off) }
    {
        let Counts {
            messages,
            refused,
            cut_off,
        } = *self;
        if refused == 0 && cut_off == 0 {
            return Ok(());
        }
        text.word(b"zvt: ")?;
        put_many(text, messages, b"message")?;
        text.word(b", ")?;
        put_streams(text, refused, cut_off)?;
        text.push(b'\n')
    }
}

/// Adds the numbers of refused and cut-off streams. At least one of them is not zero.
fn put_streams(text: &mut Text, refused: u64, cut_off: u64) -> Result<(), AllocError>
    ensures { OnOk result (text.new ≡ text.old ++ streams_text refused cut_off) }
{
    if refused == 0 {
        put_many(text, cut_off, b"stream")?;
        return text.word(b" cut off");
    }
    put_many(text, refused, b"stream")?;
    if cut_off == 0 {
        return text.word(b" refused");
    }
    text.word(b" refused, ")?;
    text.number(cut_off)?;
    text.word(b" cut off")
}
