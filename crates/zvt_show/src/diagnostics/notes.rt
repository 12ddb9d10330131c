//! Notes about the bad streams of a trace.
ghost use Rattle.std.specs.Prelude.{◌≡◌, [], ◌++◌, List, OnOk};
ghost use Rattle.zvt_trace.specs.TraceEvent.{At};
ghost use Rattle.zvt_show.specs.Notes.{summary_text, unread_of};
ghost use Rattle.zvt_show.specs.Noting.{CountsAfter};

use crate::diagnostics::counts::Counts;
use crate::diagnostics::note;
use crate::diagnostics::skipped_lines::SkippedLines;
use std::alloc::{AllocError, Global};
use zvt_text::Text;
use zvt_trace::{Listener, ListenerError, Scope, TraceEvent};

/// The notes of the events so far, and their counts.
#[derive(Drop)]
pub(crate) struct Notes {
    scope: Scope,
    pub(crate) text: Text,
    trailing: SkippedLines,
    counts: Counts,
}

impl Notes {
    /// Creates notes without an event.
    pub(crate) fn new(alloc: Global, scope: Scope) -> Notes
        ensures scope { result.scope ≡ scope }
        ensures text { result.text ≡ [] }
        ensures trailing { CountsAfter scope result.trailing [] }
        ensures counts { (result.counts.messages ≡ 0) × (result.counts.refused ≡ 0) × (result.counts.cut_off ≡ 0) }
    {
        Notes {
            scope,
            text: Text::new(alloc),
            trailing: SkippedLines::nothing(),
            counts: Counts::none(),
        }
    }

    /// Adds what was not read up to the end of the trace, and the counts.
    pub(crate) fn close(&mut self) -> Result<(), AllocError>
        ensures { (events : List At) → CountsAfter self.old.scope self.old.trailing events
            → OnOk result (self.new.text ≡ self.old.text ++ unread_of self.old.scope events ++ summary_text
            self.old.counts.messages self.old.counts.refused self.old.counts.cut_off) }
    {
        self.trailing.put(&mut self.text, self.scope)?;
        self.counts.put(&mut self.text)
    }
}

impl Listener for Notes {
    ghost use Rattle.zvt_show.specs.Noting.{Noted};
    ghost use Rattle.zvt_trace.specs.declared.listener.ListenerError.TheVariants.{Memory};

    ghost hears = { λ old event new. Noted old new event };

    ghost fails = { λ _ _ failure _. failure ≡ Memory };

    fn hear(&mut self, line: u64, trace_event: &TraceEvent<'_>) -> Result<(), ListenerError> {
        note::put(&mut self.text, line, trace_event)?;
        self.counts.add(trace_event);
        match trace_event {
            TraceEvent::Unread { from } => self.trailing.add(self.scope, line, *from),
            TraceEvent::Lost => {
                self.trailing.put(&mut self.text, self.scope)?;
                self.trailing = SkippedLines::nothing();
            }
            TraceEvent::Message { .. }
            | TraceEvent::Refused { .. }
            | TraceEvent::Resumed { .. }
            | TraceEvent::CutOff { .. } => {}
        }
        Ok(())
    }
}
