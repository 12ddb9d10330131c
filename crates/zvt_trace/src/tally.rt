//! A listener that counts.
use crate::event::TraceEvent;
use crate::fault::Tally;
use crate::listener::{Listener, ListenerError};

/// Each count saturates. A tally never fails.
impl Listener for Tally {
    ghost use Rattle.std.specs.Prelude.{◌≡◌};
    ghost use Rattle.zvt_trace.specs.Pairs.{counted};

    ghost hears = { λ old event new. new ≡ counted old event.trace_event };

    ghost fails = { λ _ _ _ _. ⊥ };

    #[inline(always)]
    fn hear(&mut self, _number: u64, trace_event: &TraceEvent<'_>) -> Result<(), ListenerError> {
        match trace_event {
            TraceEvent::Message { .. } => self.messages = self.messages.saturating_add(1),
            TraceEvent::Refused { .. } | TraceEvent::CutOff { .. } => {
                self.bad = self.bad.saturating_add(1);
            }
            TraceEvent::Unread { .. } | TraceEvent::Resumed { .. } | TraceEvent::Lost => {}
        }
        Ok(())
    }
}
