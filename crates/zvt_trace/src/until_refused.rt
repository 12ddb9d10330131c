//! A listener that is told nothing of a refused line.
ghost use Rattle.std.specs.Prelude.{◌≡◌};
ghost use Rattle.zvt_trace.specs.Apart.{refused_after};
ghost use Rattle.zvt_trace.specs.TraceEvent.{event_of};

use crate::event::TraceEvent;
use crate::listener::{Listener, ListenerError};

/// A listener that hears nothing between a refusal and the loss of the connection. Of a line in the scope `OneSide` it
/// hears what matters of the same line in the scope `WholeLine`.
#[derive(Drop)]
pub struct UntilRefused<L> {
    pub listener: L,
    pub is_refused: bool,
}

impl<L: Listener> Listener for UntilRefused<L> {
    ghost use Rattle.zvt_trace.specs.Apart.{FailsUntil, HearsUntil};

    ghost hears = { λ old event new. HearsUntil L.hears old event new };

    ghost fails = { λ old event failure new. FailsUntil L.fails old event failure new };

    #[inline(always)]
    fn hear(&mut self, number: u64, trace_event: &TraceEvent<'_>) -> Result<(), ListenerError> {
        let was_refused = self.is_refused;
        self.is_refused = is_refused_after(was_refused, trace_event);
        if was_refused && self.is_refused {
            return Ok(());
        }
        self.listener.hear(number, trace_event)
    }
}

/// Whether a line is refused after this event. A refusal lasts until the connection is lost.
#[inline(always)]
fn is_refused_after(was_refused: bool, trace_event: &TraceEvent<'_>) -> bool
    ensures { result ≡ refused_after was_refused (event_of trace_event.now) }
{
    match trace_event {
        TraceEvent::Refused { .. } => true,
        TraceEvent::Lost => false,
        TraceEvent::Message { .. } => was_refused,
        TraceEvent::Unread { .. } => was_refused,
        TraceEvent::Resumed { .. } => was_refused,
        TraceEvent::CutOff { .. } => was_refused,
    }
}
