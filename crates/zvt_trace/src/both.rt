//! Two listeners to the events of a line.
use crate::event::TraceEvent;
use crate::listener::{Listener, ListenerError};

/// Two listeners as one. The first hears each event before the second. If the first fails, the second hears nothing.
#[derive(Drop)]
pub struct Both<A, B> {
    pub first: A,
    pub second: B,
}

impl<A: Listener, B: Listener> Listener for Both<A, B> {
    ghost use Rattle.zvt_trace.specs.Pairs.{BothHear, OneFails};

    ghost hears = { λ old event new. BothHear A.hears B.hears event old.first old.second new.first new.second };

    ghost fails = { λ old event failure new. OneFails A.hears A.fails B.fails event failure old.first old.second
        new.first new.second };

    #[inline(always)]
    fn hear(&mut self, number: u64, trace_event: &TraceEvent<'_>) -> Result<(), ListenerError> {
        self.first.hear(number, trace_event)?;
        self.second.hear(number, trace_event)
    }
}
