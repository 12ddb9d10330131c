//! A listener whose failures are its own.
use crate::event::TraceEvent;
use crate::listener::{Listener, ListenerError};

/// A listener whose failure does not end the line. It keeps its first failure, and hears nothing more.
#[derive(Drop)]
pub struct Alone<L> {
    pub listener: L,
    pub fault: Option<ListenerError>,
}

impl<L: Listener> Listener for Alone<L> {
    ghost use Rattle.zvt_trace.specs.Apart.{HearsAlone};

    ghost hears = { λ old event new. HearsAlone L.hears L.fails old event new };

    ghost fails = { λ _ _ _ _. ⊥ };

    #[inline(always)]
    fn hear(&mut self, number: u64, trace_event: &TraceEvent<'_>) -> Result<(), ListenerError> {
        if self.fault.is_none() {
            self.fault = self.listener.hear(number, trace_event).err();
        }
        Ok(())
    }
}
