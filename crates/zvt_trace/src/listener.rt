//! Listeners to the events of a trace.
ghost use Rattle.std.specs.Prelude.{◌≡◌, MatchResult};
ghost use Rattle.zvt_trace.specs.TraceEvent.{At, HasItsBytes, on, event_of};
ghost use Rattle.zvt_trace.specs.declared.listener.ListenerError.{ListenerError};

use crate::event::TraceEvent;
use std::alloc::AllocError;
use zvt_io::Failed;

/// How much input to skip after an invalid message.
#[derive(Clone, Copy, Debug, PartialEq, Eq)]
pub enum Scope {
    /// Only the refused message, by its announced size. Reading of its side resumes after it.
    OneMessage,
    /// The side whose bytes were refused, until the connection is lost.
    OneSide,
    /// Both sides, until the connection is lost. What the other side had begun is cut off there, and its event comes
    /// after the refusal.
    WholeLine,
}

impl Scope {
    ghost use Rattle.zvt_trace.specs.Resuming.{side_scope};

    /// Returns the scope of a line whose sides are read apart: the message if reading goes on after it, else its side.
    pub fn of_side(reads_on: bool) -> Scope
        ensures { result ≡ side_scope reads_on }
    {
        if reads_on {
            Scope::OneMessage
        } else {
            Scope::OneSide
        }
    }
}

/// Why a listener failed.
#[derive(Clone, Copy, Debug, Drop, PartialEq, Eq)]
pub enum ListenerError {
    /// An allocation failed.
    Memory,
    /// A write to the device failed.
    Write,
}

impl From<AllocError> for ListenerError {
    ghost use Rattle.zvt_trace.specs.declared.listener.ListenerError.TheVariants.{Memory};

    ghost from_gives = { λ _ failure. failure ≡ Memory };

    fn from(_refused: AllocError) -> ListenerError {
        ListenerError::Memory
    }
}

impl From<Failed> for ListenerError {
    ghost use Rattle.zvt_trace.specs.declared.listener.ListenerError.TheVariants.{Write};

    ghost from_gives = { λ _ failure. failure ≡ Write };

    fn from(_failed: Failed) -> ListenerError {
        ListenerError::Write
    }
}

/// Hears all events of a line, in order. It owns its output.
pub trait Listener {
    /// Hearing the event turns the first state into the second.
    ghost hears: { Self → At → Self → Type 0 };

    /// Failing at the event, for this reason, turns the first state into the second.
    ghost fails: { Self → At → ListenerError → Self → Type 0 };

    /// Hears the event with this number, which in a trace is the number of its line.
    fn hear(&mut self, number: u64, trace_event: &TraceEvent<'_>) -> Result<(), ListenerError>
        requires { HasItsBytes trace_event.now }
        ensures { MatchResult result
            (λ _. hears self.old (on number (event_of trace_event.now)) self.new)
            (λ failure. fails self.old (on number (event_of trace_event.now)) failure self.new) };
}

/// A borrowed listener.
impl<L: Listener> Listener for &mut L {
    ghost hears = { λ old event new. L.hears old.now event new.now × (new.ghost_name ≡ old.ghost_name) };

    ghost fails = { λ old event failure new. L.fails old.now event failure new.now
        × (new.ghost_name ≡ old.ghost_name) };

    #[inline(always)]
    fn hear(&mut self, number: u64, trace_event: &TraceEvent<'_>) -> Result<(), ListenerError> {
        Listener::hear(&mut **self, number, trace_event)
    }
}
