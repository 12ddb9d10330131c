//! Observers of the chunks that pass on a line.
ghost use Rattle.std.specs.Prelude.{ℕ, List, MatchResult};
ghost use Rattle.zvt_trace.specs.declared.direction.Direction.{Direction};
ghost use Rattle.zvt_trace.specs.declared.listener.ListenerError.{ListenerError};

use crate::both::Both;
use crate::direction::Direction;
use crate::listener::ListenerError;

/// Observes the chunks that pass on a line.
pub trait Observer {
    /// Observing the chunk from this side turns the first state into the second.
    ghost observes: { Self → Direction → List ℕ → Self → Type 0 };

    /// Missing the chunk from this side, for this reason, turns the first state into the second.
    ghost misses: { Self → Direction → List ℕ → ListenerError → Self → Type 0 };

    /// Observes a chunk that this side sent.
    fn observe(&mut self, from: Direction, bytes: &[u8]) -> Result<(), ListenerError>
        ensures { MatchResult result (λ _. observes self.old from bytes.now self.new)
            (λ failure. misses self.old from bytes.now failure self.new) };
}

/// The first observes each chunk before the second. If the first misses one, the second does not see it.
impl<A: Observer, B: Observer> Observer for Both<A, B> {
    ghost use Rattle.zvt_trace.specs.Observing.{BothObserve, OneMisses};

    ghost observes = { λ old from bytes new. BothObserve A.observes B.observes from bytes old.first old.second
        new.first new.second };

    ghost misses = { λ old from bytes failure new. OneMisses A.observes A.misses B.misses from bytes failure old.first
        old.second new.first new.second };

    fn observe(&mut self, from: Direction, bytes: &[u8]) -> Result<(), ListenerError> {
        self.first.observe(from, bytes)?;
        self.second.observe(from, bytes)
    }
}

/// An observer that may be absent.
impl<K: Observer> Observer for Option<K> {
    ghost use Rattle.zvt_trace.specs.Observing.{OneObserves, SomeMisses};

    ghost observes = { λ old from bytes new. OneObserves K.observes from bytes old new };

    ghost misses = { λ old from bytes failure new. SomeMisses K.misses from bytes failure old new };

    fn observe(&mut self, from: Direction, bytes: &[u8]) -> Result<(), ListenerError> {
        match self {
            Some(observer) => observer.observe(from, bytes),
            None => Ok(()),
        }
    }
}
